//! Accounts: a name, and the key under which its requests are signed.

ghost use Rattle.std.specs.Prelude.{◌≡◌, ◌<◌, true, length};
ghost use Rattle.sx_key.specs.Account.{is_account_name};

use sx_base::{Items, NoMemory};
use sx_names::Text;

/// An account: its name of 3 to 24 lower-case letters and digits, and its key of at least one byte.
#[derive(Debug, Drop)]
pub struct Account {
    /// The name, of 3 to 24 lower-case letters and digits.
    pub name: Text,
    /// The key, of at least one byte.
    pub key: Items<u8>,
    ghost named: { is_account_name name ≡ true },
    ghost keyed: { 0 < length key },
}

/// Why two words are no account, the name being judged first.
#[derive(Clone, Copy, Debug, PartialEq, Eq)]
pub enum AccountFault {
    /// The name isn't 3 to 24 lower-case letters and digits.
    BadName,
    /// The key isn't the strict base64 (RFC 4648, section 4) of at least one byte.
    BadKey,
    /// No memory was left to keep the account.
    NoMemory,
}

impl From<NoMemory> for AccountFault {
    ghost use Rattle.std.specs.Prelude.{◌≡◌};
    ghost use Rattle.sx_key.specs.declared.account.AccountFault.TheVariants.{NoMemory};

    ghost from_gives = { λ _ e. e ≡ NoMemory };

    fn from(_error: NoMemory) -> AccountFault {
        AccountFault::NoMemory
    }
}
