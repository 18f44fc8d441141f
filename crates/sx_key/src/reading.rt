//! Reading an account from two words.

ghost use Rattle.std.specs.Prelude.{◌≡◌, true, IfOk};
ghost use Rattle.std.specs.List.{list_all};
ghost use Rattle.base64.specs.GeneralPurpose.{decoded_of};
ghost use Rattle.base64.specs.Engines.{standard};
ghost use Rattle.sx_names.specs.Names.{is_lower_or_digit};
ghost use Rattle.sx_key.specs.Account.{is_account_name, key_of};
ghost use Rattle.sx_key.specs.Answers.{ReadsAccount, credentials_of};

use crate::account::{Account, AccountFault};
use crate::texts::text_of;
use base64::DecodeAllocError;
use base64::engine::general_purpose::STANDARD;
use std::alloc::Global;
use sx_base::{Items, NoMemory};
use sx_names::Text;

impl Account {
    /// The account of a name and a key, the key in base64, or the first fault of the two.
    pub fn read(alloc: Global, name: &[u8], key: &[u8]) -> Result<Account, AccountFault>
        ensures { ReadsAccount result (credentials_of name.now key.now) }
    {
        if !is_account_name(name) {
            return Err(AccountFault::BadName);
        }
        let Some(key) = read_key(alloc, key)? else {
            return Err(AccountFault::BadKey);
        };
        let name = name_text(alloc, name)?;
        Ok(Account { name, key })
    }
}

/// Whether a text is the name of an account.
pub(crate) fn is_account_name(name: &[u8]) -> bool
    ensures { result ≡ is_account_name name.now }
{
    name.len() >= 3 && name.len() <= 24 && all_lower_or_digits(name)
}

fn all_lower_or_digits(name: &[u8]) -> bool
    ensures { result ≡ list_all is_lower_or_digit name.now }
{
    name.iter().all(|b| is_lower_or_digit(*b))
}

fn is_lower_or_digit(byte: u8) -> bool
    ensures { result ≡ is_lower_or_digit byte }
{
    (97 <= byte && byte <= 122) || (48 <= byte && byte <= 57)
}

/// The name of an account as a text: its bytes are all below 128, so they are UTF-8.
fn name_text(alloc: Global, name: &[u8]) -> Result<Text, NoMemory>
    requires { is_account_name name.now ≡ true }
    ensures { IfOk result (λ t. t ≡ name.now) }
{
    let name = Vec::from_slice(alloc, name)?;
    Ok(text_of(name))
}

fn read_key(alloc: Global, text: &[u8]) -> Result<Option<Items<u8>>, NoMemory>
    ensures { IfOk result (λ o. o ≡ key_of text.now) }
{
    let Some(key) = read_base64(alloc, text)? else {
        return Ok(None);
    };
    if key.len() == 0 {
        return Ok(None);
    }
    Ok(Some(key))
}

/// The bytes that a text spells in strict base64, if it does.
#[tactic(auto, unfolding(base64::specs::GeneralPurpose::decoded_of))]
pub(crate) fn read_base64(alloc: Global, text: &[u8]) -> Result<Option<Items<u8>>, NoMemory>
    ensures { IfOk result (λ o. o ≡ decoded_of standard text.now) }
{
    match STANDARD.decode(alloc, text) {
        Ok(bytes) => Ok(Some(Items::of(bytes))),
        Err(DecodeAllocError::OutOfMemory) => Err(NoMemory),
        Err(DecodeAllocError::DecodeError(_)) => Ok(None),
    }
}
