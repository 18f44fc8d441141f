//! The words of the command `serve`.

ghost use Rattle.std.specs.Prelude.{◌≡◌, ◌≤◌, ◌<◌, ◌^◌, ℕ, true, false, length, map, codes, decimal};
ghost use Rattle.std.specs.Prelude.{IfOk, OnErr, IsErrOf};
ghost use Rattle.std.specs.String.{string_bytes};
ghost use Rattle.sx_key.specs.declared.account.Account.{Account};
ghost use Rattle.sx_tool.specs.Typed.{IsAccount};
ghost use Rattle.sx_run.specs.Words.{IsServe, IsNoServe};
ghost use Rattle.sx_run.specs.declared.words.WordsFault.TheVariants as WordsFault;

use std::alloc::Global;
use sx_key::{Account, AccountFault};
use sx_tool::number_of;

/// The most workers of a door.
pub const MOST_WORKERS: u32 = 30;

/// What `serve` is to do.
#[derive(Drop)]
pub struct ServeWords {
    /// The port of the REST door, 0 for any free one.
    pub rest_port: u16,
    /// The port of the session door, 0 for any free one.
    pub smb_port: u16,
    /// How many workers the REST door has, 1 to 30.
    pub rest_workers: u32,
    /// How many workers the session door has, 1 to 30.
    pub smb_workers: u32,
    /// How many connections each worker serves, 0 for no end.
    pub conns: u32,
    /// How many places the history has, 1 or more.
    pub limit: u32,
    /// The account by which requests are signed.
    pub account: Account,
}

/// Why words gave no command.
#[derive(Clone, Copy, Debug, PartialEq, Eq)]
pub enum WordsFault {
    /// The words are no command.
    Unknown,
    /// Out of memory.
    NoMemory,
}

/// What `serve RESTPORT SMBPORT RESTWORKERS SMBWORKERS CONNS LIMIT ACCOUNT KEY` is to do. `Unknown` comes exactly where
/// the words are not that: numbers are decimal without a sign or leading zeros and within their limits, and the account
/// has the name and the key that it needs.
pub fn serve_words(alloc: Global, words: &[String]) -> Result<ServeWords, WordsFault>
    ensures words { IfOk result (λ serve. IsServe (map string_bytes words.now) serve) }
    ensures fault { IsErrOf result WordsFault.Unknown → IsNoServe (map string_bytes words.now) }
{
    if words.len() != 9 {
        return Err(WordsFault::Unknown);
    }
    nine_words(alloc, words)
}

/// What nine words are to do.
fn nine_words(alloc: Global, words: &[String]) -> Result<ServeWords, WordsFault>
    requires { length words.now ≡ 9 }
    ensures words { IfOk result (λ serve. IsServe (map string_bytes words.now) serve) }
    ensures fault { IsErrOf result WordsFault.Unknown → IsNoServe (map string_bytes words.now) }
{
    if !is_serve(words[0].as_str()) {
        return Err(WordsFault::Unknown);
    }
    let rest_port = port_of(words[1].as_str())?;
    let smb_port = port_of(words[2].as_str())?;
    let rest_workers = count_of(words[3].as_str(), 1, MOST_WORKERS)?;
    let smb_workers = count_of(words[4].as_str(), 1, MOST_WORKERS)?;
    let conns = count_of(words[5].as_str(), 0, u32::MAX)?;
    let limit = count_of(words[6].as_str(), 1, u32::MAX)?;
    let account = account_of(alloc, words[7].as_bytes(), words[8].as_bytes())?;
    Ok(ServeWords {
        rest_port,
        smb_port,
        rest_workers,
        smb_workers,
        conns,
        limit,
        account,
    })
}

/// Whether a word is the command's name.
fn is_serve(word: &str) -> bool
    ensures yes { result ≡ true → word.now ≡ codes "serve" }
    ensures no { result ≡ false → ¬ (word.now ≡ codes "serve") }
{
    word == "serve"
}

/// The port that a word spells.
fn port_of(word: &str) -> Result<u16, WordsFault>
    ensures port { IfOk result (λ n. (word.now ≡ decimal n) × (n < 2 ^ 16)) }
    ensures fault { OnErr result ((n : ℕ) → n < 2 ^ 16 → word.now ≡ decimal n → ⊥) }
{
    match number_of(word, u64::from(u16::MAX)) {
        Some(number) => Ok(number as u16),
        None => Err(WordsFault::Unknown),
    }
}

/// The number that a word spells, of two limits.
fn count_of(word: &str, least: u32, most: u32) -> Result<u32, WordsFault>
    ensures count { IfOk result (λ n. (word.now ≡ decimal n) × (least ≤ n) × (n ≤ most)) }
    ensures fault { OnErr result ((n : ℕ) → least ≤ n → n ≤ most → word.now ≡ decimal n → ⊥) }
{
    let Some(number) = number_of(word, u64::from(most)) else {
        return Err(WordsFault::Unknown);
    };
    if number < u64::from(least) {
        return Err(WordsFault::Unknown);
    }
    Ok(number as u32)
}

/// The account of a name and a key in base64.
fn account_of(alloc: Global, name: &[u8], key: &[u8]) -> Result<Account, WordsFault>
    ensures account { IfOk result (λ account. IsAccount name.now key.now account) }
    ensures fault { IsErrOf result WordsFault.Unknown → (account : Account) → ¬ (IsAccount name.now key.now account) }
{
    match Account::read(alloc, name, key) {
        Ok(account) => Ok(account),
        Err(AccountFault::NoMemory) => Err(WordsFault::NoMemory),
        Err(_) => Err(WordsFault::Unknown),
    }
}
