//! The words of the commands.

ghost use Rattle.std.specs.Prelude.{◌≡◌, ℕ, length, map, [], ◌∷◌, IfSome, IfNone, decimal, true, false};
ghost use Rattle.std.specs.String.{string_bytes};
ghost use Rattle.sx_tool.specs.Typed.{IsNumber, IsTicks, Spells};

use itoa::Buffer;
use std::alloc::Global;
use sx_base::GREATEST_MOMENT;
use sx_key::{Account, AccountFault};

/// A command over one head, or why the words are none.
pub enum Tool {
    /// `sign ACCOUNT KEY`
    Sign(Account),
    /// `check ACCOUNT KEY TICKS`
    Check(Account, u64),
    /// The words are neither of the two.
    Unknown,
    /// Out of memory.
    NoMemory,
}

/// The command of the words.
pub fn tool_of(alloc: Global, words: &[String]) -> Tool
    ensures { Spells result (map string_bytes words.now) }
{
    match words.len() {
        3 => three(alloc, words),
        4 => four(alloc, words),
        _ => Tool::Unknown,
    }
}

fn three(alloc: Global, words: &[String]) -> Tool
    requires { length words.now ≡ 3 }
    ensures { Spells result (map string_bytes words.now) }
{
    sign_of(
        alloc,
        words[0].as_str(),
        words[1].as_bytes(),
        words[2].as_bytes(),
    )
}

fn sign_of(alloc: Global, verb: &str, name: &[u8], key: &[u8]) -> Tool
    ensures { Spells result (verb.now ∷ name.now ∷ key.now ∷ []) }
{
    if verb != "sign" {
        return Tool::Unknown;
    }
    match Account::read(alloc, name, key) {
        Ok(account) => Tool::Sign(account),
        Err(AccountFault::NoMemory) => Tool::NoMemory,
        Err(_) => Tool::Unknown,
    }
}

fn four(alloc: Global, words: &[String]) -> Tool
    requires { length words.now ≡ 4 }
    ensures { Spells result (map string_bytes words.now) }
{
    check_of(
        alloc,
        words[0].as_str(),
        words[1].as_bytes(),
        words[2].as_bytes(),
        words[3].as_str(),
    )
}

fn check_of(alloc: Global, verb: &str, name: &[u8], key: &[u8], ticks: &str) -> Tool
    ensures { Spells result (verb.now ∷ name.now ∷ key.now ∷ ticks.now ∷ []) }
{
    if verb != "check" {
        return Tool::Unknown;
    }
    let Some(now) = moment_of(ticks) else {
        return Tool::Unknown;
    };
    match Account::read(alloc, name, key) {
        Ok(account) => Tool::Check(account, now),
        Err(AccountFault::NoMemory) => Tool::NoMemory,
        Err(_) => Tool::Unknown,
    }
}

/// The moment that a word spells in decimal digits, without a sign or a leading zero, and that a clock may tell.
fn moment_of(word: &str) -> Option<u64>
    ensures some { IfSome result (λ n. IsTicks word.now n) }
    ensures none { IfNone result ((n : ℕ) → ¬ (IsTicks word.now n)) }
{
    number_of(word, GREATEST_MOMENT)
}

/// The number up to a greatest one that a word spells in decimal digits, without a sign or a leading zero.
pub fn number_of(word: &str, most: u64) -> Option<u64>
    ensures some { IfSome result (λ n. IsNumber word.now most n) }
    ensures none { IfNone result ((n : ℕ) → ¬ (IsNumber word.now most n)) }
{
    let Ok(number) = word.parse::<u64>() else {
        return None;
    };
    if number > most {
        return None;
    }
    if is_decimal(number, word) {
        Some(number)
    } else {
        None
    }
}

/// Whether a word is the decimal digits of a number, without a leading zero.
fn is_decimal(number: u64, word: &str) -> bool
    ensures yes { result ≡ true → word.now ≡ decimal number }
    ensures no { result ≡ false → ¬ (word.now ≡ decimal number) }
{
    let mut buffer = Buffer::new();
    buffer.format(number) == word
}
