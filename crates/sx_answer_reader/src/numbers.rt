//! Numbers of answers: decimal, without leading zeros.
ghost use Rattle.std.specs.Prelude.{◌≡◌, ◌≤◌, ◌==◌, ◌&&◌, true, IfSome, length, slice_index, nat_le};
ghost use Rattle.std.specs.List.{list_all};
ghost use Rattle.std.specs.Char.{is_ascii_digit};
ghost use Rattle.std.specs.Str.Parse.{digits_value};
ghost use Rattle.sx_lines.specs.Fields.{is_decimal_word, number_within, number_in};

/// The number that a word is, if it is one between two limits.
#[tactic(auto, unfolding(sx_lines::specs::Fields::number_in))]
pub(crate) fn number_in(least: u64, most: u64, word: &[u8]) -> Option<u64>
    ensures value { result ≡ number_in least most word.now }
    ensures within { IfSome result (λ n. (least ≤ n) × (n ≤ most)) }
{
    if !is_decimal_word(word) {
        return None;
    }
    number_within(least, most, value_of(word))
}

fn number_within(least: u64, most: u64, number: u128) -> Option<u64>
    ensures value { result ≡ number_within least most number }
    ensures within { IfSome result (λ n. (least ≤ n) × (n ≤ most)) }
{
    if least as u128 <= number && number <= most as u128 {
        Some(number as u64)
    } else {
        None
    }
}

fn is_decimal_word(word: &[u8]) -> bool
    ensures value { result ≡ is_decimal_word word.now }
    ensures digits { result ≡ true → list_all is_ascii_digit word.now ≡ true }
    ensures short { result ≡ true → length word.now ≤ 20 }
{
    1 <= word.len() && word.len() <= 20 && all_digits(word) && !has_leading_zero(word)
}

fn has_leading_zero(word: &[u8]) -> bool
    ensures { result ≡ (nat_le 2 (length word.now) && slice_index word.now 0 == 48) }
{
    2 <= word.len() && word[0] == b'0'
}

fn all_digits(word: &[u8]) -> bool
    ensures { result ≡ list_all is_ascii_digit word.now }
{
    word.iter().all(|b| b.is_ascii_digit())
}

/// The value of at most twenty decimal digits.
fn value_of(word: &[u8]) -> u128
    requires short { length word.now ≤ 20 }
    requires digits { list_all is_ascii_digit word.now ≡ true }
    ensures { result ≡ digits_value 10 word.now }
{
    let mut value: u128 = 0;
    for digit in word {
        value = value * 10 + (*digit - b'0') as u128;
    }
    value
}
