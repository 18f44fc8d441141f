//! Words of values, which are compared without ASCII case.

ghost use Rattle.std.specs.Prelude.{◌≡◌, ◌≤◌, length};
ghost use Rattle.std.specs.List.{list_all, position, position_or_len};
ghost use Rattle.sx_decode.specs.Words.{is_word, is_blank, is_other, behind_blanks, is_word_in_front};
ghost use Rattle.sx_decode.specs.Words.{is_word_in_blanks};

/// Whether a value is this word, without ASCII case.
#[tactic(auto, unfolding(crate::specs::Words::is_word))]
pub fn is_word(word: &[u8], value: &[u8]) -> bool
    ensures { result ≡ is_word word.now value.now }
{
    value.eq_ignore_ascii_case(word)
}

fn is_blank(tabs: bool, byte: u8) -> bool
    ensures { result ≡ is_blank tabs byte }
{
    byte == b' ' || (tabs && byte == b'\t')
}

fn first_other(tabs: bool, value: &[u8]) -> Option<usize>
    ensures { result ≡ position (is_other tabs) value.now }
{
    value.iter().position(|b| !is_blank(tabs, *b))
}

fn blanks_in_front(tabs: bool, value: &[u8]) -> usize
    ensures place { result ≡ position_or_len (is_other tabs) value.now }
    ensures within { result ≤ length value.now }
{
    match first_other(tabs, value) {
        None => value.len(),
        Some(at) => at,
    }
}

fn behind_blanks(tabs: bool, value: &[u8]) -> &[u8]
    ensures { result.now ≡ behind_blanks tabs value.now }
{
    &value[blanks_in_front(tabs, value)..]
}

fn are_blanks(tabs: bool, text: &[u8]) -> bool
    ensures { result ≡ list_all (is_blank tabs) text.now }
{
    text.iter().all(|b| is_blank(tabs, *b))
}

fn is_word_in_front(tabs: bool, word: &[u8], text: &[u8]) -> bool
    ensures { result ≡ is_word_in_front tabs word.now text.now }
{
    word.len() <= text.len()
        && (is_word(word, &text[..word.len()]) && are_blanks(tabs, &text[word.len()..]))
}

/// Whether a value is this word, without ASCII case, with spaces round it, and tabs where these may stand.
#[tactic(auto, unfolding(crate::specs::Words::is_word_in_blanks))]
pub fn is_word_in_blanks(tabs: bool, word: &[u8], value: &[u8]) -> bool
    ensures { result ≡ is_word_in_blanks tabs word.now value.now }
{
    is_word_in_front(tabs, word, behind_blanks(tabs, value))
}
