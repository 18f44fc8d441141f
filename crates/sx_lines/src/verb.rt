//! The words with which calls begin.
ghost use Rattle.std.specs.Prelude.{◌≡◌};
ghost use Rattle.sx_lines.specs.Lines.{verb_of};

/// What a line asks for, by its first word.
#[derive(Clone, Copy, Debug, PartialEq, Eq)]
pub(crate) enum Verb {
    /// `open`
    Open,
    /// `close`
    Close,
    /// `read`
    Read,
    /// `write`
    Write,
    /// `resize`
    Resize,
    /// `lock`
    Lock,
    /// `unlock`
    Unlock,
    /// `stat`
    Stat,
    /// `list`
    List,
    /// `dispose`
    Dispose,
}

/// What a word asks for.
#[tactic(auto, unfolding(crate::specs::Lines::verb_of))]
pub(crate) fn verb_of(word: &[u8]) -> Option<Verb>
    ensures { result ≡ verb_of word.now }
{
    if word == b"open".as_slice() {
        Some(Verb::Open)
    } else if word == b"close".as_slice() {
        Some(Verb::Close)
    } else if word == b"read".as_slice() {
        Some(Verb::Read)
    } else if word == b"write".as_slice() {
        Some(Verb::Write)
    } else if word == b"resize".as_slice() {
        Some(Verb::Resize)
    } else if word == b"lock".as_slice() {
        Some(Verb::Lock)
    } else if word == b"unlock".as_slice() {
        Some(Verb::Unlock)
    } else if word == b"stat".as_slice() {
        Some(Verb::Stat)
    } else if word == b"list".as_slice() {
        Some(Verb::List)
    } else if word == b"dispose".as_slice() {
        Some(Verb::Dispose)
    } else {
        None
    }
}
