//! The words with which calls are told.
ghost use Rattle.std.specs.Prelude.{◌≡◌};
ghost use Rattle.sx_answer_reader.specs.Grammar.{kind_of};

/// What an answer tells, by its first word behind the place.
#[derive(Clone, Copy, Debug, PartialEq, Eq)]
pub(crate) enum Kind {
    /// `start`
    Start,
    /// `end`
    End,
    /// `open`
    Open,
    /// `close`
    Close,
    /// `read`
    Read,
    /// `write`
    Write,
    /// `resize`
    Resize,
    /// `lock`
    Lock,
    /// `unlock`
    Unlock,
    /// `stat`
    Stat,
    /// `list`
    List,
    /// `dispose`
    Dispose,
}

/// What a word tells.
#[tactic(auto, unfolding(crate::specs::Grammar::kind_of))]
pub(crate) fn kind_of(word: &[u8]) -> Option<Kind>
    ensures { result ≡ kind_of word.now }
{
    if word == b"start".as_slice() {
        Some(Kind::Start)
    } else if word == b"end".as_slice() {
        Some(Kind::End)
    } else if word == b"open".as_slice() {
        Some(Kind::Open)
    } else if word == b"close".as_slice() {
        Some(Kind::Close)
    } else if word == b"read".as_slice() {
        Some(Kind::Read)
    } else if word == b"write".as_slice() {
        Some(Kind::Write)
    } else if word == b"resize".as_slice() {
        Some(Kind::Resize)
    } else if word == b"lock".as_slice() {
        Some(Kind::Lock)
    } else if word == b"unlock".as_slice() {
        Some(Kind::Unlock)
    } else if word == b"stat".as_slice() {
        Some(Kind::Stat)
    } else if word == b"list".as_slice() {
        Some(Kind::List)
    } else if word == b"dispose".as_slice() {
        Some(Kind::Dispose)
    } else {
        None
    }
}
