//! The words with which messages of refusals begin.
ghost use Rattle.std.specs.Prelude.{◌≡◌};
ghost use Rattle.sx_answer_reader.specs.Messages.{subject_of};

/// What a refusal's message speaks of, by its first word.
#[derive(Clone, Copy, Debug, PartialEq, Eq)]
pub(crate) enum Subject {
    /// `no`
    No,
    /// `there`
    There,
    /// `directory`
    Directory,
    /// `file`
    File,
    /// `pending`
    Pending,
    /// `read-only`
    ReadOnly,
    /// `lease`
    Lease,
    /// `sharing`
    Sharing,
    /// `lock`
    Lock,
    /// `not`
    Not,
    /// `quota`
    Quota,
    /// `opens`
    Opens,
    /// `handle`
    Handle,
    /// `access`
    Access,
}

/// What a word says that a message speaks of.
#[tactic(auto, unfolding(crate::specs::Messages::subject_of))]
pub(crate) fn subject_of(word: &[u8]) -> Option<Subject>
    ensures { result ≡ subject_of word.now }
{
    if word == b"no".as_slice() {
        Some(Subject::No)
    } else if word == b"there".as_slice() {
        Some(Subject::There)
    } else if word == b"directory".as_slice() {
        Some(Subject::Directory)
    } else if word == b"file".as_slice() {
        Some(Subject::File)
    } else if word == b"pending".as_slice() {
        Some(Subject::Pending)
    } else if word == b"read-only".as_slice() {
        Some(Subject::ReadOnly)
    } else if word == b"lease".as_slice() {
        Some(Subject::Lease)
    } else if word == b"sharing".as_slice() {
        Some(Subject::Sharing)
    } else if word == b"lock".as_slice() {
        Some(Subject::Lock)
    } else if word == b"not".as_slice() {
        Some(Subject::Not)
    } else if word == b"quota".as_slice() {
        Some(Subject::Quota)
    } else if word == b"opens".as_slice() {
        Some(Subject::Opens)
    } else if word == b"handle".as_slice() {
        Some(Subject::Handle)
    } else if word == b"access".as_slice() {
        Some(Subject::Access)
    } else {
        None
    }
}
