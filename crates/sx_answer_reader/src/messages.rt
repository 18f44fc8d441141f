//! The messages of refusals, word by word.
ghost use Rattle.std.specs.Prelude.{◌≡◌, ◌≤◌, codes, position, length, drop, Some};
ghost use Rattle.std.specs.List.{before_first, position_or_len};
ghost use Rattle.sx_lines.specs.Reading.{when_some};
ghost use Rattle.sx_lines.specs.Words.{next_word};
ghost use Rattle.sx_answer_reader.specs.declared.reason.Reason.TheVariants as variants;
ghost use Rattle.sx_answer_reader.specs.Reading.{Reads};
ghost use Rattle.sx_answer_reader.specs.Messages.{is_dot, handle_of, last_handle, last_number, last_word, id, parent};
ghost use Rattle.sx_answer_reader.specs.Messages.{absent, sharing, lock, quota, message_by, message};

use crate::answer::Unread;
use crate::numbers::number_in;
use crate::reason::Reason;
use crate::subject::{Subject, subject_of};
use crate::words::{behind_next, count, end_of, literal, next_word, number};
use sx_guard::HandleId;

fn first_dot(word: &[u8]) -> Option<usize>
    ensures { result ≡ position is_dot word.now }
{
    word.iter().position(|b| *b == b'.')
}

/// How many bytes stand before the first dot.
fn front_length(word: &[u8]) -> usize
    ensures place { result ≡ position_or_len is_dot word.now }
    ensures within { result ≤ length word.now }
{
    match first_dot(word) {
        None => word.len(),
        Some(at) => at,
    }
}

fn before_dot(word: &[u8]) -> &[u8]
    ensures { result.now ≡ before_first is_dot word.now }
{
    &word[..front_length(word)]
}

fn from_dot(word: &[u8]) -> &[u8]
    ensures { result.now ≡ drop (position_or_len is_dot word.now) word.now }
{
    &word[front_length(word)..]
}

fn without_first(text: &[u8]) -> &[u8]
    ensures { result.now ≡ drop 1 text.now }
{
    match text {
        [_, rest @ ..] => rest,
        [] => text,
    }
}

/// A handle, `SESSION.INDEX`.
#[tactic(auto, unfolding(crate::specs::Messages::handle_of))]
fn handle_of(word: &[u8]) -> Option<HandleId>
    ensures { result ≡ handle_of word.now }
{
    let behind = without_first(from_dot(word));
    match number_in(1, 4_294_967_295, before_dot(word)) {
        Some(session) => match number_in(1, 4_294_967_295, behind) {
            Some(index) => Some(HandleId {
                session: session as u32,
                index: index as u32,
            }),
            None => None,
        },
        None => None,
    }
}

/// The next word, a handle.
fn handle(word: &[u8]) -> Result<HandleId, Unread>
    ensures { Reads result (handle_of (next_word word.now)) }
{
    match handle_of(next_word(word)) {
        Some(handle) => Ok(handle),
        None => Err(Unread::NoAnswer),
    }
}

/// The last word, a handle.
#[tactic(auto, unfolding(crate::specs::Messages::last_handle))]
fn last_handle(word: &[u8]) -> Result<HandleId, Unread>
    ensures { Reads result (last_handle word.now) }
{
    let handle = handle(word)?;
    end_of(behind_next(word))?;
    Ok(handle)
}

/// The last word, a number.
#[tactic(auto, unfolding(crate::specs::Messages::last_number))]
fn last_number(word: &[u8]) -> Result<u64, Unread>
    ensures { Reads result (last_number word.now) }
{
    let number = number(word)?;
    end_of(behind_next(word))?;
    Ok(number)
}

/// The last word, which is this one.
#[tactic(auto, unfolding(crate::specs::Messages::last_word))]
fn last_word(wanted: &[u8], word: &[u8]) -> Result<(), Unread>
    ensures { Reads result (last_word wanted.now word.now) }
{
    literal(wanted, word)?;
    end_of(behind_next(word))
}

/// `id N`
#[tactic(auto, unfolding(crate::specs::Messages::id))]
fn id(word: &[u8]) -> Result<u64, Unread>
    ensures { Reads result (id word.now) }
{
    literal(b"id", word)?;
    last_number(behind_next(word))
}

/// `parent N`
#[tactic(auto, unfolding(crate::specs::Messages::parent))]
fn parent(word: &[u8]) -> Result<Reason, Unread>
    ensures { Reads result (parent word.now) }
{
    let parts = behind_next(word);
    literal(b"parent", word)?;
    let number = count(parts)?;
    end_of(behind_next(parts))?;
    Ok(Reason::ParentAbsent { parts: number })
}

/// `share`, behind `no`
fn share(word: &[u8]) -> Result<Reason, Unread>
    ensures { Reads result (when_some (last_word (codes "share") word.now) (λ _. Some variants.ShareAbsent)) }
{
    last_word(b"share", word)?;
    Ok(Reason::ShareAbsent)
}

/// `name`, behind `no`
fn name(word: &[u8]) -> Result<Reason, Unread>
    ensures { Reads result (when_some (last_word (codes "name") word.now) (λ _. Some variants.NameAbsent)) }
{
    last_word(b"name", word)?;
    Ok(Reason::NameAbsent)
}

/// `share`, `name` or `parent N`, behind `no`.
#[tactic(auto, unfolding(crate::specs::Messages::absent))]
fn absent(word: &[u8]) -> Result<Reason, Unread>
    ensures { Reads result (absent word.now) }
{
    let first = next_word(word);
    if first == b"parent".as_slice() {
        parent(word)
    } else if first == b"share".as_slice() {
        share(word)
    } else {
        name(word)
    }
}

/// `handle S.I`, behind `sharing`
#[tactic(auto, unfolding(crate::specs::Messages::sharing))]
fn sharing(word: &[u8]) -> Result<Reason, Unread>
    ensures { Reads result (sharing word.now) }
{
    literal(b"handle", word)?;
    let handle = last_handle(behind_next(word))?;
    Ok(Reason::Shared { handle })
}

/// `handle S.I from FIRST to LAST`, behind `lock`
#[tactic(auto, unfolding(crate::specs::Messages::lock))]
fn lock(locking: bool, word: &[u8]) -> Result<Reason, Unread>
    ensures { Reads result (lock locking word.now) }
{
    let holder = behind_next(word);
    let from = behind_next(holder);
    let start = behind_next(from);
    let to = behind_next(start);
    literal(b"handle", word)?;
    let handle = handle(holder)?;
    literal(b"from", from)?;
    let first = number(start)?;
    literal(b"to", to)?;
    let last = last_number(behind_next(to))?;
    Ok(Reason::Locked {
        handle,
        first,
        last,
        locking,
    })
}

/// `used USED more MORE limit LIMIT`, behind `quota`
#[tactic(auto, unfolding(crate::specs::Messages::quota))]
fn quota(word: &[u8]) -> Result<Reason, Unread>
    ensures { Reads result (quota word.now) }
{
    let use_now = behind_next(word);
    let more_word = behind_next(use_now);
    let added = behind_next(more_word);
    let limit_word = behind_next(added);
    literal(b"used", word)?;
    let used = number(use_now)?;
    literal(b"more", more_word)?;
    let more = number(added)?;
    literal(b"limit", limit_word)?;
    let limit = last_number(behind_next(limit_word))?;
    Ok(Reason::QuotaMet { used, more, limit })
}

/// `id N`, behind `there`
fn there(word: &[u8]) -> Result<Reason, Unread>
    ensures { Reads result (when_some (id word.now) (λ n. Some (variants.NameThere n))) }
{
    let number = id(word)?;
    Ok(Reason::NameThere { id: number })
}

/// `id N`, behind `directory`
fn directory(word: &[u8]) -> Result<Reason, Unread>
    ensures { Reads result (when_some (id word.now) (λ n. Some (variants.IsDirectory n))) }
{
    let number = id(word)?;
    Ok(Reason::IsDirectory { id: number })
}

/// `id N`, behind `file`
fn file(word: &[u8]) -> Result<Reason, Unread>
    ensures { Reads result (when_some (id word.now) (λ n. Some (variants.IsFile n))) }
{
    let number = id(word)?;
    Ok(Reason::IsFile { id: number })
}

/// `id N`, behind `pending`
fn pending(word: &[u8]) -> Result<Reason, Unread>
    ensures { Reads result (when_some (id word.now) (λ n. Some (variants.Pending n))) }
{
    let number = id(word)?;
    Ok(Reason::Pending { id: number })
}

/// `id N`, behind `read-only`
fn read_only(word: &[u8]) -> Result<Reason, Unread>
    ensures { Reads result (when_some (id word.now) (λ n. Some (variants.ReadOnly n))) }
{
    let number = id(word)?;
    Ok(Reason::ReadOnly { id: number })
}

/// `held`, behind `lease`
fn lease(word: &[u8]) -> Result<Reason, Unread>
    ensures { Reads result (when_some (last_word (codes "held") word.now) (λ _. Some variants.LeaseHeld)) }
{
    last_word(b"held", word)?;
    Ok(Reason::LeaseHeld)
}

/// `locked`, behind `not`
fn not_locked(word: &[u8]) -> Result<Reason, Unread>
    ensures { Reads result (when_some (last_word (codes "locked") word.now) (λ _. Some variants.NotLocked)) }
{
    last_word(b"locked", word)?;
    Ok(Reason::NotLocked)
}

/// `N`, behind `opens`
fn opens(word: &[u8]) -> Result<Reason, Unread>
    ensures { Reads result (when_some (last_number word.now) (λ n. Some (variants.OpensFull n))) }
{
    let n = last_number(word)?;
    Ok(Reason::OpensFull { n })
}

/// `S.I`, behind `handle`
fn no_handle(word: &[u8]) -> Result<Reason, Unread>
    ensures { Reads result (when_some (last_handle word.now) (λ handle. Some (variants.NoHandle handle))) }
{
    let handle = last_handle(word)?;
    Ok(Reason::NoHandle { handle })
}

/// `S.I`, behind `access`
fn access(word: &[u8]) -> Result<Reason, Unread>
    ensures { Reads result (when_some (last_handle word.now) (λ handle. Some (variants.LacksAccess handle))) }
{
    let handle = last_handle(word)?;
    Ok(Reason::LacksAccess { handle })
}

/// A message by its first word, and what stands behind that.
#[tactic(auto, unfolding(crate::specs::Messages::message_by))]
fn message_by(locking: bool, subject: Subject, behind: &[u8]) -> Result<Reason, Unread>
    ensures { Reads result (message_by locking subject behind.now) }
{
    match subject {
        Subject::No => absent(behind),
        Subject::There => there(behind),
        Subject::Directory => directory(behind),
        Subject::File => file(behind),
        Subject::Pending => pending(behind),
        Subject::ReadOnly => read_only(behind),
        Subject::Lease => lease(behind),
        Subject::Sharing => sharing(behind),
        Subject::Lock => lock(locking, behind),
        Subject::Not => not_locked(behind),
        Subject::Quota => quota(behind),
        Subject::Opens => opens(behind),
        Subject::Handle => no_handle(behind),
        Subject::Access => access(behind),
    }
}

/// A message, to a call that locks or to another.
#[tactic(auto, unfolding(crate::specs::Messages::message))]
pub(crate) fn message(locking: bool, behind: &[u8]) -> Result<Reason, Unread>
    ensures { Reads result (message locking behind.now) }
{
    match subject_of(next_word(behind)) {
        Some(subject) => message_by(locking, subject, behind_next(behind)),
        None => Err(Unread::NoAnswer),
    }
}
