//! That what a session's door prints is read back.
ghost use Rattle.std.specs.Prelude.{IfSome, option_map, ◌-◌, ◌<◌, length, get_or, map};
ghost use Rattle.hex.specs.Hex.{IsBytes};
ghost use Rattle.sx_answer_reader.specs.Answers.{Fits, FitsEntry, FitsTold, FitsStop};
ghost use Rattle.std.specs.List.{All};
ghost use Rattle.sx_answer_reader.specs.declared.answer.Told.TheVariants.{Listed};
ghost use Rattle.sx_answer_reader.specs.Limits.{IsNumber};
ghost use Rattle.sx_answer_reader.specs.Refusals.{IsHandle};
ghost use Rattle.sx_answer_reader.specs.declared.answer.Answer.TheVariants.{Done, Refused};
ghost use Rattle.sx_answer_reader.specs.Doors.{entry_of, told_of, reason_of, reply_told, answer_told, IsLineOf};

use sx_call::{Refusal, Reply, SmbReply, Stop};
use sx_extent::View;
use sx_guard::{HandleId, Held};
use sx_lines::LineAnswer;
use sx_names::{NameItem, NamesPage};

/// What a session's door prints for an answer is the line of what the answer tells, with a line feed behind it, and
/// its numbers and bytes fit: so `read_line` reads it back as exactly this. It changes nothing.
pub fn printed_answers_are_told(answer: &LineAnswer)
    ensures line { IsLineOf answer.now }
    ensures fits { IfSome (answer_told answer.now) Fits }
{
    is_line_of(answer);
    answer_fits(answer);
}

/// That an answer's line is the line of what it tells. It does nothing.
fn is_line_of(answer: &LineAnswer)
    ensures { IsLineOf answer.now }
{
    let _answer = answer;
}

/// What the types of an answer's numbers keep. It changes nothing.
#[tactic(auto, unfolding(crate::specs::Doors::answer_told))]
fn answer_fits(answer: &LineAnswer)
    ensures { IfSome (answer_told answer.now) Fits }
{
    match answer {
        LineAnswer::Core {
            place,
            reply,
            locking,
        } => reply_fits(*place, reply, *locking),
        LineAnswer::Syntax { at } => {
            let _at = *at;
        }
        LineAnswer::Long => {}
        LineAnswer::Stop(stop) => stop_fits(stop),
    }
}

/// What the types of a stop's numbers keep. It does nothing.
fn stop_fits(stop: &Stop)
    ensures { FitsStop stop.now }
{
    match stop {
        Stop::NoMemory => {}
        Stop::HistoryFull {
            entries,
            sessions,
            limit,
        } => {
            let _entries = *entries;
            let _sessions = *sessions;
            let _limit = *limit;
        }
    }
}

/// What the types of a reply's numbers keep. It changes nothing.
#[tactic(auto, unfolding(crate::specs::Doors::reply_told))]
fn reply_fits(place: u64, reply: &Reply, locking: bool)
    ensures { IfSome (reply_told place reply.now locking) Fits }
{
    match reply {
        Reply::Smb(reply) => told_fits(place, reply),
        Reply::Refused(refusal) => reason_fits(place, refusal, locking),
        _ => {}
    }
}

/// That what stands at a place of a view is a byte. It changes nothing.
fn byte_fits(view: &View, at: u64)
    requires { at < length view.now }
    ensures { get_or view.now at 0 < 256 }
{
    let mut byte = [0u8; 1];
    view.read_into(at, &mut byte);
    let _byte = byte[0];
}

/// That a view is bytes, and its length a number of 64 bits. It reads the view through, and changes nothing.
fn view_fits(view: &View)
    ensures bytes { IsBytes view.now }
    ensures count { IsNumber (length view.now) }
{
    let count = view.length();
    for at in 0..count {
        byte_fits(view, at);
    }
}

/// What the type of a name in a page keeps. It does nothing.
fn entry_fits(item: &NameItem)
    ensures { FitsEntry (entry_of item.now) }
{
    let _length = item.length;
    let _name = item.name.bytes();
}

/// What the types of a page's names keep. It changes nothing.
fn entries_fit(items: &[NameItem])
    ensures entries { All (λ item. FitsEntry (entry_of item)) items.now }
    ensures count { IsNumber (length items.now) }
{
    let _count = items.len();
    for item in items {
        entry_fits(item);
    }
}

/// What the types of a page keep. It changes nothing.
fn page_fits(page: &NamesPage)
    ensures { FitsTold (Listed (map entry_of page.now.items) page.now.next) }
{
    entries_fit(page.items.as_slice());
    let _next = page.next.bytes();
}

/// What the types of the numbers that are told keep. It changes nothing.
#[tactic(auto, unfolding(crate::specs::Doors::told_of))]
fn told_fits(place: u64, reply: &SmbReply)
    ensures { Fits (Done place (told_of reply.now)) }
{
    match reply {
        SmbReply::Started { session } => {
            let _session = *session;
        }
        SmbReply::Ended { closed } => {
            let _closed = *closed;
        }
        SmbReply::Opened {
            index,
            id,
            length,
            ..
        } => {
            let _index = index.number();
            let _id = *id;
            let _length = *length;
        }
        SmbReply::Bytes { view } => view_fits(view),
        SmbReply::Wrote { count, length } => {
            let _count = *count;
            number_fits(*length);
        }
        SmbReply::Resized { length } => number_fits(*length),
        SmbReply::Names { page } => page_fits(page),
        SmbReply::Stats {
            id,
            length,
            created,
            written,
            changed,
            ..
        } => {
            number_fits(*id);
            number_fits(*length);
            number_fits(created.ticks());
            number_fits(written.ticks());
            number_fits(changed.ticks());
        }
        _ => {}
    }
}

/// What the type of a handle's numbers keeps. It does nothing.
fn handle_fits(handle: HandleId)
    ensures { IsHandle handle }
{
    let _session = handle.session;
    let _index = handle.index;
}

/// What the type of a number keeps. It does nothing.
fn number_fits(number: u64)
    ensures { IsNumber number }
{
    let _number = number;
}

/// What the types of a lock's numbers keep. It does nothing.
fn lock_fits(held: &Held)
    ensures handle { IsHandle held.now.handle }
    ensures first { IsNumber held.now.from }
    ensures last { IsNumber (held.now.end - 1) }
{
    handle_fits(held.handle);
    number_fits(held.from);
    number_fits(held.end);
}

/// What the types of a refusal's numbers keep. It does nothing.
#[tactic(auto, unfolding(crate::specs::Doors::reason_of))]
fn reason_fits(place: u64, refusal: &Refusal, locking: bool)
    ensures { IfSome (option_map (Refused place) (reason_of locking refusal.now)) Fits }
{
    match refusal {
        Refusal::ParentAbsent { parts } => {
            let _parts = *parts;
        }
        Refusal::NameThere { id } => number_fits(*id),
        Refusal::IsDirectory { id } => number_fits(*id),
        Refusal::IsFile { id } => number_fits(*id),
        Refusal::Pending { id } => number_fits(*id),
        Refusal::ReadOnly { id } => number_fits(*id),
        Refusal::Shared { handle } => handle_fits(*handle),
        Refusal::NoHandle { handle } => handle_fits(*handle),
        Refusal::LacksAccess { handle } => handle_fits(*handle),
        Refusal::Locked { held } => lock_fits(held),
        Refusal::QuotaMet { used, more, limit } => {
            number_fits(*used);
            number_fits(*more);
            number_fits(*limit);
        }
        Refusal::OpensFull { n } => number_fits(*n),
        _ => {}
    }
}
