//! What calls that were not refused are told, call by call.
ghost use Rattle.sx_answer_reader.specs.Reading.{Reads};
ghost use Rattle.sx_answer_reader.specs.Grammar.{started, ended, opened, closed, bytes_read, read, wrote, resized};
ghost use Rattle.sx_answer_reader.specs.Grammar.{stats, listed, bare, told_by, told};
ghost use Rattle.sx_answer_reader.specs.declared.answer.Told.TheVariants as variants;

use crate::answer::{Told, Unread};
use crate::attributes::attributes_in;
use crate::bytes::bytes_in;
use crate::entries::entries_of;
use crate::kind::{Kind, kind_of};
use crate::names::next_of;
use crate::words::{behind_next, choice, count, end_of, fate, index, next_word, number};
use std::alloc::Global;

/// `start SESSION`
#[tactic(auto, unfolding(crate::specs::Grammar::started))]
fn started(session: &[u8]) -> Result<Told, Unread>
    ensures { Reads result (started session.now) }
{
    let number = count(session)?;
    end_of(behind_next(session))?;
    Ok(Told::Started { session: number })
}

/// `end N`
#[tactic(auto, unfolding(crate::specs::Grammar::ended))]
fn ended(closed: &[u8]) -> Result<Told, Unread>
    ensures { Reads result (ended closed.now) }
{
    let number = count(closed)?;
    end_of(behind_next(closed))?;
    Ok(Told::Ended { closed: number })
}

/// `open K created|opened ID LENGTH`
#[tactic(auto, unfolding(crate::specs::Grammar::opened))]
fn opened(k: &[u8]) -> Result<Told, Unread>
    ensures { Reads result (opened k.now) }
{
    let word = behind_next(k);
    let id = behind_next(word);
    let length = behind_next(id);
    let index = index(k)?;
    let made = choice(b"created", b"opened", word)?;
    let node = number(id)?;
    let bytes = number(length)?;
    end_of(behind_next(length))?;
    Ok(Told::Opened {
        index,
        made,
        id: node,
        length: bytes,
    })
}

/// `close kept|pending|gone`
#[tactic(auto, unfolding(crate::specs::Grammar::closed))]
fn closed(word: &[u8]) -> Result<Told, Unread>
    ensures { Reads result (closed word.now) }
{
    let fate = fate(word)?;
    end_of(behind_next(word))?;
    Ok(Told::Closed { fate })
}

/// So many bytes.
#[tactic(auto, unfolding(crate::specs::Grammar::bytes_read))]
fn bytes_read(alloc: Global, count: u64, hex: &[u8]) -> Result<Told, Unread>
    ensures { Reads result (bytes_read count hex.now) }
{
    let bytes = bytes_in(alloc, hex)?;
    if bytes.len() as u64 == count {
        Ok(Told::Read { bytes })
    } else {
        Err(Unread::NoAnswer)
    }
}

/// `read N HEX`
#[tactic(auto, unfolding(crate::specs::Grammar::read))]
fn read(alloc: Global, n: &[u8]) -> Result<Told, Unread>
    ensures { Reads result (read n.now) }
{
    let hex = behind_next(n);
    let count = number(n)?;
    end_of(behind_next(hex))?;
    bytes_read(alloc, count, hex)
}

/// `write N LENGTH`
#[tactic(auto, unfolding(crate::specs::Grammar::wrote))]
fn wrote(n: &[u8]) -> Result<Told, Unread>
    ensures { Reads result (wrote n.now) }
{
    let length = behind_next(n);
    let written = count(n)?;
    let bytes = number(length)?;
    end_of(behind_next(length))?;
    Ok(Told::Wrote {
        count: written,
        length: bytes,
    })
}

/// `resize LENGTH`
#[tactic(auto, unfolding(crate::specs::Grammar::resized))]
fn resized(length: &[u8]) -> Result<Told, Unread>
    ensures { Reads result (resized length.now) }
{
    let bytes = number(length)?;
    end_of(behind_next(length))?;
    Ok(Told::Resized { length: bytes })
}

/// `lock`
#[tactic(auto, unfolding(crate::specs::Grammar::bare))]
fn locked(behind: &[u8]) -> Result<Told, Unread>
    ensures { Reads result (bare variants.Locked behind.now) }
{
    end_of(behind)?;
    Ok(Told::Locked)
}

/// `unlock`
#[tactic(auto, unfolding(crate::specs::Grammar::bare))]
fn unlocked(behind: &[u8]) -> Result<Told, Unread>
    ensures { Reads result (bare variants.Unlocked behind.now) }
{
    end_of(behind)?;
    Ok(Told::Unlocked)
}

/// `stat ID file|dir LENGTH ATTRIBUTES CREATED WRITTEN CHANGED`
#[tactic(auto, unfolding(crate::specs::Grammar::stats))]
fn stats(alloc: Global, id: &[u8]) -> Result<Told, Unread>
    ensures { Reads result (stats id.now) }
{
    let kind = behind_next(id);
    let length = behind_next(kind);
    let names = behind_next(length);
    let creation = behind_next(names);
    let write = behind_next(creation);
    let change = behind_next(write);
    let node = number(id)?;
    let dir = choice(b"dir", b"file", kind)?;
    let bytes = number(length)?;
    let attributes = attributes_in(alloc, names)?;
    let created = number(creation)?;
    let written = number(write)?;
    let changed = number(change)?;
    end_of(behind_next(change))?;
    Ok(Told::Stats {
        id: node,
        dir,
        length: bytes,
        attributes,
        created,
        written,
        changed,
    })
}

/// `list N NEXT` and the entries
#[tactic(auto, unfolding(crate::specs::Grammar::listed))]
fn listed(alloc: Global, n: &[u8]) -> Result<Told, Unread>
    ensures { Reads result (listed n.now) }
{
    let following = behind_next(n);
    let first = behind_next(following);
    let count = number(n)?;
    let entries = entries_of(alloc, count, first)?;
    let next = next_of(alloc, next_word(following))?;
    Ok(Told::Listed { entries, next })
}

/// `dispose`
#[tactic(auto, unfolding(crate::specs::Grammar::bare))]
fn disposed(behind: &[u8]) -> Result<Told, Unread>
    ensures { Reads result (bare variants.Disposed behind.now) }
{
    end_of(behind)?;
    Ok(Told::Disposed)
}

/// What a call is told by the words behind its first.
#[tactic(auto, unfolding(crate::specs::Grammar::told_by))]
fn told_by(alloc: Global, kind: Kind, behind: &[u8]) -> Result<Told, Unread>
    ensures { Reads result (told_by kind behind.now) }
{
    match kind {
        Kind::Start => started(behind),
        Kind::End => ended(behind),
        Kind::Open => opened(behind),
        Kind::Close => closed(behind),
        Kind::Read => read(alloc, behind),
        Kind::Write => wrote(behind),
        Kind::Resize => resized(behind),
        Kind::Lock => locked(behind),
        Kind::Unlock => unlocked(behind),
        Kind::Stat => stats(alloc, behind),
        Kind::List => listed(alloc, behind),
        Kind::Dispose => disposed(behind),
    }
}

/// What a call is told, behind the place of its entry.
#[tactic(auto, unfolding(crate::specs::Grammar::told))]
pub(crate) fn told(alloc: Global, behind: &[u8]) -> Result<Told, Unread>
    ensures { Reads result (told behind.now) }
{
    match kind_of(next_word(behind)) {
        Some(kind) => told_by(alloc, kind, behind_next(behind)),
        None => Err(Unread::NoAnswer),
    }
}
