//! The body that lists handles, read.

ghost use Rattle.std.specs.Prelude.{◌≡◌, IfOk, Result};
ghost use Rattle.sx_base.specs.Moment.{IsWritten};
ghost use Rattle.sx_call.specs.declared.pages.HandlesPage.{HandlesPage};
ghost use Rattle.sx_text.specs.Given.{Reads, Gives};
ghost use Rattle.sx_text.specs.Escapes.{IsWhole};
ghost use Rattle.sx_text.specs.Numbers.{IsFrom};
ghost use Rattle.sx_text.specs.Readers.{all_values_at};
ghost use Rattle.sx_listing.specs.Body.{greatest_32, ReadsBody, IsReadAs};
ghost use Rattle.sx_listing.specs.Handles.{handles_text};
ghost use Rattle.sx_listing.specs.HandlesReader.{AreHandles, IsNumbered, next_of, item_of, handle_at, ids_at};
ghost use Rattle.sx_listing.specs.HandlesReader.{path_at, opened_at, low_at, bytes_at, address_at, time_at, opener_at};
ghost use Rattle.sx_listing.specs.HandlesReader.{item_at, items_at, none_at, some_at, choice_at, next_at, handles_at};
ghost use Rattle.sx_listing.specs.declared.body.BodyFault.{BodyFault};

use crate::body::BodyFault;
use crate::texts::text_of;
use std::alloc::Global;
use sx_base::{Items, take_moment};
use sx_call::{HandleItem, HandlesPage};
use sx_guard::HandleId;
use sx_moment::Moment;
use sx_text::{Fault, Unread, escaped_text_behind, literal, next_is, number, number_behind};

/// Session and index of a handle, its path, and the ids of what it is on and of the directory that this is in.
type Opened = ((u64, u64), (Vec<u8>, (u64, u64)));

/// The session, its peer, and the moment of opening.
type Opener = (u64, (u32, u64));

/// A session's number behind a literal, and an index up to `<`.
#[tactic(auto, unfolding(crate::specs::HandlesReader::handle_at))]
fn handle<'a>(bytes: &'a [u8], text: &[u8]) -> Result<((u64, u64), &'a [u8]), Unread>
    ensures reading { Reads (λ x. (x.0, x.1.now)) result (handle_at text.now bytes.now) }
    ensures value { IfOk result (λ x. IsFrom 1 greatest_32 x.0.0 × IsFrom 1 greatest_32 x.0.1) }
{
    let (session, rest) = number_behind(bytes, text, b'.', 1, u32::MAX as u64)?;
    let (index, rest) = number(rest, b'<', 1, u32::MAX as u64)?;
    Ok(((session, index), rest))
}

/// The two ids.
#[tactic(auto, unfolding(crate::specs::HandlesReader::ids_at))]
fn ids(bytes: &[u8]) -> Result<((u64, u64), &[u8]), Unread>
    ensures { Reads (λ x. (x.0, x.1.now)) result (ids_at bytes.now) }
{
    let (id, rest) = number_behind(bytes, b"/Path><FileId>", b'<', 0, u64::MAX)?;
    let (parent, rest) = number_behind(rest, b"/FileId><ParentId>", b'<', 0, u64::MAX)?;
    Ok(((id, parent), rest))
}

/// The path and the two ids.
#[tactic(auto, unfolding(crate::specs::HandlesReader::path_at))]
fn path(alloc: Global, bytes: &[u8]) -> Result<((Vec<u8>, (u64, u64)), &[u8]), Fault>
    ensures reading { Gives (λ x. ((x.0.0.items, x.0.1), x.1.now)) result (path_at bytes.now) }
    ensures whole { IfOk result (λ x. IsWhole x.0.0.items) }
{
    let (path, rest) = escaped_text_behind(alloc, bytes, b"/HandleId><Path>")?;
    let (both, rest) = ids(rest)?;
    Ok(((path, both), rest))
}

/// What is open.
#[tactic(auto, unfolding(crate::specs::HandlesReader::opened_at))]
fn opened(alloc: Global, bytes: &[u8]) -> Result<(Opened, &[u8]), Fault>
    ensures reading { Gives (λ x. ((x.0.0, (x.0.1.0.items, x.0.1.1)), x.1.now)) result (opened_at bytes.now) }
    ensures handle { IfOk result (λ x. IsFrom 1 greatest_32 x.0.0.0 × IsFrom 1 greatest_32 x.0.0.1) }
    ensures whole { IfOk result (λ x. IsWhole x.0.1.0.items) }
{
    let (handle, rest) = handle(bytes, b"Handle><HandleId>")?;
    let (path, rest) = path(alloc, rest)?;
    Ok(((handle, path), rest))
}

/// The last two bytes of an address.
#[tactic(auto, unfolding(crate::specs::HandlesReader::low_at))]
fn low(bytes: &[u8]) -> Result<((u64, u64), &[u8]), Unread>
    ensures reading { Reads (λ x. (x.0, x.1.now)) result (low_at bytes.now) }
    ensures value { IfOk result (λ x. IsFrom 0 255 x.0.0 × IsFrom 0 255 x.0.1) }
{
    let (third, rest) = number(bytes, b'.', 0, 255)?;
    let (fourth, rest) = number(rest, b'<', 0, 255)?;
    Ok(((third, fourth), rest))
}

/// An address as a number.
#[tactic(auto, unfolding(crate::specs::HandlesReader::address_at, crate::specs::HandlesReader::bytes_at))]
fn address(bytes: &[u8]) -> Result<(u32, &[u8]), Unread>
    ensures { Reads (λ x. (x.0, x.1.now)) result (address_at bytes.now) }
{
    let (first, rest) = number_behind(bytes, b"/SessionId><ClientIp>", b'.', 0, 255)?;
    let (second, rest) = number(rest, b'.', 0, 255)?;
    let ((third, fourth), rest) = low(rest)?;
    let peer = first * 16_777_216 + second * 65_536 + third * 256 + fourth;
    Ok((peer as u32, rest))
}

/// The moment of opening, and the `<` of what follows the item.
#[tactic(auto, unfolding(crate::specs::HandlesReader::time_at))]
fn time(bytes: &[u8]) -> Result<(u64, &[u8]), Unread>
    ensures reading { Reads (λ x. (x.0, x.1.now)) result (time_at bytes.now) }
    ensures value { IfOk result (λ x. IsWritten x.0) }
{
    let rest = literal(bytes, b"/ClientIp><OpenTime>")?;
    let (at, rest) = take_moment(rest)?;
    let rest = literal(rest, b"</OpenTime></Handle><")?;
    Ok((at, rest))
}

/// By whom and when.
#[tactic(auto, unfolding(crate::specs::HandlesReader::opener_at))]
fn opener(bytes: &[u8]) -> Result<(Opener, &[u8]), Unread>
    ensures reading { Reads (λ x. (x.0, x.1.now)) result (opener_at bytes.now) }
    ensures value { IfOk result (λ x. IsFrom 0 greatest_32 x.0.0 × IsWritten x.0.1.1) }
{
    let (session, rest) = number_behind(bytes, b"/ParentId><SessionId>", b'<', 0, u32::MAX as u64)?;
    let (peer, rest) = address(rest)?;
    let (at, rest) = time(rest)?;
    Ok(((session, (peer, at)), rest))
}

/// Takes an open handle.
#[tactic(auto, unfolding(crate::specs::HandlesReader::item_at))]
fn item(alloc: Global, bytes: &[u8]) -> Result<((Opened, Opener), &[u8]), Fault>
    ensures reading { Gives (λ x. (item_of ((x.0.0.0, (x.0.0.1.0.items, x.0.0.1.1)), x.0.1), x.1.now)) result
        (item_at bytes.now) }
    ensures handle { IfOk result (λ x. IsFrom 1 greatest_32 x.0.0.0.0 × IsFrom 1 greatest_32 x.0.0.0.1) }
    ensures whole { IfOk result (λ x. IsWhole x.0.0.1.0.items) }
    ensures opener { IfOk result (λ x. IsFrom 0 greatest_32 x.0.1.0 × IsWritten x.0.1.1.1) }
{
    let (opened, rest) = opened(alloc, bytes)?;
    let (opener, rest) = opener(rest)?;
    Ok(((opened, opener), rest))
}

#[tactic(auto, unfolding(sx_text::specs::Readers::values_at))]
fn handles(alloc: Global, bytes: &[u8]) -> Result<(Items<HandleItem>, &[u8]), Fault>
    ensures { Gives (λ x. (x.0, x.1.now)) result (all_values_at 47 item_at bytes.now) }
{
    let mut items = Items::new(alloc);
    let mut rest = bytes;
    for _ in 0..bytes.len() + 1 {
        if rest.is_empty() {
            return Err(Fault::Unread { left: 0 });
        }
        if rest[0] == b'/' {
            return Ok((items, &rest[1..]));
        }
        let (((handle, (path, (id, parent))), (session, (peer, at))), after) = item(alloc, rest)?;
        let item = HandleItem {
            handle: HandleId {
                session: handle.0 as u32,
                index: handle.1 as u32,
            },
            path: text_of(path),
            id,
            parent,
            session: session as u32,
            peer,
            at: Moment::of(at),
        };
        let Ok(()) = items.push(item) else {
            return Err(Fault::NoMemory);
        };
        rest = after;
    }
    Err(Fault::Unread { left: rest.len() })
}

#[tactic(auto, unfolding(crate::specs::HandlesReader::items_at))]
fn items(alloc: Global, bytes: &[u8]) -> Result<(Items<HandleItem>, &[u8]), Fault>
    ensures { Gives (λ x. (x.0, x.1.now)) result (items_at bytes.now) }
{
    let rest = literal(
        bytes,
        b"<?xml version=\"1.0\" encoding=\"utf-8\"?><EnumerationResults><Entries><",
    )?;
    handles(alloc, rest)
}

/// The `<` behind no handle.
#[tactic(auto, unfolding(crate::specs::HandlesReader::none_at))]
fn no_handle(bytes: &[u8]) -> Result<(Option<(u64, u64)>, &[u8]), Unread>
    ensures reading { Reads (λ x. (next_of x.0, x.1.now)) result (none_at bytes.now) }
    ensures value { IfOk result (λ x. IsNumbered x.0) }
{
    let rest = literal(bytes, b"<")?;
    Ok((None, rest))
}

#[tactic(auto, unfolding(crate::specs::HandlesReader::some_at))]
fn some_handle(bytes: &[u8]) -> Result<(Option<(u64, u64)>, &[u8]), Unread>
    ensures reading { Reads (λ x. (next_of x.0, x.1.now)) result (some_at bytes.now) }
    ensures value { IfOk result (λ x. IsNumbered x.0) }
{
    let (numbers, rest) = handle(bytes, b"")?;
    Ok((Some(numbers), rest))
}

/// Session and index of a handle, or none, and the `<` behind it.
#[tactic(auto, unfolding(crate::specs::HandlesReader::choice_at, sx_text::specs::Readers::either_at))]
fn choice(bytes: &[u8]) -> Result<(Option<(u64, u64)>, &[u8]), Unread>
    ensures reading { Reads (λ x. (next_of x.0, x.1.now)) result (choice_at bytes.now) }
    ensures value { IfOk result (λ x. IsNumbered x.0) }
{
    if next_is(bytes, b'<')? {
        no_handle(bytes)
    } else {
        some_handle(bytes)
    }
}

/// Session and index of the next page's first item, to the end.
#[tactic(auto, unfolding(crate::specs::HandlesReader::next_at))]
fn next(bytes: &[u8]) -> Result<(Option<(u64, u64)>, &[u8]), Unread>
    ensures reading { Reads (λ x. (next_of x.0, x.1.now)) result (next_at bytes.now) }
    ensures value { IfOk result (λ x. IsNumbered x.0) }
{
    let rest = literal(bytes, b"Entries><NextMarker>")?;
    let (next, rest) = choice(rest)?;
    let rest = literal(rest, b"/NextMarker></EnumerationResults>")?;
    Ok((next, rest))
}

/// The handle of these numbers, or none.
fn handle_from(numbers: Option<(u64, u64)>) -> Option<HandleId>
    requires { IsNumbered numbers }
    ensures { result ≡ next_of numbers }
{
    match numbers {
        Some((session, index)) => Some(HandleId {
            session: session as u32,
            index: index as u32,
        }),
        None => None,
    }
}

#[tactic(auto, unfolding(crate::specs::HandlesReader::handles_at))]
fn page(alloc: Global, bytes: &[u8]) -> Result<(HandlesPage, &[u8]), Fault>
    ensures { Gives (λ x. (x.0, x.1.now)) result (handles_at bytes.now) }
{
    match items(alloc, bytes) {
        Ok((items, rest)) => {
            let (next, rest) = next(rest)?;
            let page = HandlesPage {
                items,
                next: handle_from(next),
            };
            Ok((page, rest))
        }
        Err(fault) => Err(fault),
    }
}

/// The page of handles that a body lists. Exactly the texts that `write_handles` gives are read.
pub fn read_handles(alloc: Global, bytes: &[u8]) -> Result<HandlesPage, BodyFault>
    ensures { ReadsBody handles_text AreHandles bytes.now result }
{
    match page(alloc, bytes) {
        Ok((page, [])) => Ok(page),
        Ok((_, rest)) => Err(BodyFault::Bad {
            at: (bytes.len() - rest.len()) as u64,
        }),
        Err(Fault::Unread { left }) => Err(BodyFault::Bad {
            at: (bytes.len() - left) as u64,
        }),
        Err(Fault::NoMemory) => Err(BodyFault::NoMemory),
    }
}

/// The law of listed handles: what was written is read as the page that it lists. It does nothing.
pub fn handles_are_read_back()
    ensures { (page : HandlesPage) (read : Result HandlesPage BodyFault) → AreHandles page
        → ReadsBody handles_text AreHandles (handles_text page) read → IsReadAs page read }
{}
