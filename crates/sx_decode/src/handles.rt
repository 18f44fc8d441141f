//! Handles in headers and markers.

ghost use Rattle.std.specs.Prelude.{◌≡◌, codes};
ghost use Rattle.sx_call.specs.declared.refusals.Syntax.TheVariants.{Query, Range};
ghost use Rattle.sx_decode.specs.Reading.{Reads};
ghost use Rattle.sx_decode.specs.Handles.{both, handle_numbers, handle_within, is_handle_number, handle_or};
ghost use Rattle.sx_decode.specs.Handles.{handle_read, handle_named, handle_of, marker_read, recursive_of};

use crate::lookup::{needed_header, one_header};
use crate::numbers::number_of;
use crate::parameters::{after, before};
use crate::refusals::{refuse_header, refuse_query, refuse_range};
use crate::unread::Unread;
use crate::words::is_word;
use std::alloc::Global;
use sx_guard::HandleId;
use sx_http::Header;

/// The numbers of a session and of an open in it: `S.K`.
#[tactic(auto, unfolding(crate::specs::Handles::handle_numbers))]
pub fn handle_numbers(text: &[u8]) -> Option<(u128, u128)>
    ensures { result ≡ handle_numbers text.now }
{
    both(number_of(before(text, b'.')), number_of(after(text, b'.')))
}

fn both(session: Option<u128>, index: Option<u128>) -> Option<(u128, u128)>
    ensures { result ≡ both session index }
{
    match session {
        None => None,
        Some(session) => match index {
            None => None,
            Some(index) => Some((session, index)),
        },
    }
}

fn is_handle_number(number: u128) -> bool
    ensures { result ≡ is_handle_number number }
{
    1 <= number && number <= 4_294_967_295
}

fn handle_within(session: u128, index: u128) -> Option<HandleId>
    ensures { result ≡ handle_within session index }
{
    if is_handle_number(session) && is_handle_number(index) {
        Some(HandleId {
            session: session as u32,
            index: index as u32,
        })
    } else {
        None
    }
}

fn handle_in_range(alloc: Global, handle: Option<HandleId>) -> Result<Option<HandleId>, Unread>
    ensures { Reads result (handle_or (Range (codes "x-ms-handle-id")) handle) }
{
    match handle {
        None => refuse_range(alloc, "x-ms-handle-id"),
        Some(handle) => Ok(Some(handle)),
    }
}

fn handle_read(alloc: Global, numbers: Option<(u128, u128)>) -> Result<Option<HandleId>, Unread>
    ensures { Reads result (handle_read numbers) }
{
    match numbers {
        None => refuse_header(alloc, "x-ms-handle-id"),
        Some((session, index)) => handle_in_range(alloc, handle_within(session, index)),
    }
}

/// x-ms-handle-id: none for `*`, which means all handles.
#[tactic(auto, unfolding(crate::specs::Handles::handle_of))]
pub fn handle_of(alloc: Global, headers: &[Header]) -> Result<Option<HandleId>, Unread>
    ensures { Reads result (handle_of headers.now) }
{
    let text = needed_header(alloc, headers, "x-ms-handle-id")?;
    handle_named(alloc, text)
}

#[tactic(auto, unfolding(crate::specs::Handles::handle_named))]
fn handle_named(alloc: Global, text: &[u8]) -> Result<Option<HandleId>, Unread>
    ensures { Reads result (handle_named text.now) }
{
    if text == b"*".as_slice() {
        Ok(None)
    } else {
        handle_read(alloc, handle_numbers(text))
    }
}

fn handle_in_marker(alloc: Global, handle: Option<HandleId>) -> Result<Option<HandleId>, Unread>
    ensures { Reads result (handle_or (Query (codes "marker")) handle) }
{
    match handle {
        None => refuse_query(alloc, "marker"),
        Some(handle) => Ok(Some(handle)),
    }
}

/// The handle of a marker.
#[tactic(auto, unfolding(crate::specs::Handles::marker_read))]
pub fn marker_read(alloc: Global, numbers: Option<(u128, u128)>) -> Result<Option<HandleId>, Unread>
    ensures { Reads result (marker_read numbers) }
{
    match numbers {
        None => refuse_query(alloc, "marker"),
        Some((session, index)) => handle_in_marker(alloc, handle_within(session, index)),
    }
}

/// x-ms-recursive, which absence means `false`.
#[tactic(auto, unfolding(crate::specs::Handles::recursive_of))]
pub fn recursive_of(alloc: Global, headers: &[Header]) -> Result<bool, Unread>
    ensures { Reads result (recursive_of headers.now) }
{
    match one_header(alloc, headers, "x-ms-recursive")? {
        None => Ok(false),
        Some(text) => {
            if is_word(b"true", text) {
                Ok(true)
            } else if is_word(b"false", text) {
                Ok(false)
            } else {
                refuse_header(alloc, "x-ms-recursive")
            }
        }
    }
}
