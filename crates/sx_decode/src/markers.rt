//! Where a page begins: the markers of the calls that list.

ghost use Rattle.std.specs.Prelude.{◌≡◌};
ghost use Rattle.std.specs.List.{list_any};
ghost use Rattle.sx_decode.specs.Reading.{Reads};
ghost use Rattle.sx_decode.specs.Markers.{is_at, share_in_marker, moment_read, moment_in_marker, shares_read};
ghost use Rattle.sx_decode.specs.Markers.{shares_marker, name_read, names_marker, handles_marker};

use crate::asked::query_text;
use crate::escapes::decoded_text;
use crate::handles::{handle_numbers, marker_read};
use crate::moments::moment_of;
use crate::parameters::{after, before};
use crate::refusals::refuse_query;
use crate::unread::Unread;
use std::alloc::Global;
use sx_call::{QueryText, SharesMarker, Text};
use sx_guard::HandleId;
use sx_moment::Moment;
use sx_names::{ShareName, Unnamed};

fn has_at(text: &[u8]) -> bool
    ensures { result ≡ list_any is_at text.now }
{
    text.iter().any(|b| *b == b'@')
}

#[tactic(auto, unfolding(crate::specs::Markers::share_in_marker))]
fn share_in_marker(alloc: Global, name: &[u8]) -> Result<ShareName, Unread>
    ensures { Reads result (share_in_marker name.now) }
{
    match ShareName::read(alloc, name) {
        Ok(share) => Ok(share),
        Err(Unnamed::Fault(_)) => refuse_query(alloc, "marker"),
        Err(Unnamed::NoMemory) => Err(Unread::NoMemory),
    }
}

fn moment_read(alloc: Global, moment: Option<Moment>) -> Result<Option<Moment>, Unread>
    ensures { Reads result (moment_read moment) }
{
    match moment {
        None => refuse_query(alloc, "marker"),
        Some(moment) => Ok(Some(moment)),
    }
}

#[tactic(auto, unfolding(crate::specs::Markers::moment_in_marker))]
fn moment_in_marker(alloc: Global, text: &[u8]) -> Result<Option<Moment>, Unread>
    ensures { Reads result (moment_in_marker text.now) }
{
    if !has_at(text) {
        return Ok(None);
    }
    moment_read(alloc, moment_of(after(text, b'@')))
}

#[tactic(auto, unfolding(crate::specs::Markers::shares_read))]
fn shares_read(alloc: Global, text: &[u8]) -> Result<Option<SharesMarker>, Unread>
    ensures { Reads result (shares_read text.now) }
{
    let share = share_in_marker(alloc, before(text, b'@'))?;
    let snapshot = moment_in_marker(alloc, text)?;
    Ok(Some(SharesMarker { share, snapshot }))
}

/// The marker of a page of shares: `NAME` or `NAME@MOMENT`, or none where it is empty.
#[tactic(auto, unfolding(crate::specs::Markers::shares_marker))]
pub fn shares_marker(alloc: Global, text: &[u8]) -> Result<Option<SharesMarker>, Unread>
    ensures { Reads result (shares_marker text.now) }
{
    if text.is_empty() {
        return Ok(None);
    }
    shares_read(alloc, text)
}

fn name_read(alloc: Global, name: Option<Text>) -> Result<QueryText, Unread>
    ensures { Reads result (name_read name) }
{
    match name {
        None => refuse_query(alloc, "marker"),
        Some(name) => query_text(alloc, "marker", name),
    }
}

/// The marker of a page of names: a folded name, which is percent-encoded once more.
#[tactic(auto, unfolding(crate::specs::Markers::names_marker))]
pub fn names_marker(alloc: Global, text: &[u8]) -> Result<QueryText, Unread>
    ensures { Reads result (names_marker text.now) }
{
    let name = decoded_text(alloc, text)?;
    name_read(alloc, name)
}

/// The marker of a page of handles: `S.K`, or none where it is empty.
#[tactic(auto, unfolding(crate::specs::Markers::handles_marker))]
pub fn handles_marker(alloc: Global, text: &[u8]) -> Result<Option<HandleId>, Unread>
    ensures { Reads result (handles_marker text.now) }
{
    if text.is_empty() {
        return Ok(None);
    }
    marker_read(alloc, handle_numbers(text))
}
