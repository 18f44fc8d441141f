//! Lease ids and lease actions in headers.

ghost use Rattle.std.specs.Prelude.{◌≡◌, Ok, true};
ghost use Rattle.std.specs.Option.{option_map};
ghost use Rattle.sx_decode.specs.Reading.{Reads, ReadsBy};
ghost use Rattle.uuid.specs.Text.{parsed};
ghost use Rattle.sx_decode.specs.Leases.{lease_id_of, id_of_bytes, id_read, maybe_id, needed_id, lease_of};
ghost use Rattle.sx_decode.specs.Leases.{scope_with, scope_of, duration_of, acquire_of, change_of, release_of};
ghost use Rattle.sx_decode.specs.Leases.{action_named, lease_action};

use crate::lookup::{needed_header, one_header};
use crate::refusals::refuse_header;
use crate::unread::Unread;
use crate::words::is_word;
use std::alloc::Global;
use sx_call::{LeaseAction, SnapOrLease};
use sx_http::Header;
use sx_lease::LeaseId;
use sx_moment::Moment;
use uuid::Uuid;

/// The lease id that a text spells: a UUID in any of its four text forms.
pub fn lease_id_of(text: &[u8]) -> Option<LeaseId>
    ensures { result ≡ lease_id_of text.now }
{
    match std::str::from_utf8(text) {
        Ok(text) => id_of_text(text),
        Err(_) => None,
    }
}

fn id_of_text(text: &str) -> Option<LeaseId>
    ensures { result ≡ option_map id_of_bytes (parsed text.now) }
{
    match Uuid::parse_str(text) {
        Ok(id) => Some(LeaseId(id.as_u128())),
        Err(_) => None,
    }
}

fn id_read(alloc: Global, name: &str, id: Option<LeaseId>) -> Result<LeaseId, Unread>
    ensures { Reads result (id_read name.now id) }
{
    match id {
        None => refuse_header(alloc, name),
        Some(id) => Ok(id),
    }
}

#[tactic(auto, unfolding(crate::specs::Leases::maybe_id))]
fn maybe_id(alloc: Global, headers: &[Header], name: &str) -> Result<Option<LeaseId>, Unread>
    ensures { Reads result (maybe_id name.now headers.now) }
{
    match one_header(alloc, headers, name)? {
        None => Ok(None),
        Some(text) => {
            let id = id_read(alloc, name, lease_id_of(text))?;
            Ok(Some(id))
        }
    }
}

#[tactic(auto, unfolding(crate::specs::Leases::needed_id))]
fn needed_id(alloc: Global, headers: &[Header], name: &str) -> Result<LeaseId, Unread>
    ensures { Reads result (needed_id name.now headers.now) }
{
    let text = needed_header(alloc, headers, name)?;
    id_read(alloc, name, lease_id_of(text))
}

/// x-ms-lease-id, where it is there.
#[tactic(auto, unfolding(crate::specs::Leases::lease_of))]
pub fn lease_of(alloc: Global, headers: &[Header]) -> Result<Option<LeaseId>, Unread>
    ensures { Reads result (lease_of headers.now) }
{
    maybe_id(alloc, headers, "x-ms-lease-id")
}

#[tactic(auto, unfolding(crate::specs::Leases::scope_with))]
fn scope_with(
    alloc: Global,
    snap: Option<Moment>,
    lease: Option<LeaseId>,
) -> Result<SnapOrLease, Unread>
    ensures { Reads result (scope_with snap lease) }
{
    match SnapOrLease::of(snap, lease) {
        None => refuse_header(alloc, "x-ms-lease-id"),
        Some(scope) => Ok(scope),
    }
}

/// x-ms-lease-id, which stands beside no snapshot.
#[tactic(auto, unfolding(crate::specs::Leases::scope_of))]
pub fn scope_of(
    alloc: Global,
    snap: Option<Moment>,
    headers: &[Header],
) -> Result<SnapOrLease, Unread>
    ensures { Reads result (scope_of snap headers.now) }
{
    let lease = lease_of(alloc, headers)?;
    scope_with(alloc, snap, lease)
}

#[tactic(auto, unfolding(crate::specs::Leases::duration_of))]
fn duration_of(alloc: Global, headers: &[Header]) -> Result<(), Unread>
    ensures { ReadsBy (λ _. true) result (duration_of headers.now) }
{
    match one_header(alloc, headers, "x-ms-lease-duration")? {
        None => Ok(()),
        Some(text) => {
            if text == b"-1".as_slice() {
                Ok(())
            } else {
                refuse_header(alloc, "x-ms-lease-duration")
            }
        }
    }
}

#[tactic(auto, unfolding(crate::specs::Leases::acquire_of))]
fn acquire_of(alloc: Global, headers: &[Header]) -> Result<LeaseAction, Unread>
    ensures { Reads result (acquire_of headers.now) }
{
    duration_of(alloc, headers)?;
    let proposed = maybe_id(alloc, headers, "x-ms-proposed-lease-id")?;
    Ok(LeaseAction::Acquire { proposed })
}

#[tactic(auto, unfolding(crate::specs::Leases::change_of))]
fn change_of(alloc: Global, headers: &[Header]) -> Result<LeaseAction, Unread>
    ensures { Reads result (change_of headers.now) }
{
    let id = needed_id(alloc, headers, "x-ms-lease-id")?;
    let to = needed_id(alloc, headers, "x-ms-proposed-lease-id")?;
    Ok(LeaseAction::Change { id, to })
}

#[tactic(auto, unfolding(crate::specs::Leases::release_of))]
fn release_of(alloc: Global, headers: &[Header]) -> Result<LeaseAction, Unread>
    ensures { Reads result (release_of headers.now) }
{
    let id = needed_id(alloc, headers, "x-ms-lease-id")?;
    Ok(LeaseAction::Release { id })
}

#[tactic(auto, unfolding(crate::specs::Leases::action_named))]
fn action_named(alloc: Global, word: &[u8], headers: &[Header]) -> Result<LeaseAction, Unread>
    ensures { Reads result (action_named word.now headers.now) }
{
    if is_word(b"acquire", word) {
        acquire_of(alloc, headers)
    } else if is_word(b"change", word) {
        change_of(alloc, headers)
    } else if is_word(b"release", word) {
        release_of(alloc, headers)
    } else if is_word(b"break", word) {
        Ok(LeaseAction::Break)
    } else {
        refuse_header(alloc, "x-ms-lease-action")
    }
}

/// x-ms-lease-action, and what it needs.
#[tactic(auto, unfolding(crate::specs::Leases::lease_action))]
pub fn lease_action(alloc: Global, headers: &[Header]) -> Result<LeaseAction, Unread>
    ensures { Reads result (lease_action headers.now) }
{
    let word = needed_header(alloc, headers, "x-ms-lease-action")?;
    action_named(alloc, word, headers)
}
