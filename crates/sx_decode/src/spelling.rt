//! The call that a request spells.

ghost use Rattle.std.specs.Prelude.{Ok};
ghost use Rattle.std.specs.List.{before_first, after_first};
ghost use Rattle.sx_decode.specs.Reading.{Reads, with_next};
ghost use Rattle.sx_decode.specs.Bodies.{no_body};
ghost use Rattle.sx_decode.specs.Parameters.{is_question, parameters};
ghost use Rattle.sx_decode.specs.Targets.{place_of};
ghost use Rattle.sx_decode.specs.Asked.{asked_of};
ghost use Rattle.sx_decode.specs.FileRows.{file_call};
ghost use Rattle.sx_decode.specs.DirectoryRows.{directory_call};
ghost use Rattle.sx_decode.specs.ShareRows.{plain_call};
ghost use Rattle.sx_decode.specs.Spelling.{account_call, inside_call, bodiless_call, call_without_body};
ghost use Rattle.sx_decode.specs.Spelling.{call_inside, call_by_row, reading};

use crate::asked::{Asked, asked_of};
use crate::bodies::no_body;
use crate::choosing::{key_of, row_for, verb_of, version_of};
use crate::directory_rows::{
    create_directory, delete_directory, list_directory, set_directory_metadata,
};
use crate::file_rows::{
    create_file, delete_file, get_file, get_file_metadata, get_file_properties, lease_file,
    set_file_metadata, set_file_properties,
};
use crate::forms::Row;
use crate::handle_rows::{force_close_handles, list_handles};
use crate::parameters::{after, before, parameters};
use crate::range_rows::{clear_range, list_ranges, update_range};
use crate::refusals::no_call;
use crate::share_rows::{
    create_share, delete_share, delete_snapshot, get_share_metadata, get_share_properties,
    lease_share, list_shares, set_share_metadata, set_share_properties, snapshot_share,
};
use crate::targets::{Place, place_of};
use crate::unread::Unread;
use std::alloc::Global;
use sx_base::Items;
use sx_call::{Call, GetDirectoryMetadata, GetDirectoryProperties, Target};
use sx_http::{Header, Request};
use sx_moment::Moment;

/// The call on a file that a row names, but for updates.
#[tactic(auto, unfolding(crate::specs::FileRows::file_call))]
fn file_call(
    alloc: Global,
    row: Row,
    at: Target,
    snap: Option<Moment>,
    headers: &[Header],
) -> Result<Call, Unread>
    ensures { Reads result (file_call row at snap headers.now) }
{
    match row {
        Row::CreateFile => create_file(alloc, at, headers),
        Row::GetFile => get_file(alloc, at, snap, headers),
        Row::GetFileProperties => get_file_properties(alloc, at, snap, headers),
        Row::SetFileProperties => set_file_properties(alloc, at, headers),
        Row::GetFileMetadata => get_file_metadata(alloc, at, snap, headers),
        Row::SetFileMetadata => set_file_metadata(alloc, at, headers),
        Row::ClearRange => clear_range(alloc, at, headers),
        Row::ListRanges => list_ranges(alloc, at, snap, headers),
        Row::DeleteFile => delete_file(alloc, at, headers),
        Row::LeaseFile => lease_file(alloc, at, headers),
        _ => no_call(),
    }
}

/// The call on a directory or a file that a row names, but for listings and updates.
#[tactic(auto, unfolding(crate::specs::DirectoryRows::directory_call))]
fn directory_call(
    alloc: Global,
    row: Row,
    at: Target,
    snap: Option<Moment>,
    headers: &[Header],
) -> Result<Call, Unread>
    ensures { Reads result (directory_call row at snap headers.now) }
{
    match row {
        Row::CreateDirectory => create_directory(alloc, at, headers),
        Row::GetDirectoryProperties => Ok(Call::GetDirectoryProperties(GetDirectoryProperties {
            at,
            snap,
        })),
        Row::GetDirectoryMetadata => {
            Ok(Call::GetDirectoryMetadata(GetDirectoryMetadata { at, snap }))
        }
        Row::SetDirectoryMetadata => set_directory_metadata(alloc, at, headers),
        Row::DeleteDirectory => delete_directory(at),
        Row::ForceCloseHandles => force_close_handles(alloc, at, headers),
        _ => file_call(alloc, row, at, snap, headers),
    }
}

/// The call on a share or on what is in it that a row names, but for listings and updates.
#[tactic(auto, unfolding(crate::specs::ShareRows::plain_call))]
fn plain_call(
    alloc: Global,
    row: Row,
    at: Target,
    snap: Option<Moment>,
    headers: &[Header],
) -> Result<Call, Unread>
    ensures { Reads result (plain_call row at snap headers.now) }
{
    match row {
        Row::CreateShare => create_share(alloc, at.share, headers),
        Row::GetShareProperties => get_share_properties(alloc, at.share, snap, headers),
        Row::SetShareProperties => set_share_properties(alloc, at.share, headers),
        Row::GetShareMetadata => get_share_metadata(alloc, at.share, snap, headers),
        Row::SetShareMetadata => set_share_metadata(alloc, at.share, headers),
        Row::DeleteShare => delete_share(alloc, at.share, headers),
        Row::DeleteSnapshot => delete_snapshot(at.share, snap),
        Row::SnapshotShare => snapshot_share(alloc, at.share, headers),
        Row::LeaseShare => lease_share(alloc, at.share, headers),
        _ => directory_call(alloc, row, at, snap, headers),
    }
}

/// The call on the account that a row names.
#[tactic(auto, unfolding(crate::specs::Spelling::account_call))]
fn account_call(alloc: Global, row: Row, asked: Asked) -> Result<Call, Unread>
    ensures { Reads result (account_call row asked) }
{
    match row {
        Row::ListShares => list_shares(alloc, asked),
        _ => no_call(),
    }
}

/// The call on a share and what is in it that a row names, but for updates.
#[tactic(auto, unfolding(crate::specs::Spelling::inside_call))]
fn inside_call(
    alloc: Global,
    row: Row,
    at: Target,
    asked: Asked,
    headers: &[Header],
) -> Result<Call, Unread>
    ensures { Reads result (inside_call row at asked headers.now) }
{
    match row {
        Row::ListDirectory => list_directory(alloc, at, asked),
        Row::ListHandles => list_handles(alloc, at, asked, headers),
        _ => plain_call(alloc, row, at, asked.snapshot, headers),
    }
}

/// The call of a row that takes no body.
#[tactic(auto, unfolding(crate::specs::Spelling::bodiless_call))]
fn bodiless_call(
    alloc: Global,
    row: Row,
    place: Place,
    asked: Asked,
    headers: &[Header],
) -> Result<Call, Unread>
    ensures { Reads result (bodiless_call row place asked headers.now) }
{
    match place {
        Place::Account => account_call(alloc, row, asked),
        Place::Inside(at) => inside_call(alloc, row, at, asked, headers),
    }
}

/// The value, where the request has no body.
fn without_body<T: Drop>(alloc: Global, value: T, body: &[u8]) -> Result<T, Unread>
    ensures { Reads result (with_next (no_body body.now) (λ _. Ok value)) }
{
    no_body(alloc, body)?;
    Ok(value)
}

/// The call of a row that takes no body, where the request has none.
#[tactic(auto, unfolding(crate::specs::Spelling::call_without_body))]
fn call_without_body(
    alloc: Global,
    row: Row,
    place: Place,
    asked: Asked,
    headers: &[Header],
    body: &[u8],
) -> Result<Call, Unread>
    ensures { Reads result (call_without_body row place asked headers.now body.now) }
{
    let call = bodiless_call(alloc, row, place, asked, headers)?;
    without_body(alloc, call, body)
}

/// The call on a share and what is in it that a row names: an update has a body, no other call has one.
#[tactic(auto, unfolding(crate::specs::Spelling::call_inside))]
fn call_inside(
    alloc: Global,
    row: Row,
    at: Target,
    asked: Asked,
    headers: &[Header],
    body: Items<u8>,
) -> Result<Call, Unread>
    ensures { Reads result (call_inside row at asked headers.now body) }
{
    match row {
        Row::UpdateRange => update_range(alloc, at, headers, body),
        _ => call_without_body(
            alloc,
            row,
            Place::Inside(at),
            asked,
            headers,
            body.as_slice(),
        ),
    }
}

/// The call that a row names.
#[tactic(auto, unfolding(crate::specs::Spelling::call_by_row))]
fn call_by_row(
    alloc: Global,
    row: Row,
    place: Place,
    asked: Asked,
    headers: &[Header],
    body: Items<u8>,
) -> Result<Call, Unread>
    ensures { Reads result (call_by_row row place asked headers.now body) }
{
    match place {
        Place::Account => {
            call_without_body(alloc, row, Place::Account, asked, headers, body.as_slice())
        }
        Place::Inside(at) => call_inside(alloc, row, at, asked, headers, body),
    }
}

/// What the path of a target names.
fn place_in(alloc: Global, target: &[u8]) -> Result<Place, Unread>
    ensures { Reads result (place_of (before_first is_question target.now)) }
{
    place_of(alloc, before(target, b'?'))
}

/// What the query of a target asks for.
fn asked_in(alloc: Global, target: &[u8]) -> Result<Asked, Unread>
    ensures { Reads result (asked_of (parameters (after_first is_question target.now))) }
{
    let parameters = parameters(alloc, after(target, b'?'))?;
    asked_of(alloc, &parameters)
}

/// The call that a request spells: exactly that one, or exactly the first refusal of it.
///
/// These are asked in order, and the first that is broken is told: the method, x-ms-version, the path, the query's
/// parameters, that there is a row with this method, path, restype and comp, sharesnapshot and the marker, the headers
/// in the row's order, the body.
#[tactic(auto, unfolding(crate::specs::Spelling::reading))]
pub fn call_of(alloc: Global, request: Request) -> Result<Call, Unread>
    ensures { Reads result (reading request) }
{
    let Request { head, body } = request;
    let headers = head.headers.as_slice();
    let target = head.target.bytes();
    let verb = verb_of(head.method.as_str().as_bytes())?;
    version_of(alloc, headers)?;
    let place = place_in(alloc, target)?;
    let asked = asked_in(alloc, target)?;
    let row = row_for(alloc, key_of(alloc, verb, &place, &asked, headers)?)?;
    call_by_row(alloc, row, place, asked, headers, body)
}
