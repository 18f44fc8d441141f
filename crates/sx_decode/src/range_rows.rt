//! The calls on the ranges of files: what each reads, in order.

ghost use Rattle.std.specs.Prelude.{◌<◌, ◌≤◌, ◌-◌, IfOk};
ghost use Rattle.sx_extent.specs.declared.piece.TheConstants.{PIECE_LIMIT};
ghost use Rattle.sx_call.specs.declared.ranges.TheConstants.{OFFSET_LIMIT};
ghost use Rattle.sx_decode.specs.Reading.{Reads};
ghost use Rattle.sx_decode.specs.Ranges.{interval_of};
ghost use Rattle.sx_decode.specs.FileRows.{update_with, update_at, update_range, clear_range, list_ranges};

use crate::bodies::update_of;
use crate::contents::digest_of;
use crate::file_fields::needed_word;
use crate::leases::{lease_of, scope_of};
use crate::ranges::{Written, cleared_of, interval_of, span_of};
use crate::targets::below_root;
use crate::unread::Unread;
use std::alloc::Global;
use sx_base::Items;
use sx_call::{Call, ClearRange, ListRanges, NamedTarget, Target, UpdateRange};
use sx_extent::PIECE_LIMIT;
use sx_http::Header;
use sx_moment::Moment;
use sx_names::ContentMd5;

/// The range of an update: at most 4,194,304 bytes.
fn updated_of(alloc: Global, headers: &[Header]) -> Result<Written, Unread>
    ensures read { Reads result (interval_of PIECE_LIMIT headers.now) }
    ensures some { IfOk result (λ i. i.from < i.end) }
    ensures limit { IfOk result (λ i. i.end ≤ OFFSET_LIMIT) }
    ensures short { IfOk result (λ i. i.end - i.from ≤ PIECE_LIMIT) }
{
    interval_of(alloc, PIECE_LIMIT as u64, headers)
}

/// Put Range with `update`, behind its interval and digest.
#[tactic(auto, unfolding(crate::specs::FileRows::update_with))]
fn update_with(
    alloc: Global,
    at: NamedTarget,
    interval: Written,
    digest: Option<ContentMd5>,
    headers: &[Header],
    body: Items<u8>,
) -> Result<Call, Unread>
    requires some { interval.from < interval.end }
    requires limit { interval.end ≤ OFFSET_LIMIT }
    requires short { interval.end - interval.from ≤ PIECE_LIMIT }
    ensures { Reads result (update_with at interval digest headers.now body) }
{
    let lease = lease_of(alloc, headers)?;
    let update = update_of(alloc, interval, digest, body)?;
    Ok(Call::UpdateRange(UpdateRange { at, update, lease }))
}

/// Put Range with `update`, behind its word.
#[tactic(auto, unfolding(crate::specs::FileRows::update_at))]
fn update_at(
    alloc: Global,
    at: NamedTarget,
    headers: &[Header],
    body: Items<u8>,
) -> Result<Call, Unread>
    ensures { Reads result (update_at at headers.now body) }
{
    let interval = updated_of(alloc, headers)?;
    let digest = digest_of(alloc, headers, "content-md5")?;
    update_with(alloc, at, interval, digest, headers, body)
}

/// Put Range with `update`.
#[tactic(auto, unfolding(crate::specs::FileRows::update_range))]
pub(crate) fn update_range(
    alloc: Global,
    target: Target,
    headers: &[Header],
    body: Items<u8>,
) -> Result<Call, Unread>
    ensures { Reads result (update_range target headers.now body) }
{
    let at = below_root(target)?;
    needed_word(alloc, headers, "x-ms-write", b"update")?;
    update_at(alloc, at, headers, body)
}

/// Put Range with `clear`.
#[tactic(auto, unfolding(crate::specs::FileRows::clear_range))]
pub(crate) fn clear_range(alloc: Global, target: Target, headers: &[Header]) -> Result<Call, Unread>
    ensures { Reads result (clear_range target headers.now) }
{
    let at = below_root(target)?;
    needed_word(alloc, headers, "x-ms-write", b"clear")?;
    let range = cleared_of(alloc, headers)?;
    let lease = lease_of(alloc, headers)?;
    Ok(Call::ClearRange(ClearRange { at, range, lease }))
}

/// List Ranges.
#[tactic(auto, unfolding(crate::specs::FileRows::list_ranges))]
pub(crate) fn list_ranges(
    alloc: Global,
    target: Target,
    snap: Option<Moment>,
    headers: &[Header],
) -> Result<Call, Unread>
    ensures { Reads result (list_ranges target snap headers.now) }
{
    let at = below_root(target)?;
    let span = span_of(alloc, headers)?;
    let scope = scope_of(alloc, snap, headers)?;
    Ok(Call::ListRanges(ListRanges { at, span, scope }))
}
