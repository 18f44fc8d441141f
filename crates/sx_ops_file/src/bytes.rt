//! Calls that read bytes or marks of a file.
ghost use Rattle.std.specs.Prelude.{◌≡◌, ◌<◌, ◌≤◌, ◌||◌, false, true, is_none, nat_lt, IfOk};
ghost use Rattle.sx_call.specs.declared.calls.Call.TheVariants as entered;
ghost use Rattle.sx_call.specs.declared.replies.Reply.TheVariants.{FileBytes, RangesListed};
ghost use Rattle.sx_extent.specs.Ranges.{listed};
ghost use Rattle.sx_listing.specs.Ranges.{ranges_text};
ghost use Rattle.sx_spec.specs.Facts.{length_of, shown_of, stamp_of};
ghost use Rattle.sx_spec.specs.FileCalls.{bytes_of_file, get_file, list_ranges};
ghost use Rattle.sx_spec.specs.Needs.{end_of_last, end_of_span, first_of_span, starts_past};
ghost use Rattle.sx_spec.specs.Places.{file_place};
ghost use Rattle.sx_spec.specs.ShareCalls.{lease_shown};
ghost use Rattle.sx_spec.specs.Step.{at_place, outcome};

use std::alloc::Global;
use sx_call::{Entry, FilePart, First, GetFile, ListRanges, Reply};
use sx_listing::write_ranges;
use sx_memory::NoMemory;
use sx_state::{FilePlace, State, file_checks, lease_shown, shown_of, stamp_of};
use sx_tree::FileBody;

/// The place behind the last byte for which a range asks that begins in a file of so many bytes.
fn end_of_range(size: u64, span: First) -> u64
    requires { span.from < size }
    ensures value { result ≡ end_of_last size span.last }
    ensures some { span.from < result }
    ensures within { result ≤ size }
{
    match span.last {
        Some(last) => (last + 1).min(size),
        None => size,
    }
}

/// The places of the first byte and behind the last byte for which a range asks that begins in a file of so many
/// bytes. Where no range is given, that is all of the file.
fn interval(size: u64, span: Option<First>) -> (u64, u64)
    requires { starts_past size span ≡ false }
    ensures from { result.0 ≡ first_of_span span }
    ensures end { result.1 ≡ end_of_span size span }
    ensures order { result.0 ≤ result.1 }
    ensures within { result.1 ≤ size }
    ensures some { (is_none span || nat_lt result.0 result.1) ≡ true }
{
    match span {
        Some(span) => (span.from, end_of_range(size, span)),
        None => (0, size),
    }
}

/// The bytes for which a range asks that begins in the file.
fn part_of(body: &FileBody, span: Option<First>) -> Result<FilePart, NoMemory>
    requires { starts_past (length_of body.now) span ≡ false }
    ensures { IfOk result (λ part. part ≡ bytes_of_file span body.now) }
{
    let length = body.ranges.length();
    let (from, end) = interval(length, span);
    let view = body.ranges.view(from, end)?;
    Ok(FilePart {
        from,
        length,
        whole: span.is_none(),
        view,
    })
}

/// The reply that gives bytes of a file, where the range of the call begins in it.
fn file_bytes(place: &FilePlace, call: &GetFile) -> Result<Reply, NoMemory>
    requires { starts_past (length_of place.now.body) call.now.span ≡ false }
    ensures { IfOk result (λ reply. reply ≡ FileBytes (stamp_of place.now.node)
        (bytes_of_file call.now.span place.now.body) place.now.body.content (shown_of place.now.node)
        (lease_shown place.now.node.facts.lease) place.now.node.facts.meta) }
{
    let part = part_of(place.body, call.span)?;
    let content = place.body.content.copy()?;
    let meta = place.node.facts.meta.copy()?;
    Ok(Reply::FileBytes {
        stamp: stamp_of(place.node),
        part,
        content,
        facts: shown_of(place.node),
        lease: lease_shown(place.node.facts.lease),
        meta,
    })
}

/// The reply that lists the marked ranges of a file, in a range that begins in it.
fn ranges_listed(alloc: Global, place: &FilePlace, call: &ListRanges) -> Result<Reply, NoMemory>
    requires { starts_past (length_of place.now.body) call.now.span ≡ false }
    ensures { IfOk result (λ reply. reply ≡ RangesListed (stamp_of place.now.node) (length_of place.now.body)
        (ranges_text (listed place.now.body.ranges (first_of_span call.now.span)
        (end_of_span (length_of place.now.body) call.now.span)))) }
{
    let length = place.body.ranges.length();
    let (from, end) = interval(length, call.span);
    let spans = place.body.ranges.marked(from, end)?;
    let body = write_ranges(alloc, &spans)?;
    Ok(Reply::RangesListed {
        stamp: stamp_of(place.node),
        length,
        body,
    })
}

/// Get File: the bytes of the range that it gives, or else of the whole file. `call` is the entry's call.
pub fn get_file(state: &State, entry: &Entry, call: &GetFile) -> Result<Reply, NoMemory>
    requires { entry.now.call ≡ entered.GetFile call.now }
    ensures { IfOk result (λ reply. (state.now, reply) ≡ outcome state.now
        (at_place (file_place state.now call.now.at call.now.scope.snap)
        (get_file state.now entry.now.call call.now.span))) }
{
    let place = match state.file_place(call.at.target(), call.scope.snap) {
        Ok(place) => place,
        Err(refusal) => return Ok(Reply::Refused(refusal)),
    };
    match state.first_check(&file_checks(&entry.call, &place)) {
        Some(refusal) => Ok(Reply::Refused(refusal)),
        None => file_bytes(&place, call),
    }
}

/// List Ranges: the marked ranges in the range that it gives, or else in the whole file. `call` is the entry's call.
pub fn list_ranges(state: &State, entry: &Entry, call: &ListRanges) -> Result<Reply, NoMemory>
    requires { entry.now.call ≡ entered.ListRanges call.now }
    ensures { IfOk result (λ reply. (state.now, reply) ≡ outcome state.now
        (at_place (file_place state.now call.now.at call.now.scope.snap)
        (list_ranges state.now entry.now.call call.now.span))) }
{
    let place = match state.file_place(call.at.target(), call.scope.snap) {
        Ok(place) => place,
        Err(refusal) => return Ok(Reply::Refused(refusal)),
    };
    match state.first_check(&file_checks(&entry.call, &place)) {
        Some(refusal) => Ok(Reply::Refused(refusal)),
        None => ranges_listed(state.allocator(), &place, call),
    }
}
