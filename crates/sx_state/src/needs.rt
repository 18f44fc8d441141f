//! What each call needs, one table a question: access, touched interval, lease, ReadOnly attribute, range, new marks.
ghost use Rattle.std.specs.Prelude.{◌≡◌, ◌≤◌};
ghost use Rattle.sx_spec.specs.Needs.{access_needed, between, end_of_last, end_of_span, first_of_span, fresh_within};
ghost use Rattle.sx_spec.specs.Needs.{heeds_read_only, is_out_of_file, lease_given, new_marks, starts_past};
ghost use Rattle.sx_spec.specs.Needs.{touched, writes_under_lease};
ghost use Rattle.sx_spec.specs.Places.{has_rights};

use sx_call::{Call, First};
use sx_extent::{FILE_LIMIT, Ranges};
use sx_guard::Access;
use sx_lease::LeaseId;
use sx_spec::Touch;
use sx_tree::FileBody;

/// These rights.
fn rights(read: bool, write: bool, delete: bool) -> Access
    ensures { result ≡ record { read = read; write = write; delete = delete } }
{
    Access {
        read,
        write,
        delete,
    }
}

/// The access that a call needs.
pub fn access_needed(call: &Call) -> Access
    ensures { result ≡ access_needed call.now }
{
    match call {
        Call::GetFile(_) | Call::ListRanges(_) | Call::SmbRead(_) | Call::SmbList(_) => rights(
            true, false, false,
        ),
        Call::UpdateRange(_)
        | Call::ClearRange(_)
        | Call::SetFileProperties(_)
        | Call::SetFileMetadata(_)
        | Call::SmbWrite(_)
        | Call::SmbResize(_) => rights(false, true, false),
        Call::CreateFile(_) => rights(false, true, true),
        Call::DeleteFile(_) | Call::DeleteDirectory(_) | Call::SmbDispose(_) => rights(
            false, false, true,
        ),
        _ => rights(false, false, false),
    }
}

/// Whether an access has every right that is needed.
pub fn has_rights(needed: Access, access: Access) -> bool
    ensures { result ≡ has_rights needed access }
{
    (!needed.read || access.read)
        && (!needed.write || access.write)
        && (!needed.delete || access.delete)
}

/// The place of the first byte for which a range asks.
pub fn first_of_span(span: Option<First>) -> u64
    ensures { result ≡ first_of_span span }
{
    match span {
        Some(span) => span.from,
        None => 0,
    }
}

/// The place behind a last byte, cut at the file's length in bytes.
fn end_of_last(size: u64, last: Option<u64>) -> u64
    ensures { result ≡ end_of_last size last }
{
    match last {
        Some(last) => { if last < size { last + 1 } else { size } }
        None => size,
    }
}

/// The place behind the last byte for which a range asks, cut at the file's length in bytes.
pub fn end_of_span(size: u64, span: Option<First>) -> u64
    ensures { result ≡ end_of_span size span }
{
    match span {
        Some(span) => end_of_last(size, span.last),
        None => size,
    }
}

/// What lies between two lengths of a file.
fn between_lengths(size: u64, bytes: u64) -> Touch
    ensures { result ≡ between size (Some bytes) }
{
    Touch::Writes {
        from: bytes.min(size),
        end: bytes.max(size),
    }
}

/// The interval of a file of so many bytes at which a call looks for locks.
pub fn touched(size: u64, call: &Call) -> Touch
    ensures { result ≡ touched size call.now }
{
    match call {
        Call::GetFile(c) => Touch::Reads {
            from: first_of_span(c.span),
            end: end_of_span(size, c.span),
        },
        Call::UpdateRange(c) => Touch::Writes {
            from: c.update.from,
            end: c.update.end(),
        },
        Call::ClearRange(c) => Touch::Writes {
            from: c.range.from,
            end: c.range.end,
        },
        Call::SetFileProperties(c) => match c.length {
            Some(length) => between_lengths(size, length.bytes()),
            None => Touch::Untouched,
        },
        Call::CreateFile(c) => Touch::Writes {
            from: 0,
            end: c.length.bytes().max(size),
        },
        Call::SmbRead(c) => Touch::Reads {
            from: c.range.at,
            end: c.range.end(),
        },
        Call::SmbWrite(c) => Touch::Writes {
            from: c.write.at,
            end: c.write.end(),
        },
        Call::SmbResize(c) => between_lengths(size, c.length.bytes()),
        _ => Touch::Untouched,
    }
}

/// Whether a call writes under the lease of its file or share.
pub fn writes_under_lease(call: &Call) -> bool
    ensures { result ≡ writes_under_lease call.now }
{
    match call {
        Call::UpdateRange(_)
        | Call::ClearRange(_)
        | Call::SetFileProperties(_)
        | Call::SetFileMetadata(_)
        | Call::CreateFile(_)
        | Call::DeleteFile(_)
        | Call::DeleteShare(_)
        | Call::SetShareProperties(_)
        | Call::SetShareMetadata(_) => true,
        _ => false,
    }
}

/// The lease id that a call gives.
pub fn lease_given(call: &Call) -> Option<LeaseId>
    ensures { result ≡ lease_given call.now }
{
    match call {
        Call::GetShareProperties(c) => c.scope.lease,
        Call::SetShareProperties(c) => c.lease,
        Call::GetShareMetadata(c) => c.scope.lease,
        Call::SetShareMetadata(c) => c.lease,
        Call::DeleteShare(c) => c.lease,
        Call::CreateFile(c) => c.lease,
        Call::GetFile(c) => c.scope.lease,
        Call::GetFileProperties(c) => c.scope.lease,
        Call::SetFileProperties(c) => c.lease,
        Call::GetFileMetadata(c) => c.scope.lease,
        Call::SetFileMetadata(c) => c.lease,
        Call::UpdateRange(c) => c.lease,
        Call::ClearRange(c) => c.lease,
        Call::ListRanges(c) => c.scope.lease,
        Call::DeleteFile(c) => c.lease,
        _ => None,
    }
}

/// Whether a call is refused at a file that has the ReadOnly attribute.
pub fn heeds_read_only(call: &Call) -> bool
    ensures { result ≡ heeds_read_only call.now }
{
    match call {
        Call::UpdateRange(_) | Call::ClearRange(_) | Call::CreateFile(_) | Call::DeleteFile(_) => {
            true
        }
        Call::SetFileProperties(c) => c.length.is_some(),
        Call::SmbOpen(c) => c.access.access.write || c.access.on_close,
        Call::SmbDispose(c) => c.on,
        _ => false,
    }
}

/// Whether the first byte for which a range asks lies at or past the end of a file of so many bytes.
fn starts_past(size: u64, span: Option<First>) -> bool
    ensures { result ≡ starts_past size span }
{
    match span {
        Some(span) => size <= span.from,
        None => false,
    }
}

/// Whether the first byte for which a call asks lies at or past the end of a file of so many bytes, or for Put Range
/// the last one.
pub fn is_out_of_file(size: u64, call: &Call) -> bool
    ensures { result ≡ is_out_of_file size call.now }
{
    match call {
        Call::GetFile(c) => starts_past(size, c.span),
        Call::ListRanges(c) => starts_past(size, c.span),
        Call::UpdateRange(c) => {
            size <= c.update.from || size <= c.update.end().saturating_sub(1)
        }
        Call::ClearRange(c) => size <= c.range.from || size <= c.range.end.saturating_sub(1),
        _ => false,
    }
}

/// How many granules a write of an interval marks that have no mark; one that ends past the longest file marks none.
fn fresh_within(from: u64, end: u64, ranges: &Ranges) -> u64
    requires { from ≤ end }
    ensures { result ≡ fresh_within from end ranges.now }
{
    if end <= FILE_LIMIT {
        ranges.fresh(from, end)
    } else {
        0
    }
}

/// How many granules of a file a call marks that have no mark.
pub fn new_marks(body: &FileBody, call: &Call) -> u64
    ensures { result ≡ new_marks body.now call.now }
{
    match call {
        Call::UpdateRange(c) => fresh_within(c.update.from, c.update.end(), &body.ranges),
        Call::SmbWrite(c) => fresh_within(c.write.at, c.write.end(), &body.ranges),
        _ => 0,
    }
}
