//! Printing the replies of calls.
ghost use Rattle.std.specs.Prelude.{◌≡◌, [], true, if◌then◌else◌};
ghost use Rattle.std.specs.List.{flat_map};
ghost use Rattle.sx_base.specs.Sink.{Prints};
ghost use Rattle.sx_call.specs.declared.replies.Reply.{Reply};
ghost use Rattle.sx_call.specs.declared.replies.Reply.TheVariants as reply;
ghost use Rattle.sx_reply.specs.Fields.{field_text};
ghost use Rattle.sx_reply.specs.Faults.{refusal_fault};
ghost use Rattle.sx_reply.specs.Pages.{md5_name, file_headers};
ghost use Rattle.sx_reply.specs.Refusals.{has_code};
ghost use Rattle.sx_reply.specs.PrintedReply.{page, page_text, fault_page, reply_page, is_reply_printed};
ghost use Rattle.sx_reply.specs.PrintedReply.{lease_headers, is_of_file};

use crate::field::Field;
use crate::frame::{Frame, print_page};
use crate::pages::{Asked, print_bare, print_fault, print_texted, print_viewed};
use crate::refusals::{code_of, message_of, status_of};
use crate::values::text_if;
use sx_base::{Failed, Sink};
use sx_call::{
    Content, FilePart, LeaseShown, LeaseStatus, Meta, Refusal, Reply, Shown, Stamp, Text,
    WriteStatus,
};
use sx_lease::LeaseId;
use sx_moment::Moment;
use sx_names::Quota;

/// Prints the reply of a REST call.
pub(crate) fn print_reply<K: Sink>(sink: &mut K, asked: Asked, reply: &Reply) -> Result<(), Failed>
    requires { is_reply_printed reply.now ≡ true }
    ensures { Prints K.wrote K.write_count K.puts sink.old sink.new
        (page_text asked.place asked.at (reply_page reply.now) asked.shape) result }
{
    match reply {
        Reply::Refused(refusal) => print_refusal(sink, asked, refusal),
        Reply::Stamped { status, stamp } => {
            print_bare(sink, asked, status.code(), &[Field::Stamped(stamp)])
        }
        Reply::Made {
            status,
            stamp,
            facts,
        } => print_made(sink, asked, *status, stamp, facts),
        Reply::Gone => print_bare(sink, asked, 202, &[]),
        Reply::Snapped { moment, stamp } => print_snapshot(sink, asked, moment, stamp),
        Reply::ShareFacts {
            stamp,
            quota,
            lease,
            meta,
        } => print_share(sink, asked, stamp, *quota, lease, meta),
        Reply::Metas { stamp, meta } => print_metas(sink, asked, stamp, meta),
        Reply::DirFacts { stamp, facts, meta } => print_directory(sink, asked, stamp, facts, meta),
        Reply::FileFacts { .. } | Reply::FileBytes { .. } => print_file(sink, asked, reply),
        Reply::Listed { body } => print_listed(sink, asked, body),
        Reply::RangesListed {
            stamp,
            length,
            body,
        } => print_ranges(sink, asked, stamp, *length, body),
        Reply::LeaseDone { status, stamp, id } => print_lease(sink, asked, *status, stamp, id),
        Reply::HandlesClosed { n } => print_closed(sink, asked, *n),
        Reply::Smb(_) => unreachable!(),
    }
}

/// Prints what a file is, or bytes of it.
fn print_file<K: Sink>(sink: &mut K, asked: Asked, reply: &Reply) -> Result<(), Failed>
    requires { is_of_file reply.now ≡ true }
    ensures { Prints K.wrote K.write_count K.puts sink.old sink.new
        (page_text asked.place asked.at (reply_page reply.now) asked.shape) result }
{
    match reply {
        Reply::FileFacts {
            stamp,
            length,
            content,
            facts,
            lease,
            meta,
        } => print_file_facts(sink, asked, stamp, *length, content, facts, lease, meta),
        Reply::FileBytes {
            stamp,
            part,
            content,
            facts,
            lease,
            meta,
        } => print_file_bytes(sink, asked, stamp, part, content, facts, lease, meta),
        _ => unreachable!(),
    }
}

/// Prints that a file or directory was made, or a file's properties set.
fn print_made<'a, K: Sink>(
    sink: &mut K,
    asked: Asked,
    status: WriteStatus,
    stamp: &'a Stamp,
    facts: &'a Shown,
) -> Result<(), Failed>
    ensures { Prints K.wrote K.write_count K.puts sink.old sink.new
        (page_text asked.place asked.at (reply_page (reply.Made status stamp.now facts.now)) asked.shape) result }
{
    print_bare(
        sink,
        asked,
        status.code(),
        &[
            Field::Stamped(stamp),
            Field::Attributes(&facts.attributes),
            Field::Facts(facts),
        ],
    )
}

/// Prints metadata.
fn print_metas<'a, K: Sink>(
    sink: &mut K,
    asked: Asked,
    stamp: &'a Stamp,
    meta: &'a Meta,
) -> Result<(), Failed>
    ensures { Prints K.wrote K.write_count K.puts sink.old sink.new
        (page_text asked.place asked.at (reply_page (reply.Metas stamp.now meta.now)) asked.shape) result }
{
    print_bare(
        sink,
        asked,
        200,
        &[Field::Stamped(stamp), Field::Metas(meta.pairs())],
    )
}

/// Prints what a directory is.
fn print_directory<'a, K: Sink>(
    sink: &mut K,
    asked: Asked,
    stamp: &'a Stamp,
    facts: &'a Shown,
    meta: &'a Meta,
) -> Result<(), Failed>
    ensures { Prints K.wrote K.write_count K.puts sink.old sink.new
        (page_text asked.place asked.at (reply_page (reply.DirFacts stamp.now facts.now meta.now)) asked.shape)
        result }
{
    print_bare(
        sink,
        asked,
        200,
        &[
            Field::Stamped(stamp),
            Field::Attributes(&facts.attributes),
            Field::Facts(facts),
            Field::Metas(meta.pairs()),
        ],
    )
}

/// Prints a refusal.
fn print_refusal<K: Sink>(sink: &mut K, asked: Asked, refusal: &Refusal) -> Result<(), Failed>
    requires { has_code refusal.now ≡ true }
    ensures { Prints K.wrote K.write_count K.puts sink.old sink.new
        (page_text asked.place asked.at (fault_page (refusal_fault refusal.now)) asked.shape) result }
{
    let status = status_of(refusal);
    let code = code_of(refusal);
    let message = message_of(refusal);
    print_fault(sink, asked, status, code.as_bytes(), &message)
}

/// Prints that a snapshot was made.
fn print_snapshot<'a, K: Sink>(
    sink: &mut K,
    asked: Asked,
    moment: &'a Moment,
    stamp: &'a Stamp,
) -> Result<(), Failed>
    ensures { Prints K.wrote K.write_count K.puts sink.old sink.new
        (page_text asked.place asked.at (reply_page (reply.Snapped moment.now stamp.now)) asked.shape) result }
{
    print_bare(
        sink,
        asked,
        201,
        &[Field::Snapshot(moment), Field::Stamped(stamp)],
    )
}

/// Prints what a share is.
fn print_share<'a, K: Sink>(
    sink: &mut K,
    asked: Asked,
    stamp: &'a Stamp,
    quota: Quota,
    lease: &'a LeaseShown,
    meta: &'a Meta,
) -> Result<(), Failed>
    ensures { Prints K.wrote K.write_count K.puts sink.old sink.new
        (page_text asked.place asked.at (reply_page (reply.ShareFacts stamp.now quota lease.now meta.now)) asked.shape)
        result }
{
    print_bare(
        sink,
        asked,
        200,
        &[
            Field::Stamped(stamp),
            Field::Number(b"x-ms-share-quota: ", quota.gib() as u64),
            Field::Lease(lease),
            Field::Metas(meta.pairs()),
        ],
    )
}

/// The name of the header of a file's digest.
fn md5_name(whole: bool) -> &'static [u8]
    ensures { result.now ≡ md5_name whole }
{
    if whole {
        b"Content-MD5: "
    } else {
        b"x-ms-content-md5: "
    }
}

/// The lines on a file.
fn file_fields<'a>(
    stamp: &'a Stamp,
    content: &'a Content,
    digest: &'a [u8],
    ranges: Field<'a>,
    facts: &'a Shown,
    lease: &'a LeaseShown,
    meta: &'a Meta,
) -> [Field<'a>; 13]
    ensures { flat_map field_text result
        ≡ file_headers stamp.now content.now digest.now (field_text ranges.entry) facts.now lease.now meta.now }
{
    [
        Field::Stamped(stamp),
        Field::Kind(&content.kind),
        Field::Content(b"Content-Encoding: ", &content.encoding),
        Field::Content(b"Content-Language: ", &content.language),
        Field::Content(b"Cache-Control: ", &content.cache_control),
        Field::Content(b"Content-Disposition: ", &content.disposition),
        Field::Digest(digest, &content.md5),
        ranges,
        Field::Text(b"x-ms-type: File\r\n"),
        Field::Attributes(&facts.attributes),
        Field::Facts(facts),
        Field::Lease(lease),
        Field::Metas(meta.pairs()),
    ]
}

/// Prints what a file is. Its length is stated where the head alone is asked for.
fn print_file_facts<'a, K: Sink>(
    sink: &mut K,
    asked: Asked,
    stamp: &'a Stamp,
    length: u64,
    content: &'a Content,
    facts: &'a Shown,
    lease: &'a LeaseShown,
    meta: &'a Meta,
) -> Result<(), Failed>
    ensures { Prints K.wrote K.write_count K.puts sink.old sink.new
        (page_text asked.place asked.at
        (reply_page (reply.FileFacts stamp.now length content.now facts.now lease.now meta.now)) asked.shape)
        result }
{
    let fields = file_fields(
        stamp,
        content,
        b"Content-MD5: ",
        Field::Text(b""),
        facts,
        lease,
        meta,
    );
    let frame = Frame {
        status: 200,
        place: asked.place,
        at: asked.at,
        length: if asked.shape.head_only {
            length as u128
        } else {
            0
        },
        close: asked.shape.close,
    };
    print_page(sink, &frame, &fields, &[])
}

/// Prints bytes of a file.
fn print_file_bytes<'a, K: Sink>(
    sink: &mut K,
    asked: Asked,
    stamp: &'a Stamp,
    part: &'a FilePart,
    content: &'a Content,
    facts: &'a Shown,
    lease: &'a LeaseShown,
    meta: &'a Meta,
) -> Result<(), Failed>
    ensures { Prints K.wrote K.write_count K.puts sink.old sink.new
        (page_text asked.place asked.at
        (reply_page (reply.FileBytes stamp.now part.now content.now facts.now lease.now meta.now)) asked.shape)
        result }
{
    let fields = file_fields(
        stamp,
        content,
        md5_name(part.whole),
        Field::Range(part),
        facts,
        lease,
        meta,
    );
    print_viewed(sink, asked, bytes_status(part.whole), &fields, &part.view)
}

/// The status of an answer with bytes of a file: 206 where a range was asked for.
fn bytes_status(whole: bool) -> u16
    ensures { result ≡ if whole then 200 else 206 }
{
    if whole { 200 } else { 206 }
}

/// Prints a page of a listing.
fn print_listed<K: Sink>(sink: &mut K, asked: Asked, body: &Text) -> Result<(), Failed>
    ensures { Prints K.wrote K.write_count K.puts sink.old sink.new
        (page_text asked.place asked.at (reply_page (reply.Listed body.now)) asked.shape) result }
{
    print_texted(
        sink,
        asked,
        &[Field::Text(b"Content-Type: application/xml\r\n")],
        body.bytes(),
    )
}

/// Prints the ranges of a file.
fn print_ranges<K: Sink>(
    sink: &mut K,
    asked: Asked,
    stamp: &Stamp,
    length: u64,
    body: &Text,
) -> Result<(), Failed>
    ensures { Prints K.wrote K.write_count K.puts sink.old sink.new
        (page_text asked.place asked.at (reply_page (reply.RangesListed stamp.now length body.now)) asked.shape)
        result }
{
    print_texted(
        sink,
        asked,
        &[
            Field::Stamped(stamp),
            Field::Number(b"x-ms-content-length: ", length),
            Field::Text(b"Content-Type: application/xml\r\n"),
        ],
        body.bytes(),
    )
}

/// Prints that a lease action is done.
fn print_lease<K: Sink>(
    sink: &mut K,
    asked: Asked,
    status: LeaseStatus,
    stamp: &Stamp,
    id: &Option<LeaseId>,
) -> Result<(), Failed>
    ensures { Prints K.wrote K.write_count K.puts sink.old sink.new
        (page_text asked.place asked.at (reply_page (reply.LeaseDone status stamp.now id.now)) asked.shape) result }
{
    let code = status.code();
    print_lease_lines(
        sink,
        asked,
        code,
        stamp,
        id,
        text_if(code == 202, b"x-ms-lease-time: 0\r\n"),
    )
}

/// Prints a stamp, a lease id where there is one, and a line on the lease's time.
fn print_lease_lines<'a, K: Sink>(
    sink: &mut K,
    asked: Asked,
    status: u16,
    stamp: &'a Stamp,
    id: &'a Option<LeaseId>,
    time: &'a [u8],
) -> Result<(), Failed>
    ensures { Prints K.wrote K.write_count K.puts sink.old sink.new
        (page_text asked.place asked.at (page status (lease_headers stamp.now id.now time.now) []) asked.shape)
        result }
{
    print_bare(
        sink,
        asked,
        status,
        &[
            Field::Stamped(stamp),
            Field::LeaseHeld(id),
            Field::Text(time),
        ],
    )
}

/// Prints how many handles were closed.
fn print_closed<K: Sink>(sink: &mut K, asked: Asked, closed: u32) -> Result<(), Failed>
    ensures { Prints K.wrote K.write_count K.puts sink.old sink.new
        (page_text asked.place asked.at (reply_page (reply.HandlesClosed closed)) asked.shape) result }
{
    print_bare(
        sink,
        asked,
        200,
        &[
            Field::Number(b"x-ms-number-of-handles-closed: ", closed as u64),
            Field::Text(b"x-ms-number-of-handles-failed: 0\r\n"),
        ],
    )
}
