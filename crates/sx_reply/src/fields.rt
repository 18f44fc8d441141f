//! Gathering the parts of an answer.
ghost use Rattle.std.specs.Prelude.{codes, decimal, ◌≡◌, ◌≤◌, ◌+◌, ◌-◌, unwrap_or};
ghost use Rattle.std.specs.List.{flat_map};
ghost use Rattle.sx_base.specs.Printer.{Gathers};
ghost use Rattle.sx_reply.specs.Fields.{field_text};
ghost use Rattle.sx_reply.specs.Headers.{stamp_text, facts_text, lease_text, meta_text, pair_text, kind_text, md5_text};
ghost use Rattle.sx_reply.specs.Headers.{line, line_if, lease_id_text};
ghost use Rattle.sx_base.specs.Moment.{moment_text};
ghost use Rattle.sx_reply.specs.Pages.{range_text, range_lines};

use crate::attributes::gather_attributes;
use crate::escapes::{gather_escaped, gather_escaped_text};
use crate::field::Field;
use crate::gather::{Gathered, Word, gather, gather_bytes};
use crate::times::{date_text, moment_text};
use crate::values::{tag_digits, uuid_digits};
use sx_base::{Failed, Sink};
use sx_call::{FilePart, LeaseShown, Shown, Stamp};
use sx_lease::LeaseId;
use sx_moment::Moment;
use sx_names::{ContentMd5, ContentText, MetaPair};

/// Gathers the texts of parts one behind another.
pub(crate) fn gather_fields<K: Sink>(
    sink: &mut K,
    gathered: &mut Gathered,
    fields: &[Field],
) -> Result<(), Failed>
    ensures { Gathers K.wrote K.write_count K.puts sink.old sink.new gathered.old.items gathered.new.items
        (flat_map field_text fields.now) result }
{
    for field in fields {
        match gather_field(sink, gathered, field) {
            Ok(()) => {}
            Err(failed) => return Err(failed),
        }
    }
    Ok(())
}

/// Gathers the text of a part.
fn gather_field<K: Sink>(sink: &mut K, gathered: &mut Gathered, field: &Field) -> Result<(), Failed>
    ensures { Gathers K.wrote K.write_count K.puts sink.old sink.new gathered.old.items gathered.new.items
        (field_text field.now) result }
{
    match *field {
        Field::Text(bytes) => gather_bytes(sink, gathered, bytes),
        Field::Number(name, value) => gather_number(sink, gathered, name, value),
        Field::Snapshot(moment) => gather_snapshot(sink, gathered, moment),
        Field::Stamped(stamp) => gather_stamp(sink, gathered, stamp),
        Field::Attributes(set) => gather_attributes(sink, gathered, set),
        Field::Facts(node) => gather_facts(sink, gathered, node),
        Field::Lease(lease) => gather_bytes(sink, gathered, lease_text(lease)),
        Field::LeaseHeld(id) => gather_lease_id(sink, gathered, id),
        Field::Metas(pairs) => gather_metas(sink, gathered, pairs),
        Field::Kind(kind) => gather_kind(sink, gathered, kind),
        Field::Content(name, value) => gather_content(sink, gathered, name, value),
        Field::Digest(name, md5) => gather_digest(sink, gathered, name, md5),
        Field::Range(part) => gather_range(sink, gathered, part),
        Field::Escaped(text) => gather_escaped_text(sink, gathered, text),
        Field::Message(words) => gather_escaped(sink, gathered, words),
    }
}

/// Gathers a line with a number.
fn gather_number<K: Sink>(
    sink: &mut K,
    gathered: &mut Gathered,
    name: &[u8],
    value: u64,
) -> Result<(), Failed>
    ensures { Gathers K.wrote K.write_count K.puts sink.old sink.new gathered.old.items gathered.new.items
        (line name.now (decimal value)) result }
{
    gather(
        sink,
        gathered,
        &[Word::Text(name), Word::Number(value), Word::Text(b"\r\n")],
    )
}

/// Gathers a line with a text.
fn gather_line<'a, K: Sink>(
    sink: &mut K,
    gathered: &mut Gathered,
    name: &'a [u8],
    value: &'a [u8],
) -> Result<(), Failed>
    ensures { Gathers K.wrote K.write_count K.puts sink.old sink.new gathered.old.items gathered.new.items
        (line name.now value.now) result }
{
    gather(
        sink,
        gathered,
        &[Word::Text(name), Word::Text(value), Word::Text(b"\r\n")],
    )
}

/// Gathers the line with a snapshot's moment.
fn gather_snapshot<K: Sink>(
    sink: &mut K,
    gathered: &mut Gathered,
    moment: &Moment,
) -> Result<(), Failed>
    ensures { Gathers K.wrote K.write_count K.puts sink.old sink.new gathered.old.items gathered.new.items
        (line (codes "x-ms-snapshot: ") (moment_text moment.now)) result }
{
    let text = moment_text(*moment);
    gather(
        sink,
        gathered,
        &[
            Word::Text(b"x-ms-snapshot: "),
            Word::Text(&text),
            Word::Text(b"\r\n"),
        ],
    )
}

/// Gathers the change time and the ETag.
#[tactic(auto, unfolding(crate::specs::Headers::stamp_text))]
fn gather_stamp<K: Sink>(sink: &mut K, gathered: &mut Gathered, stamp: &Stamp) -> Result<(), Failed>
    ensures { Gathers K.wrote K.write_count K.puts sink.old sink.new gathered.old.items gathered.new.items
        (stamp_text stamp.now) result }
{
    let changed = date_text(stamp.changed);
    let tag = tag_digits(stamp.etag);
    gather(
        sink,
        gathered,
        &[
            Word::Text(b"Last-Modified: "),
            Word::Text(&changed),
            Word::Text(b"\r\nETag: \"0x"),
            Word::Text(&tag),
            Word::Text(b"\"\r\n"),
        ],
    )
}

/// Gathers the times and ids of a file or directory.
#[tactic(auto, unfolding(crate::specs::Headers::facts_text))]
fn gather_facts<K: Sink>(sink: &mut K, gathered: &mut Gathered, node: &Shown) -> Result<(), Failed>
    ensures { Gathers K.wrote K.write_count K.puts sink.old sink.new gathered.old.items gathered.new.items
        (facts_text node.now) result }
{
    let created = moment_text(node.created);
    let written = moment_text(node.written);
    let changed = moment_text(node.changed);
    gather(
        sink,
        gathered,
        &[
            Word::Text(b"x-ms-file-creation-time: "),
            Word::Text(&created),
            Word::Text(b"\r\nx-ms-file-last-write-time: "),
            Word::Text(&written),
            Word::Text(b"\r\nx-ms-file-change-time: "),
            Word::Text(&changed),
            Word::Text(b"\r\nx-ms-file-id: "),
            Word::Number(node.id),
            Word::Text(b"\r\nx-ms-file-parent-id: "),
            Word::Number(node.parent),
            Word::Text(b"\r\n"),
        ],
    )
}

/// Gathers the metadata.
fn gather_metas<K: Sink>(
    sink: &mut K,
    gathered: &mut Gathered,
    pairs: &[MetaPair],
) -> Result<(), Failed>
    ensures { Gathers K.wrote K.write_count K.puts sink.old sink.new gathered.old.items gathered.new.items
        (meta_text pairs.now) result }
{
    for pair in pairs {
        match gather_pair(sink, gathered, pair) {
            Ok(()) => {}
            Err(failed) => return Err(failed),
        }
    }
    Ok(())
}

/// Gathers a name of metadata with its value.
#[tactic(auto, unfolding(crate::specs::Headers::pair_text))]
fn gather_pair<K: Sink>(
    sink: &mut K,
    gathered: &mut Gathered,
    pair: &MetaPair,
) -> Result<(), Failed>
    ensures { Gathers K.wrote K.write_count K.puts sink.old sink.new gathered.old.items gathered.new.items
        (pair_text pair.now) result }
{
    gather(
        sink,
        gathered,
        &[
            Word::Text(b"x-ms-meta-"),
            Word::Text(pair.name.bytes()),
            Word::Text(b": "),
            Word::Text(pair.value.bytes()),
            Word::Text(b"\r\n"),
        ],
    )
}

/// The lines on a lease.
#[tactic(auto, unfolding(crate::specs::Headers::lease_text))]
fn lease_text(lease: &LeaseShown) -> &'static [u8]
    ensures { result.now ≡ lease_text lease.now }
{
    match lease {
        LeaseShown::Leased => {
            b"x-ms-lease-status: locked\r\nx-ms-lease-state: leased\r\nx-ms-lease-duration: infinite\r\n"
        }
        LeaseShown::Available => b"x-ms-lease-status: unlocked\r\nx-ms-lease-state: available\r\n",
        LeaseShown::Broken => b"x-ms-lease-status: unlocked\r\nx-ms-lease-state: broken\r\n",
    }
}

/// Gathers the line with the id under which a lease is held, if one is told.
fn gather_lease_id<K: Sink>(
    sink: &mut K,
    gathered: &mut Gathered,
    id: &Option<LeaseId>,
) -> Result<(), Failed>
    ensures { Gathers K.wrote K.write_count K.puts sink.old sink.new gathered.old.items gathered.new.items
        (lease_id_text id.now) result }
{
    match id {
        None => gather(sink, gathered, &[]),
        Some(id) => {
            let mut buffer = [0u8; 36];
            let text = uuid_digits(id.0, &mut buffer);
            gather_line(sink, gathered, b"x-ms-lease-id: ", text)
        }
    }
}

/// The content type that is kept, or else `application/octet-stream`.
fn kind_of(kind: &Option<ContentText>) -> &[u8]
    ensures { result.now ≡ unwrap_or kind.now (codes "application/octet-stream") }
{
    match kind {
        None => b"application/octet-stream",
        Some(kind) => kind.bytes(),
    }
}

/// Gathers the line with the content type.
fn gather_kind<K: Sink>(
    sink: &mut K,
    gathered: &mut Gathered,
    kind: &Option<ContentText>,
) -> Result<(), Failed>
    ensures { Gathers K.wrote K.write_count K.puts sink.old sink.new gathered.old.items gathered.new.items
        (kind_text kind.now) result }
{
    gather_line(sink, gathered, b"Content-Type: ", kind_of(kind))
}

/// Gathers the line with a content header's value, if one is kept.
fn gather_content<K: Sink>(
    sink: &mut K,
    gathered: &mut Gathered,
    name: &[u8],
    value: &Option<ContentText>,
) -> Result<(), Failed>
    ensures { Gathers K.wrote K.write_count K.puts sink.old sink.new gathered.old.items gathered.new.items
        (line_if name.now value.now) result }
{
    match value {
        None => gather(sink, gathered, &[]),
        Some(value) => gather_line(sink, gathered, name, value.bytes()),
    }
}

/// Gathers the line with a digest, if one is kept.
fn gather_digest<K: Sink>(
    sink: &mut K,
    gathered: &mut Gathered,
    name: &[u8],
    md5: &Option<ContentMd5>,
) -> Result<(), Failed>
    ensures { Gathers K.wrote K.write_count K.puts sink.old sink.new gathered.old.items gathered.new.items
        (md5_text name.now md5.now) result }
{
    match md5 {
        None => gather(sink, gathered, &[]),
        Some(md5) => {
            let text = md5.text();
            gather_line(sink, gathered, name, &text)
        }
    }
}

/// Gathers the lines on ranges.
fn gather_range<K: Sink>(
    sink: &mut K,
    gathered: &mut Gathered,
    part: &FilePart,
) -> Result<(), Failed>
    ensures { Gathers K.wrote K.write_count K.puts sink.old sink.new gathered.old.items gathered.new.items
        (range_text part.now) result }
{
    let last = last_of(part.from, part.view.length(), part.length);
    gather_range_lines(sink, gathered, part.whole, part.from, last, part.length)
}

/// Gathers the lines on ranges, by whether one was asked for, its first byte, its last, and the file's length.
fn gather_range_lines<K: Sink>(
    sink: &mut K,
    gathered: &mut Gathered,
    whole: bool,
    from: u64,
    last: u64,
    length: u64,
) -> Result<(), Failed>
    ensures { Gathers K.wrote K.write_count K.puts sink.old sink.new gathered.old.items gathered.new.items
        (range_lines whole from last length) result }
{
    if whole {
        return gather_bytes(sink, gathered, b"Accept-Ranges: bytes\r\n");
    }
    gather(
        sink,
        gathered,
        &[
            Word::Text(b"Accept-Ranges: bytes\r\nContent-Range: bytes "),
            Word::Number(from),
            Word::Text(b"-"),
            Word::Number(last),
            Word::Text(b"/"),
            Word::Number(length),
            Word::Text(b"\r\n"),
        ],
    )
}

/// The place of the last of so many bytes from a place on, in a file of a length.
fn last_of(from: u64, count: u64, length: u64) -> u64
    requires { from + count ≤ length }
    ensures { result ≡ from + count - 1 }
{
    let past = from + count;
    past.saturating_sub(1)
}
