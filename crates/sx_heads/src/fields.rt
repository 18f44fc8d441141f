//! The fields of heads, put behind one another.

ghost use Rattle.std.specs.Prelude.{◌≡◌, ◌++◌, ◌∷◌, [], IfOk, OnOk, Some, codes, decimal, true};
ghost use Rattle.std.specs.Option.{option_map};
ghost use Rattle.sx_base.specs.Moment.{moment_text};
ghost use Rattle.sx_call.specs.declared.leases.LeaseAction.TheVariants.{Acquire, Change, Release};
ghost use Rattle.sx_heads.specs.Fields.{header, headers_of, one, metas, meta_header, with_fields};
ghost use Rattle.sx_heads.specs.FileSpellings.{range_field, content_fields};
ghost use Rattle.sx_heads.specs.ShareSpellings.{action_fields, said_if};
ghost use Rattle.sx_heads.specs.Spellings.{ending};
ghost use Rattle.sx_names.specs.MetaPair.{is_meta_name};
ghost use Rattle.sx_heads.specs.Values.{id_text, handle_text, handle_or_all, digest_text};
ghost use Rattle.sx_heads.specs.Values.{bytes_text, time_text, attributes_text};

use crate::values::{
    attributes_text, bytes_text, decimal_text, handle_text, id_digits, moment_digits,
};
use http::Method;
use std::alloc::Global;
use sx_base::Items;
use sx_call::{FileAttributes, FileLength, First, LeaseAction, Time};
use sx_guard::HandleId;
use sx_http::{Head, Header, Request};
use sx_lease::LeaseId;
use sx_memory::NoMemory;
use sx_moment::Moment;
use sx_names::{Attributes, Content, ContentMd5, ContentText, MetaPair, Text};

/// A header.
fn put_header(
    alloc: Global,
    headers: &mut Items<Header>,
    name: Text,
    value: &[u8],
) -> Result<(), NoMemory>
    ensures { OnOk result (headers.new ≡ headers.old ++ header name value.now ∷ []) }
{
    let value = Items::copy_of(alloc, value)?;
    headers.push(Header { name, value })
}

/// A field with this value.
pub(crate) fn put(
    alloc: Global,
    headers: &mut Items<Header>,
    name: &str,
    value: &[u8],
) -> Result<(), NoMemory>
    ensures { OnOk result (headers.new ≡ headers.old ++ headers_of (one name.now (Some value.now))) }
{
    let name = Text::copy_of(alloc, name)?;
    put_header(alloc, headers, name, value)
}

/// A field with this text.
fn put_text(
    alloc: Global,
    headers: &mut Items<Header>,
    name: &str,
    text: Text,
) -> Result<(), NoMemory>
    ensures { OnOk result (headers.new ≡ headers.old ++ headers_of (one name.now (Some text))) }
{
    put(alloc, headers, name, text.bytes())
}

/// A field with a number.
pub(crate) fn put_number(
    alloc: Global,
    headers: &mut Items<Header>,
    name: &str,
    number: u64,
) -> Result<(), NoMemory>
    ensures { OnOk result (headers.new ≡ headers.old ++ headers_of (one name.now (Some (decimal number)))) }
{
    let value = decimal_text(alloc, number)?;
    put(alloc, headers, name, value.bytes())
}

/// A field with a lease id.
pub(crate) fn put_id(
    alloc: Global,
    headers: &mut Items<Header>,
    name: &str,
    id: LeaseId,
) -> Result<(), NoMemory>
    ensures { OnOk result (headers.new ≡ headers.old ++ headers_of (one name.now (Some (id_text id)))) }
{
    let mut buffer = [0; 36];
    put(alloc, headers, name, id_digits(id, &mut buffer))
}

/// A field with a lease id, where there is one.
pub(crate) fn put_id_if(
    alloc: Global,
    headers: &mut Items<Header>,
    name: &str,
    id: Option<LeaseId>,
) -> Result<(), NoMemory>
    ensures { OnOk result (headers.new ≡ headers.old ++ headers_of (one name.now (option_map id_text id))) }
{
    match id {
        Some(id) => put_id(alloc, headers, name, id),
        None => Ok(()),
    }
}

/// A field with a moment.
fn put_moment(
    alloc: Global,
    headers: &mut Items<Header>,
    name: &str,
    moment: Moment,
) -> Result<(), NoMemory>
    ensures { OnOk result (headers.new ≡ headers.old ++ headers_of (one name.now (Some (moment_text moment)))) }
{
    put(alloc, headers, name, &moment_digits(moment))
}

/// A field with a moment, where there is one.
pub(crate) fn put_moment_if(
    alloc: Global,
    headers: &mut Items<Header>,
    name: &str,
    moment: Option<Moment>,
) -> Result<(), NoMemory>
    ensures { OnOk result (headers.new ≡ headers.old ++ headers_of (one name.now (option_map moment_text moment))) }
{
    match moment {
        Some(moment) => put_moment(alloc, headers, name, moment),
        None => Ok(()),
    }
}

/// A field with a time that is set.
pub(crate) fn put_time(
    alloc: Global,
    headers: &mut Items<Header>,
    name: &str,
    time: &Time,
) -> Result<(), NoMemory>
    ensures { OnOk result (headers.new ≡ headers.old ++ headers_of (one name.now (Some (time_text time.now)))) }
{
    match time {
        Time::Keep => put(alloc, headers, name, b"preserve"),
        Time::Now => put(alloc, headers, name, b"now"),
        Time::At(moment) => put_moment(alloc, headers, name, *moment),
    }
}

/// x-ms-file-attributes.
pub(crate) fn put_attributes(
    alloc: Global,
    headers: &mut Items<Header>,
    attributes: &Attributes,
) -> Result<(), NoMemory>
    ensures { OnOk result
        (headers.new ≡ headers.old
        ++ headers_of (one (codes "x-ms-file-attributes") (Some (attributes_text attributes.now)))) }
{
    let value = attributes_text(alloc, attributes)?;
    put_text(alloc, headers, "x-ms-file-attributes", value)
}

/// x-ms-file-attributes, where they are given.
pub(crate) fn put_attributes_if(
    alloc: Global,
    headers: &mut Items<Header>,
    attributes: &Option<FileAttributes>,
) -> Result<(), NoMemory>
    ensures { OnOk result
        (headers.new ≡ headers.old
        ++ headers_of (one (codes "x-ms-file-attributes") (option_map attributes_text attributes.now))) }
{
    match attributes {
        Some(attributes) => put_attributes(alloc, headers, &attributes.attributes()),
        None => Ok(()),
    }
}

/// x-ms-content-length, where it is given.
pub(crate) fn put_length_if(
    alloc: Global,
    headers: &mut Items<Header>,
    length: Option<FileLength>,
) -> Result<(), NoMemory>
    ensures { OnOk result
        (headers.new ≡ headers.old ++ headers_of (one (codes "x-ms-content-length") (option_map decimal length))) }
{
    match length {
        Some(length) => put_number(alloc, headers, "x-ms-content-length", length.bytes()),
        None => Ok(()),
    }
}

/// x-ms-delete-snapshots, where the snapshots are deleted too.
pub(crate) fn put_include(
    alloc: Global,
    headers: &mut Items<Header>,
    include: bool,
) -> Result<(), NoMemory>
    ensures { OnOk result
        (headers.new ≡ headers.old
        ++ headers_of (one (codes "x-ms-delete-snapshots") (said_if include (codes "include")))) }
{
    if include {
        put(alloc, headers, "x-ms-delete-snapshots", b"include")
    } else {
        Ok(())
    }
}

/// x-ms-handle-id: a handle, or `*` for all of them.
pub(crate) fn put_handle(
    alloc: Global,
    headers: &mut Items<Header>,
    handle: Option<HandleId>,
) -> Result<(), NoMemory>
    ensures { OnOk result
        (headers.new ≡ headers.old ++ headers_of (one (codes "x-ms-handle-id") (Some (handle_or_all handle)))) }
{
    match handle {
        Some(handle) => put_one_handle(alloc, headers, handle),
        None => put(alloc, headers, "x-ms-handle-id", b"*"),
    }
}

fn put_one_handle(
    alloc: Global,
    headers: &mut Items<Header>,
    handle: HandleId,
) -> Result<(), NoMemory>
    ensures { OnOk result
        (headers.new ≡ headers.old ++ headers_of (one (codes "x-ms-handle-id") (Some (handle_text handle)))) }
{
    let value = handle_text(alloc, handle)?;
    put_text(alloc, headers, "x-ms-handle-id", value)
}

fn put_content_text(
    alloc: Global,
    headers: &mut Items<Header>,
    name: &str,
    text: &Option<ContentText>,
) -> Result<(), NoMemory>
    ensures { OnOk result (headers.new ≡ headers.old ++ headers_of (one name.now text.now)) }
{
    match text {
        Some(text) => put(alloc, headers, name, text.bytes()),
        None => Ok(()),
    }
}

#[tactic(auto, unfolding(crate::specs::Values::digest_text))]
fn put_digest(
    alloc: Global,
    headers: &mut Items<Header>,
    digest: &ContentMd5,
) -> Result<(), NoMemory>
    ensures { OnOk result
        (headers.new ≡ headers.old ++ headers_of (one (codes "x-ms-content-md5") (Some (digest_text digest.now)))) }
{
    put(alloc, headers, "x-ms-content-md5", &digest.text())
}

fn put_digest_if(
    alloc: Global,
    headers: &mut Items<Header>,
    digest: &Option<ContentMd5>,
) -> Result<(), NoMemory>
    ensures { OnOk result
        (headers.new ≡ headers.old ++ headers_of (one (codes "x-ms-content-md5") (option_map digest_text digest.now))) }
{
    match digest {
        Some(digest) => put_digest(alloc, headers, digest),
        None => Ok(()),
    }
}

fn put_descriptions(
    alloc: Global,
    headers: &mut Items<Header>,
    content: &Content,
) -> Result<(), NoMemory>
    ensures { OnOk result (headers.new ≡ with_fields headers.old (
        one (codes "x-ms-content-type") content.now.kind ∷ one (codes "x-ms-content-encoding") content.now.encoding
        ∷ one (codes "x-ms-content-language") content.now.language ∷ [])) }
{
    put_content_text(alloc, headers, "x-ms-content-type", &content.kind)?;
    put_content_text(alloc, headers, "x-ms-content-encoding", &content.encoding)?;
    put_content_text(alloc, headers, "x-ms-content-language", &content.language)
}

fn put_controls(
    alloc: Global,
    headers: &mut Items<Header>,
    content: &Content,
) -> Result<(), NoMemory>
    ensures { OnOk result (headers.new ≡ with_fields headers.old (
        one (codes "x-ms-cache-control") content.now.cache_control
        ∷ one (codes "x-ms-content-disposition") content.now.disposition
        ∷ one (codes "x-ms-content-md5") (option_map digest_text content.now.md5) ∷ [])) }
{
    put_content_text(alloc, headers, "x-ms-cache-control", &content.cache_control)?;
    put_content_text(
        alloc,
        headers,
        "x-ms-content-disposition",
        &content.disposition,
    )?;
    put_digest_if(alloc, headers, &content.md5)
}

/// The content headers.
pub(crate) fn put_content(
    alloc: Global,
    headers: &mut Items<Header>,
    content: &Content,
) -> Result<(), NoMemory>
    ensures { OnOk result (headers.new ≡ with_fields headers.old (content_fields content.now [])) }
{
    put_descriptions(alloc, headers, content)?;
    put_controls(alloc, headers, content)
}

/// x-ms-range.
pub(crate) fn put_range(
    alloc: Global,
    headers: &mut Items<Header>,
    from: u64,
    last: Option<u64>,
) -> Result<(), NoMemory>
    ensures { OnOk result
        (headers.new ≡ headers.old
        ++ headers_of (range_field (Some (bytes_text (record { from = from; last = last }))))) }
{
    let value = bytes_text(alloc, from, last)?;
    put_text(alloc, headers, "x-ms-range", value)
}

/// x-ms-range, where there is one.
pub(crate) fn put_span(
    alloc: Global,
    headers: &mut Items<Header>,
    span: &Option<First>,
) -> Result<(), NoMemory>
    ensures { OnOk result (headers.new ≡ headers.old ++ headers_of (range_field (option_map bytes_text span.now))) }
{
    match span {
        Some(span) => put_range(alloc, headers, span.from, span.last),
        None => Ok(()),
    }
}

fn meta_name(alloc: Global, name: &[u8]) -> Result<Text, NoMemory>
    requires { is_meta_name name.now ≡ true }
    ensures { IfOk result (λ t. t ≡ codes "x-ms-meta-" ++ name.now) }
{
    let mut text = Text::copy_of(alloc, "x-ms-meta-")?;
    match std::str::from_utf8(name) {
        Ok(name) => text.append(name)?,
        Err(_) => unreachable!(),
    }
    Ok(text)
}

fn put_meta(alloc: Global, headers: &mut Items<Header>, pair: &MetaPair) -> Result<(), NoMemory>
    ensures { OnOk result (headers.new ≡ headers.old ++ meta_header pair.now ∷ []) }
{
    let name = meta_name(alloc, pair.name.bytes())?;
    put_header(alloc, headers, name, pair.value.bytes())
}

/// Metadata.
pub(crate) fn put_metas(
    alloc: Global,
    headers: &mut Items<Header>,
    pairs: &[MetaPair],
) -> Result<(), NoMemory>
    ensures { OnOk result (headers.new ≡ headers.old ++ headers_of (metas pairs.now)) }
{
    for pair in pairs {
        put_meta(alloc, headers, pair)?;
    }
    Ok(())
}

fn put_acquire(
    alloc: Global,
    headers: &mut Items<Header>,
    proposed: Option<LeaseId>,
) -> Result<(), NoMemory>
    ensures { OnOk result (headers.new ≡ with_fields headers.old (action_fields (Acquire proposed))) }
{
    put(alloc, headers, "x-ms-lease-action", b"acquire")?;
    put(alloc, headers, "x-ms-lease-duration", b"-1")?;
    put_id_if(alloc, headers, "x-ms-proposed-lease-id", proposed)
}

fn put_change(
    alloc: Global,
    headers: &mut Items<Header>,
    id: LeaseId,
    to: LeaseId,
) -> Result<(), NoMemory>
    ensures { OnOk result (headers.new ≡ with_fields headers.old (action_fields (Change id to))) }
{
    put(alloc, headers, "x-ms-lease-action", b"change")?;
    put_id(alloc, headers, "x-ms-lease-id", id)?;
    put_id(alloc, headers, "x-ms-proposed-lease-id", to)
}

fn put_release(alloc: Global, headers: &mut Items<Header>, id: LeaseId) -> Result<(), NoMemory>
    ensures { OnOk result (headers.new ≡ with_fields headers.old (action_fields (Release id))) }
{
    put(alloc, headers, "x-ms-lease-action", b"release")?;
    put_id(alloc, headers, "x-ms-lease-id", id)
}

/// An action on a lease.
pub(crate) fn put_action(
    alloc: Global,
    headers: &mut Items<Header>,
    action: &LeaseAction,
) -> Result<(), NoMemory>
    ensures { OnOk result (headers.new ≡ with_fields headers.old (action_fields action.now)) }
{
    match action {
        LeaseAction::Acquire { proposed } => put_acquire(alloc, headers, *proposed),
        LeaseAction::Change { id, to } => put_change(alloc, headers, *id, *to),
        LeaseAction::Release { id } => put_release(alloc, headers, *id),
        LeaseAction::Break => put(alloc, headers, "x-ms-lease-action", b"break"),
    }
}

/// The request with these headers, and behind them the version and the length.
pub(crate) fn request_with(
    alloc: Global,
    method: Method,
    target: Text,
    headers: Items<Header>,
    body: Items<u8>,
) -> Result<Request, NoMemory>
    ensures { IfOk result (λ r. r ≡ record {
      head = record { method = method; target = target; v11 = true; headers = with_fields headers (ending body) };
      body = body;
    }) }
{
    let mut headers = headers;
    put(alloc, &mut headers, "x-ms-version", b"2020-10-02")?;
    put_number(alloc, &mut headers, "content-length", body.len() as u64)?;
    Ok(Request {
        head: Head {
            method,
            target,
            v11: true,
            headers,
        },
        body,
    })
}
