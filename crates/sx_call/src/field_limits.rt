//! What the types of single fields keep, as facts. These functions do nothing.
ghost use Rattle.std.specs.Prelude.{◌≡◌, ◌<◌, ◌^◌, true, false, IfSome, length};
ghost use Rattle.std.specs.Str.{is_utf8};
ghost use Rattle.sx_call.specs.FieldLimits.{IsContent, IsContentText, IsHandleId, IsHandleIndex, IsLeaseAction};
ghost use Rattle.sx_call.specs.FieldLimits.{IsLeaseId, IsNamedPath, IsReadScope, IsSharesMarker, IsTarget};
ghost use Rattle.sx_call.specs.FieldLimits.{IsTargetBelowRoot, IsTime};
ghost use Rattle.sx_call.specs.Lengths.{is_file_length};
ghost use Rattle.sx_call.specs.Listings.{is_query_text};
ghost use Rattle.sx_call.specs.Opens.{is_open_rights};
ghost use Rattle.sx_call.specs.Ranges.{is_byte_range, is_first, is_read_range};
ghost use Rattle.sx_call.specs.Updates.{is_handle_write, is_range_update};
ghost use Rattle.sx_moment.specs.Moments.{IsShownMoment};
ghost use Rattle.sx_names.specs.Limits.{IsPageSize, IsQuota};
ghost use Rattle.sx_names.specs.Meta.{is_meta};
ghost use Rattle.sx_names.specs.Names.{is_share_name};

use crate::attributes::{DirectoryAttributes, FileAttributes};
use crate::leases::{LeaseAction, SnapOrLease};
use crate::lengths::FileLength;
use crate::listings::{QueryText, SharesMarker};
use crate::opens::OpenAccess;
use crate::ranges::{ByteRange, First, ReadRange};
use crate::targets::{NamedPath, NamedTarget, Target};
use crate::times::Time;
use crate::updates::{HandleWrite, RangeUpdate};
use sx_guard::{HandleId, HandleIndex};
use sx_lease::LeaseId;
use sx_moment::Moment;
use sx_names::{Content, ContentMd5, ContentText, Meta, PageSize, Quota, ShareName, Text};

pub(crate) fn word(number: u32)
    ensures { number < 2 ^ 32 }
{
    let _number = number;
}

pub(crate) fn text(text: &Text)
    ensures { is_utf8 text.now ≡ true }
{
    let _bytes = text.bytes();
}

pub(crate) fn query_text(text: &QueryText)
    ensures { is_query_text text.now ≡ true }
{
    let _bytes = text.text().bytes();
}

pub(crate) fn share_name(name: &ShareName)
    ensures { is_share_name name.now ≡ true }
{
    let _bytes = name.bytes();
}

pub(crate) fn quota(quota: Quota)
    ensures { IsQuota quota }
{
    let _gib = quota.gib();
}

pub(crate) fn meta(meta: &Meta)
    ensures { is_meta meta.now ≡ true }
{
    let _pairs = meta.pairs();
}

pub(crate) fn page_size(size: PageSize)
    ensures { IsPageSize size }
{
    let _results = size.results();
}

pub(crate) fn shares_marker(marker: &Option<SharesMarker>)
    ensures { IfSome marker.now IsSharesMarker }
{
    match marker {
        Some(marker) => {
            share_name(&marker.share);
            moment_if_any(marker.snapshot);
        }
        None => {}
    }
}

pub(crate) fn moment(moment: Moment)
    ensures { IsShownMoment moment }
{
    let _ticks = moment.ticks();
}

pub(crate) fn moment_if_any(moment: Option<Moment>)
    ensures { IfSome moment IsShownMoment }
{
    match moment {
        Some(moment) => {
            let _ticks = moment.ticks();
        }
        None => {}
    }
}

pub(crate) fn time(time: Time)
    ensures { IsTime time }
{
    match time {
        Time::At(at) => moment(at),
        Time::Keep | Time::Now => {}
    }
}

fn lease_id(id: LeaseId)
    ensures { IsLeaseId id }
{
    let _number = id.0;
}

pub(crate) fn lease(id: Option<LeaseId>)
    ensures { IfSome id IsLeaseId }
{
    match id {
        Some(id) => lease_id(id),
        None => {}
    }
}

pub(crate) fn lease_action(action: LeaseAction)
    ensures { IsLeaseAction action }
{
    match action {
        LeaseAction::Acquire { proposed } => lease(proposed),
        LeaseAction::Change { id, to } => {
            lease_id(id);
            lease_id(to);
        }
        LeaseAction::Release { id } => lease_id(id),
        LeaseAction::Break => {}
    }
}

pub(crate) fn read_scope(scope: SnapOrLease)
    ensures { IsReadScope scope }
{
    moment_if_any(scope.snap);
    lease(scope.lease);
}

pub(crate) fn target(at: &Target)
    ensures { IsTarget at.now }
{
    share_name(&at.share);
    let _parts = at.path.parts();
}

pub(crate) fn target_below_root(at: &NamedTarget)
    ensures { IsTargetBelowRoot at.now }
{
    target(at.target());
}

pub(crate) fn named_path(path: &NamedPath)
    ensures { IsNamedPath path.now }
{
    let _parts = path.path().parts();
}

pub(crate) fn directory_attributes(attributes: DirectoryAttributes)
    ensures { attributes.directory ≡ true }
{
    let _attributes = attributes.attributes();
}

pub(crate) fn file_attributes(attributes: FileAttributes)
    ensures { attributes.directory ≡ false }
{
    let _attributes = attributes.attributes();
}

pub(crate) fn file_attributes_if_any(attributes: Option<FileAttributes>)
    ensures { IfSome attributes (λ a. a.directory ≡ false) }
{
    match attributes {
        Some(attributes) => file_attributes(attributes),
        None => {}
    }
}

pub(crate) fn file_length(length: FileLength)
    ensures { is_file_length length ≡ true }
{
    let _bytes = length.bytes();
}

pub(crate) fn file_length_if_any(length: Option<FileLength>)
    ensures { IfSome length (λ l. is_file_length l ≡ true) }
{
    match length {
        Some(length) => file_length(length),
        None => {}
    }
}

fn content_text(text: &Option<ContentText>)
    ensures { IsContentText text.now }
{
    match text {
        Some(text) => {
            let _bytes = text.bytes();
        }
        None => {}
    }
}

fn content_md5(md5: &Option<ContentMd5>)
    ensures { IfSome md5.now (λ bytes. length bytes ≡ 16) }
{
    match md5 {
        Some(md5) => {
            let _bytes = md5.bytes();
        }
        None => {}
    }
}

pub(crate) fn content(content: &Content)
    ensures { IsContent content.now }
{
    content_text(&content.kind);
    content_text(&content.encoding);
    content_text(&content.language);
    content_text(&content.cache_control);
    content_text(&content.disposition);
    content_md5(&content.md5);
}

pub(crate) fn first_if_any(span: Option<First>)
    ensures { IfSome span (λ f. is_first f ≡ true) }
{
    match span {
        Some(span) => {
            let _from = span.from;
        }
        None => {}
    }
}

pub(crate) fn byte_range(range: ByteRange)
    ensures { is_byte_range range ≡ true }
{
    let _from = range.from;
}

pub(crate) fn read_range(range: ReadRange)
    ensures { is_read_range range ≡ true }
{
    let _at = range.at;
}

pub(crate) fn range_update(update: &RangeUpdate)
    ensures { is_range_update update.now ≡ true }
{
    let _from = update.from;
}

pub(crate) fn handle_write(write: &HandleWrite)
    ensures { is_handle_write write.now ≡ true }
{
    let _at = write.at;
}

pub(crate) fn open_access(access: OpenAccess)
    ensures { is_open_rights access ≡ true }
{
    let _on_close = access.on_close;
}

pub(crate) fn handle_if_any(handle: Option<HandleId>)
    ensures { IfSome handle IsHandleId }
{
    match handle {
        Some(handle) => {
            let _session = handle.session;
            let _index = handle.index;
        }
        None => {}
    }
}

pub(crate) fn handle_index(index: HandleIndex)
    ensures { IsHandleIndex index }
{
    let _number = index.number();
}
