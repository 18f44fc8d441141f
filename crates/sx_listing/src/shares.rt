//! The body that lists shares.

ghost use Rattle.std.specs.Prelude.{◌≡◌, ◌++◌, IfOk, OnOk, Some};
ghost use Rattle.std.specs.List.{flat_map};
ghost use Rattle.sx_listing.specs.Shares.{snapshot_text, properties_text, share_text, shares_asked_text, shares_text};

use crate::etags::append_etag;
use crate::moments::{append_date, append_moment};
use crate::texts::append_escaped;
use std::alloc::Global;
use sx_base::NoMemory;
use sx_call::{ShareItem, SharesPage};
use sx_moment::Moment;
use sx_names::Text;

/// The body that lists a page of shares ("List Shares" of Azure Files). The markers stand as they are, with escapes.
#[tactic(auto, unfolding(crate::specs::Shares::shares_text))]
pub fn write_shares(alloc: Global, page: &SharesPage) -> Result<Text, NoMemory>
    ensures { IfOk result (λ text. text ≡ shares_text page.now) }
{
    let mut text = Text::copy_of(
        alloc,
        "<?xml version=\"1.0\" encoding=\"utf-8\"?><EnumerationResults>",
    )?;
    append_asked(alloc, &mut text, page)?;
    text.append("<Shares>")?;
    append_shares(alloc, &mut text, page.items.as_slice())?;
    text.append("</Shares><NextMarker>")?;
    append_escaped(alloc, &mut text, &page.next)?;
    text.append("</NextMarker></EnumerationResults>")?;
    Ok(text)
}

#[tactic(auto, unfolding(crate::specs::Shares::shares_asked_text))]
fn append_asked(alloc: Global, text: &mut Text, page: &SharesPage) -> Result<(), NoMemory>
    ensures { OnOk result (text.new ≡ text.old ++ shares_asked_text page.now) }
{
    text.append("<Prefix>")?;
    append_escaped(alloc, text, &page.prefix)?;
    text.append("</Prefix><Marker>")?;
    append_escaped(alloc, text, &page.marker)?;
    text.append("</Marker><MaxResults>")?;
    text.append_decimal(page.max.results() as u64)?;
    text.append("</MaxResults>")?;
    Ok(())
}

fn append_shares(alloc: Global, text: &mut Text, items: &[ShareItem]) -> Result<(), NoMemory>
    ensures { OnOk result (text.new ≡ text.old ++ flat_map share_text items.now) }
{
    for item in items {
        append_share(alloc, text, item)?;
    }
    Ok(())
}

/// Puts a share or a snapshot behind a text.
#[tactic(auto, unfolding(crate::specs::Shares::share_text))]
fn append_share(alloc: Global, text: &mut Text, item: &ShareItem) -> Result<(), NoMemory>
    ensures { OnOk result (text.new ≡ text.old ++ share_text item.now) }
{
    text.append("<Share><Name>")?;
    append_escaped(alloc, text, &item.name)?;
    text.append("</Name>")?;
    append_snapshot(text, &item.snapshot)?;
    append_properties(text, item)?;
    text.append("</Share>")?;
    Ok(())
}

/// Puts the moment of a snapshot behind a text, nothing for a share as it stands.
fn append_snapshot(text: &mut Text, snapshot: &Option<Moment>) -> Result<(), NoMemory>
    ensures { OnOk result (text.new ≡ text.old ++ snapshot_text snapshot.now) }
{
    match snapshot {
        Some(moment) => append_snapshot_at(text, *moment),
        None => Ok(()),
    }
}

fn append_snapshot_at(text: &mut Text, moment: Moment) -> Result<(), NoMemory>
    ensures { OnOk result (text.new ≡ text.old ++ snapshot_text (Some moment)) }
{
    text.append("<Snapshot>")?;
    append_moment(text, moment)?;
    text.append("</Snapshot>")?;
    Ok(())
}

/// Puts the change time, the ETag and the quota behind a text.
#[tactic(auto, unfolding(crate::specs::Shares::properties_text))]
fn append_properties(text: &mut Text, item: &ShareItem) -> Result<(), NoMemory>
    ensures { OnOk result (text.new ≡ text.old ++ properties_text item.now) }
{
    text.append("<Properties><Last-Modified>")?;
    append_date(text, item.changed)?;
    text.append("</Last-Modified><Etag>\"0x")?;
    append_etag(text, item.etag)?;
    text.append("\"</Etag><Quota>")?;
    text.append_decimal(item.quota.gib() as u64)?;
    text.append("</Quota></Properties>")?;
    Ok(())
}
