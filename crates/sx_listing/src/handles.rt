//! The body that lists handles.

ghost use Rattle.std.specs.Prelude.{◌≡◌, ◌++◌, IfOk, OnOk};
ghost use Rattle.std.specs.List.{flat_map};
ghost use Rattle.sx_listing.specs.Handles.{handle_id_text, dotted, opened_text, opener_text, handle_item_text};
ghost use Rattle.sx_listing.specs.Handles.{next_text, handles_text};

use crate::moments::append_moment;
use crate::texts::append_escaped;
use std::alloc::Global;
use sx_base::NoMemory;
use sx_call::{HandleItem, HandlesPage};
use sx_guard::HandleId;
use sx_names::Text;

/// The body that lists a page of handles ("List Handles" of Azure Files).
#[tactic(auto, unfolding(crate::specs::Handles::handles_text))]
pub fn write_handles(alloc: Global, page: &HandlesPage) -> Result<Text, NoMemory>
    ensures { IfOk result (λ text. text ≡ handles_text page.now) }
{
    let mut text = Text::copy_of(
        alloc,
        "<?xml version=\"1.0\" encoding=\"utf-8\"?><EnumerationResults><Entries>",
    )?;
    append_handles(alloc, &mut text, page.items.as_slice())?;
    text.append("</Entries><NextMarker>")?;
    append_next(&mut text, page.next)?;
    text.append("</NextMarker></EnumerationResults>")?;
    Ok(text)
}

fn append_handles(alloc: Global, text: &mut Text, items: &[HandleItem]) -> Result<(), NoMemory>
    ensures { OnOk result (text.new ≡ text.old ++ flat_map handle_item_text items.now) }
{
    for item in items {
        append_item(alloc, text, item)?;
    }
    Ok(())
}

#[tactic(auto, unfolding(crate::specs::Handles::handle_item_text))]
fn append_item(alloc: Global, text: &mut Text, item: &HandleItem) -> Result<(), NoMemory>
    ensures { OnOk result (text.new ≡ text.old ++ handle_item_text item.now) }
{
    text.append("<Handle>")?;
    append_opened(alloc, text, item)?;
    append_opener(text, item)?;
    text.append("</Handle>")?;
    Ok(())
}

#[tactic(auto, unfolding(crate::specs::Handles::opened_text))]
fn append_opened(alloc: Global, text: &mut Text, item: &HandleItem) -> Result<(), NoMemory>
    ensures { OnOk result (text.new ≡ text.old ++ opened_text item.now) }
{
    text.append("<HandleId>")?;
    append_handle(text, item.handle)?;
    text.append("</HandleId><Path>")?;
    append_escaped(alloc, text, &item.path)?;
    text.append("</Path><FileId>")?;
    text.append_decimal(item.id)?;
    text.append("</FileId><ParentId>")?;
    text.append_decimal(item.parent)?;
    text.append("</ParentId>")?;
    Ok(())
}

#[tactic(auto, unfolding(crate::specs::Handles::opener_text))]
fn append_opener(text: &mut Text, item: &HandleItem) -> Result<(), NoMemory>
    ensures { OnOk result (text.new ≡ text.old ++ opener_text item.now) }
{
    text.append("<SessionId>")?;
    text.append_decimal(item.session as u64)?;
    text.append("</SessionId><ClientIp>")?;
    append_dotted(text, item.peer)?;
    text.append("</ClientIp><OpenTime>")?;
    append_moment(text, item.at)?;
    text.append("</OpenTime>")?;
    Ok(())
}

/// Puts a handle behind a text, as `SESSION.INDEX`.
fn append_handle(text: &mut Text, handle: HandleId) -> Result<(), NoMemory>
    ensures { OnOk result (text.new ≡ text.old ++ handle_id_text handle) }
{
    text.append_decimal(handle.session as u64)?;
    text.append(".")?;
    text.append_decimal(handle.index as u64)?;
    Ok(())
}

/// Puts an IPv4 address behind a text, in dotted decimals.
fn append_dotted(text: &mut Text, peer: u32) -> Result<(), NoMemory>
    ensures { OnOk result (text.new ≡ text.old ++ dotted peer) }
{
    text.append_decimal((peer / 16_777_216) as u64)?;
    text.append(".")?;
    text.append_decimal((peer / 65_536 % 256) as u64)?;
    text.append(".")?;
    text.append_decimal((peer / 256 % 256) as u64)?;
    text.append(".")?;
    text.append_decimal((peer % 256) as u64)?;
    Ok(())
}

/// Puts the handle of the next page's first item behind a text, nothing at the end.
fn append_next(text: &mut Text, next: Option<HandleId>) -> Result<(), NoMemory>
    ensures { OnOk result (text.new ≡ text.old ++ next_text next) }
{
    match next {
        Some(handle) => append_handle(text, handle),
        None => Ok(()),
    }
}
