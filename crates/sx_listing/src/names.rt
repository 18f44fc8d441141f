//! The body that lists a directory.

ghost use Rattle.std.specs.Prelude.{◌≡◌, ◌++◌, IfOk, OnOk};
ghost use Rattle.std.specs.List.{flat_map};
ghost use Rattle.sx_listing.specs.Names.{file_text, directory_text, name_text, asked_text, names_text};

use crate::percent::append_percent;
use crate::texts::append_escaped;
use std::alloc::Global;
use sx_base::NoMemory;
use sx_names::{NameItem, NamesPage, Text};

/// The body that lists a page of a directory ("List Directories and Files" of Azure Files). The markers are
/// percent-encoded.
#[tactic(auto, unfolding(crate::specs::Names::names_text))]
pub fn write_names(alloc: Global, page: &NamesPage) -> Result<Text, NoMemory>
    ensures { IfOk result (λ text. text ≡ names_text page.now) }
{
    let mut text = Text::copy_of(
        alloc,
        "<?xml version=\"1.0\" encoding=\"utf-8\"?><EnumerationResults>",
    )?;
    append_asked(alloc, &mut text, page)?;
    text.append("<Entries>")?;
    append_names(alloc, &mut text, page.items.as_slice())?;
    text.append("</Entries><NextMarker>")?;
    append_percent(alloc, &mut text, &page.next)?;
    text.append("</NextMarker></EnumerationResults>")?;
    Ok(text)
}

#[tactic(auto, unfolding(crate::specs::Names::asked_text))]
fn append_asked(alloc: Global, text: &mut Text, page: &NamesPage) -> Result<(), NoMemory>
    ensures { OnOk result (text.new ≡ text.old ++ asked_text page.now) }
{
    text.append("<Prefix>")?;
    append_escaped(alloc, text, &page.prefix)?;
    text.append("</Prefix><Marker>")?;
    append_percent(alloc, text, &page.marker)?;
    text.append("</Marker><MaxResults>")?;
    text.append_decimal(page.max.results() as u64)?;
    text.append("</MaxResults>")?;
    Ok(())
}

fn append_names(alloc: Global, text: &mut Text, items: &[NameItem]) -> Result<(), NoMemory>
    ensures { OnOk result (text.new ≡ text.old ++ flat_map name_text items.now) }
{
    for item in items {
        append_name(alloc, text, item)?;
    }
    Ok(())
}

fn append_name(alloc: Global, text: &mut Text, item: &NameItem) -> Result<(), NoMemory>
    ensures { OnOk result (text.new ≡ text.old ++ name_text item.now) }
{
    if item.dir {
        append_directory(alloc, text, item)
    } else {
        append_file(alloc, text, item)
    }
}

#[tactic(auto, unfolding(crate::specs::Names::directory_text))]
fn append_directory(alloc: Global, text: &mut Text, item: &NameItem) -> Result<(), NoMemory>
    ensures { OnOk result (text.new ≡ text.old ++ directory_text item.now) }
{
    text.append("<Directory><Name>")?;
    append_escaped(alloc, text, &item.name)?;
    text.append("</Name><FileId>")?;
    text.append_decimal(item.id)?;
    text.append("</FileId><Properties></Properties></Directory>")?;
    Ok(())
}

#[tactic(auto, unfolding(crate::specs::Names::file_text))]
fn append_file(alloc: Global, text: &mut Text, item: &NameItem) -> Result<(), NoMemory>
    ensures { OnOk result (text.new ≡ text.old ++ file_text item.now) }
{
    text.append("<File><Name>")?;
    append_escaped(alloc, text, &item.name)?;
    text.append("</Name><FileId>")?;
    text.append_decimal(item.id)?;
    text.append("</FileId><Properties><Content-Length>")?;
    text.append_decimal(item.length)?;
    text.append("</Content-Length></Properties></File>")?;
    Ok(())
}
