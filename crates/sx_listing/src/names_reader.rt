//! The body that lists a directory, read.

ghost use Rattle.std.specs.Prelude.{IfOk, Result};
ghost use Rattle.sx_names.specs.declared.page.NamesPage.{NamesPage};
ghost use Rattle.sx_text.specs.Given.{Reads, Gives};
ghost use Rattle.sx_text.specs.Escapes.{IsWhole};
ghost use Rattle.sx_text.specs.Numbers.{IsFrom};
ghost use Rattle.sx_text.specs.Readers.{all_values_at};
ghost use Rattle.sx_listing.specs.Body.{ReadsBody, IsReadAs};
ghost use Rattle.sx_listing.specs.Names.{names_text};
ghost use Rattle.sx_listing.specs.NamesReader.{IsNames, item_of, name_and_id_at, length_at, file_at, directory_at};
ghost use Rattle.sx_listing.specs.NamesReader.{name_at, asked_at, entries_at, next_at, answered_at, names_at};
ghost use Rattle.sx_listing.specs.declared.body.BodyFault.{BodyFault};

use crate::body::BodyFault;
use crate::percent_reader::percent_text_behind;
use crate::texts::text_of;
use std::alloc::Global;
use sx_base::Items;
use sx_names::{NameItem, NamesPage, PageSize};
use sx_text::{Fault, Unread, escaped_text_behind, literal, next_is, number_behind};

/// A name and an id, whether they are a directory's, and a length.
type Parts = ((Vec<u8>, u64), (bool, u64));

/// The name and the id behind a tag.
#[tactic(auto, unfolding(crate::specs::NamesReader::name_and_id_at))]
fn name_and_id<'a>(
    alloc: Global,
    bytes: &'a [u8],
    tag: &[u8],
) -> Result<((Vec<u8>, u64), &'a [u8]), Fault>
    ensures reading { Gives (λ x. ((x.0.0.items, x.0.1), x.1.now)) result (name_and_id_at tag.now bytes.now) }
    ensures whole { IfOk result (λ x. IsWhole x.0.0.items) }
{
    let (name, rest) = escaped_text_behind(alloc, bytes, tag)?;
    let (id, rest) = number_behind(rest, b"/Name><FileId>", b'<', 0, u64::MAX)?;
    Ok(((name, id), rest))
}

/// The length of a file, and the `<` of what follows the file.
#[tactic(auto, unfolding(crate::specs::NamesReader::length_at))]
fn length(bytes: &[u8]) -> Result<(u64, &[u8]), Unread>
    ensures { Reads (λ x. (x.0, x.1.now)) result (length_at bytes.now) }
{
    let (length, rest) = number_behind(
        bytes,
        b"/FileId><Properties><Content-Length>",
        b'<',
        0,
        u64::MAX,
    )?;
    let rest = literal(rest, b"/Content-Length></Properties></File><")?;
    Ok((length, rest))
}

#[tactic(auto, unfolding(crate::specs::NamesReader::file_at))]
fn file(alloc: Global, bytes: &[u8]) -> Result<(Parts, &[u8]), Fault>
    ensures reading { Gives (λ x. (item_of ((x.0.0.0.items, x.0.0.1), x.0.1), x.1.now)) result (file_at bytes.now) }
    ensures whole { IfOk result (λ x. IsWhole x.0.0.0.items) }
{
    let (named, rest) = name_and_id(alloc, bytes, b"File><Name>")?;
    let (length, rest) = length(rest)?;
    Ok(((named, (false, length)), rest))
}

#[tactic(auto, unfolding(crate::specs::NamesReader::directory_at))]
fn directory(alloc: Global, bytes: &[u8]) -> Result<(Parts, &[u8]), Fault>
    ensures reading { Gives (λ x. (item_of ((x.0.0.0.items, x.0.0.1), x.0.1), x.1.now)) result
        (directory_at bytes.now) }
    ensures whole { IfOk result (λ x. IsWhole x.0.0.0.items) }
{
    let (named, rest) = name_and_id(alloc, bytes, b"Directory><Name>")?;
    let rest = literal(rest, b"/FileId><Properties></Properties></Directory><")?;
    Ok(((named, (true, 0)), rest))
}

/// Takes a file or a directory.
#[tactic(auto, unfolding(crate::specs::NamesReader::name_at, sx_text::specs::Readers::either_at))]
fn name(alloc: Global, bytes: &[u8]) -> Result<(Parts, &[u8]), Fault>
    ensures reading { Gives (λ x. (item_of ((x.0.0.0.items, x.0.0.1), x.0.1), x.1.now)) result (name_at bytes.now) }
    ensures whole { IfOk result (λ x. IsWhole x.0.0.0.items) }
{
    if next_is(bytes, b'F')? {
        file(alloc, bytes)
    } else {
        directory(alloc, bytes)
    }
}

#[tactic(auto, unfolding(sx_text::specs::Readers::values_at))]
fn names(alloc: Global, bytes: &[u8]) -> Result<(Items<NameItem>, &[u8]), Fault>
    ensures { Gives (λ x. (x.0, x.1.now)) result (all_values_at 47 name_at bytes.now) }
{
    let mut items = Items::new(alloc);
    let mut rest = bytes;
    for _ in 0..bytes.len() + 1 {
        if rest.is_empty() {
            return Err(Fault::Unread { left: 0 });
        }
        if rest[0] == b'/' {
            return Ok((items, &rest[1..]));
        }
        let (((name, id), (dir, length)), after) = name(alloc, rest)?;
        let item = NameItem {
            name: text_of(name),
            dir,
            id,
            length,
        };
        let Ok(()) = items.push(item) else {
            return Err(Fault::NoMemory);
        };
        rest = after;
    }
    Err(Fault::Unread { left: rest.len() })
}

/// What was asked for: the prefix, the marker and the size of the page.
#[tactic(auto, unfolding(crate::specs::NamesReader::asked_at))]
fn asked(alloc: Global, bytes: &[u8]) -> Result<((Vec<u8>, (Vec<u8>, u64)), &[u8]), Fault>
    ensures reading { Gives (λ x. ((x.0.0.items, (x.0.1.0.items, x.0.1.1)), x.1.now)) result (asked_at bytes.now) }
    ensures whole { IfOk result (λ x. IsWhole x.0.0.items × IsWhole x.0.1.0.items × IsFrom 1 5000 x.0.1.1) }
{
    let (prefix, rest) = escaped_text_behind(
        alloc,
        bytes,
        b"<?xml version=\"1.0\" encoding=\"utf-8\"?><EnumerationResults><Prefix>",
    )?;
    let (marker, rest) = percent_text_behind(alloc, rest, b"/Prefix><Marker>")?;
    let (max, rest) = number_behind(rest, b"/Marker><MaxResults>", b'<', 1, 5000)?;
    Ok(((prefix, (marker, max)), rest))
}

#[tactic(auto, unfolding(crate::specs::NamesReader::entries_at))]
fn entries(alloc: Global, bytes: &[u8]) -> Result<(Items<NameItem>, &[u8]), Fault>
    ensures { Gives (λ x. (x.0, x.1.now)) result (entries_at bytes.now) }
{
    let rest = literal(bytes, b"/MaxResults><Entries><")?;
    names(alloc, rest)
}

/// The next marker, to the end.
#[tactic(auto, unfolding(crate::specs::NamesReader::next_at))]
fn next(alloc: Global, bytes: &[u8]) -> Result<(Vec<u8>, &[u8]), Fault>
    ensures reading { Gives (λ x. (x.0.items, x.1.now)) result (next_at bytes.now) }
    ensures whole { IfOk result (λ x. IsWhole x.0.items) }
{
    let (next, rest) = percent_text_behind(alloc, bytes, b"Entries><NextMarker>")?;
    let rest = literal(rest, b"/NextMarker></EnumerationResults>")?;
    Ok((next, rest))
}

/// The items and the next marker.
#[tactic(auto, unfolding(crate::specs::NamesReader::answered_at))]
fn answered(alloc: Global, bytes: &[u8]) -> Result<((Items<NameItem>, Vec<u8>), &[u8]), Fault>
    ensures reading { Gives (λ x. ((x.0.0, x.0.1.items), x.1.now)) result (answered_at bytes.now) }
    ensures whole { IfOk result (λ x. IsWhole x.0.1.items) }
{
    match entries(alloc, bytes) {
        Ok((items, rest)) => {
            let (next, rest) = next(alloc, rest)?;
            Ok(((items, next), rest))
        }
        Err(fault) => Err(fault),
    }
}

#[tactic(auto, unfolding(crate::specs::NamesReader::names_at))]
fn page(alloc: Global, bytes: &[u8]) -> Result<(NamesPage, &[u8]), Fault>
    ensures { Gives (λ x. (x.0, x.1.now)) result (names_at bytes.now) }
{
    let ((prefix, (marker, max)), rest) = asked(alloc, bytes)?;
    match answered(alloc, rest) {
        Ok(((items, next), rest)) => {
            let page = NamesPage {
                prefix: text_of(prefix),
                marker: text_of(marker),
                max: PageSize::of(max as u32),
                items,
                next: text_of(next),
            };
            Ok((page, rest))
        }
        Err(fault) => Err(fault),
    }
}

/// The page of a directory that a body lists. Exactly the texts that `write_names` gives are read; the length of a
/// directory, which they don't show, is 0.
pub fn read_names(alloc: Global, bytes: &[u8]) -> Result<NamesPage, BodyFault>
    ensures { ReadsBody names_text IsNames bytes.now result }
{
    match page(alloc, bytes) {
        Ok((page, [])) => Ok(page),
        Ok((_, rest)) => Err(BodyFault::Bad {
            at: (bytes.len() - rest.len()) as u64,
        }),
        Err(Fault::Unread { left }) => Err(BodyFault::Bad {
            at: (bytes.len() - left) as u64,
        }),
        Err(Fault::NoMemory) => Err(BodyFault::NoMemory),
    }
}

/// The law of listed directories: what was written is read as the page that it lists. It does nothing.
pub fn names_are_read_back()
    ensures { (page : NamesPage) (read : Result NamesPage BodyFault) → IsNames page
        → ReadsBody names_text IsNames (names_text page) read → IsReadAs page read }
{}
