//! Attributes of files and directories, as x-ms-file-attributes gives them.

ghost use Rattle.std.specs.Prelude.{◌≡◌, map, true, false, IfOk};
ghost use Rattle.std.specs.List.{list_all};
ghost use Rattle.sx_decode.specs.Reading.{Reads};
ghost use Rattle.sx_decode.specs.Facts.{names, is_former_attribute, is_latter_attribute, is_attribute, stands};
ghost use Rattle.sx_decode.specs.Facts.{is_once, are_once, attributes_named};
ghost use Rattle.sx_decode.specs.Facts.{plain_attributes, attributes_in, attributes_read, new_attributes};
ghost use Rattle.sx_decode.specs.Facts.{set_attributes};

use crate::lookup::one_header;
use crate::parameters::pieces;
use crate::refusals::refuse_header;
use crate::unread::Unread;
use crate::words::{is_word, is_word_in_blanks};
use std::alloc::Global;
use sx_call::{Attributes, DirectoryAttributes, FileAttributes};
use sx_http::Header;

fn names(word: &[u8], text: &[u8]) -> bool
    ensures { result ≡ names word.now text.now }
{
    is_word_in_blanks(false, word, text)
}

#[tactic(auto, unfolding(crate::specs::Facts::is_former_attribute))]
fn is_former_attribute(text: &[u8]) -> bool
    ensures { result ≡ is_former_attribute text.now }
{
    names(b"ReadOnly", text)
        || names(b"Hidden", text)
        || names(b"System", text)
        || names(b"Archive", text)
}

#[tactic(auto, unfolding(crate::specs::Facts::is_latter_attribute))]
fn is_latter_attribute(text: &[u8]) -> bool
    ensures { result ≡ is_latter_attribute text.now }
{
    names(b"Temporary", text)
        || names(b"Offline", text)
        || names(b"NotContentIndexed", text)
        || names(b"NoScrubData", text)
}

#[tactic(auto, unfolding(crate::specs::Facts::is_attribute))]
fn is_attribute(directory: bool, text: &[u8]) -> bool
    ensures { result ≡ is_attribute directory text.now }
{
    is_former_attribute(text)
        || is_latter_attribute(text)
        || (directory && names(b"Directory", text))
}

fn are_attributes(directory: bool, texts: &[&[u8]]) -> bool
    ensures { result ≡ list_all (is_attribute directory) (map (λ t. t.now) texts.now) }
{
    texts.iter().all(|text| is_attribute(directory, text))
}

fn stands(word: &[u8], texts: &[&[u8]]) -> bool
    ensures { result ≡ stands word.now (map (λ t. t.now) texts.now) }
{
    texts.iter().any(|text| names(word, text))
}

fn is_once(word: &[u8], texts: &[&[u8]]) -> bool
    ensures { result ≡ is_once word.now (map (λ t. t.now) texts.now) }
{
    texts.iter().filter(|text| names(word, text)).count() <= 1
}

fn are_once(texts: &[&[u8]]) -> bool
    ensures { result ≡ are_once (map (λ t. t.now) texts.now) }
{
    is_once(b"ReadOnly", texts)
        && is_once(b"Hidden", texts)
        && is_once(b"System", texts)
        && is_once(b"Archive", texts)
        && is_once(b"Temporary", texts)
        && is_once(b"Offline", texts)
        && is_once(b"NotContentIndexed", texts)
        && is_once(b"NoScrubData", texts)
        && is_once(b"Directory", texts)
}

fn attributes_named(directory: bool, texts: &[&[u8]]) -> Attributes
    ensures { result ≡ attributes_named directory (map (λ t. t.now) texts.now) }
{
    Attributes {
        read_only: stands(b"ReadOnly", texts),
        hidden: stands(b"Hidden", texts),
        system: stands(b"System", texts),
        archive: stands(b"Archive", texts),
        temporary: stands(b"Temporary", texts),
        offline: stands(b"Offline", texts),
        not_content_indexed: stands(b"NotContentIndexed", texts),
        no_scrub_data: stands(b"NoScrubData", texts),
        directory,
    }
}

fn plain_attributes(archive: bool, directory: bool) -> Attributes
    ensures { result ≡ plain_attributes archive directory }
{
    Attributes {
        read_only: false,
        hidden: false,
        system: false,
        archive,
        temporary: false,
        offline: false,
        not_content_indexed: false,
        no_scrub_data: false,
        directory,
    }
}

#[tactic(auto, unfolding(crate::specs::Facts::attributes_in))]
fn attributes_in(alloc: Global, directory: bool, texts: &[&[u8]]) -> Result<Attributes, Unread>
    ensures read { Reads result (attributes_in directory (map (λ t. t.now) texts.now)) }
    ensures kind { IfOk result (λ a. a.directory ≡ directory) }
{
    if are_attributes(directory, texts) && are_once(texts) {
        Ok(attributes_named(directory, texts))
    } else {
        refuse_header(alloc, "x-ms-file-attributes")
    }
}

#[tactic(auto, unfolding(crate::specs::Facts::attributes_read))]
fn attributes_read(alloc: Global, directory: bool, text: &[u8]) -> Result<Attributes, Unread>
    ensures read { Reads result (attributes_read directory text.now) }
    ensures kind { IfOk result (λ a. a.directory ≡ directory) }
{
    if is_word(b"None", text) {
        return Ok(plain_attributes(false, directory));
    }
    let texts = pieces(alloc, text, b'|')?;
    attributes_in(alloc, directory, &texts)
}

/// The attributes of a new file: absence means Archive.
#[tactic(auto, unfolding(crate::specs::Facts::new_attributes))]
pub fn new_file_attributes(alloc: Global, headers: &[Header]) -> Result<FileAttributes, Unread>
    ensures { Reads result (new_attributes false headers.now) }
{
    match one_header(alloc, headers, "x-ms-file-attributes")? {
        None => Ok(FileAttributes::of(plain_attributes(true, false))),
        Some(text) => file_attributes_read(alloc, text),
    }
}

fn file_attributes_read(alloc: Global, text: &[u8]) -> Result<FileAttributes, Unread>
    ensures { Reads result (attributes_read false text.now) }
{
    let attributes = attributes_read(alloc, false, text)?;
    Ok(FileAttributes::of(attributes))
}

/// The attributes of a new directory: absence means none but that which says so.
#[tactic(auto, unfolding(crate::specs::Facts::new_attributes))]
pub fn new_directory_attributes(
    alloc: Global,
    headers: &[Header],
) -> Result<DirectoryAttributes, Unread>
    ensures { Reads result (new_attributes true headers.now) }
{
    match one_header(alloc, headers, "x-ms-file-attributes")? {
        None => Ok(DirectoryAttributes::of(plain_attributes(false, true))),
        Some(text) => directory_attributes_read(alloc, text),
    }
}

fn directory_attributes_read(alloc: Global, text: &[u8]) -> Result<DirectoryAttributes, Unread>
    ensures { Reads result (attributes_read true text.now) }
{
    let attributes = attributes_read(alloc, true, text)?;
    Ok(DirectoryAttributes::of(attributes))
}

/// The attributes that Set File Properties gives: none where they are kept.
#[tactic(auto, unfolding(crate::specs::Facts::set_attributes))]
pub fn set_attributes(alloc: Global, headers: &[Header]) -> Result<Option<FileAttributes>, Unread>
    ensures { Reads result (set_attributes headers.now) }
{
    match one_header(alloc, headers, "x-ms-file-attributes")? {
        None => Ok(None),
        Some(text) => {
            if is_word(b"preserve", text) {
                return Ok(None);
            }
            let attributes = file_attributes_read(alloc, text)?;
            Ok(Some(attributes))
        }
    }
}
