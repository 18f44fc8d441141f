//! Names in lines: of shares as they stand, of files and directories percent-encoded (RFC 3986, section 2.1).
ghost use Rattle.std.specs.Prelude.{◌≡◌, ◌<◌, map, length, IfOk, slice_index};
ghost use Rattle.std.specs.List.{slice_split};
ghost use Rattle.std.specs.Char.{is_digit};
ghost use Rattle.std.specs.Str.{is_utf8};
ghost use Rattle.percent_encoding.specs.Percent.{percent_decode};
ghost use Rattle.sx_call.specs.Limits.{if_within};
ghost use Rattle.sx_names.specs.Names.{is_part, is_path};
ghost use Rattle.sx_lines.specs.Reading.{Reads};
ghost use Rattle.sx_lines.specs.Words.{judged, next_word};
ghost use Rattle.sx_lines.specs.Fields.{is_bad_escape, has_bad_escape, part_of, all_of, is_slash, path_of, marker_of};
ghost use Rattle.sx_lines.specs.Fields.{share_of, named_path_of};

use crate::unread::Unread;
use crate::words::{next_word, wrong};
use percent_encoding::percent_decode;
use std::alloc::{AllocError, Global};
use sx_base::Items;
use sx_call::NamedPath;
use sx_memory::NoMemory;
use sx_names::{Part, Path, ShareName, Text, Unnamed};

fn is_hex_at(word: &[u8], at: usize) -> bool
    ensures { result ≡ is_digit (slice_index word.now at) 16 }
{
    at < word.len() && word[at].is_ascii_hexdigit()
}

fn is_bad_escape(word: &[u8], at: usize) -> bool
    requires { at < length word.now }
    ensures { result ≡ is_bad_escape word.now at }
{
    word[at] == b'%' && !(is_hex_at(word, at + 1) && is_hex_at(word, at + 2))
}

fn has_bad_escape(word: &[u8]) -> bool
    ensures { result ≡ has_bad_escape word.now }
{
    (0..word.len()).any(|k| is_bad_escape(word, k))
}

fn decoded(alloc: Global, word: &[u8]) -> Result<Vec<u8>, NoMemory>
    ensures { IfOk result (λ name. name.items ≡ percent_decode word.now) }
{
    let mut name = Vec::new(alloc);
    percent_decode(word).append_to(&mut name)?;
    Ok(name)
}

fn named_part(alloc: Global, name: &[u8]) -> Result<Option<Part>, NoMemory>
    ensures { IfOk result (λ part. part ≡ if_within is_part name.now) }
{
    match Part::read(alloc, name) {
        Ok(part) => Ok(Some(part)),
        Err(Unnamed::Fault(_)) => Ok(None),
        Err(Unnamed::NoMemory) => Err(NoMemory),
    }
}

/// The name of a file or directory that a piece of a path encodes.
#[tactic(auto, unfolding(crate::specs::Fields::part_of))]
fn part_of(alloc: Global, piece: &[u8]) -> Result<Option<Part>, NoMemory>
    ensures { IfOk result (λ part. part ≡ part_of piece.now) }
{
    if has_bad_escape(piece) {
        return Ok(None);
    }
    let name = decoded(alloc, piece)?;
    named_part(alloc, &name)
}

fn pieces_of<'a>(alloc: Global, word: &'a [u8]) -> Result<Vec<&'a [u8]>, AllocError>
    ensures { IfOk result (λ pieces. map (λ piece. piece.now) pieces.items ≡ slice_split is_slash word.now) }
{
    word.split(|b| *b == b'/').collect(alloc)
}

fn parts_of(alloc: Global, pieces: &[&[u8]]) -> Result<Option<Items<Part>>, NoMemory>
    ensures { IfOk result (λ parts. parts ≡ all_of part_of (map (λ piece. piece.now) pieces.now)) }
{
    let mut parts = Items::new(alloc);
    for piece in pieces {
        match part_of(alloc, piece)? {
            Some(part) => parts.push(part)?,
            None => return Ok(None),
        }
    }
    Ok(Some(parts))
}

fn path_of_parts(parts: Items<Part>) -> Option<Path>
    ensures { result ≡ if_within is_path parts }
{
    match Path::of_parts(parts) {
        Ok(path) => Some(path),
        Err(_) => None,
    }
}

/// The path of these parts, where there is one and all together are a path.
fn named_path_of(parts: Items<Part>) -> Option<NamedPath>
    ensures { result ≡ named_path_of parts }
{
    match path_of_parts(parts) {
        Some(path) => NamedPath::of(path),
        None => None,
    }
}

/// The path of a word, whose parts are encoded one by one.
#[tactic(auto, unfolding(crate::specs::Fields::path_of))]
fn path_of(alloc: Global, word: &[u8]) -> Result<Option<NamedPath>, NoMemory>
    ensures { IfOk result (λ path. path ≡ path_of word.now) }
{
    let pieces = pieces_of(alloc, word)?;
    match parts_of(alloc, &pieces)? {
        Some(parts) => Ok(named_path_of(parts)),
        None => Ok(None),
    }
}

/// PATH, of at least one part.
pub(crate) fn path_in(alloc: Global, behind: &[u8]) -> Result<NamedPath, Unread>
    ensures { Reads result (judged behind.now (path_of (next_word behind.now))) }
{
    match path_of(alloc, next_word(behind))? {
        Some(path) => Ok(path),
        None => wrong(behind),
    }
}

fn share_of(alloc: Global, word: &[u8]) -> Result<Option<ShareName>, NoMemory>
    ensures { IfOk result (λ share. share ≡ share_of word.now) }
{
    match ShareName::read(alloc, word) {
        Ok(share) => Ok(Some(share)),
        Err(Unnamed::Fault(_)) => Ok(None),
        Err(Unnamed::NoMemory) => Err(NoMemory),
    }
}

/// SHARE, the name of a share.
pub(crate) fn share_in(alloc: Global, behind: &[u8]) -> Result<ShareName, Unread>
    ensures { Reads result (judged behind.now (share_of (next_word behind.now))) }
{
    match share_of(alloc, next_word(behind))? {
        Some(share) => Ok(share),
        None => wrong(behind),
    }
}

fn text_of(bytes: Vec<u8>) -> Option<Text>
    ensures { result ≡ if_within is_utf8 bytes.items }
{
    Text::of(Items::of(bytes))
}

/// The name in which a page begins, which is empty at the beginning.
#[tactic(auto, unfolding(crate::specs::Fields::marker_of))]
fn marker_of(alloc: Global, word: &[u8]) -> Result<Option<Text>, NoMemory>
    ensures { IfOk result (λ marker. marker ≡ marker_of word.now) }
{
    if word == b"*".as_slice() {
        return Ok(Some(Text::new(alloc)));
    }
    if word.is_empty() || has_bad_escape(word) {
        return Ok(None);
    }
    let name = decoded(alloc, word)?;
    Ok(text_of(name))
}

/// MARKER, the name in which a page begins.
pub(crate) fn marker_in(alloc: Global, behind: &[u8]) -> Result<Text, Unread>
    ensures { Reads result (judged behind.now (marker_of (next_word behind.now))) }
{
    match marker_of(alloc, next_word(behind))? {
        Some(marker) => Ok(marker),
        None => wrong(behind),
    }
}
