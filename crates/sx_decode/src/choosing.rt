//! What of a request chooses its row, and which row that is.

ghost use Rattle.std.specs.Prelude.{◌≡◌, IfOk, map, codes, true};
ghost use Rattle.sx_http.specs.Lookup.{header_values};
ghost use Rattle.sx_decode.specs.Reading.{Reads, ReadsBy};
ghost use Rattle.sx_decode.specs.Spelling.{verb_of, version_of, shape_of, restype_of, comp_named, comp_of};
ghost use Rattle.sx_decode.specs.Spelling.{is_clear, key_of, row_with, row_for};

use crate::asked::Asked;
use crate::choice::{Key, row_of};
use crate::forms::{Comp, Restype, Row, Shape, Snap, Verb};
use crate::lookup::one_header;
use crate::refusals::{no_call, refuse_header, refuse_query};
use crate::targets::Place;
use crate::unread::Unread;
use crate::words::is_word;
use std::alloc::{AllocError, Global};
use sx_call::{Syntax, Text};
use sx_http::{Header, header_values};

/// The method, one of the four that calls have.
#[tactic(auto, unfolding(crate::specs::Spelling::verb_of))]
pub(crate) fn verb_of(method: &[u8]) -> Result<Verb, Unread>
    ensures { Reads result (verb_of method.now) }
{
    if method == b"GET".as_slice() {
        Ok(Verb::Get)
    } else if method == b"HEAD".as_slice() {
        Ok(Verb::Head)
    } else if method == b"PUT".as_slice() {
        Ok(Verb::Put)
    } else if method == b"DELETE".as_slice() {
        Ok(Verb::Delete)
    } else {
        Err(Unread::Syntax(Syntax::Verb))
    }
}

/// x-ms-version: absent, or the one version that is known.
#[tactic(auto, unfolding(crate::specs::Spelling::version_of))]
pub(crate) fn version_of(alloc: Global, headers: &[Header]) -> Result<(), Unread>
    ensures { ReadsBy (λ _. true) result (version_of headers.now) }
{
    match one_header(alloc, headers, "x-ms-version")? {
        None => Ok(()),
        Some(version) => {
            if version == b"2020-10-02".as_slice() {
                Ok(())
            } else {
                refuse_header(alloc, "x-ms-version")
            }
        }
    }
}

#[tactic(auto, unfolding(crate::specs::Spelling::shape_of))]
fn shape_of(place: &Place) -> Shape
    ensures { result ≡ shape_of place.now }
{
    match place {
        Place::Account => Shape::Account,
        Place::Inside(at) => {
            if at.path.parts().is_empty() {
                Shape::Share
            } else {
                Shape::Path
            }
        }
    }
}

#[tactic(auto, unfolding(crate::specs::Spelling::restype_of))]
fn restype_of(restype: &Option<Text>) -> Restype
    ensures { result ≡ restype_of restype.now }
{
    match restype {
        None => Restype::Absent,
        Some(text) => {
            if is_word(b"share", text.bytes()) {
                Restype::Share
            } else if is_word(b"directory", text.bytes()) {
                Restype::Directory
            } else {
                Restype::Other
            }
        }
    }
}

#[tactic(auto, unfolding(crate::specs::Spelling::comp_named))]
fn comp_named(text: &[u8]) -> Comp
    ensures { result ≡ comp_named text.now }
{
    if is_word(b"list", text) {
        Comp::List
    } else if is_word(b"properties", text) {
        Comp::Properties
    } else if is_word(b"metadata", text) {
        Comp::Metadata
    } else if is_word(b"snapshot", text) {
        Comp::Snapshot
    } else if is_word(b"lease", text) {
        Comp::Lease
    } else if is_word(b"range", text) {
        Comp::Range
    } else if is_word(b"rangelist", text) {
        Comp::RangeList
    } else if is_word(b"listhandles", text) {
        Comp::ListHandles
    } else if is_word(b"forceclosehandles", text) {
        Comp::ForceCloseHandles
    } else {
        Comp::Other
    }
}

#[tactic(auto, unfolding(crate::specs::Spelling::comp_of))]
fn comp_of(comp: &Option<Text>) -> Comp
    ensures { result ≡ comp_of comp.now }
{
    match comp {
        None => Comp::Absent,
        Some(text) => comp_named(text.bytes()),
    }
}

#[tactic(auto, unfolding(crate::specs::Spelling::is_clear))]
fn is_clear(values: &[&[u8]]) -> bool
    ensures { result ≡ is_clear (map (λ v. v.now) values.now) }
{
    match values {
        [] => false,
        [value] => is_word(b"clear", value),
        _ => false,
    }
}

fn clears(alloc: Global, headers: &[Header]) -> Result<bool, AllocError>
    ensures { IfOk result (λ b. b ≡ is_clear (header_values (codes "x-ms-write") headers.now)) }
{
    let values = header_values(alloc, headers, b"x-ms-write")?;
    Ok(is_clear(&values))
}

/// What of a request chooses its row.
#[tactic(auto, unfolding(crate::specs::Spelling::key_of))]
pub(crate) fn key_of(
    alloc: Global,
    verb: Verb,
    place: &Place,
    asked: &Asked,
    headers: &[Header],
) -> Result<Key, AllocError>
    ensures { IfOk result (λ k. k ≡ key_of verb place.now asked.now headers.now) }
{
    let clears = clears(alloc, headers)?;
    Ok(Key {
        verb,
        shape: shape_of(place),
        restype: restype_of(&asked.restype),
        comp: comp_of(&asked.comp),
        snapshot: asked.snapshot.is_some(),
        clears,
    })
}

fn row_with(alloc: Global, snap: Snap, snapshot: bool, row: Row) -> Result<Row, Unread>
    ensures { Reads result (row_with snap snapshot row) }
{
    match snap {
        Snap::MayBe => Ok(row),
        Snap::Never => {
            if snapshot {
                refuse_query(alloc, "sharesnapshot")
            } else {
                Ok(row)
            }
        }
    }
}

/// The row of a request: sharesnapshot stands only where the row takes one.
#[tactic(auto, unfolding(crate::specs::Spelling::row_for))]
pub(crate) fn row_for(alloc: Global, key: Key) -> Result<Row, Unread>
    ensures { Reads result (row_for key) }
{
    match row_of(key) {
        None => no_call(),
        Some(form) => row_with(alloc, form.snap, key.snapshot, form.row),
    }
}
