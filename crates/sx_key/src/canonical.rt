//! Canonical headers: the headers of Azure's own, in order of name.

ghost use Rattle.std.specs.Prelude.{◌≡◌, ◌++◌, ◌==◌, ◌||◌, OnOk, IfOk, map};
ghost use Rattle.std.specs.List.{filter, slice_split, starts_with};
ghost use Rattle.sx_key.specs.Signature.{is_space_or_tab, is_not_empty, single_spaced, is_ms_header, canonical_field};
ghost use Rattle.sx_key.specs.Signature.{canonical_fields, canonical_headers};

use crate::fields::{Field, put_lines, sort_by_name};
use crate::texts::put_joined;
use std::alloc::{AllocError, Global};
use sx_base::{Items, NoMemory};
use sx_http::Header;

/// Adds the canonical headers: a line for each name.
pub(crate) fn put_headers(
    alloc: Global,
    out: &mut Vec<u8>,
    headers: &[Header],
) -> Result<(), NoMemory>
    ensures { OnOk result (out.new.items ≡ out.old.items ++ canonical_headers headers.now) }
{
    let mut fields = canonical_fields(alloc, headers)?;
    sort_by_name(&mut fields)?;
    put_lines(out, b"", &fields, b"\n")
}

fn canonical_fields(alloc: Global, headers: &[Header]) -> Result<Vec<Field>, NoMemory>
    ensures { IfOk result (λ fs. fs.items ≡ canonical_fields headers.now) }
{
    let own = ms_headers(alloc, headers)?;
    fields_of(alloc, &own)
}

fn ms_headers<'a>(alloc: Global, headers: &'a [Header]) -> Result<Vec<&'a Header>, AllocError>
    ensures { IfOk result (λ v. map (λ h. h.now) v.items ≡ filter is_ms_header headers.now) }
{
    headers.iter().filter(|h| is_ms_header(h)).collect(alloc)
}

fn fields_of(alloc: Global, headers: &[&Header]) -> Result<Vec<Field>, NoMemory>
    ensures { IfOk result (λ fs. fs.items ≡ map canonical_field (map (λ h. h.now) headers.now)) }
{
    let mut fields = Vec::new(alloc);
    for header in headers {
        fields.push(canonical_field(alloc, header)?)?;
    }
    Ok(fields)
}

fn is_ms_header(header: &Header) -> bool
    ensures { result ≡ is_ms_header header.now }
{
    header.name.bytes().starts_with(b"x-ms-")
}

fn canonical_field(alloc: Global, header: &Header) -> Result<Field, NoMemory>
    ensures { IfOk result (λ f. f ≡ canonical_field header.now) }
{
    let name = Items::copy_of(alloc, header.name.bytes())?;
    let value = single_spaced(alloc, header.value.as_slice())?;
    Ok(Field { name, value })
}

/// A value with one space for each run of blanks, and none at its ends.
fn single_spaced(alloc: Global, text: &[u8]) -> Result<Items<u8>, NoMemory>
    ensures { IfOk result (λ t. t ≡ single_spaced text.now) }
{
    let words = words_of(alloc, text)?;
    let mut out = Vec::new(alloc);
    put_joined(&mut out, b' ', &words)?;
    Ok(Items::of(out))
}

fn words_of<'a>(alloc: Global, text: &'a [u8]) -> Result<Vec<&'a [u8]>, AllocError>
    ensures { IfOk result (λ v. map (λ t. t.now) v.items ≡ filter is_not_empty (slice_split is_space_or_tab text.now)) }
{
    text.split(|b| *b == b' ' || *b == b'\t')
        .filter(|word| word.len() > 0)
        .collect(alloc)
}
