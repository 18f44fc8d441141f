//! The canonical resource: the account, the path, and the query's parameters, decoded and in order.

ghost use Rattle.std.specs.Prelude.{◌≡◌, ◌++◌, ◌==◌, OnOk, IfOk, map};
ghost use Rattle.std.specs.List.{filter, slice_split};
ghost use Rattle.std.specs.Char.{to_ascii_lowercase};
ghost use Rattle.percent_encoding.specs.Percent.{percent_decode};
ghost use Rattle.sx_key.specs.Signature.{is_and, is_not_empty, parameter, parameters, parameter_lines};
ghost use Rattle.sx_key.specs.Signature.{canonical_resource};

use crate::fields::{Field, put_lines, sort_by_name, sort_by_value};
use crate::texts::{after, before};
use percent_encoding::percent_decode;
use std::alloc::{AllocError, Global};
use sx_base::{Items, NoMemory};

/// Adds the canonical resource.
pub(crate) fn put_resource(
    alloc: Global,
    out: &mut Vec<u8>,
    account: &[u8],
    target: &[u8],
) -> Result<(), NoMemory>
    ensures { OnOk result (out.new.items ≡ out.old.items ++ canonical_resource account.now target.now) }
{
    let parameters = parameters(alloc, after(target, b'?'))?;
    out.push(b'/')?;
    out.extend_from_slice(account)?;
    out.extend_from_slice(before(target, b'?'))?;
    put_parameters(out, parameters)
}

/// Adds a line for each name of the parameters, with its values in order.
fn put_parameters(out: &mut Vec<u8>, mut parameters: Vec<Field>) -> Result<(), NoMemory>
    ensures { OnOk result (out.new.items ≡ out.old.items ++ parameter_lines parameters.items) }
{
    sort_by_value(&mut parameters);
    sort_by_name(&mut parameters)?;
    put_lines(out, b"\n", &parameters, b"")
}

/// The parameters of a query.
fn parameters(alloc: Global, query: &[u8]) -> Result<Vec<Field>, NoMemory>
    ensures { IfOk result (λ ps. ps.items ≡ parameters query.now) }
{
    let pieces = pieces_of(alloc, query)?;
    parameters_in(alloc, &pieces)
}

fn parameters_in(alloc: Global, pieces: &[&[u8]]) -> Result<Vec<Field>, NoMemory>
    ensures { IfOk result (λ ps. ps.items ≡ map parameter (map (λ t. t.now) pieces.now)) }
{
    let mut parameters = Vec::new(alloc);
    for piece in pieces {
        parameters.push(parameter(alloc, piece)?)?;
    }
    Ok(parameters)
}

fn pieces_of<'a>(alloc: Global, query: &'a [u8]) -> Result<Vec<&'a [u8]>, AllocError>
    ensures { IfOk result (λ v. map (λ t. t.now) v.items ≡ filter is_not_empty (slice_split is_and query.now)) }
{
    query
        .split(|b| *b == b'&')
        .filter(|piece| piece.len() > 0)
        .collect(alloc)
}

fn parameter(alloc: Global, piece: &[u8]) -> Result<Field, NoMemory>
    ensures { IfOk result (λ p. p ≡ parameter piece.now) }
{
    let mut name = decoded(alloc, before(piece, b'='))?;
    make_lower(&mut name);
    let value = decoded(alloc, after(piece, b'='))?;
    Ok(Field {
        name: Items::of(name),
        value: Items::of(value),
    })
}

fn decoded(alloc: Global, text: &[u8]) -> Result<Vec<u8>, NoMemory>
    ensures { IfOk result (λ v. v.items ≡ percent_decode text.now) }
{
    let mut bytes = Vec::new(alloc);
    percent_decode(text).append_to(&mut bytes)?;
    Ok(bytes)
}

fn make_lower(bytes: &mut [u8])
    ensures { bytes.new ≡ map to_ascii_lowercase bytes.old }
{
    for b in bytes.iter_mut() {
        *b = b.to_ascii_lowercase();
    }
}
