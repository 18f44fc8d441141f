//! The query of a target.

ghost use Rattle.std.specs.Prelude.{◌≡◌, ◌≤◌, ◌==◌, IfOk, map, length, position};
ghost use Rattle.std.specs.List.{slice_split, before_first, after_first, position_or_len};
ghost use Rattle.std.specs.Char.{to_ascii_lowercase};
ghost use Rattle.std.specs.Option.{option_map};
ghost use Rattle.sx_call.specs.declared.refusals.Syntax.TheVariants.{Query};
ghost use Rattle.sx_decode.specs.Reading.{Reads, ReadsBy};
ghost use Rattle.sx_decode.specs.Lookup.{only};
ghost use Rattle.sx_decode.specs.Parameters.{has_name, parameter_of, parameters, parameter_values, encoded};
ghost use Rattle.sx_decode.specs.Parameters.{one_parameter};

use crate::escapes::{decoded, decoded_text};
use crate::refusals::{refuse_parameter, refuse_query};
use crate::unread::Unread;
use std::alloc::{AllocError, Global};
use sx_base::Items;
use sx_call::{NoMemory, Text};

/// A parameter of a query: its name decoded and in lower case, its value as it stands.
#[derive(Drop)]
pub struct Parameter {
    /// The name.
    pub name: Items<u8>,
    /// The value, percent-encoded.
    pub value: Items<u8>,
}

fn make_lower(bytes: &mut [u8])
    ensures { bytes.new ≡ map to_ascii_lowercase bytes.old }
{
    for b in bytes.iter_mut() {
        *b = b.to_ascii_lowercase();
    }
}

fn first_place(text: &[u8], byte: u8) -> Option<usize>
    ensures { result ≡ position (λ b. b == byte) text.now }
{
    text.iter().position(|b| *b == byte)
}

/// The place of a byte, or the length where it doesn't stand.
fn place_of(text: &[u8], byte: u8) -> usize
    ensures place { result ≡ position_or_len (λ b. b == byte) text.now }
    ensures within { result ≤ length text.now }
{
    match first_place(text, byte) {
        None => text.len(),
        Some(at) => at,
    }
}

/// What stands before the first such byte, or all.
pub fn before(text: &[u8], byte: u8) -> &[u8]
    ensures { result.now ≡ before_first (λ b. b == byte) text.now }
{
    &text[..place_of(text, byte)]
}

/// What stands behind the first such byte, or nothing.
pub fn after(text: &[u8], byte: u8) -> &[u8]
    ensures { result.now ≡ after_first (λ b. b == byte) text.now }
{
    let at = place_of(text, byte);
    if at < text.len() {
        &text[at + 1..]
    } else {
        &text[at..]
    }
}

/// The pieces of a text between bytes of one kind.
pub fn pieces<'a>(alloc: Global, text: &'a [u8], byte: u8) -> Result<Vec<&'a [u8]>, AllocError>
    ensures { IfOk result (λ v. map (λ t. t.now) v.items ≡ slice_split (λ b. b == byte) text.now) }
{
    text.split(|b| *b == byte).collect(alloc)
}

fn parameter_of(alloc: Global, piece: &[u8]) -> Result<Parameter, NoMemory>
    ensures { IfOk result (λ p. p ≡ parameter_of piece.now) }
{
    let mut name = decoded(alloc, before(piece, b'='))?;
    make_lower(&mut name);
    Ok(Parameter {
        name: Items::of(name),
        value: Items::copy_of(alloc, after(piece, b'='))?,
    })
}

/// The parameters of a query.
#[tactic(auto, unfolding(crate::specs::Parameters::parameters))]
pub fn parameters(alloc: Global, query: &[u8]) -> Result<Vec<Parameter>, NoMemory>
    ensures { IfOk result (λ ps. ps.items ≡ parameters query.now) }
{
    let pieces = pieces(alloc, query, b'&')?;
    parameters_in(alloc, &pieces)
}

fn parameters_in(alloc: Global, pieces: &[&[u8]]) -> Result<Vec<Parameter>, NoMemory>
    ensures { IfOk result (λ ps. ps.items ≡ map parameter_of (map (λ t. t.now) pieces.now)) }
{
    let mut parameters = Vec::new(alloc);
    for piece in pieces {
        parameters.push(parameter_of(alloc, piece)?)?;
    }
    Ok(parameters)
}

fn has_name(parameter: &Parameter, name: &[u8]) -> bool
    ensures { result ≡ has_name name.now parameter.now }
{
    parameter.name.as_slice() == name
}

fn parameter_values<'a>(
    alloc: Global,
    parameters: &'a [Parameter],
    name: &[u8],
) -> Result<Vec<&'a [u8]>, AllocError>
    ensures { IfOk result (λ v. map (λ t. t.now) v.items ≡ parameter_values name.now parameters.now) }
{
    parameters
        .iter()
        .filter(|p| has_name(p, name))
        .map(|p| p.value.as_slice())
        .collect(alloc)
}

fn only<'a>(alloc: Global, name: &str, values: &[&'a [u8]]) -> Result<Option<&'a [u8]>, Unread>
    ensures { ReadsBy (option_map (λ b. b.now)) result (only (Query name.now) (map (λ b. b.now) values.now)) }
{
    match values {
        [] => Ok(None),
        [value] => Ok(Some(*value)),
        _ => refuse_parameter(alloc, name),
    }
}

/// The decoded value of a parameter that may be there once.
#[tactic(auto, unfolding(crate::specs::Parameters::one_parameter))]
pub fn one_parameter(
    alloc: Global,
    parameters: &[Parameter],
    name: &str,
) -> Result<Option<Text>, Unread>
    ensures { Reads result (one_parameter name.now parameters.now) }
{
    let values = parameter_values(alloc, parameters, name.as_bytes())?;
    match only(alloc, name, &values)? {
        None => Ok(None),
        Some(value) => encoded(alloc, name, decoded_text(alloc, value)?),
    }
}

fn encoded(alloc: Global, name: &str, text: Option<Text>) -> Result<Option<Text>, Unread>
    ensures { Reads result (encoded name.now text) }
{
    match text {
        None => refuse_query(alloc, name),
        Some(text) => Ok(Some(text)),
    }
}
