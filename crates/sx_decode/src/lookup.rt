//! Headers that may be there once.

ghost use Rattle.std.specs.Prelude.{Ok, map};
ghost use Rattle.std.specs.Option.{option_map};
ghost use Rattle.sx_call.specs.declared.refusals.Syntax.TheVariants.{Header as BadHeader};
ghost use Rattle.sx_decode.specs.Reading.{ReadsBy};
ghost use Rattle.sx_decode.specs.Lookup.{only, one_header, needed_header};

use crate::refusals::{refuse_missing, refuse_value};
use crate::unread::Unread;
use std::alloc::Global;
use sx_http::{Header, header_values};

/// The value of a header that may be there once.
#[tactic(auto, unfolding(crate::specs::Lookup::one_header))]
pub fn one_header<'a>(
    alloc: Global,
    headers: &'a [Header],
    name: &str,
) -> Result<Option<&'a [u8]>, Unread>
    ensures { ReadsBy (option_map (λ b. b.now)) result (one_header name.now headers.now) }
{
    let values = header_values(alloc, headers, name.as_bytes())?;
    only(alloc, name, &values)
}

fn only<'a>(alloc: Global, name: &str, values: &[&'a [u8]]) -> Result<Option<&'a [u8]>, Unread>
    ensures { ReadsBy (option_map (λ b. b.now)) result (only (BadHeader name.now) (map (λ b. b.now) values.now)) }
{
    match values {
        [] => Ok(None),
        [value] => Ok(Some(*value)),
        _ => refuse_value(alloc, name),
    }
}

/// The value of a header that has to be there, once.
#[tactic(auto, unfolding(crate::specs::Lookup::needed_header))]
pub fn needed_header<'a>(
    alloc: Global,
    headers: &'a [Header],
    name: &str,
) -> Result<&'a [u8], Unread>
    ensures { ReadsBy (λ b. b.now) result (needed_header name.now headers.now) }
{
    match one_header(alloc, headers, name)? {
        None => refuse_missing(alloc, name),
        Some(value) => Ok(value),
    }
}
