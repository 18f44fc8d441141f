//! The reasons why a request is no call, each with the name of what is to blame.

ghost use Rattle.std.specs.Prelude.{Err};
ghost use Rattle.std.specs.Option.{option_map};
ghost use Rattle.sx_call.specs.declared.refusals.Syntax.TheVariants.{Header as BadHeader, Query, Missing, Range};
ghost use Rattle.sx_call.specs.declared.refusals.Syntax.TheVariants.{NoCall, Uri};
ghost use Rattle.sx_decode.specs.Reading.{Reads, ReadsBy};

use crate::unread::Unread;
use std::alloc::Global;
use sx_call::{Syntax, Text};
use sx_names::NameFault;

/// Refuses a header that is repeated or not read.
pub(crate) fn refuse_header<T>(alloc: Global, name: &str) -> Result<T, Unread>
    ensures { Reads result (Err (BadHeader name.now)) }
{
    let name = Text::copy_of(alloc, name)?;
    Err(Unread::Syntax(Syntax::Header(name)))
}

/// Refuses a header whose value was to be lent.
pub(crate) fn refuse_value<'a>(alloc: Global, name: &str) -> Result<Option<&'a [u8]>, Unread>
    ensures { ReadsBy (option_map (λ b. b.now)) result (Err (BadHeader name.now)) }
{
    let name = Text::copy_of(alloc, name)?;
    Err(Unread::Syntax(Syntax::Header(name)))
}

/// Refuses a request that lacks a header.
pub(crate) fn refuse_missing<'a>(alloc: Global, name: &str) -> Result<&'a [u8], Unread>
    ensures { ReadsBy (λ b. b.now) result (Err (Missing name.now)) }
{
    let name = Text::copy_of(alloc, name)?;
    Err(Unread::Syntax(Syntax::Missing(name)))
}

/// Refuses a number that is out of its limits.
pub(crate) fn refuse_range<T>(alloc: Global, name: &str) -> Result<T, Unread>
    ensures { Reads result (Err (Range name.now)) }
{
    let name = Text::copy_of(alloc, name)?;
    Err(Unread::Syntax(Syntax::Range(name)))
}

/// Refuses a parameter of the query.
pub(crate) fn refuse_query<T>(alloc: Global, name: &str) -> Result<T, Unread>
    ensures { Reads result (Err (Query name.now)) }
{
    let name = Text::copy_of(alloc, name)?;
    Err(Unread::Syntax(Syntax::Query(name)))
}

/// Refuses a parameter of the query whose value was to be lent.
pub(crate) fn refuse_parameter<'a>(alloc: Global, name: &str) -> Result<Option<&'a [u8]>, Unread>
    ensures { ReadsBy (option_map (λ b. b.now)) result (Err (Query name.now)) }
{
    let name = Text::copy_of(alloc, name)?;
    Err(Unread::Syntax(Syntax::Query(name)))
}

/// Refuses a name in the target.
pub(crate) fn refuse_name<T>(fault: NameFault) -> Result<T, Unread>
    ensures { Reads result (Err (Uri fault.rule fault.part fault.at)) }
{
    let NameFault { rule, part, at } = fault;
    Err(Unread::Syntax(Syntax::Uri { rule, part, at }))
}

/// Refuses a request of which no call has method, path, restype and comp.
pub(crate) fn no_call<T>() -> Result<T, Unread>
    ensures { Reads result (Err NoCall) }
{
    Err(Unread::Syntax(Syntax::NoCall))
}
