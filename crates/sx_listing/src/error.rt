//! The body of an error.

ghost use Rattle.std.specs.Prelude.{◌≡◌, IfOk, Result};
ghost use Rattle.sx_text.specs.Given.{Gives};
ghost use Rattle.sx_text.specs.Escapes.{IsWhole};
ghost use Rattle.sx_listing.specs.Body.{ReadsBody, IsReadAs};
ghost use Rattle.sx_listing.specs.Error.{error_text, IsError, code_at, message_at, error_at};
ghost use Rattle.sx_listing.specs.declared.body.BodyFault.{BodyFault};
ghost use Rattle.sx_listing.specs.declared.error.ErrorBody.{ErrorBody};

use crate::body::BodyFault;
use crate::texts::{append_escaped, text_of};
use std::alloc::Global;
use sx_base::NoMemory;
use sx_names::Text;
use sx_text::{Fault, escaped_text_behind, literal};

/// What an error says.
#[derive(Debug, Drop, PartialEq)]
pub struct ErrorBody {
    /// The code, as `ResourceNotFound`.
    pub code: Text,
    /// The message.
    pub message: Text,
}

/// The body of an error.
#[tactic(auto, unfolding(crate::specs::Error::error_text))]
pub fn write_error(alloc: Global, error: &ErrorBody) -> Result<Text, NoMemory>
    ensures { IfOk result (λ text. text ≡ error_text error.now) }
{
    let mut text = Text::copy_of(
        alloc,
        "<?xml version=\"1.0\" encoding=\"utf-8\"?><Error><Code>",
    )?;
    append_escaped(alloc, &mut text, &error.code)?;
    text.append("</Code><Message>")?;
    append_escaped(alloc, &mut text, &error.message)?;
    text.append("</Message></Error>")?;
    Ok(text)
}

#[tactic(auto, unfolding(crate::specs::Error::message_at))]
fn message(alloc: Global, bytes: &[u8]) -> Result<(Vec<u8>, &[u8]), Fault>
    ensures reading { Gives (λ x. (x.0.items, x.1.now)) result (message_at bytes.now) }
    ensures whole { IfOk result (λ x. IsWhole x.0.items) }
{
    let (message, rest) = escaped_text_behind(alloc, bytes, b"/Code><Message>")?;
    let rest = literal(rest, b"/Message></Error>")?;
    Ok((message, rest))
}

#[tactic(auto, unfolding(crate::specs::Error::code_at))]
fn code(alloc: Global, bytes: &[u8]) -> Result<(Vec<u8>, &[u8]), Fault>
    ensures reading { Gives (λ x. (x.0.items, x.1.now)) result (code_at bytes.now) }
    ensures whole { IfOk result (λ x. IsWhole x.0.items) }
{
    escaped_text_behind(
        alloc,
        bytes,
        b"<?xml version=\"1.0\" encoding=\"utf-8\"?><Error><Code>",
    )
}

#[tactic(auto, unfolding(crate::specs::Error::error_at))]
fn error(alloc: Global, bytes: &[u8]) -> Result<(ErrorBody, &[u8]), Fault>
    ensures { Gives (λ x. (x.0, x.1.now)) result (error_at bytes.now) }
{
    let (code, rest) = code(alloc, bytes)?;
    let (message, rest) = message(alloc, rest)?;
    let error = ErrorBody {
        code: text_of(code),
        message: text_of(message),
    };
    Ok((error, rest))
}

/// The error that a body tells. Exactly the texts that `write_error` gives are read.
pub fn read_error(alloc: Global, bytes: &[u8]) -> Result<ErrorBody, BodyFault>
    ensures { ReadsBody error_text IsError bytes.now result }
{
    match error(alloc, bytes) {
        Ok((error, [])) => Ok(error),
        Ok((_, rest)) => Err(BodyFault::Bad {
            at: (bytes.len() - rest.len()) as u64,
        }),
        Err(Fault::Unread { left }) => Err(BodyFault::Bad {
            at: (bytes.len() - left) as u64,
        }),
        Err(Fault::NoMemory) => Err(BodyFault::NoMemory),
    }
}

/// The law of errors: what was written is read as it was. It does nothing.
pub fn errors_are_read_back()
    ensures { (error : ErrorBody) (read : Result ErrorBody BodyFault) → IsError error
        → ReadsBody error_text IsError (error_text error) read → IsReadAs error read }
{}
