//! What an Authorization header says.

ghost use Rattle.std.specs.Prelude.{◌≡◌, IfOk, map};
ghost use Rattle.sx_key.specs.Answers.{Answers};
ghost use Rattle.sx_key.specs.Checking.{signature_in, signature_of, sent_signature, only_signature, or_bad_header};

use crate::fault::AuthFault;
use crate::reading::{is_account_name, read_base64};
use crate::texts::{after, before};
use std::alloc::Global;
use sx_base::{Items, NoMemory};
use sx_http::{Header, header_values};

/// The account that a request names, and the 32 bytes of its signature.
#[derive(Debug, Drop)]
pub(crate) struct SentSignature {
    /// The name of an account.
    pub account: Items<u8>,
    /// The signature, of 32 bytes.
    pub signature: Items<u8>,
}

/// What the one Authorization header says.
pub(crate) fn read_signature(alloc: Global, headers: &[Header]) -> Result<SentSignature, AuthFault>
    ensures { Answers result (sent_signature headers.now) }
{
    let values = header_values(alloc, headers, b"authorization")?;
    only_signature(alloc, &values)
}

fn only_signature(alloc: Global, values: &[&[u8]]) -> Result<SentSignature, AuthFault>
    ensures { Answers result (only_signature (map (λ t. t.now) values.now)) }
{
    match values {
        [] => Err(AuthFault::NoHeader),
        [value] => or_bad_header(alloc, value),
        _ => Err(AuthFault::BadHeader),
    }
}

fn or_bad_header(alloc: Global, value: &[u8]) -> Result<SentSignature, AuthFault>
    ensures { Answers result (or_bad_header (signature_of value.now)) }
{
    match signature_of(alloc, value)? {
        None => Err(AuthFault::BadHeader),
        Some(sent) => Ok(sent),
    }
}

fn signature_of(alloc: Global, value: &[u8]) -> Result<Option<SentSignature>, NoMemory>
    ensures { IfOk result (λ s. s ≡ signature_of value.now) }
{
    if value.starts_with(b"SharedKey ") {
        return signature_in(alloc, &value[10..]);
    }
    Ok(None)
}

fn signature_in(alloc: Global, text: &[u8]) -> Result<Option<SentSignature>, NoMemory>
    ensures { IfOk result (λ s. s ≡ signature_in text.now) }
{
    let account = before(text, b':');
    if !is_account_name(account) {
        return Ok(None);
    }
    let Some(signature) = read_base64(alloc, after(text, b':'))? else {
        return Ok(None);
    };
    if signature.len() != 32 {
        return Ok(None);
    }
    let account = Items::copy_of(alloc, account)?;
    Ok(Some(SentSignature { account, signature }))
}
