//! StringToSign, and the signature under an account's key.

ghost use Rattle.std.specs.Prelude.{◌≡◌, ◌++◌, OnOk, IfOk, map};
ghost use Rattle.std.specs.Str.Lossy.{utf8_lossy};
ghost use Rattle.sx_key.specs.Texts.{text_line};
ghost use Rattle.sx_key.specs.Signature.{header_lines, signed_length, signed_date};
ghost use Rattle.sx_key.specs.Signature.{standard_lines, signed_bytes, string_to_sign, signature};
ghost use Rattle.sx_key.specs.Signature.{authorization, joined_header};

use crate::account::Account;
use crate::canonical::put_headers;
use crate::digest::hmac;
use crate::query::put_resource;
use crate::texts::{put_joined_header, text_of};
use base64::engine::general_purpose::STANDARD;
use std::alloc::Global;
use sx_base::NoMemory;
use sx_http::{Head, Header, has_header};
use sx_names::Text;

/// StringToSign of a request's head under an account's name ("Authorize with Shared Key" of Azure Storage): the verb,
/// eleven headers, the canonical headers and the canonical resource. Bytes that aren't UTF-8 stand as their lossy
/// text.
pub fn string_to_sign(alloc: Global, head: &Head, account: &Text) -> Result<Text, NoMemory>
    ensures { IfOk result (λ t. t ≡ string_to_sign head.now account.now) }
{
    let bytes = signed_bytes(alloc, head, account.bytes())?;
    lossy(alloc, &bytes)
}

/// The whole value of the Authorization header: `SharedKey`, a space, the account's name, a colon, and the base64 of
/// the HMAC-SHA256 of StringToSign under the account's key.
pub fn sign(alloc: Global, head: &Head, account: &Account) -> Result<Text, NoMemory>
    ensures { IfOk result (λ t. t ≡ authorization head.now account.now) }
{
    let value = authorization(alloc, head, account)?;
    Ok(text_of(value))
}

fn authorization(alloc: Global, head: &Head, account: &Account) -> Result<Vec<u8>, NoMemory>
    ensures { IfOk result (λ v. v.items ≡ authorization head.now account.now) }
{
    let digest = signature(alloc, head, account)?;
    let text = STANDARD.encode(alloc, &digest)?;
    let mut value = Vec::from_slice(alloc, b"SharedKey ")?;
    value.extend_from_slice(account.name.bytes())?;
    value.extend_from_slice(b":")?;
    value.extend_from_slice(text.as_bytes())?;
    Ok(value)
}

/// The signature that a head has under an account's key.
pub(crate) fn signature(alloc: Global, head: &Head, account: &Account) -> Result<[u8; 32], NoMemory>
    ensures { IfOk result (λ s. s ≡ signature head.now account.now) }
{
    let text = string_to_sign(alloc, head, &account.name)?;
    Ok(hmac(account.key.as_slice(), text.bytes()))
}

fn lossy(alloc: Global, bytes: &[u8]) -> Result<Text, NoMemory>
    ensures { IfOk result (λ t. t ≡ utf8_lossy bytes.now) }
{
    let text = String::from_utf8_lossy(alloc, bytes)?;
    let bytes = Vec::from_slice(alloc, text.as_str().as_bytes())?;
    Ok(text_of(bytes))
}

fn signed_bytes(alloc: Global, head: &Head, account: &[u8]) -> Result<Vec<u8>, NoMemory>
    ensures { IfOk result (λ v. v.items ≡ signed_bytes head.now account.now) }
{
    let headers = head.headers.as_slice();
    let mut out = Vec::new(alloc);
    put_standard(alloc, &mut out, head.method.as_str().as_bytes(), headers)?;
    put_headers(alloc, &mut out, headers)?;
    put_resource(alloc, &mut out, account, head.target.bytes())?;
    Ok(out)
}

/// Adds the verb's line and those of the eleven headers.
fn put_standard(
    alloc: Global,
    out: &mut Vec<u8>,
    verb: &[u8],
    headers: &[Header],
) -> Result<(), NoMemory>
    ensures { OnOk result (out.new.items ≡ out.old.items ++ standard_lines verb.now headers.now) }
{
    put_text_line(out, verb)?;
    put_lines(
        alloc,
        out,
        headers,
        &[b"content-encoding", b"content-language"],
    )?;
    put_length(alloc, out, headers)?;
    put_lines(alloc, out, headers, &[b"content-md5", b"content-type"])?;
    put_date(alloc, out, headers)?;
    put_lines(
        alloc,
        out,
        headers,
        &[
            b"if-modified-since",
            b"if-match",
            b"if-none-match",
            b"if-unmodified-since",
            b"range",
        ],
    )
}

fn put_text_line(out: &mut Vec<u8>, text: &[u8]) -> Result<(), NoMemory>
    ensures { OnOk result (out.new.items ≡ out.old.items ++ text_line text.now) }
{
    out.extend_from_slice(text)?;
    out.push(b'\n')?;
    Ok(())
}

/// A line for each name.
fn put_lines(
    alloc: Global,
    out: &mut Vec<u8>,
    headers: &[Header],
    names: &[&[u8]],
) -> Result<(), NoMemory>
    ensures { OnOk result (out.new.items ≡ out.old.items ++ header_lines (map (λ t. t.now) names.now) headers.now) }
{
    for name in names {
        put_header_line(alloc, out, headers, name)?;
    }
    Ok(())
}

fn put_header_line(
    alloc: Global,
    out: &mut Vec<u8>,
    headers: &[Header],
    name: &[u8],
) -> Result<(), NoMemory>
    ensures { OnOk result (out.new.items ≡ out.old.items ++ text_line (joined_header name.now headers.now)) }
{
    put_joined_header(alloc, out, headers, name)?;
    out.push(b'\n')?;
    Ok(())
}

/// The line of the length, which is empty for 0.
fn put_length(alloc: Global, out: &mut Vec<u8>, headers: &[Header]) -> Result<(), NoMemory>
    ensures { OnOk result (out.new.items ≡ out.old.items ++ text_line (signed_length headers.now)) }
{
    let mut length = Vec::new(alloc);
    put_joined_header(alloc, &mut length, headers, b"content-length")?;
    if length.as_slice() == b"0".as_slice() {
        return put_text_line(out, b"");
    }
    put_text_line(out, &length)
}

/// The line of the date, which is empty beside `x-ms-date`.
fn put_date(alloc: Global, out: &mut Vec<u8>, headers: &[Header]) -> Result<(), NoMemory>
    ensures { OnOk result (out.new.items ≡ out.old.items ++ text_line (signed_date headers.now)) }
{
    if has_header(headers, b"x-ms-date") {
        return put_text_line(out, b"");
    }
    put_header_line(alloc, out, headers, b"date")
}
