//! The content headers that are kept with a file.

ghost use Rattle.std.specs.Prelude.{◌≡◌, Some, IfOk, length, take};
ghost use Rattle.base64.specs.GeneralPurpose.{encode_of};
ghost use Rattle.base64.specs.Engines.{standard};
ghost use Rattle.sx_names.specs.Content.{md5_of};

use crate::header::ContentText;
use base64::engine::general_purpose::STANDARD;
use std::marker::Model;
use sx_base::NoMemory;

/// The 16 bytes of an MD5 digest (RFC 1321), as the headers x-ms-content-md5 and Content-MD5 carry them in base64.
/// Contracts see the bytes.
#[derive(Clone, Copy, Debug, PartialEq, Eq)]
pub struct ContentMd5 {
    bytes: [u8; 16],
}

impl Model for ContentMd5 {
    ghost use Rattle.std.specs.Prelude.{List, ℕ};

    ghost Value = { List ℕ };

    ghost view = { λ md5. md5.bytes };

    ghost inverse = { λ bs. record { bytes = bs } };
}

impl ContentMd5 {
    /// The digest that a header's value spells: exactly the strict base64 (RFC 4648, section 4) of 16 bytes is one.
    /// It takes no memory.
    #[tactic(auto, unfolding(crate::specs::Content::md5_of))]
    pub fn read(text: &[u8]) -> Option<ContentMd5>
        ensures { result ≡ md5_of text.now }
    {
        if text.len() != 24 {
            return None;
        }
        let mut decoded = [0u8; 18];
        match STANDARD.decode_slice_unchecked(text, &mut decoded) {
            Ok(16) => Some(ContentMd5 {
                bytes: first_16(&decoded),
            }),
            Ok(_) => None,
            Err(_) => None,
        }
    }

    /// The digest of these bytes.
    pub fn of(bytes: [u8; 16]) -> ContentMd5
        ensures { result ≡ bytes }
    {
        ContentMd5 { bytes }
    }

    /// The 16 bytes.
    pub fn bytes(&self) -> &[u8]
        ensures value { result.now ≡ self.now }
        ensures count { length self.now ≡ 16 }
    {
        &self.bytes
    }

    /// The digest in base64, as headers carry it.
    pub fn text(&self) -> [u8; 24]
        ensures text { result ≡ encode_of standard self.now }
        ensures read { md5_of result ≡ Some self.now }
    {
        base64_of(&self.bytes)
    }
}

/// The content headers that are kept with a file, each where it was given ("Create File" and "Set File Properties" of
/// Azure Files).
#[derive(Debug, Drop, PartialEq)]
pub struct Content {
    /// x-ms-content-type.
    pub kind: Option<ContentText>,
    /// x-ms-content-encoding.
    pub encoding: Option<ContentText>,
    /// x-ms-content-language.
    pub language: Option<ContentText>,
    /// x-ms-cache-control.
    pub cache_control: Option<ContentText>,
    /// x-ms-content-disposition.
    pub disposition: Option<ContentText>,
    /// x-ms-content-md5.
    pub md5: Option<ContentMd5>,
}

impl Content {
    /// An equal value of its own.
    pub fn copy(&self) -> Result<Content, NoMemory>
        ensures { IfOk result (λ c. c ≡ self.now) }
    {
        Ok(Content {
            kind: copy_of(&self.kind)?,
            encoding: copy_of(&self.encoding)?,
            language: copy_of(&self.language)?,
            cache_control: copy_of(&self.cache_control)?,
            disposition: copy_of(&self.disposition)?,
            md5: self.md5,
        })
    }
}

/// The base64 of 16 bytes.
fn base64_of(bytes: &[u8]) -> [u8; 24]
    requires { length bytes.now ≡ 16 }
    ensures text { result ≡ encode_of standard bytes.now }
    ensures read { md5_of result ≡ Some bytes.now }
{
    let mut text = [0u8; 24];
    match STANDARD.encode_slice(bytes, &mut text) {
        Ok(_) => text,
        Err(_) => unreachable!(),
    }
}

/// The first 16 bytes.
fn first_16(bytes: &[u8; 18]) -> [u8; 16]
    ensures { result ≡ take 16 bytes.now }
{
    let mut first = [0u8; 16];
    first.copy_from_slice(&bytes[..16]);
    first
}

fn copy_of(text: &Option<ContentText>) -> Result<Option<ContentText>, NoMemory>
    ensures { IfOk result (λ t. t ≡ text.now) }
{
    match text {
        Some(text) => Ok(Some(text.copy()?)),
        None => Ok(None),
    }
}
