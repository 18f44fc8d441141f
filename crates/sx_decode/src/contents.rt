//! The content headers, and the digest of a body.

ghost use Rattle.sx_decode.specs.Reading.{Reads};
ghost use Rattle.sx_decode.specs.Contents.{content_text, digest_read, digest_of, content_of};

use crate::lookup::one_header;
use crate::refusals::refuse_header;
use crate::unread::Unread;
use std::alloc::Global;
use sx_base::Items;
use sx_call::Content;
use sx_http::Header;
use sx_names::{ContentMd5, ContentText};

#[tactic(auto, unfolding(crate::specs::Contents::content_text))]
fn content_text(
    alloc: Global,
    headers: &[Header],
    name: &str,
) -> Result<Option<ContentText>, Unread>
    ensures { Reads result (content_text name.now headers.now) }
{
    match one_header(alloc, headers, name)? {
        None => Ok(None),
        Some(text) => match ContentText::of(Items::copy_of(alloc, text)?) {
            None => refuse_header(alloc, name),
            Some(text) => Ok(Some(text)),
        },
    }
}

fn digest_read(
    alloc: Global,
    name: &str,
    digest: Option<ContentMd5>,
) -> Result<Option<ContentMd5>, Unread>
    ensures { Reads result (digest_read name.now digest) }
{
    match digest {
        None => refuse_header(alloc, name),
        Some(digest) => Ok(Some(digest)),
    }
}

/// The digest of a header, where it is there.
#[tactic(auto, unfolding(crate::specs::Contents::digest_of))]
pub fn digest_of(
    alloc: Global,
    headers: &[Header],
    name: &str,
) -> Result<Option<ContentMd5>, Unread>
    ensures { Reads result (digest_of name.now headers.now) }
{
    match one_header(alloc, headers, name)? {
        None => Ok(None),
        Some(text) => digest_read(alloc, name, ContentMd5::read(text)),
    }
}

/// The content headers.
#[tactic(auto, unfolding(crate::specs::Contents::content_of))]
pub fn content_of(alloc: Global, headers: &[Header]) -> Result<Content, Unread>
    ensures { Reads result (content_of headers.now) }
{
    let kind = content_text(alloc, headers, "x-ms-content-type")?;
    let encoding = content_text(alloc, headers, "x-ms-content-encoding")?;
    let language = content_text(alloc, headers, "x-ms-content-language")?;
    let cache_control = content_text(alloc, headers, "x-ms-cache-control")?;
    let disposition = content_text(alloc, headers, "x-ms-content-disposition")?;
    let md5 = digest_of(alloc, headers, "x-ms-content-md5")?;
    Ok(Content {
        kind,
        encoding,
        language,
        cache_control,
        disposition,
        md5,
    })
}
