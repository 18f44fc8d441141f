//! The body of a request.

ghost use Rattle.std.specs.Prelude.{◌≡◌, ◌<◌, ◌≤◌, ◌-◌, true};
ghost use Rattle.md5.specs.Md5.{md5};
ghost use Rattle.sx_extent.specs.declared.piece.TheConstants.{PIECE_LIMIT};
ghost use Rattle.sx_call.specs.declared.ranges.TheConstants.{OFFSET_LIMIT};
ghost use Rattle.sx_decode.specs.Reading.{Reads, ReadsBy};
ghost use Rattle.sx_decode.specs.Bodies.{no_body, piece_of, has_digest, with_digest, update_of};

use crate::ranges::Written;
use crate::refusals::refuse_header;
use crate::unread::Unread;
use md5::{Digest, Md5};
use std::alloc::Global;
use sx_base::Items;
use sx_call::{RangeUpdate, Syntax};
use sx_extent::Piece;
use sx_names::ContentMd5;

/// Refuses a body where there is to be none.
#[tactic(auto, unfolding(crate::specs::Bodies::no_body))]
pub fn no_body(alloc: Global, body: &[u8]) -> Result<(), Unread>
    ensures { ReadsBy (λ _. true) result (no_body body.now) }
{
    if body.is_empty() {
        Ok(())
    } else {
        refuse_header(alloc, "content-length")
    }
}

#[tactic(auto, unfolding(crate::specs::Bodies::piece_of))]
fn piece_of(alloc: Global, interval: Written, body: Items<u8>) -> Result<RangeUpdate, Unread>
    requires some { interval.from < interval.end }
    requires limit { interval.end ≤ OFFSET_LIMIT }
    requires short { interval.end - interval.from ≤ PIECE_LIMIT }
    ensures { Reads result (piece_of interval body) }
{
    if body.len() as u64 != interval.end - interval.from {
        return refuse_header(alloc, "content-length");
    }
    let piece = Piece::of(alloc, body.into_vec())?;
    match RangeUpdate::of(interval.from, piece) {
        Some(update) => Ok(update),
        None => unreachable!(),
    }
}

fn digest_of(body: &[u8]) -> [u8; 16]
    ensures { result ≡ md5 body.now }
{
    Md5::digest(body)
}

fn has_digest(digest: Option<ContentMd5>, body: &[u8]) -> bool
    ensures { result ≡ has_digest digest body.now }
{
    match digest {
        None => true,
        Some(digest) => digest_of(body).as_slice() == digest.bytes(),
    }
}

#[tactic(auto, unfolding(crate::specs::Bodies::with_digest))]
fn with_digest(digest: Option<ContentMd5>, update: RangeUpdate) -> Result<RangeUpdate, Unread>
    ensures { Reads result (with_digest digest update) }
{
    if has_digest(digest, update.piece.bytes()) {
        Ok(update)
    } else {
        Err(Unread::Syntax(Syntax::Md5))
    }
}

/// The update that a body writes into an interval.
#[tactic(auto, unfolding(crate::specs::Bodies::update_of))]
pub fn update_of(
    alloc: Global,
    interval: Written,
    digest: Option<ContentMd5>,
    body: Items<u8>,
) -> Result<RangeUpdate, Unread>
    requires some { interval.from < interval.end }
    requires limit { interval.end ≤ OFFSET_LIMIT }
    requires short { interval.end - interval.from ≤ PIECE_LIMIT }
    ensures { Reads result (update_of interval digest body) }
{
    let update = piece_of(alloc, interval, body)?;
    with_digest(digest, update)
}
