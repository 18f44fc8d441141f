//! The body that lists shares, read.

ghost use Rattle.std.specs.Prelude.{◌≡◌, IfOk, Result};
ghost use Rattle.sx_base.specs.Date.{IsDated};
ghost use Rattle.sx_call.specs.declared.pages.SharesPage.{SharesPage};
ghost use Rattle.sx_text.specs.Given.{Reads, Gives};
ghost use Rattle.sx_text.specs.Escapes.{IsWhole};
ghost use Rattle.sx_text.specs.Numbers.{IsFrom};
ghost use Rattle.sx_text.specs.Readers.{all_values_at};
ghost use Rattle.sx_listing.specs.Body.{ReadsBody, IsReadAs};
ghost use Rattle.sx_listing.specs.Shares.{shares_text};
ghost use Rattle.sx_listing.specs.SharesReader.{AreShares, IsSnapshot, share_of, snapshot_at, standing_at, choice_at};
ghost use Rattle.sx_listing.specs.SharesReader.{named_at, changed_at, quota_at, properties_at, share_at, marked_at};
ghost use Rattle.sx_listing.specs.SharesReader.{asked_at, items_at, next_at, answered_at, shares_at};
ghost use Rattle.sx_listing.specs.declared.body.BodyFault.{BodyFault};

use crate::body::BodyFault;
use crate::texts::text_of;
use std::alloc::Global;
use sx_base::{Items, take_date, take_moment};
use sx_call::{ShareItem, SharesPage};
use sx_moment::{Moment, Second};
use sx_names::{PageSize, Quota};
use sx_text::{
    Fault, Unread, escaped_text_behind, hex_digits_behind, literal, next_is, number_behind,
};

/// A name, and the moment of a snapshot or none.
type Named = (Vec<u8>, Option<u64>);

/// Change time, ETag and quota.
type Properties = (u64, (u64, u64));

/// The moment of a snapshot, and the tag of the properties.
#[tactic(auto, unfolding(crate::specs::SharesReader::snapshot_at))]
fn snapshot(bytes: &[u8]) -> Result<(Option<u64>, &[u8]), Unread>
    ensures reading { Reads (λ x. (x.0, x.1.now)) result (snapshot_at bytes.now) }
    ensures value { IfOk result (λ x. IsSnapshot x.0) }
{
    let rest = literal(bytes, b"Snapshot>")?;
    let (moment, rest) = take_moment(rest)?;
    let rest = literal(rest, b"</Snapshot><Properties>")?;
    Ok((Some(moment), rest))
}

/// The tag of the properties.
#[tactic(auto, unfolding(crate::specs::SharesReader::standing_at))]
fn standing(bytes: &[u8]) -> Result<(Option<u64>, &[u8]), Unread>
    ensures reading { Reads (λ x. (x.0, x.1.now)) result (standing_at bytes.now) }
    ensures value { IfOk result (λ x. IsSnapshot x.0) }
{
    let rest = literal(bytes, b"Properties>")?;
    Ok((None, rest))
}

/// The moment of a snapshot or none, and the tag of the properties.
#[tactic(auto, unfolding(crate::specs::SharesReader::choice_at, sx_text::specs::Readers::either_at))]
fn choice(bytes: &[u8]) -> Result<(Option<u64>, &[u8]), Unread>
    ensures reading { Reads (λ x. (x.0, x.1.now)) result (choice_at bytes.now) }
    ensures value { IfOk result (λ x. IsSnapshot x.0) }
{
    if next_is(bytes, b'S')? {
        snapshot(bytes)
    } else {
        standing(bytes)
    }
}

/// The name, and the moment of a snapshot or none, up to the tag of the properties.
#[tactic(auto, unfolding(crate::specs::SharesReader::named_at))]
fn named(alloc: Global, bytes: &[u8]) -> Result<(Named, &[u8]), Fault>
    ensures reading { Gives (λ x. ((x.0.0.items, x.0.1), x.1.now)) result (named_at bytes.now) }
    ensures whole { IfOk result (λ x. IsWhole x.0.0.items) }
    ensures snapshot { IfOk result (λ x. IsSnapshot x.0.1) }
{
    let (name, rest) = escaped_text_behind(alloc, bytes, b"Share><Name>")?;
    let rest = literal(rest, b"/Name><")?;
    let (snapshot, rest) = choice(rest)?;
    Ok(((name, snapshot), rest))
}

/// The change time.
#[tactic(auto, unfolding(crate::specs::SharesReader::changed_at))]
fn changed(bytes: &[u8]) -> Result<(u64, &[u8]), Unread>
    ensures reading { Reads (λ x. (x.0, x.1.now)) result (changed_at bytes.now) }
    ensures value { IfOk result (λ x. IsDated x.0) }
{
    let rest = literal(bytes, b"<Last-Modified>")?;
    take_date(rest)
}

/// The quota, and the `<` of what follows the item.
#[tactic(auto, unfolding(crate::specs::SharesReader::quota_at))]
fn quota(bytes: &[u8]) -> Result<(u64, &[u8]), Unread>
    ensures reading { Reads (λ x. (x.0, x.1.now)) result (quota_at bytes.now) }
    ensures value { IfOk result (λ x. IsFrom 1 5120 x.0) }
{
    let (quota, rest) = number_behind(bytes, b"\"</Etag><Quota>", b'<', 1, 5120)?;
    let rest = literal(rest, b"/Quota></Properties></Share><")?;
    Ok((quota, rest))
}

/// The properties behind their tag.
#[tactic(auto, unfolding(crate::specs::SharesReader::properties_at))]
fn properties(bytes: &[u8]) -> Result<(Properties, &[u8]), Unread>
    ensures reading { Reads (λ x. (x.0, x.1.now)) result (properties_at bytes.now) }
    ensures value { IfOk result (λ x. IsDated x.0.0 × IsFrom 1 5120 x.0.1.1) }
{
    let (changed, rest) = changed(bytes)?;
    let (etag, rest) = hex_digits_behind(rest, b"</Last-Modified><Etag>\"0x", 15)?;
    let (quota, rest) = quota(rest)?;
    Ok(((changed, (etag, quota)), rest))
}

/// Takes a share or a snapshot.
#[tactic(auto, unfolding(crate::specs::SharesReader::share_at))]
fn share(alloc: Global, bytes: &[u8]) -> Result<((Named, Properties), &[u8]), Fault>
    ensures reading { Gives (λ x. (share_of ((x.0.0.0.items, x.0.0.1), x.0.1), x.1.now)) result (share_at bytes.now) }
    ensures whole { IfOk result (λ x. IsWhole x.0.0.0.items) }
    ensures snapshot { IfOk result (λ x. IsSnapshot x.0.0.1) }
    ensures properties { IfOk result (λ x. IsDated x.0.1.0 × IsFrom 1 5120 x.0.1.1.1) }
{
    let (named, rest) = named(alloc, bytes)?;
    let (properties, rest) = properties(rest)?;
    Ok(((named, properties), rest))
}

/// The moment of this number of ticks, where there is one.
fn moment_from(ticks: Option<u64>) -> Option<Moment>
    requires { IsSnapshot ticks }
    ensures { result ≡ ticks }
{
    match ticks {
        Some(ticks) => Some(Moment::of(ticks)),
        None => None,
    }
}

#[tactic(auto, unfolding(sx_text::specs::Readers::values_at))]
fn shares(alloc: Global, bytes: &[u8]) -> Result<(Items<ShareItem>, &[u8]), Fault>
    ensures { Gives (λ x. (x.0, x.1.now)) result (all_values_at 47 share_at bytes.now) }
{
    let mut items = Items::new(alloc);
    let mut rest = bytes;
    for _ in 0..bytes.len() + 1 {
        if rest.is_empty() {
            return Err(Fault::Unread { left: 0 });
        }
        if rest[0] == b'/' {
            return Ok((items, &rest[1..]));
        }
        let (((name, snapshot), (changed, (etag, quota))), after) = share(alloc, rest)?;
        let item = ShareItem {
            name: text_of(name),
            snapshot: moment_from(snapshot),
            changed: Second::of(changed),
            etag,
            quota: Quota::of(quota as u32),
        };
        let Ok(()) = items.push(item) else {
            return Err(Fault::NoMemory);
        };
        rest = after;
    }
    Err(Fault::Unread { left: rest.len() })
}

/// The marker and the size of the page.
#[tactic(auto, unfolding(crate::specs::SharesReader::marked_at))]
fn marked(alloc: Global, bytes: &[u8]) -> Result<((Vec<u8>, u64), &[u8]), Fault>
    ensures reading { Gives (λ x. ((x.0.0.items, x.0.1), x.1.now)) result (marked_at bytes.now) }
    ensures whole { IfOk result (λ x. IsWhole x.0.0.items × IsFrom 1 5000 x.0.1) }
{
    let (marker, rest) = escaped_text_behind(alloc, bytes, b"/Prefix><Marker>")?;
    let (max, rest) = number_behind(rest, b"/Marker><MaxResults>", b'<', 1, 5000)?;
    Ok(((marker, max), rest))
}

/// What was asked for: the prefix, the marker and the size of the page.
#[tactic(auto, unfolding(crate::specs::SharesReader::asked_at))]
fn asked(alloc: Global, bytes: &[u8]) -> Result<((Vec<u8>, (Vec<u8>, u64)), &[u8]), Fault>
    ensures reading { Gives (λ x. ((x.0.0.items, (x.0.1.0.items, x.0.1.1)), x.1.now)) result (asked_at bytes.now) }
    ensures whole { IfOk result (λ x. IsWhole x.0.0.items × IsWhole x.0.1.0.items × IsFrom 1 5000 x.0.1.1) }
{
    let (prefix, rest) = escaped_text_behind(
        alloc,
        bytes,
        b"<?xml version=\"1.0\" encoding=\"utf-8\"?><EnumerationResults><Prefix>",
    )?;
    let (marked, rest) = marked(alloc, rest)?;
    Ok(((prefix, marked), rest))
}

#[tactic(auto, unfolding(crate::specs::SharesReader::items_at))]
fn items(alloc: Global, bytes: &[u8]) -> Result<(Items<ShareItem>, &[u8]), Fault>
    ensures { Gives (λ x. (x.0, x.1.now)) result (items_at bytes.now) }
{
    let rest = literal(bytes, b"/MaxResults><Shares><")?;
    shares(alloc, rest)
}

/// The next marker, to the end.
#[tactic(auto, unfolding(crate::specs::SharesReader::next_at))]
fn next(alloc: Global, bytes: &[u8]) -> Result<(Vec<u8>, &[u8]), Fault>
    ensures reading { Gives (λ x. (x.0.items, x.1.now)) result (next_at bytes.now) }
    ensures whole { IfOk result (λ x. IsWhole x.0.items) }
{
    let (next, rest) = escaped_text_behind(alloc, bytes, b"Shares><NextMarker>")?;
    let rest = literal(rest, b"/NextMarker></EnumerationResults>")?;
    Ok((next, rest))
}

/// The items and the next marker.
#[tactic(auto, unfolding(crate::specs::SharesReader::answered_at))]
fn answered(alloc: Global, bytes: &[u8]) -> Result<((Items<ShareItem>, Vec<u8>), &[u8]), Fault>
    ensures reading { Gives (λ x. ((x.0.0, x.0.1.items), x.1.now)) result (answered_at bytes.now) }
    ensures whole { IfOk result (λ x. IsWhole x.0.1.items) }
{
    match items(alloc, bytes) {
        Ok((items, rest)) => {
            let (next, rest) = next(alloc, rest)?;
            Ok(((items, next), rest))
        }
        Err(fault) => Err(fault),
    }
}

#[tactic(auto, unfolding(crate::specs::SharesReader::shares_at))]
fn page(alloc: Global, bytes: &[u8]) -> Result<(SharesPage, &[u8]), Fault>
    ensures { Gives (λ x. (x.0, x.1.now)) result (shares_at bytes.now) }
{
    let ((prefix, (marker, max)), rest) = asked(alloc, bytes)?;
    match answered(alloc, rest) {
        Ok(((items, next), rest)) => {
            let page = SharesPage {
                prefix: text_of(prefix),
                marker: text_of(marker),
                max: PageSize::of(max as u32),
                items,
                next: text_of(next),
            };
            Ok((page, rest))
        }
        Err(fault) => Err(fault),
    }
}

/// The page of shares that a body lists. Exactly the texts that `write_shares` gives are read.
pub fn read_shares(alloc: Global, bytes: &[u8]) -> Result<SharesPage, BodyFault>
    ensures { ReadsBody shares_text AreShares bytes.now result }
{
    match page(alloc, bytes) {
        Ok((page, [])) => Ok(page),
        Ok((_, rest)) => Err(BodyFault::Bad {
            at: (bytes.len() - rest.len()) as u64,
        }),
        Err(Fault::Unread { left }) => Err(BodyFault::Bad {
            at: (bytes.len() - left) as u64,
        }),
        Err(Fault::NoMemory) => Err(BodyFault::NoMemory),
    }
}

/// The law of listed shares: what was written is read as the page that it lists. It does nothing.
pub fn shares_are_read_back()
    ensures { (page : SharesPage) (read : Result SharesPage BodyFault) → AreShares page
        → ReadsBody shares_text AreShares (shares_text page) read → IsReadAs page read }
{}
