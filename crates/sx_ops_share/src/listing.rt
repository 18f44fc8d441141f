//! List Shares.
ghost use Rattle.std.specs.Prelude.{◌≡◌, IfOk, Ok, drop};
ghost use Rattle.sx_spec.specs.Pages.{marker_at, marker_text, next_share, shares_page};
ghost use Rattle.sx_spec.specs.ShareCalls.{list_shares};
ghost use Rattle.sx_spec.specs.Step.{outcome};

use crate::items::{first_items, name_text};
use std::alloc::Global;
use sx_base::Items;
use sx_call::{ListShares, Reply, ShareItem, SharesMarker, SharesPage, Text};
use sx_listing::{append_moment, write_shares};
use sx_memory::NoMemory;
use sx_moment::Moment;
use sx_state::State;

/// A share's name, with the moment of its snapshot behind it where there is one.
fn marker_at(name: Text, snapshot: Option<Moment>) -> Result<Text, NoMemory>
    ensures { IfOk result (λ text. text ≡ marker_at name snapshot) }
{
    let mut text = name;
    let Some(moment) = snapshot else {
        return Ok(text);
    };
    text.append("@")?;
    append_moment(&mut text, moment)?;
    Ok(text)
}

/// The text of a marker, empty where there is none.
fn marker_text(alloc: Global, marker: &Option<SharesMarker>) -> Result<Text, NoMemory>
    ensures { IfOk result (λ text. text ≡ marker_text marker.now) }
{
    match marker {
        Some(marker) => marker_at(name_text(alloc, &marker.share)?, marker.snapshot),
        None => Ok(Text::new(alloc)),
    }
}

/// The marker of the item at a place, which begins the next page, empty where there is none.
fn next_marker(alloc: Global, items: &[ShareItem], at: usize) -> Result<Text, NoMemory>
    ensures { IfOk result (λ text. text ≡ next_share (drop at items.now)) }
{
    match items.get(at) {
        Some(item) => marker_at(item.name.copy()?, item.snapshot),
        None => Ok(Text::new(alloc)),
    }
}

/// The first so many items that a call lists, with the marker of what follows.
fn page_of(state: &State, call: &ListShares) -> Result<SharesPage, NoMemory>
    ensures { IfOk result (λ page. page
        ≡ shares_page state.now call.now.prefix call.now.marker call.now.max call.now.snapshots) }
{
    let alloc = state.allocator();
    let max = call.max.results() as usize;
    let shares = state.shares_by_name()?;
    let mut items = first_items(alloc, max + 1, call, &shares)?;
    let next = next_marker(alloc, &items, max)?;
    items.truncate(max);
    Ok(SharesPage {
        prefix: call.prefix.text().copy()?,
        marker: marker_text(alloc, &call.marker)?,
        max: call.max,
        items: Items::of(items),
        next,
    })
}

/// List Shares: the shares in order of name and, where the call asks for them, their snapshots behind each; those whose
/// names begin with the prefix, from the marker on.
#[tactic(auto, using(crate::proofs::Passed::unchecked_passes))]
pub fn list_shares(state: &State, call: &ListShares) -> Result<Reply, NoMemory>
    ensures { IfOk result (λ reply. (state.now, reply) ≡ outcome state.now (Ok (list_shares state.now call.now.prefix
        call.now.marker call.now.max call.now.snapshots))) }
{
    let page = page_of(state, call)?;
    let body = write_shares(state.allocator(), &page)?;
    Ok(Reply::Listed { body })
}
