//! The items that List Shares lists: shares and snapshots, as far as there is room for them.
ghost use Rattle.std.specs.Prelude.{[], ◌≡◌, ◌≤◌, ◌++◌, ◌∷◌, IfOk, OnOk, length, map, take};
ghost use Rattle.std.specs.List.{filter, flat_map};
ghost use Rattle.sx_ops_share.specs.Listed.{is_listed};
ghost use Rattle.sx_spec.specs.Pages.{is_from, items_of, moment_before, share_item, snapshot_item, text_before};

use std::alloc::Global;
use std::marker::Model;
use sx_base::Items;
use sx_call::{ListShares, ShareItem, SharesMarker, Text};
use sx_memory::NoMemory;
use sx_moment::{Moment, Second};
use sx_names::{Quota, ShareName};
use sx_tree::{Share, Snapshot};

/// A share or a snapshot in the listing, lent. Contracts see the item.
#[derive(Drop)]
struct Listed<'a> {
    name: &'a ShareName,
    snapshot: Option<Moment>,
    changed: Moment,
    etag: u64,
    quota: Quota,
}

impl<'a> Model for Listed<'a> {
    ghost use Rattle.sx_call.specs.declared.pages.ShareItem.{ShareItem};
    ghost use Rattle.sx_moment.specs.Moments.{second_of};

    ghost Value = { ShareItem };

    ghost view = { λ x. record {
      name = x.name.now;
      snapshot = x.snapshot;
      changed = second_of x.changed;
      etag = x.etag;
      quota = x.quota;
    } };
}

/// A share as it stands, in the listing.
fn share_item(share: &Share) -> Listed<'_>
    ensures { result ≡ share_item share.now }
{
    Listed {
        name: &share.name,
        snapshot: None,
        changed: share.changed,
        etag: share.etag,
        quota: share.quota,
    }
}

/// A snapshot of the share of a name, in the listing.
fn snapshot_item<'a>(name: &'a ShareName, kept: &Snapshot) -> Listed<'a>
    ensures { result ≡ snapshot_item name.now kept.now }
{
    Listed {
        name,
        snapshot: Some(kept.moment),
        changed: kept.changed,
        etag: kept.etag,
        quota: kept.quota,
    }
}

/// Whether a name comes before another, byte by byte.
fn name_before(name: &ShareName, other: &ShareName) -> bool
    ensures { result ≡ text_before name.now other.now }
{
    name.bytes().cmp(&other.bytes()).is_lt()
}

/// Whether a share as it stands, or its snapshot of a moment, comes before another of the same name.
fn moment_before(at: Option<Moment>, other: Option<Moment>) -> bool
    ensures { result ≡ moment_before at other }
{
    match other {
        None => false,
        Some(other) => match at {
            None => true,
            Some(at) => at.ticks() < other.ticks(),
        },
    }
}

/// Whether an item isn't below a marker: by name, then by moment.
fn is_from(marker: &Option<SharesMarker>, item: &Listed) -> bool
    ensures { result ≡ is_from marker.now item.now }
{
    let Some(marker) = marker else {
        return true;
    };
    if name_before(&marker.share, item.name) {
        return true;
    }
    marker.share.same(item.name) && !moment_before(item.snapshot, marker.snapshot)
}

/// Whether an item is among those that a call lists: its name begins with the prefix, and it isn't below the marker.
fn is_listed(call: &ListShares, item: &Listed) -> bool
    ensures { result ≡ is_listed call.now.prefix call.now.marker item.now }
{
    item.name.bytes().starts_with(call.prefix.text().bytes()) && is_from(&call.marker, item)
}

/// The name of a share as a text.
pub(crate) fn name_text(alloc: Global, name: &ShareName) -> Result<Text, NoMemory>
    ensures { IfOk result (λ text. text ≡ name.now) }
{
    match Text::of(Items::copy_of(alloc, name.bytes())?) {
        Some(text) => Ok(text),
        None => unreachable!(),
    }
}

/// The item itself.
fn item_of(alloc: Global, item: &Listed) -> Result<ShareItem, NoMemory>
    ensures { IfOk result (λ x. x ≡ item.now) }
{
    Ok(ShareItem {
        name: name_text(alloc, item.name)?,
        snapshot: item.snapshot,
        changed: Second::in_which(item.changed),
        etag: item.etag,
        quota: item.quota,
    })
}

/// Lists an item where the call lists it, as far as there is room for so many.
fn list_item(
    alloc: Global,
    items: &mut Vec<ShareItem>,
    most: usize,
    call: &ListShares,
    item: &Listed,
) -> Result<(), NoMemory>
    requires { length items.old.items ≤ most }
    ensures items { OnOk result (items.new.items ≡ take most
        (items.old.items ++ filter (is_listed call.now.prefix call.now.marker) (item.now ∷ []))) }
    ensures few { OnOk result (length items.new.items ≤ most) }
{
    if items.len() == most {
        return Ok(());
    }
    if !is_listed(call, item) {
        return Ok(());
    }
    items.push(item_of(alloc, item)?)?;
    Ok(())
}

/// Lists those snapshots of the share of a name that the call lists, as far as there is room for so many items.
fn list_snapshots(
    alloc: Global,
    items: &mut Vec<ShareItem>,
    most: usize,
    call: &ListShares,
    name: &ShareName,
    snapshots: &[Snapshot],
) -> Result<(), NoMemory>
    requires { length items.old.items ≤ most }
    ensures items { OnOk result (items.new.items ≡ take most (items.old.items
        ++ filter (is_listed call.now.prefix call.now.marker) (map (snapshot_item name.now) snapshots.now))) }
    ensures few { OnOk result (length items.new.items ≤ most) }
{
    for kept in snapshots {
        list_item(alloc, items, most, call, &snapshot_item(name, kept))?;
    }
    Ok(())
}

/// Lists a share and, where the call asks for them, its snapshots, as far as there is room for so many items.
fn list_share(
    alloc: Global,
    items: &mut Vec<ShareItem>,
    most: usize,
    call: &ListShares,
    share: &Share,
) -> Result<(), NoMemory>
    requires { length items.old.items ≤ most }
    ensures items { OnOk result (items.new.items ≡ take most (items.old.items
        ++ filter (is_listed call.now.prefix call.now.marker) (items_of call.now.snapshots share.now))) }
    ensures few { OnOk result (length items.new.items ≤ most) }
{
    list_item(alloc, items, most, call, &share_item(share))?;
    if call.snapshots {
        return list_snapshots(
            alloc,
            items,
            most,
            call,
            &share.name,
            share.snapshots.as_slice(),
        );
    }
    Ok(())
}

/// The first so many items that a call lists of shares.
pub(crate) fn first_items(
    alloc: Global,
    most: usize,
    call: &ListShares,
    shares: &[&Share],
) -> Result<Vec<ShareItem>, NoMemory>
    ensures { IfOk result (λ items. items.items ≡ take most
        (filter (is_listed call.now.prefix call.now.marker)
        (flat_map (items_of call.now.snapshots) (map (λ s. s.now) shares.now)))) }
{
    let mut items = Vec::new(alloc);
    for share in shares {
        list_share(alloc, &mut items, most, call, share)?;
    }
    Ok(items)
}
