//! Calls that make and delete shares.
ghost use Rattle.std.specs.Prelude.{◌≡◌, ◌&&◌, ◌+◌, ◌<◌, ◌^◌, IfOk, OnErr, length, nat_lt, not};
ghost use Rattle.sx_spec.specs.Checks.{refuse_if, share_asks, unchecked};
ghost use Rattle.sx_spec.specs.Places.{live_volume, share_at, vacancy};
ghost use Rattle.sx_spec.specs.ShareCalls.{create_share, delete_share, new_share};
ghost use Rattle.sx_spec.specs.Step.{at_place, outcome};
ghost use Rattle.sx_spec.specs.declared.checks.Limit.TheVariants.{StandingSnapshots};
ghost use Rattle.sx_spec.specs.declared.checks.OpenAsk.TheVariants.{NoneIn};

use std::alloc::Global;
use sx_base::Items;
use sx_call::{Call, CreateShare, DeleteShare, Entry, Reply, Stamp, WriteStatus};
use sx_lease::ShareLease;
use sx_memory::NoMemory;
use sx_spec::{Asks, Checks, Limit, OpenAsk};
use sx_state::{SharePlace, State, live_volume, share_asks, unchecked};
use sx_tree::{Share, Tree};

/// The share that Create Share makes, with a root of this id.
fn new_share(alloc: Global, now: &Stamp, root: u64, call: &CreateShare) -> Result<Share, NoMemory>
    ensures { IfOk result (λ share. share
        ≡ new_share now.now root call.now.share call.now.quota call.now.meta) }
{
    let name = call.share.copy()?;
    let meta = call.meta.copy()?;
    let tree = Tree::new(alloc, root, now.changed, now.etag)?;
    Ok(Share {
        name,
        quota: call.quota,
        meta,
        etag: now.etag,
        changed: now.changed,
        lease: ShareLease::new(),
        tree,
        snapshots: Items::new(alloc),
        given: None,
    })
}

/// Create Share: no share is to have its name yet.
#[tactic(auto, using(crate::proofs::Passed::unchecked_passes))]
pub fn create_share(state: &mut State, now: &Stamp, call: &CreateShare) -> Result<Reply, NoMemory>
    requires made { state.old.made + 1 < 2 ^ 32 }
    requires ids { state.old.next_id + 1 < 2 ^ 64 }
    ensures ok { IfOk result (λ reply. (state.new, reply) ≡ outcome state.old
        (at_place (vacancy state.old call.now.share)
        (λ number. create_share state.old now.now call.now.share call.now.quota call.now.meta))) }
    ensures err { OnErr result (state.new ≡ state.old) }
{
    if let Err(refusal) = state.vacancy(&call.share) {
        return Ok(Reply::Refused(refusal));
    }
    let share = new_share(state.allocator(), now, state.next_id(), call)?;
    state.add_share(share)?;
    Ok(Reply::Stamped {
        status: WriteStatus::created(),
        stamp: *now,
    })
}

/// The limit that a share meets which has snapshots, where they aren't to be deleted with it.
fn standing_snapshots(share: &Share, include: bool) -> Option<Limit>
    ensures { result ≡ refuse_if (nat_lt 0 (length share.now.snapshots) && not include)
        (StandingSnapshots (length share.now.snapshots)) }
{
    let n = share.snapshots.len() as u64;
    if 0 < n && !include {
        return Some(Limit::StandingSnapshots { n });
    }
    None
}

/// All that Delete Share is checked for.
fn delete_checks(call: &Call, place: &SharePlace, include: bool) -> Checks
    ensures { result ≡ record unchecked {
      asks = record (share_asks call.now (live_volume place.now.0 place.now.1)) { opens = NoneIn place.now.0 };
      limits = refuse_if (nat_lt 0 (length place.now.1.snapshots) && not include)
          (StandingSnapshots (length place.now.1.snapshots));
    } }
{
    let volume = live_volume(place.number, place.share);
    Checks {
        asks: Asks {
            opens: OpenAsk::NoneIn {
                number: place.number,
            },
            ..share_asks(call, &volume)
        },
        limits: standing_snapshots(place.share, include),
        ..unchecked()
    }
}

/// Delete Share: nothing may be open in the share, and its snapshots go with it only where the call includes them. It
/// takes no memory.
pub fn delete_share(state: &mut State, entry: &Entry, call: &DeleteShare) -> Reply
    ensures { (state.new, result) ≡ outcome state.old
        (at_place (share_at state.old call.now.share) (delete_share state.old entry.now.call call.now.include)) }
{
    let place = match state.share_at(&call.share) {
        Ok(place) => place,
        Err(refusal) => return Reply::Refused(refusal),
    };
    if let Some(refusal) = state.first_check(&delete_checks(&entry.call, &place, call.include)) {
        return Reply::Refused(refusal);
    }
    let number = place.number();
    state.drop_share(number);
    Reply::Gone
}
