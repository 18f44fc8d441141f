//! What calls are checked for at their places, by the tables of what they need.
ghost use Rattle.std.specs.Prelude.{◌≡◌};
ghost use Rattle.sx_spec.specs.Checks.{asks_nothing, file_checks, held_checks, quota_check, range_check};
ghost use Rattle.sx_spec.specs.Checks.{read_only_check, rest_asks, share_asks, unchecked, unless_snapshot};
ghost use Rattle.sx_spec.specs.Needs.{all_shared};

use crate::needs::{
    access_needed, heeds_read_only, is_out_of_file, lease_given, new_marks, touched,
    writes_under_lease,
};
use crate::places::{FilePlace, HeldFile, Volume};
use sx_call::Call;
use sx_guard::Mode;
use sx_moment::Moment;
use sx_spec::{Asks, Checks, LeaseAsk, LockAsk, OpenAsk, Overuse};
use sx_tree::{FileBody, Node};

/// How many granules of 512 bytes a GiB has.
const GRANULES_OF_A_GIB: u64 = 2_097_152;

/// What asks nothing of others.
pub fn asks_nothing() -> Asks
    ensures { result ≡ asks_nothing }
{
    Asks {
        lease: LeaseAsk::AnyLease,
        opens: OpenAsk::AnyOpens,
        locks: LockAsk::AnyLocks,
    }
}

/// What is checked for nothing.
pub fn unchecked() -> Checks
    ensures { result ≡ unchecked }
{
    Checks {
        empty: None,
        read_only: None,
        asks: asks_nothing(),
        range: None,
        quota: None,
        limits: None,
    }
}

/// The share mode of a REST call: it leaves every right to others.
pub fn all_shared() -> Mode
    ensures { result ≡ all_shared }
{
    Mode {
        read: true,
        write: true,
        delete: true,
    }
}

/// The id of a file that has the ReadOnly attribute, where the call heeds it.
pub fn read_only_check(call: &Call, node: &Node) -> Option<u64>
    ensures { result ≡ read_only_check call.now node.now }
{
    if heeds_read_only(call) && !node.kind.is_directory() && node.facts.attributes.read_only {
        return Some(node.id);
    }
    None
}

/// The length of a file in which the call's range doesn't lie.
fn range_check(call: &Call, body: &FileBody) -> Option<u64>
    ensures { result ≡ range_check call.now body.now }
{
    let length = body.ranges.length();
    if is_out_of_file(length, call) {
        return Some(length);
    }
    None
}

/// By what the share's quota would be passed, where the call marks a granule that has no mark.
fn quota_check(call: &Call, volume: &Volume, body: &FileBody) -> Option<Overuse>
    ensures { result ≡ quota_check call.now volume.now body.now }
{
    let more = new_marks(body, call);
    if more == 0 {
        return None;
    }
    let used = volume.tree.used();
    let limit = volume.quota.gib() as u64 * GRANULES_OF_A_GIB;
    if limit < used || limit - used < more {
        return Some(Overuse { used, more, limit });
    }
    None
}

/// What a REST call asks at a file: it acts as an open that has its access and shares all.
fn rest_asks(call: &Call, place: &FilePlace) -> Asks
    ensures { result ≡ rest_asks call.now place.now }
{
    Asks {
        lease: LeaseAsk::Passes {
            share: false,
            state: place.node.facts.lease,
            given: lease_given(call),
            writes: writes_under_lease(call),
        },
        opens: OpenAsk::Beside {
            id: place.node.id,
            access: access_needed(call),
            mode: all_shared(),
        },
        locks: LockAsk::Touching {
            id: place.node.id,
            by: None,
            touch: touched(place.body.ranges.length(), call),
        },
    }
}

/// What is asked; who reads a snapshot asks nothing of lease, opens and locks.
fn unless_snapshot(snap: Option<Moment>, asks: Asks) -> Asks
    ensures { result ≡ unless_snapshot snap asks }
{
    match snap {
        None => asks,
        Some(_) => asks_nothing(),
    }
}

/// All that a REST call is checked for at a file.
#[tactic(auto, unfolding(sx_spec::specs::Checks::file_checks))]
pub fn file_checks(call: &Call, place: &FilePlace) -> Checks
    ensures { result ≡ file_checks call.now place.now }
{
    Checks {
        empty: None,
        read_only: read_only_check(call, place.node),
        asks: unless_snapshot(place.volume.snap, rest_asks(call, place)),
        range: range_check(call, place.body),
        quota: quota_check(call, &place.volume, place.body),
        limits: None,
    }
}

/// All that a call on a handle of a file is checked for.
#[tactic(auto, unfolding(sx_spec::specs::Checks::held_checks))]
pub fn held_checks(call: &Call, place: &HeldFile) -> Checks
    ensures { result ≡ held_checks call.now place.now }
{
    let locks = LockAsk::Touching {
        id: place.node.id,
        by: Some(place.held.handle),
        touch: touched(place.body.ranges.length(), call),
    };
    Checks {
        asks: Asks {
            locks,
            ..asks_nothing()
        },
        quota: quota_check(call, &place.volume, place.body),
        ..unchecked()
    }
}

/// What a call on a share asks of the share's lease.
pub fn share_asks(call: &Call, volume: &Volume) -> Asks
    ensures { result ≡ share_asks call.now volume.now }
{
    let lease = LeaseAsk::Passes {
        share: true,
        state: volume.lease,
        given: lease_given(call),
        writes: writes_under_lease(call),
    };
    unless_snapshot(
        volume.snap,
        Asks {
            lease,
            ..asks_nothing()
        },
    )
}
