//! Calls that put and take byte-range locks.
ghost use Rattle.std.specs.Prelude.{◌≡◌, ◌≤◌, IfOk, OnErr};
ghost use Rattle.sx_spec.specs.Checks.{asks_nothing, unchecked};
ghost use Rattle.sx_spec.specs.declared.checks.LockAsk.TheVariants.{NewLock, OldLock};
ghost use Rattle.sx_spec.specs.Needs.{access_needed};
ghost use Rattle.sx_spec.specs.Places.{held_file};
ghost use Rattle.sx_spec.specs.SessionCalls.{lock_of, smb_lock, smb_unlock};
ghost use Rattle.sx_spec.specs.Step.{at_place, handle_in, outcome};

use crate::places::handle_in;
use sx_call::{ByteRange, Entry, Lock, Reply, SmbLock, SmbReply, SmbUnlock};
use sx_guard::Held;
use sx_memory::NoMemory;
use sx_spec::{Asks, Checks, LockAsk};
use sx_state::{HeldFile, State, access_needed, asks_nothing, unchecked};

/// A lock of a handle on its file.
fn lock_of(place: &HeldFile, range: &ByteRange, exclusive: bool) -> Lock
    ensures { result ≡ lock_of place.now range.now.from range.now.end exclusive }
{
    Lock {
        node: place.node.id,
        held: Held {
            handle: place.held.handle,
            from: range.from,
            end: range.end,
            exclusive,
        },
    }
}

/// What Lock is checked for at its file: that no lock meets the new one.
fn lock_checks(id: u64, range: &ByteRange, exclusive: bool) -> Checks
    ensures { result ≡ record unchecked {
      asks = record asks_nothing { locks = NewLock id range.now.from range.now.end exclusive };
    } }
{
    let (from, end) = (range.from, range.end);
    let locks = LockAsk::NewLock {
        id,
        from,
        end,
        exclusive,
    };
    Checks {
        asks: Asks {
            locks,
            ..asks_nothing()
        },
        ..unchecked()
    }
}

/// What Unlock is checked for: that this very lock is held.
fn unlock_checks(old: &Lock) -> Checks
    ensures { result ≡ record unchecked { asks = record asks_nothing { locks = OldLock old.now } } }
{
    Checks {
        asks: Asks {
            locks: LockAsk::OldLock(*old),
            ..asks_nothing()
        },
        ..unchecked()
    }
}

/// Lock: it locks the bytes where no lock meets the new one, one of its own handle neither.
pub fn smb_lock(state: &mut State, entry: &Entry, call: &SmbLock) -> Result<Reply, NoMemory>
    requires { 1 ≤ entry.now.session }
    ensures ok { IfOk result (λ reply. (state.new, reply) ≡ outcome state.old
        (at_place (held_file state.old (handle_in entry.now call.now.index) (access_needed entry.now.call))
        (smb_lock state.old call.now.range.from call.now.range.end call.now.exclusive))) }
    ensures err { OnErr result (state.new ≡ state.old) }
{
    let needed = access_needed(&entry.call);
    let place = match state.held_file(handle_in(entry, call.index), needed) {
        Ok(place) => place,
        Err(refusal) => return Ok(Reply::Refused(refusal)),
    };
    let checks = lock_checks(place.id(), &call.range, call.exclusive);
    if let Some(refusal) = state.first_check(&checks) {
        return Ok(Reply::Refused(refusal));
    }
    let added = lock_of(&place, &call.range, call.exclusive);
    state.put_lock(added)?;
    Ok(Reply::Smb(SmbReply::Locked))
}

/// Unlock: it removes the lock of exactly these bytes and of this kind. It takes no memory.
pub fn smb_unlock(state: &mut State, entry: &Entry, call: &SmbUnlock) -> Reply
    requires { 1 ≤ entry.now.session }
    ensures { (state.new, result) ≡ outcome state.old
        (at_place (held_file state.old (handle_in entry.now call.now.index) (access_needed entry.now.call))
        (smb_unlock state.old call.now.range.from call.now.range.end call.now.exclusive)) }
{
    let needed = access_needed(&entry.call);
    let place = match state.held_file(handle_in(entry, call.index), needed) {
        Ok(place) => place,
        Err(refusal) => return Reply::Refused(refusal),
    };
    let old = lock_of(&place, &call.range, call.exclusive);
    if let Some(refusal) = state.first_check(&unlock_checks(&old)) {
        return Reply::Refused(refusal);
    }
    state.take_lock(&old);
    Reply::Smb(SmbReply::Unlocked)
}
