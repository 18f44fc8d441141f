//! The workers work at once.
ghost use Rattle.std.specs.Prelude.{◌≡◌, ◌<◌, All, ℕ, length, slice_index_or};
ghost use Rattle.sx_book.specs.Passes.{HasOwnPlaces};
ghost use Rattle.sx_run.specs.Crews.{AllTwo, RunsAt};
ghost use Rattle.sx_run.specs.Doors.{rest_talks, smb_talks};

use crate::crew::{Door, Worker};
use crate::worker::{rest_worker, smb_worker};
use std::alloc::Global;
use std::sync::Wait;
use std::thread;
use std::thread::Threads;
use sx_base::{Clock, Listener, Random};
use sx_book::Office;
use sx_key::Account;

/// Lets one worker work at its door.
fn run<R: Wait, L: Listener, C: Clock, W: Random>(
    alloc: Global,
    rt: &R,
    office: &Office,
    account: &Account,
    conns: u32,
    worker: &mut Worker<L, C, W>,
)
    requires own { worker.old.pass.office ≡ office.now }
    requires places { HasOwnPlaces worker.old.pass }
    ensures ran { RunsAt
        (rest_talks C.ticks W.draws (record {
          wrote = L.Link.wrote;
          peer = L.Link.peer_of;
          left = L.Link.left;
          reads = L.Link.read_count;
          writes = L.Link.write_count;
          calls = L.Link.calls;
        }) account.now)
        (smb_talks C.ticks (record {
          wrote = L.Link.wrote;
          peer = L.Link.peer_of;
          left = L.Link.left;
          reads = L.Link.read_count;
          writes = L.Link.write_count;
          calls = L.Link.calls;
        })) conns
        (λ w. record {
          links = L.links w.listener;
          faults = L.listen_count w.listener;
          door = record { clock = w.clock; random = w.random };
        })
        (λ w. record { links = L.links w.listener; faults = L.listen_count w.listener; door = w.clock })
        worker.old worker.new }
{
    match worker.door {
        Door::Rest => worker.report = rest_worker(
            alloc,
            rt,
            office,
            &mut worker.pass,
            &mut worker.listener,
            &mut worker.clock,
            &mut worker.random,
            account,
            conns,
        ),
        Door::Smb => worker.report = smb_worker(
            alloc,
            rt,
            office,
            &mut worker.pass,
            &mut worker.listener,
            &mut worker.clock,
            conns,
        ),
    }
}

/// Lets workers work at once, each in a thread of its own where one can be had.
fn work_each<R: Threads + Wait + Sync, L: Listener, C: Clock, W: Random>(
    alloc: Global,
    rt: &R,
    office: &Office,
    account: &Account,
    conns: u32,
    workers: &mut [Worker<L, C, W>],
)
where
    L::Link: Send,
    requires some { 0 < length workers.old }
    requires own { All (λ w. (w.pass.office ≡ office.now) × HasOwnPlaces w.pass) workers.old }
    ensures ran { (i : ℕ) (d : _) → i < length workers.old → RunsAt
        (rest_talks C.ticks W.draws (record {
          wrote = L.Link.wrote;
          peer = L.Link.peer_of;
          left = L.Link.left;
          reads = L.Link.read_count;
          writes = L.Link.write_count;
          calls = L.Link.calls;
        }) account.now)
        (smb_talks C.ticks (record {
          wrote = L.Link.wrote;
          peer = L.Link.peer_of;
          left = L.Link.left;
          reads = L.Link.read_count;
          writes = L.Link.write_count;
          calls = L.Link.calls;
        })) conns
        (λ w. record {
          links = L.links w.listener;
          faults = L.listen_count w.listener;
          door = record { clock = w.clock; random = w.random };
        })
        (λ w. record { links = L.links w.listener; faults = L.listen_count w.listener; door = w.clock })
        (slice_index_or workers.old i d) (slice_index_or workers.new i d) }
    ensures many { length workers.new ≡ length workers.old }
{
    let threads = workers.len();
    thread::for_each_mut(
        rt,
        workers,
        threads,
        &|_: usize, worker: &mut Worker<L, C, W>|
            requires { (worker.old.pass.office ≡ office.now) × HasOwnPlaces worker.old.pass }
            ensures { RunsAt
                (rest_talks C.ticks W.draws (record {
                  wrote = L.Link.wrote;
                  peer = L.Link.peer_of;
                  left = L.Link.left;
                  reads = L.Link.read_count;
                  writes = L.Link.write_count;
                  calls = L.Link.calls;
                }) account.entry.now)
                (smb_talks C.ticks (record {
                  wrote = L.Link.wrote;
                  peer = L.Link.peer_of;
                  left = L.Link.left;
                  reads = L.Link.read_count;
                  writes = L.Link.write_count;
                  calls = L.Link.calls;
                })) conns
                (λ w. record {
                  links = L.links w.listener;
                  faults = L.listen_count w.listener;
                  door = record { clock = w.clock; random = w.random };
                })
                (λ w. record { links = L.links w.listener; faults = L.listen_count w.listener; door = w.clock })
                worker.old worker.new }
        { run(alloc, rt, office, account, conns, worker) },
    );
}

/// Lets the workers of both doors work at once, each in a thread of its own where one can be had.
pub fn work<R: Threads + Wait + Sync, L: Listener, C: Clock, W: Random>(
    alloc: Global,
    rt: &R,
    office: &Office,
    account: &Account,
    conns: u32,
    workers: &mut Vec<Worker<L, C, W>>,
)
where
    L::Link: Send,
    requires some { 0 < length workers.old.items }
    requires own { All (λ w. (w.pass.office ≡ office.now) × HasOwnPlaces w.pass) workers.old.items }
    ensures ran { AllTwo (RunsAt
        (rest_talks C.ticks W.draws (record {
          wrote = L.Link.wrote;
          peer = L.Link.peer_of;
          left = L.Link.left;
          reads = L.Link.read_count;
          writes = L.Link.write_count;
          calls = L.Link.calls;
        }) account.now)
        (smb_talks C.ticks (record {
          wrote = L.Link.wrote;
          peer = L.Link.peer_of;
          left = L.Link.left;
          reads = L.Link.read_count;
          writes = L.Link.write_count;
          calls = L.Link.calls;
        })) conns
        (λ w. record {
          links = L.links w.listener;
          faults = L.listen_count w.listener;
          door = record { clock = w.clock; random = w.random };
        })
        (λ w. record { links = L.links w.listener; faults = L.listen_count w.listener; door = w.clock }))
        workers.old.items workers.new.items }
{
    work_each(alloc, rt, office, account, conns, workers.as_mut_slice());
}
