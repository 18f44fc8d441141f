//! Changes of facts and bodies, how much is marked, and copies.
use crate::made::{nested, sevens};
use std::alloc::Global;
use std::process::Abort;
use sx_lease::{LeaseId, LeaseState};
use sx_tree::{BodyChange, Facts, Tree};

/// Changes the body of a node.
fn change(rt: &impl Abort, tree: &mut Tree, id: u64, change: BodyChange) {
    if tree.change_body(id, change).is_err() {
        panic!(rt; "no memory");
    }
}

/// Writes bytes into a node from a place on.
fn write(rt: &impl Abort, alloc: Global, tree: &mut Tree, id: u64, at: u64, count: usize) {
    let piece = sevens(rt, alloc, count);
    change(rt, tree, id, BodyChange::Write { at, piece });
}

/// The length of a node.
fn length(rt: &impl Abort, tree: &Tree, id: u64) -> u64 {
    match tree.node(id) {
        Some(node) => node.kind.length(),
        None => panic!(rt; "no node"),
    }
}

#[test]
fn counts_what_is_marked(rt: HostRuntime) {
    let mut tree = nested(&rt, rt.alloc());
    write(&rt, rt.alloc(), &mut tree, 3, 0, 1_000);
    write(&rt, rt.alloc(), &mut tree, 5, 600, 10);
    write(&rt, rt.alloc(), &mut tree, 2, 0, 10);
    assert_eq!(rt; tree.used(), 3);
    assert_eq!(rt; length(&rt, &tree, 3), 1_000);
    assert_eq!(rt; length(&rt, &tree, 5), 610);
    change(&rt, &mut tree, 3, BodyChange::Clear { from: 0, end: 512 });
    assert_eq!(rt; tree.used(), 2);
    change(&rt, &mut tree, 5, BodyChange::Resize(0));
    assert_eq!(rt; tree.used(), 1);
    tree.remove(3);
    assert_eq!(rt; tree.used(), 0);
    assert!(rt; tree.node(3).is_none());
}

/// Changes that don't fit leave a file as it is.
#[test]
fn what_does_not_fit_changes_nothing(rt: HostRuntime) {
    let mut tree = nested(&rt, rt.alloc());
    let piece = sevens(&rt, rt.alloc(), 10);
    change(&rt, &mut tree, 3, BodyChange::Update { at: 0, piece });
    change(&rt, &mut tree, 3, BodyChange::Clear { from: 0, end: 1 });
    change(&rt, &mut tree, 3, BodyChange::Resize(4_398_046_511_105));
    assert_eq!(rt; length(&rt, &tree, 3), 0);
    assert_eq!(rt; tree.used(), 0);
}

/// The facts of a node.
fn facts<'a>(rt: &impl Abort, tree: &'a Tree, id: u64) -> &'a Facts {
    match tree.node(id) {
        Some(node) => &node.facts,
        None => panic!(rt; "no node"),
    }
}

/// Marks a node as pending, and leases it.
fn mark(rt: &impl Abort, tree: &mut Tree, id: u64) {
    match tree.facts_mut(id) {
        Some(facts) => {
            facts.pending = true;
            facts.lease.acquire(LeaseId(5));
        }
        None => panic!(rt; "no node"),
    }
}

/// An equal tree.
fn copy(rt: &impl Abort, tree: &Tree) -> Tree {
    match tree.copy_shared() {
        Ok(copy) => copy,
        Err(_) => panic!(rt; "no memory"),
    }
}

/// The tree that a snapshot keeps.
fn at_rest(rt: &impl Abort, tree: &Tree) -> Tree {
    match tree.copy_at_rest() {
        Ok(copy) => copy,
        Err(_) => panic!(rt; "no memory"),
    }
}

#[test]
fn a_copy_keeps_what_is_pending(rt: HostRuntime) {
    let mut tree = nested(&rt, rt.alloc());
    mark(&rt, &mut tree, 3);
    write(&rt, rt.alloc(), &mut tree, 3, 0, 1_000);
    let kept = copy(&rt, &tree);
    tree.remove(3);
    assert_eq!(rt; kept.used(), 2);
    assert!(rt; facts(&rt, &kept, 3).pending);
    assert_eq!(rt; facts(&rt, &kept, 3).lease, LeaseState::Leased(LeaseId(5)));
}

#[test]
fn a_snapshot_is_at_rest(rt: HostRuntime) {
    let mut tree = nested(&rt, rt.alloc());
    mark(&rt, &mut tree, 3);
    write(&rt, rt.alloc(), &mut tree, 3, 0, 1_000);
    let kept = at_rest(&rt, &tree);
    assert_eq!(rt; kept.used(), 2);
    assert_eq!(rt; length(&rt, &kept, 3), 1_000);
    assert!(rt; !facts(&rt, &kept, 3).pending);
    assert_eq!(rt; facts(&rt, &kept, 3).lease, LeaseState::Available);
}
