//! The opens by node: a list in order of node and handle, in which the opens of a node stand side by side.
ghost use Rattle.std.specs.Prelude.{◌≡◌, ◌<◌, ◌≤◌, drop, filter, find, length, nat_lt, not, option_map};
ghost use Rattle.std.specs.Prelude.{position, take, vec_capacity, vec_len};
ghost use Rattle.std.specs.List.{position_or_len, prefix_len};
ghost use Rattle.std.specs.Option.{option_copied};
ghost use Rattle.sx_guard.specs.Ordered.{insert_by, remove_first};
ghost use Rattle.sx_guard.specs.Sharing.{forbids};
ghost use Rattle.sx_spec.specs.Checks.{may_change};
ghost use Rattle.sx_state.specs.Guards.{AreByNode, is_at, is_at_of, is_before, node_before, on_node};

use crate::asks::{may_change, opened};
use sx_call::Open;
use sx_guard::{Access, HandleId, Mode, Opened};

/// An open as it stands among those of its node.
#[derive(Clone, Copy, Debug, PartialEq, Eq)]
pub struct OnNode {
    /// The id of the directory or file.
    pub node: u64,
    /// The handle, the rights that it has and the rights that it leaves to others.
    pub opened: Opened,
}

/// An open as it stands among those of its node.
pub(crate) fn on_node(held: &Open) -> OnNode
    ensures { result ≡ on_node held.now }
{
    OnNode {
        node: held.node,
        opened: opened(held),
    }
}

/// Whether an open comes before the one of a handle on a node: by node, then handle.
fn is_before(id: u64, handle: HandleId, one: &OnNode) -> bool
    ensures { result ≡ is_before id handle one.now }
{
    one.node < id || one.node == id && one.opened.handle < handle
}

/// Whether an open comes before another: by node, then handle.
fn node_before(one: &OnNode, other: &OnNode) -> bool
    ensures { result ≡ node_before one.now other.now }
{
    is_before(other.node, other.opened.handle, one)
}

/// Whether an open is on a node, and that of a handle.
fn is_at_of(id: u64, handle: HandleId, one: &OnNode) -> bool
    ensures { result ≡ is_at_of id handle one.now }
{
    one.node == id && handle == one.opened.handle
}

/// The place of the first open that isn't on a lesser node.
fn first_on(nodes: &[OnNode], id: u64) -> usize
    requires { AreByNode nodes.now }
    ensures { result ≡ prefix_len (λ e. nat_lt e.node id) nodes.now }
{
    nodes.partition_point(|one| one.node < id)
}

/// The place past the opens of a node.
fn past_on(nodes: &[OnNode], id: u64) -> usize
    requires { AreByNode nodes.now }
    ensures place { result ≡ prefix_len (λ e. not (nat_lt id e.node)) nodes.now }
    ensures within { result ≤ length nodes.now }
{
    nodes.partition_point(|one| one.node <= id)
}

/// The opens from one place up to another.
fn part_of(nodes: &[OnNode], first: usize, past: usize) -> &[OnNode]
    requires order { first ≤ past }
    requires within { past ≤ length nodes.now }
    ensures { result.now ≡ drop first (take past nodes.now) }
{
    &nodes[first..past]
}

/// The opens of a node.
pub(crate) fn opens_on(nodes: &[OnNode], id: u64) -> &[OnNode]
    requires { AreByNode nodes.now }
    ensures { result.now ≡ filter (is_at id) nodes.now }
{
    let first = first_on(nodes, id);
    let past = past_on(nodes, id);
    part_of(nodes, first, past)
}

/// The place of the first open that doesn't come before the one of a handle on a node.
fn place_at(nodes: &[OnNode], id: u64, handle: HandleId) -> usize
    requires { AreByNode nodes.now }
    ensures place { result ≡ prefix_len (is_before id handle) nodes.now }
    ensures within { result ≤ length nodes.now }
{
    nodes.partition_point(|one| is_before(id, handle, one))
}

/// The place of the open of a handle on a node.
fn place_of(nodes: &[OnNode], id: u64, handle: HandleId) -> Option<usize>
    requires { AreByNode nodes.now }
    ensures { result ≡ position (is_at_of id handle) nodes.now }
{
    let place = place_at(nodes, id, handle);
    if nodes.len() <= place {
        return None;
    }
    if !is_at_of(id, handle, &nodes[place]) {
        return None;
    }
    Some(place)
}

/// The place of the first open before which one comes, the end where there is none.
fn place_behind(nodes: &[OnNode], one: &OnNode) -> usize
    requires { AreByNode nodes.now }
    ensures place { result ≡ position_or_len (node_before one.now) nodes.now }
    ensures within { result ≤ length nodes.now }
{
    nodes.partition_point(|other| !node_before(one, other))
}

/// Puts one more open into its place. Its room is there.
pub(crate) fn insert_on(nodes: &mut Vec<OnNode>, added: OnNode)
    requires room { vec_len nodes.old < vec_capacity nodes.old }
    requires order { AreByNode nodes.old.items }
    ensures { nodes.new.items ≡ insert_by node_before added nodes.old.items }
{
    let place = place_behind(nodes, &added);
    match nodes.insert(place, added) {
        Ok(()) => {}
        Err(_) => unreachable!(),
    }
}

/// Takes the open of a handle on a node away.
pub(crate) fn drop_on(nodes: &mut Vec<OnNode>, id: u64, handle: HandleId)
    requires { AreByNode nodes.old.items }
    ensures { nodes.new.items ≡ remove_first (is_at_of id handle) nodes.old.items }
{
    match place_of(nodes, id, handle) {
        Some(place) => {
            let _ = nodes.remove(place);
        }
        None => {}
    }
}

/// The first open that forbids a new one of this access and share mode.
fn forbidding_in(nodes: &[OnNode], access: Access, mode: Mode) -> Option<&OnNode>
    ensures { option_copied result ≡ find (λ e. forbids access mode e.opened) nodes.now }
{
    nodes.iter().find(|one| one.opened.forbids(access, mode))
}

/// The first open that may change its node.
fn changing_in(nodes: &[OnNode]) -> Option<&OnNode>
    ensures { option_copied result ≡ find (λ e. may_change e.opened.access) nodes.now }
{
    nodes.iter().find(|one| may_change(one.opened.access))
}

/// The handle of an open that was found.
fn handle_of(found: Option<&OnNode>) -> Option<HandleId>
    ensures { result ≡ option_map (λ e. e.opened.handle) (option_copied found.entry) }
{
    match found {
        Some(one) => Some(one.opened.handle),
        None => None,
    }
}

/// The handle of the first open that forbids a new one of this access and share mode.
pub(crate) fn forbidding(nodes: &[OnNode], access: Access, mode: Mode) -> Option<HandleId>
    ensures { result ≡ option_map (λ e. e.opened.handle) (find (λ e. forbids access mode e.opened) nodes.now) }
{
    handle_of(forbidding_in(nodes, access, mode))
}

/// The handle of the first open that may change its node.
pub(crate) fn changing(nodes: &[OnNode]) -> Option<HandleId>
    ensures { result ≡ option_map (λ e. e.opened.handle) (find (λ e. may_change e.opened.access) nodes.now) }
{
    handle_of(changing_in(nodes))
}
