//! The open handles of the account: a list in order of handle, and beside it the same by node, for checks of a node.
ghost use Rattle.std.specs.Prelude.{◌≡◌, ◌<◌, ◌≤◌, [], OnErr, OnOk, drop, false, filter, find, length, nat_lt, not};
ghost use Rattle.std.specs.Prelude.{option_map, position, take};
ghost use Rattle.std.specs.List.{list_any, position_or_len, prefix_len};
ghost use Rattle.std.specs.Option.{option_copied};
ghost use Rattle.sx_base.specs.Entries.{change};
ghost use Rattle.sx_guard.specs.Handle.{handle_before, same_handle};
ghost use Rattle.sx_guard.specs.Ordered.{insert_by};
ghost use Rattle.sx_spec.specs.Account.{has_handle, is_held_by, is_in_share, is_on};
ghost use Rattle.sx_spec.specs.Changes.{open_before};
ghost use Rattle.sx_spec.specs.Checks.{open_forbids};
ghost use Rattle.sx_spec.specs.SessionCalls.{with_mark};
ghost use Rattle.sx_state.specs.Guards.{AreGuards, AreOpens};

use crate::by_node::{OnNode, changing, drop_on, forbidding, insert_on, on_node, opens_on};
use std::alloc::Global;
use std::marker::Model;
use sx_call::Open;
use sx_guard::HandleId;
use sx_memory::NoMemory;
use sx_spec::OpenAsk;

/// The open handles of the account in order of handle. Contracts see the list of them.
#[derive(Drop)]
pub(crate) struct Opens {
    listed: Vec<Open>,
    nodes: Vec<OnNode>,
}

impl Model for Opens {
    ghost use Rattle.std.specs.Prelude.{List};
    ghost use Rattle.sx_call.specs.declared.opens.Open.{Open};
    ghost use Rattle.sx_state.specs.Guards.{AreGuards};

    ghost Value = { List Open };

    ghost view = { λ s. s.listed.items };

    ghost invariant = { λ s. AreGuards s.listed.items s.nodes.items };
}

/// The place of the first open that doesn't come before a handle.
fn place_at(opens: &[Open], handle: HandleId) -> usize
    requires { AreOpens opens.now }
    ensures place { result ≡ prefix_len (λ o. handle_before o.handle handle) opens.now }
    ensures within { result ≤ length opens.now }
{
    opens.partition_point(|open| open.handle < handle)
}

/// The place of the open of a handle.
fn place_of(opens: &[Open], handle: HandleId) -> Option<usize>
    requires { AreOpens opens.now }
    ensures { result ≡ position (has_handle handle) opens.now }
{
    let place = place_at(opens, handle);
    if opens.len() <= place {
        return None;
    }
    if handle != opens[place].handle {
        return None;
    }
    Some(place)
}

/// Whether a handle is open.
fn has_open(opens: &[Open], handle: HandleId) -> bool
    requires { AreOpens opens.now }
    ensures { result ≡ list_any (has_handle handle) opens.now }
{
    match place_of(opens, handle) {
        Some(_) => true,
        None => false,
    }
}

/// The open of a handle.
fn open_of(opens: &[Open], handle: HandleId) -> Option<&Open>
    requires { AreOpens opens.now }
    ensures { option_copied result ≡ find (has_handle handle) opens.now }
{
    match place_of(opens, handle) {
        Some(place) => Some(&opens[place]),
        None => None,
    }
}

/// The place of the first open behind a handle, the end where there is none.
fn place_behind(opens: &[Open], added: &Open) -> usize
    requires { AreOpens opens.now }
    ensures place { result ≡ position_or_len (open_before added.now) opens.now }
    ensures within { result ≤ length opens.now }
{
    opens.partition_point(|open| !(added.handle < open.handle))
}

/// Puts one more open into its place.
fn insert_open(opens: &mut Vec<Open>, added: Open) -> Result<(), NoMemory>
    requires { AreOpens opens.old.items }
    ensures ok { OnOk result (opens.new.items ≡ insert_by open_before added opens.old.items) }
    ensures err { OnErr result (opens.new.items ≡ opens.old.items) }
{
    let place = place_behind(opens, &added);
    match opens.insert(place, added) {
        Ok(()) => Ok(()),
        Err(_) => Err(NoMemory),
    }
}

/// Takes the open of a handle away.
fn drop_open(opens: &mut Vec<Open>, handle: HandleId)
    requires { AreOpens opens.old.items }
    ensures { opens.new.items ≡ filter (λ o. not (same_handle handle o.handle)) opens.old.items }
{
    match place_of(opens, handle) {
        Some(place) => {
            let _ = opens.remove(place);
        }
        None => {}
    }
}

/// Puts one more open into its place in both lists. Where memory runs out, both are as before.
fn put_both(opens: &mut Vec<Open>, nodes: &mut Vec<OnNode>, added: Open) -> Result<(), NoMemory>
    requires guards { AreGuards opens.old.items nodes.old.items }
    requires fresh { list_any (has_handle added.handle) opens.old.items ≡ false }
    ensures ok { OnOk result (opens.new.items ≡ insert_by open_before added opens.old.items) }
    ensures err { OnErr result (opens.new.items ≡ opens.old.items) }
    ensures kept { AreGuards opens.new.items nodes.new.items }
{
    match nodes.reserve(1) {
        Ok(()) => {}
        Err(_) => return Err(NoMemory),
    }
    let one = on_node(&added);
    match insert_open(opens, added) {
        Ok(()) => {
            insert_on(nodes, one);
            Ok(())
        }
        Err(failed) => Err(failed),
    }
}

/// Takes the open of a handle from both lists.
fn drop_both(opens: &mut Vec<Open>, nodes: &mut Vec<OnNode>, handle: HandleId)
    requires { AreGuards opens.old.items nodes.old.items }
    ensures taken { opens.new.items ≡ filter (λ o. not (same_handle handle o.handle)) opens.old.items }
    ensures kept { AreGuards opens.new.items nodes.new.items }
{
    let Some(held) = open_of(opens, handle) else {
        return;
    };
    let id = held.node;
    drop_on(nodes, id, handle);
    drop_open(opens, handle);
}

/// Sets the mark for delete on close of the open of a handle, or takes it off.
fn mark_open(opens: &mut Vec<Open>, handle: HandleId, on: bool)
    requires { AreOpens opens.old.items }
    ensures { opens.new.items ≡ change (λ o. same_handle handle o.handle) (with_mark on) opens.old.items }
{
    match place_of(opens, handle) {
        None => {}
        Some(place) => {
            let open = &mut opens[place];
            open.on_close = on;
        }
    }
}

/// The place of the first open that no lesser session holds.
fn first_held_by(opens: &[Open], session: u32) -> usize
    requires { AreOpens opens.now }
    ensures { result ≡ prefix_len (λ o. nat_lt o.handle.session session) opens.now }
{
    opens.partition_point(|open| open.handle.session < session)
}

/// The place past the opens that a session holds.
fn past_held_by(opens: &[Open], session: u32) -> usize
    requires { AreOpens opens.now }
    ensures place { result ≡ prefix_len (λ o. not (nat_lt session o.handle.session)) opens.now }
    ensures within { result ≤ length opens.now }
{
    opens.partition_point(|open| open.handle.session <= session)
}

/// The opens from one place up to another.
fn part_of(opens: &[Open], first: usize, past: usize) -> &[Open]
    requires order { first ≤ past }
    requires within { past ≤ length opens.now }
    ensures { result.now ≡ drop first (take past opens.now) }
{
    &opens[first..past]
}

/// The opens that a session holds.
fn held_by(opens: &[Open], session: u32) -> &[Open]
    requires { AreOpens opens.now }
    ensures { result.now ≡ filter (is_held_by session) opens.now }
{
    let first = first_held_by(opens, session);
    let past = past_held_by(opens, session);
    part_of(opens, first, past)
}

/// The first open that a session holds.
fn first_held(opens: &[Open], session: u32) -> Option<&Open>
    ensures { option_copied result ≡ find (is_held_by session) opens.now }
{
    opens.iter().find(|held| held.handle.session == session)
}

/// The first open in a share.
fn first_in(opens: &[Open], number: u32) -> Option<&Open>
    ensures { option_copied result ≡ find (is_in_share number) opens.now }
{
    opens.iter().find(|held| held.share == number)
}

/// The handle of the first open in a share.
fn handle_in(opens: &[Open], number: u32) -> Option<HandleId>
    ensures { result ≡ option_map (λ o. o.handle) (find (is_in_share number) opens.now) }
{
    match first_in(opens, number) {
        Some(held) => Some(held.handle),
        None => None,
    }
}

impl Opens {
    /// No opens. The allocator is kept for the opens to come.
    pub(crate) fn new(alloc: Global) -> Opens
        ensures { result ≡ [] }
    {
        Opens {
            listed: Vec::new(alloc),
            nodes: Vec::new(alloc),
        }
    }

    /// All opens, in order of handle.
    pub(crate) fn as_slice(&self) -> &[Open]
        ensures { result.now ≡ self.now }
    {
        &self.listed
    }

    /// The open of a handle.
    pub(crate) fn open_of(&self, handle: HandleId) -> Option<&Open>
        ensures { option_copied result ≡ find (has_handle handle) self.now }
    {
        open_of(&self.listed, handle)
    }

    /// Whether anything is open on a node.
    pub(crate) fn is_on(&self, id: u64) -> bool
        ensures { result ≡ list_any (is_on id) self.now }
    {
        0 < opens_on(&self.nodes, id).len()
    }

    /// How many opens a node has.
    pub(crate) fn count_on(&self, id: u64) -> u64
        ensures { result ≡ length (filter (is_on id) self.now) }
    {
        opens_on(&self.nodes, id).len() as u64
    }

    /// The least handle that forbids what is asked of the opens. It looks at those of the node that is asked about.
    pub(crate) fn forbidding(&self, ask: OpenAsk) -> Option<HandleId>
        ensures { result ≡ option_map (λ o. o.handle) (find (open_forbids ask) self.now) }
    {
        match ask {
            OpenAsk::AnyOpens => None,
            OpenAsk::Beside { id, access, mode } => {
                forbidding(opens_on(&self.nodes, id), access, mode)
            }
            OpenAsk::NoneIn { number } => handle_in(&self.listed, number),
            OpenAsk::NoneChanging { id } => changing(opens_on(&self.nodes, id)),
        }
    }

    /// The first open that a session holds.
    pub(crate) fn first_of(&self, session: u32) -> Option<&Open>
        ensures { option_copied result ≡ find (is_held_by session) self.now }
    {
        first_held(held_by(&self.listed, session), session)
    }

    /// How many opens a session holds.
    pub(crate) fn count_of(&self, session: u32) -> usize
        ensures count { result ≡ length (filter (is_held_by session) self.now) }
        ensures few { result ≤ length self.now }
    {
        held_by(&self.listed, session).len()
    }

    /// Puts one more open into its place. Where its handle is open or memory runs out, all is as before.
    pub(crate) fn put(&mut self, added: Open) -> Result<(), NoMemory>
        ensures ok { OnOk result (self.new ≡ insert_by open_before added self.old) }
        ensures fresh { OnOk result (list_any (has_handle added.handle) self.old ≡ false) }
        ensures err { OnErr result (self.new ≡ self.old) }
    {
        if has_open(&self.listed, added.handle) {
            return Err(NoMemory);
        }
        put_both(&mut self.listed, &mut self.nodes, added)
    }

    /// Takes the open of a handle away.
    pub(crate) fn take(&mut self, handle: HandleId)
        ensures { self.new ≡ filter (λ o. not (same_handle handle o.handle)) self.old }
    {
        drop_both(&mut self.listed, &mut self.nodes, handle);
    }

    /// Sets the mark for delete on close of the open of a handle, or takes it off.
    pub(crate) fn mark(&mut self, handle: HandleId, on: bool)
        ensures { self.new ≡ change (λ o. same_handle handle o.handle) (with_mark on) self.old }
    {
        mark_open(&mut self.listed, handle, on);
    }
}
