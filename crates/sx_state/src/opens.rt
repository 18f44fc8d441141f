//! The open handles and the sessions to which they are granted.
ghost use Rattle.std.specs.Prelude.{◌≡◌, ◌+◌, ◌<◌, ◌-◌, ◌^◌, IfSome, OnErr, OnOk, find, length, position};
ghost use Rattle.std.specs.List.{AllByRecursion};
ghost use Rattle.std.specs.Option.{option_copied};
ghost use Rattle.sx_base.specs.Entries.{change};
ghost use Rattle.sx_spec.specs.Account.{granted_to, is_opened, is_session, opens_on, peer_of};
ghost use Rattle.sx_spec.specs.Changes.{change_open, grant, make_node, put_open};
ghost use Rattle.sx_spec.specs.SessionCalls.{with_mark};
ghost use Rattle.sx_state.specs.Ids.{CanGrant, IsFresh};

use crate::state::State;
use crate::trees::make_in;
use sx_call::{Live, Open};
use sx_guard::HandleId;
use sx_memory::NoMemory;
use sx_names::Part;
use sx_tree::Node;

/// The live session of a number.
fn session_of(sessions: &[Live], session: u32) -> Option<&Live>
    ensures found { option_copied result ≡ find (is_session session) sessions.now }
    ensures few { AllByRecursion (λ l. l.granted < 2 ^ 32 - 1) sessions.now
        → IfSome result (λ l. l.now.granted < 2 ^ 32 - 1) }
{
    sessions.iter().find(|live| live.session == session)
}

/// The place of the live session of a number.
fn place_of_session(sessions: &[Live], session: u32) -> Option<usize>
    ensures { result ≡ position (is_session session) sessions.now }
{
    sessions.iter().position(|live| live.session == session)
}

/// Counts one more open that a session was granted.
fn grant(sessions: &mut Vec<Live>, session: u32)
    requires { AllByRecursion (λ l. l.granted < 2 ^ 32 - 1) sessions.old.items }
    ensures { sessions.new.items ≡ change (is_session session) grant sessions.old.items }
{
    match place_of_session(sessions, session) {
        None => {}
        Some(place) => {
            let live = &mut sessions[place];
            live.granted += 1;
        }
    }
}

/// The number of the session that holds an open.
fn holder_of(held: &Open) -> u32
    ensures { result ≡ held.now.handle.session }
{
    held.handle.session
}

/// The handle of an open.
fn handle_of(held: &Open) -> HandleId
    ensures { result ≡ held.now.handle }
{
    held.handle
}

impl State {
    /// Whether anything is open on a node.
    pub fn is_opened(&self, id: u64) -> bool
        ensures { result ≡ is_opened self.now id }
    {
        self.opens.is_on(id)
    }

    /// How many opens a node has.
    pub fn count_on(&self, id: u64) -> u64
        ensures { result ≡ length (opens_on self.now id) }
    {
        self.opens.count_on(id)
    }

    /// How many opens a session was granted, none where it isn't live.
    pub fn granted_to(&self, session: u32) -> u32
        ensures found { result ≡ granted_to self.now session }
        ensures few { CanGrant self.now → result < 2 ^ 32 - 1 }
    {
        match session_of(&self.sessions, session) {
            Some(live) => live.granted,
            None => 0,
        }
    }

    /// The address of a session's peer, 0 where it isn't live.
    pub fn peer_of(&self, session: u32) -> u32
        ensures { result ≡ peer_of self.now session }
    {
        match session_of(&self.sessions, session) {
            Some(live) => live.peer,
            None => 0,
        }
    }

    /// Puts one more open into its place; its session is granted it. Where memory runs out, all is as before.
    #[tactic(auto, unfolding(sx_spec::specs::Changes::put_open))]
    pub fn put_open(&mut self, added: Open) -> Result<(), NoMemory>
        requires { CanGrant self.old }
        ensures ok { OnOk result (self.new ≡ put_open added self.old) }
        ensures err { OnErr result (self.new ≡ self.old) }
    {
        let session = holder_of(&added);
        match self.opens.put(added) {
            Ok(()) => {
                grant(&mut self.sessions, session);
                Ok(())
            }
            Err(failed) => Err(failed),
        }
    }

    /// Puts a node of the next file id under a name into its directory, and an open on it. Where memory runs out, all
    /// is as before.
    #[tactic(auto, unfolding(sx_spec::specs::Changes::put_open, sx_spec::specs::Changes::make_node))]
    pub fn make_open(
        &mut self,
        number: u32,
        name: Part,
        node: Node,
        added: Open,
    ) -> Result<(), NoMemory>
        requires granted { CanGrant self.old }
        requires fresh { IsFresh self.old }
        requires next { node.id ≡ self.old.next_id }
        requires ids { self.old.next_id + 1 < 2 ^ 64 }
        ensures ok { OnOk result (self.new ≡ put_open added (make_node number name node self.old)) }
        ensures err { OnErr result (self.new ≡ self.old) }
    {
        let handle = handle_of(&added);
        let session = holder_of(&added);
        match self.opens.put(added) {
            Ok(()) => {}
            Err(failed) => return Err(failed),
        }
        match make_in(&mut self.shares, number, name, node) {
            Ok(()) => {
                self.next_id += 1;
                grant(&mut self.sessions, session);
                Ok(())
            }
            Err(failed) => {
                self.opens.take(handle);
                Err(failed)
            }
        }
    }

    /// Sets the mark for delete on close of the open of a handle, or takes it off.
    #[tactic(auto, unfolding(sx_spec::specs::Changes::change_open))]
    pub fn mark_open(&mut self, handle: HandleId, on: bool)
        ensures { self.new ≡ change_open handle (with_mark on) self.old }
    {
        self.opens.mark(handle, on);
    }
}
