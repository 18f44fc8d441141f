//! The state of the account as it is kept.
ghost use Rattle.std.specs.Prelude.{◌≡◌, length};
ghost use Rattle.sx_spec.specs.Account.{empty};

use crate::handles::Opens;
use crate::locked::Locked;
use std::alloc::Global;
use std::collections::BTreeMap;
use std::marker::Model;
use sx_call::Live;
use sx_tree::Share;

/// All that a call can change. Contracts see the store of the definitions.
#[derive(Drop)]
pub struct State {
    pub(crate) alloc: Global,
    pub(crate) started: u32,
    pub(crate) sessions: Vec<Live>,
    pub(crate) next_id: u64,
    pub(crate) made: u32,
    pub(crate) shares: BTreeMap<u32, Share>,
    pub(crate) opens: Opens,
    pub(crate) locks: Locked,
}

impl Model for State {
    ghost use Rattle.sx_spec.specs.Account.{Store};

    ghost Value = { Store };

    ghost use Rattle.sx_state.specs.State.{store_of};

    ghost view = { store_of };
}

impl State {
    /// The state before any entry. It takes no memory, and keeps the allocator for what is to come.
    pub fn new(alloc: Global) -> State
        ensures { result ≡ empty.store }
    {
        State {
            alloc,
            started: 0,
            sessions: Vec::new(alloc),
            next_id: 1,
            made: 0,
            shares: BTreeMap::new(alloc),
            opens: Opens::new(alloc),
            locks: Locked::new(alloc),
        }
    }

    /// The allocator with which the state was made.
    pub fn allocator(&self) -> Global {
        self.alloc
    }

    /// How many sessions are live.
    pub fn live(&self) -> u64
        ensures { result ≡ length self.now.sessions }
    {
        self.sessions.len() as u64
    }

    /// How many sessions were started.
    pub fn started(&self) -> u32
        ensures { result ≡ self.now.started }
    {
        self.started
    }

    /// The file id that the next file or directory takes.
    pub fn next_id(&self) -> u64
        ensures { result ≡ self.now.next_id }
    {
        self.next_id
    }

    /// How many shares were made.
    pub fn made(&self) -> u32
        ensures { result ≡ self.now.made }
    {
        self.made
    }
}
