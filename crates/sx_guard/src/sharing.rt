//! The opens of one file or directory, and when they forbid a new one.
ghost use Rattle.std.specs.Prelude.{◌≡◌, [], true, false, not, All, IfNone, IfSome, List, OnErr};
ghost use Rattle.std.specs.Prelude.{OnOk, filter, length, position};
ghost use Rattle.std.specs.List.{list_any};
ghost use Rattle.sx_guard.specs.Ordered.{insert_by, remove_first};
ghost use Rattle.sx_guard.specs.Sharing.{AreOpens, IsLeastHandle, first_handle, forbids, is_changing, is_open_of};
ghost use Rattle.sx_guard.specs.Sharing.{open_before};

use crate::access::{Access, Mode};
use crate::handle::HandleId;
use crate::ordered::{Ordered, insert_ordered};
use std::alloc::Global;
use std::marker::Model;
use sx_memory::NoMemory;

/// An open of a file or directory: its handle, the rights that it has and the rights that it leaves to others.
#[derive(Clone, Copy, Debug, PartialEq, Eq)]
pub struct Opened {
    /// The handle that was opened.
    pub handle: HandleId,
    /// The rights that it has.
    pub access: Access,
    /// The rights that it leaves to others.
    pub mode: Mode,
}

impl Opened {
    /// Whether this open forbids a new one with this access and share mode.
    pub fn forbids(&self, access: Access, mode: Mode) -> bool
        ensures { result ≡ forbids access mode self.now }
    {
        !access.is_empty()
            && !self.access.is_empty()
            && (access.exceeds(self.mode) || self.access.exceeds(mode))
    }
}

impl Ordered for Opened {
    ghost before = { open_before };

    fn comes_before(&self, other: &Opened) -> bool {
        self.handle < other.handle
    }
}

/// The opens of one file or directory, in order of handle. Contracts see it as the list of them.
///
/// The rule is SMB's for share modes: an open and a new one can stand together where each has only rights that the
/// other's share mode leaves to others. An open that asks for no right stands beside any other.
#[derive(Debug, Drop)]
pub struct Sharing {
    opens: Vec<Opened>,
}

impl Model for Sharing {
    ghost use Rattle.std.specs.Prelude.{List};
    ghost use Rattle.sx_guard.specs.declared.sharing.Opened.{Opened};
    ghost use Rattle.sx_guard.specs.Sharing.{AreOpens};

    ghost Value = { List Opened };

    ghost view = { λ s. s.opens.items };

    ghost invariant = { λ s. AreOpens s.opens.items };
}

impl Sharing {
    /// No opens. The allocator is kept for the opens to come.
    pub fn new(alloc: Global) -> Sharing
        ensures { result ≡ [] }
    {
        Sharing {
            opens: Vec::new(alloc),
        }
    }

    /// How many opens there are.
    pub fn count(&self) -> u64
        ensures count { result ≡ length self.now }
        ensures ordered { AreOpens self.now }
    {
        self.opens.len() as u64
    }

    /// Whether a handle has an open here.
    pub fn has(&self, handle: HandleId) -> bool
        ensures { result ≡ list_any (is_open_of handle) self.now }
    {
        self.opens.iter().any(|o| handle == o.handle)
    }

    /// Adds the open of a handle that has none here, at its place in the order. Without memory there is no change.
    pub fn add(&mut self, handle: HandleId, access: Access, mode: Mode) -> Result<(), NoMemory>
        requires { list_any (is_open_of handle) self.old ≡ false }
        ensures ok { OnOk result (self.new ≡ insert_by open_before
            (record { handle = handle; access = access; mode = mode }) self.old) }
        ensures err { OnErr result (self.new ≡ self.old) }
    {
        insert_ordered(
            &mut self.opens,
            Opened {
                handle,
                access,
                mode,
            },
        )
    }

    /// Removes the open of a handle, and says whether there was one.
    pub fn remove(&mut self, handle: HandleId) -> bool
        ensures there { result ≡ list_any (is_open_of handle) self.old }
        ensures one { self.new ≡ remove_first (is_open_of handle) self.old }
        ensures others { self.new ≡ filter (λ o. not (is_open_of handle o)) self.old }
    {
        match place_of(&self.opens, handle) {
            Some(at) => {
                let _ = self.opens.remove(at);
                true
            }
            None => false,
        }
    }

    /// The least handle whose open forbids a new one with this access and share mode, if any does.
    pub fn forbids(&self, access: Access, mode: Mode) -> Option<HandleId>
        ensures first { result ≡ first_handle (forbids access mode) self.now }
        ensures least { IfSome result (IsLeastHandle (forbids access mode) self.now) }
        ensures none { IfNone result (All (λ o. forbids access mode o ≡ false) self.now) }
    {
        self.opens
            .iter()
            .find(|o| o.forbids(access, mode))
            .map(|o| o.handle)
    }

    /// The least handle whose open has write or delete, if any has.
    pub fn changing(&self) -> Option<HandleId>
        ensures first { result ≡ first_handle is_changing self.now }
        ensures least { IfSome result (IsLeastHandle is_changing self.now) }
        ensures none { IfNone result (All (λ o. is_changing o ≡ false) self.now) }
    {
        self.opens
            .iter()
            .find(|o| o.access.write || o.access.delete)
            .map(|o| o.handle)
    }
}

/// The place of a handle's open.
fn place_of(opens: &[Opened], handle: HandleId) -> Option<usize>
    ensures { result ≡ position (is_open_of handle) opens.now }
{
    opens.iter().position(|o| handle == o.handle)
}
