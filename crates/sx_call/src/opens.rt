//! Opens: what an open asks for, and live sessions, open handles and locks as state and definitions keep them.
ghost use Rattle.std.specs.Prelude.{◌≡◌};
ghost use Rattle.sx_call.specs.Limits.{if_within};
ghost use Rattle.sx_call.specs.Opens.{is_open_rights};

use std::marker::Model;
use sx_guard::{Access, HandleId, Held, Mode};
use sx_moment::Moment;

/// What an open does with a name that is there and with one that is absent.
#[derive(Clone, Copy, Debug, PartialEq, Eq)]
pub enum How {
    /// The name must be there.
    Existing,
    /// The name must be absent, and is made.
    Create,
    /// The name is opened where it is there, and made where it is absent.
    Either,
}

/// The rights that an open asks for, and whether the file or directory is deleted on close, which asks for delete
/// access.
#[derive(Clone, Copy, Debug, PartialEq, Eq)]
pub struct OpenAccess {
    /// The rights.
    pub access: Access,
    /// Whether the open is marked for delete on close.
    pub on_close: bool,
}

impl Model for OpenAccess {
    ghost use Rattle.std.specs.Prelude.{◌≡◌, true};
    ghost use Rattle.sx_call.specs.Opens.{OpenRights, is_open_rights};

    ghost Value = { OpenRights };

    ghost view = { λ o. record { access = o.access; on_close = o.on_close } };

    ghost invariant = { λ o. is_open_rights (record { access = o.access; on_close = o.on_close }) ≡ true };

    ghost inverse = { λ r. record { access = r.access; on_close = r.on_close } };
}

impl OpenAccess {
    /// These rights and this mark, where an open may ask for both.
    pub fn of(access: Access, on_close: bool) -> Option<OpenAccess>
        ensures { result ≡ if_within is_open_rights (record { access = access; on_close = on_close }) }
    {
        if on_close && !access.delete {
            None
        } else {
            Some(OpenAccess { access, on_close })
        }
    }
}

/// A live session.
#[derive(Clone, Copy, Debug, PartialEq, Eq)]
pub struct Live {
    /// The session's number, from 1.
    pub session: u32,
    /// The number of the caller that started it.
    pub who: u32,
    /// Its peer, an IPv4 address as a number.
    pub peer: u32,
    /// How many opens it was granted.
    pub granted: u32,
}

/// An open handle.
#[derive(Clone, Copy, Debug, PartialEq, Eq)]
pub struct Open {
    /// The handle.
    pub handle: HandleId,
    /// The number of the share, from 1 in the order of their making.
    pub share: u32,
    /// The id of the file or directory.
    pub node: u64,
    /// The rights that it has.
    pub access: Access,
    /// The rights that it leaves to others.
    pub mode: Mode,
    /// Whether it is marked for delete on close.
    pub on_close: bool,
    /// The moment of opening.
    pub at: Moment,
}

/// A byte-range lock of the account.
#[derive(Clone, Copy, Debug, PartialEq, Eq)]
pub struct Lock {
    /// The id of the file on which it is held.
    pub node: u64,
    /// The lock.
    pub held: Held,
}
