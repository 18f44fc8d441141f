//! Where links come from.
ghost use Rattle.std.specs.Prelude.{◌≡◌, ◌<◌, ◌≤◌, ℕ, IfOk, IfSome};
ghost use Rattle.std.specs.Option.{option_map};
ghost use Rattle.std.specs.declared.option.Option.{Option};
ghost use Rattle.sx_base.specs.Causes.{HasCause, TakesOver};
ghost use Rattle.sx_base.specs.LinkLists.{Links, Accepts, after_finished, no_links};

use crate::fault::Failed;
use crate::link::Link;

/// Where links come from.
///
/// A listener tells its links where it can, as one in memory does: those left, those finished, and how many it gave
/// that aren't finished. One of the system tells none. It counts its faults: the count never falls, and `Failed`
/// comes only where it rose.
pub trait Listener: Sized + Send + Drop {
    type Link: Link + Drop;

    /// The links, where the listener tells them.
    ghost links: { Self → Option (Links Self.Link) };

    /// How many calls have failed.
    ghost listen_count: { Self → ℕ };

    /// Begins to listen at a port, and gives the port. Any free port serves where 0 is asked for.
    fn bind(&mut self, port: u16) -> Result<u16, Failed>
        ensures links { links self.new ≡ links self.old }
        ensures cause { HasCause (listen_count self.old) (listen_count self.new) result };

    /// The first link left, as it stood there. None comes only where the listener tells its links and none is left.
    fn accept(&mut self) -> Result<Option<Self::Link>, Failed>
        ensures links { Accepts (links self.old) result (links self.new) }
        ensures cause { HasCause (listen_count self.old) (listen_count self.new) result };

    /// Puts a served link behind the finished ones. Where the listener tells its links, it gave one that isn't
    /// finished.
    fn finish(&mut self, link: Self::Link)
        requires { IfSome (links self.old) (λ links. 0 < links.given) }
        ensures links { links self.new ≡ option_map (after_finished link) (links self.old) }
        ensures later { listen_count self.old ≤ listen_count self.new };

    /// A listener at the same port for another thread, without a fault. Where the links are told it has none.
    fn fork(&mut self) -> Result<Self, Failed>
        ensures links { links self.new ≡ links self.old }
        ensures cause { HasCause (listen_count self.old) (listen_count self.new) result }
        ensures fork { IfOk result (λ fork. links fork ≡ option_map (λ _. no_links) (links self.old)) }
        ensures faults { IfOk result (λ fork. listen_count fork ≡ 0) };

    /// Takes a fork back. The count rises exactly where the fork's isn't 0.
    fn rejoin(&mut self, fork: Self)
        ensures links { links self.new ≡ links self.old }
        ensures cause { TakesOver (listen_count fork) (listen_count self.old) (listen_count self.new) };

    /// How many calls have failed. The count stops at the greatest number of its type.
    fn listen_faults(&self) -> u64
        ensures { result ≡ listen_count self.now };
}
