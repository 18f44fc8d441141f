//! Where links are asked for.
ghost use Rattle.std.specs.Prelude.{◌≡◌, ◌+◌, ◌<◌, ℕ, IfOk, IfSome};
ghost use Rattle.std.specs.Option.{option_map};
ghost use Rattle.std.specs.declared.option.Option.{Option};
ghost use Rattle.sx_base.specs.Causes.{HasCause, TakesOver};
ghost use Rattle.sx_base.specs.LinkLists.{Links, Dials, after_finished};

use crate::fault::Failed;
use crate::link::Link;

/// Where links are asked for.
///
/// A dialer tells its links where it can, as a listener does. It counts its faults: the count never falls, and
/// `Failed` comes only where it rose.
pub trait Dialer {
    type Link: Link + Drop;

    /// The links, where the dialer tells them.
    ghost links: { Self → Option (Links Self.Link) };

    /// How many dials have failed, and how many links were finished with a fault.
    ghost dial_count: { Self → ℕ };

    /// A link to a port, without a fault: the first link left where the links are told.
    fn dial(&mut self, port: u16) -> Result<Self::Link, Failed>
        ensures links { Dials (links self.old) result (links self.new) }
        ensures reads { IfOk result (λ link. Self.Link.read_count link ≡ 0) }
        ensures writes { IfOk result (λ link. Self.Link.write_count link ≡ 0) }
        ensures cause { HasCause (dial_count self.old) (dial_count self.new) result };

    /// Puts a used link behind the finished ones. The count rises exactly where a count of the link isn't 0.
    fn finish(&mut self, link: Self::Link)
        requires { IfSome (links self.old) (λ links. 0 < links.given) }
        ensures links { links self.new ≡ option_map (after_finished link) (links self.old) }
        ensures cause { TakesOver (Self.Link.read_count link + Self.Link.write_count link) (dial_count self.old)
            (dial_count self.new) };

    /// How many dials have failed, and how many links were finished with a fault. The count stops at the greatest
    /// number of its type.
    fn dial_faults(&self) -> u64
        ensures { result ≡ dial_count self.now };
}
