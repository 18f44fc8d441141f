//! Sessions that start and end, and byte-range locks.
ghost use Rattle.std.specs.Prelude.{◌≡◌, ◌+◌, ◌<◌, ◌^◌, OnErr, OnOk, filter, not};
ghost use Rattle.sx_spec.specs.Account.{is_session};
ghost use Rattle.sx_spec.specs.Changes.{put_lock, put_session, take_lock, take_session};

use crate::state::State;
use sx_call::{Live, Lock};
use sx_memory::NoMemory;

/// Takes a session away.
fn drop_session(sessions: &mut Vec<Live>, session: u32)
    ensures { sessions.new.items ≡ filter (λ l. not (is_session session l)) sessions.old.items }
{
    sessions.retain(|live| live.session != session);
}

impl State {
    /// Starts one more session, of the next number, for a caller from an address. Where memory runs out, all is as
    /// before.
    #[tactic(auto, unfolding(sx_spec::specs::Changes::put_session))]
    pub fn put_session(&mut self, who: u32, peer: u32) -> Result<(), NoMemory>
        requires { self.old.started + 1 < 2 ^ 32 }
        ensures ok { OnOk result (self.new ≡ put_session who peer self.old) }
        ensures err { OnErr result (self.new ≡ self.old) }
    {
        let session = self.started + 1;
        let live = Live {
            session,
            who,
            peer,
            granted: 0,
        };
        match self.sessions.push(live) {
            Ok(()) => {
                self.started = session;
                Ok(())
            }
            Err(_) => Err(NoMemory),
        }
    }

    /// Takes a session away. It takes no memory.
    #[tactic(auto, unfolding(sx_spec::specs::Changes::take_session))]
    pub fn take_session(&mut self, session: u32)
        ensures { self.new ≡ take_session session self.old }
    {
        drop_session(&mut self.sessions, session);
    }

    /// Puts one more lock into its place. Where memory runs out, all is as before.
    #[tactic(auto, unfolding(sx_spec::specs::Changes::put_lock))]
    pub fn put_lock(&mut self, added: Lock) -> Result<(), NoMemory>
        ensures ok { OnOk result (self.new ≡ put_lock added self.old) }
        ensures err { OnErr result (self.new ≡ self.old) }
    {
        self.locks.put(added)
    }

    /// Takes one lock away. It takes no memory.
    #[tactic(auto, unfolding(sx_spec::specs::Changes::take_lock))]
    pub fn take_lock(&mut self, old: &Lock)
        ensures { self.new ≡ take_lock old.now self.old }
    {
        self.locks.take(old);
    }
}
