//! The open handles of a session, closed together.
ghost use Rattle.std.specs.Prelude.{◌≡◌, ◌≤◌, AllPairs, filter, find, length, true};
ghost use Rattle.sx_guard.specs.Handle.{handle_before};
ghost use Rattle.sx_spec.specs.Account.{is_held_by};
ghost use Rattle.sx_spec.specs.Changes.{close_all};
ghost use Rattle.sx_state.specs.Holding.{close_found};

use crate::state::State;

impl State {
    /// Closes the first handle that a session holds, if it holds any.
    fn close_first(&mut self, session: u32)
        ensures { self.new ≡ close_found (find (is_held_by session) self.old.opens) self.old }
    {
        let Some(held) = self.opens.first_of(session) else {
            return;
        };
        let held = *held;
        self.close(held);
    }

    /// Closes the handles of a session in order, and says how many they were. It takes no memory.
    pub fn close_held(&mut self, session: u32) -> usize
        requires { AllPairs (λ o q. handle_before o.handle q.handle ≡ true) self.old.opens }
        ensures closed { self.new ≡ close_all (filter (is_held_by session) self.old.opens) self.old }
        ensures count { result ≡ length (filter (is_held_by session) self.old.opens) }
        ensures few { result ≤ length self.old.opens }
    {
        let count = self.opens.count_of(session);
        for _ in 0..count {
            self.close_first(session);
        }
        count
    }
}
