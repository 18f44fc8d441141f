//! The handle that a session's call names.
ghost use Rattle.std.specs.Prelude.{◌≡◌, ◌≤◌};
ghost use Rattle.sx_spec.specs.Step.{handle_in};

use sx_call::Entry;
use sx_guard::{HandleId, HandleIndex};

/// The handle of an index in the entry's session.
pub(crate) fn handle_in(entry: &Entry, index: HandleIndex) -> HandleId
    requires { 1 ≤ entry.now.session }
    ensures { result ≡ handle_in entry.now index }
{
    HandleId {
        session: entry.session,
        index: index.number(),
    }
}
