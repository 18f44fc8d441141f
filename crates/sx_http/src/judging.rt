//! A whole head judged: the length of its body, or its refusal.

ghost use Rattle.std.specs.Prelude.{◌≡◌, MatchResult};
ghost use Rattle.sx_http.specs.Framing.{framing_of};
ghost use Rattle.sx_http.specs.declared.framing.Framing.TheVariants.{Body};
ghost use Rattle.sx_http.specs.Judging.{Refuses};

use crate::facts::facts_of;
use crate::framing::{Framing, framing_of};
use crate::heads::Head;
use crate::next::{Long, Next};

/// A head of `size` bytes behind which `body` bytes of a body stand.
#[derive(Drop)]
pub(crate) struct WholeHead {
    /// The head.
    pub head: Head,
    /// How many bytes it has, at most 65,536.
    pub size: usize,
    /// How many bytes its body has, at most 4,194,304.
    pub body: u64,
}

/// The head with its body's length, or its refusal. The request begins at place `at`.
pub(crate) fn judge(head: Head, size: usize, at: u64) -> Result<WholeHead, Next>
    ensures { MatchResult result (λ found. (found.head ≡ head) × (found.size ≡ size)
        × (framing_of head ≡ Body found.body)) (Refuses head at) }
{
    let facts = facts_of(&head);
    match framing_of(&head) {
        Framing::Body(body) => Ok(WholeHead { head, size, body }),
        Framing::TooManyHeaders(n) => Err(Next::TooLong {
            at,
            what: Long::Headers,
            n,
            facts,
        }),
        Framing::NoLength => Err(Next::NoLength { at, facts }),
        Framing::BadLength => Err(Next::BadLength { at, facts }),
        Framing::LongBody(n) => Err(Next::TooLong {
            at,
            what: Long::Body,
            n,
            facts,
        }),
    }
}
