//! Laws of signing and checking, and of texts in order. Each function's contract is a law; it does nothing.

ghost use Rattle.sx_key.specs.Laws.{SignedPasses, TimelyWithin, TextsAreSorted, TextsAreDistinct};

/// A head without an Authorization header whose date is read, given the header that `sign` gives, passes `check` at
/// every moment within 9,000,000,000 ticks of its date, and at no other moment: then the one fault is the date's. It
/// does nothing.
pub fn signed_heads_pass()
    ensures passes { SignedPasses }
    ensures within { TimelyWithin }
{}

/// The values of a parameter stand in the one order of their bytes, and the names of fields are the strictly rising
/// list of those that there are.
pub fn texts_are_ordered()
    ensures sorted { TextsAreSorted }
    ensures distinct { TextsAreDistinct }
{}
