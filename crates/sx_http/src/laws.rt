//! Laws of requests on a stream. Each function's contract is a law; it does nothing.

ghost use Rattle.sx_http.specs.Laws.{RequestsAreDetermined, HeadsAreDetermined, ReasonsAreDetermined};
ghost use Rattle.sx_http.specs.Laws.{RequestsHaveNoReason};

/// At each place of a stream at most one request begins, so the bytes of a stream determine the requests that a
/// reader gives.
pub fn requests_are_determined()
    ensures one { RequestsAreDetermined }
{}

/// A head's bytes determine the head, and no head is the beginning of another one's bytes.
pub fn heads_are_determined()
    ensures one { HeadsAreDetermined }
{}

/// The reasons for which a reader gives nothing exclude each other, and where a request stands there is none. One
/// case is free: where the bytes end in a target that isn't UTF-8, a bad head may be told, or what is told where a
/// head may yet come.
pub fn reasons_are_determined()
    ensures one { ReasonsAreDetermined }
    ensures none { RequestsHaveNoReason }
{}
