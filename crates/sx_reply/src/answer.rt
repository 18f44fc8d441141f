//! What a request is answered, before it is printed.

use sx_call::{Reply, Stop, Syntax};
use sx_moment::Moment;

/// Why a request's signature isn't accepted.
#[derive(Clone, Copy, Debug, PartialEq, Eq)]
pub enum AuthText {
    /// There is no Authorization header.
    NoHeader,
    /// There are several, or its value isn't of the form.
    BadHeader,
    /// It names another account.
    OtherAccount,
    /// The request has no date.
    NoDate,
    /// There are several dates, or it isn't one.
    BadDate,
    /// The date is too long before now.
    TooOld {
        /// The date, in ticks.
        dated: u64,
        /// Now, in ticks.
        now: u64,
    },
    /// The date is too long after now.
    TooNew {
        /// The date, in ticks.
        dated: u64,
        /// Now, in ticks.
        now: u64,
    },
    /// The signature is another one.
    Differs,
}

/// Why a request can't be read.
#[derive(Clone, Copy, Debug, PartialEq, Eq)]
pub enum WireText {
    /// No continuation of the bytes is a head.
    Head {
        /// The place of the request's first byte.
        at: u64,
    },
    /// The stated length isn't one number.
    BadLength,
    /// No length is stated where one has to be.
    NoLength,
    /// The body is too long.
    Body {
        /// Its stated length.
        n: u64,
    },
    /// The head is too long, or has too many headers.
    HeadLong,
}

/// What a request came to.
#[derive(Debug, Drop)]
pub enum Said {
    /// The call was appended to the history, and this is its reply.
    Core(Reply),
    /// The request is no call.
    Syntax(Syntax),
    /// Its signature isn't accepted.
    Auth(AuthText),
    /// It can't be read.
    Wire(WireText),
    /// The call wasn't appended to the history.
    Stop(Stop),
}

/// An answer to a request.
#[derive(Debug, Drop)]
pub struct Answer {
    /// The place of the call's entry in the history, from 1, and 0 for an answer that stands in no history.
    pub place: u64,
    /// The entry's moment, or the clock's where there is no entry.
    pub at: Moment,
    /// What the request came to.
    pub said: Said,
}

/// How an answer is printed.
#[derive(Clone, Copy, Debug, PartialEq, Eq)]
pub struct Shape {
    /// Whether the request asked for the head alone.
    pub head_only: bool,
    /// Whether the connection closes after the answer.
    pub close: bool,
}
