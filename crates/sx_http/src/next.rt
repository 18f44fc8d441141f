//! What a reader of requests answers.

use crate::facts::HeadFacts;
use crate::heads::Request;

/// What of a request is over its limit.
#[derive(Clone, Copy, Debug, PartialEq, Eq)]
pub enum Long {
    /// The first 65,536 bytes hold no head, and may yet become one.
    Head,
    /// The head has more than 100 headers.
    Headers,
    /// The stated length of the body is over 4,194,304.
    Body,
}

/// What a reader of requests found next. `at` is always the place of the request's first byte on the stream.
#[derive(Debug, Drop)]
pub enum Next {
    /// A request. Exactly its bytes were taken.
    Whole(Request),
    /// The source ended between requests, or the reader has ended before.
    End,
    /// The source ended inside a request, of which these many bytes were left, at least 1.
    Cut {
        left: u64,
    },
    /// No continuation of the bytes is a head.
    BadHead {
        at: u64,
    },
    /// The head is whole, and it is a PUT without a Content-Length or has a Transfer-Encoding.
    NoLength {
        at: u64,
        facts: HeadFacts,
    },
    /// The head is whole, and its Content-Length values aren't one decimal number below 2^64.
    BadLength {
        at: u64,
        facts: HeadFacts,
    },
    /// A limit is passed: by the head (`n` is 65,536), by the number `n` of headers, or by the stated length `n` of
    /// the body.
    TooLong {
        at: u64,
        what: Long,
        n: u64,
        facts: HeadFacts,
    },
    /// The bytes taken have reached the budget, and a further byte is wanted.
    Spent,
    /// A read failed.
    ReadFault,
    /// No memory was left to keep more, or to give the request.
    NoMemory,
}
