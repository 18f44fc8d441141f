//! Connections over the limits of heads and bodies, with lengths that are none, or that close.

use crate::refused::{
    BAD_HEAD, BAD_LENGTH, BODY_LONG, DONE, HEAD_LONG, HUGE, LIST, NO_HEADER, NO_LENGTH, Refused,
};
use crate::rows::BUDGET;
use sx_book::ConnEnd;

/// The connections.
pub const UNREAD: [Refused; 23] = [
    // A head of which 65,537 bytes have no end.
    Refused {
        input: &[("GET /", 1), ("a", 65_532)],
        budget: BUDGET,
        told: HEAD_LONG,
        answers: 1,
        head_only: false,
        end: ConnEnd::Closed { at: Some(0) },
        taken: 0,
        left: 1,
    },
    // A header whose line alone has more bytes than a head may have.
    Refused {
        input: &[(LIST, 1), ("a: ", 1), ("b", 70_000), ("\r\n\r\n", 1)],
        budget: BUDGET,
        told: HEAD_LONG,
        answers: 1,
        head_only: false,
        end: ConnEnd::Closed { at: Some(0) },
        taken: 0,
        left: 4_497,
    },
    // A head of 65,536 bytes, the most that one may have.
    Refused {
        input: &[(LIST, 1), ("a: ", 1), ("b", 65_503), ("\r\n\r\n", 1)],
        budget: BUDGET,
        told: NO_HEADER,
        answers: 1,
        head_only: false,
        end: ConnEnd::Ended,
        taken: 65_536,
        left: 0,
    },
    // 101 headers.
    Refused {
        input: &[(LIST, 1), ("a:\r\n", 101), (DONE, 1), (LIST, 10)],
        budget: BUDGET,
        told: HEAD_LONG,
        answers: 1,
        head_only: false,
        end: ConnEnd::Closed { at: Some(0) },
        taken: 0,
        left: 244,
    },
    // 100 headers, the most that a head may have.
    Refused {
        input: &[(LIST, 1), ("a:\r\n", 100), (DONE, 1)],
        budget: BUDGET,
        told: NO_HEADER,
        answers: 1,
        head_only: false,
        end: ConnEnd::Ended,
        taken: 428,
        left: 0,
    },
    // A blank in a header's name.
    Refused {
        input: &[(LIST, 1), ("a b: c\r\n", 1), (DONE, 1), (LIST, 10)],
        budget: BUDGET,
        told: BAD_HEAD,
        answers: 1,
        head_only: false,
        end: ConnEnd::Closed { at: Some(0) },
        taken: 0,
        left: 232,
    },
    // A head that isn't whole doesn't ask for itself alone.
    Refused {
        input: &[("HEAD / HTTP/1.1\r\n", 1), ("a b: c\r\n", 1)],
        budget: BUDGET,
        told: BAD_HEAD,
        answers: 1,
        head_only: false,
        end: ConnEnd::Closed { at: Some(0) },
        taken: 0,
        left: 0,
    },
    // Another version of HTTP.
    Refused {
        input: &[("GET / HTTP/2.0\r\n", 1), (DONE, 1)],
        budget: BUDGET,
        told: BAD_HEAD,
        answers: 1,
        head_only: false,
        end: ConnEnd::Closed { at: Some(0) },
        taken: 0,
        left: 0,
    },
    // No length.
    Refused {
        input: &[("PUT /data/a.txt HTTP/1.1\r\n", 1), (DONE, 1), (LIST, 10)],
        budget: BUDGET,
        told: NO_LENGTH,
        answers: 1,
        head_only: false,
        end: ConnEnd::Closed { at: Some(0) },
        taken: 0,
        left: 224,
    },
    // A body in chunks.
    Refused {
        input: &[
            (LIST, 1),
            ("Transfer-Encoding: chunked\r\n", 1),
            (DONE, 1),
            ("0\r\n\r\n", 1),
        ],
        budget: BUDGET,
        told: NO_LENGTH,
        answers: 1,
        head_only: false,
        end: ConnEnd::Closed { at: Some(0) },
        taken: 0,
        left: 0,
    },
    // Chunks and a length, for the head alone.
    Refused {
        input: &[(
            "HEAD / HTTP/1.1\r\nContent-Length: 4\r\nTransfer-Encoding: chunked\r\n\r\n",
            1,
        )],
        budget: BUDGET,
        told: NO_LENGTH,
        answers: 1,
        head_only: true,
        end: ConnEnd::Closed { at: Some(0) },
        taken: 0,
        left: 0,
    },
    // A length that is no number.
    Refused {
        input: &[(LIST, 1), ("Content-Length: 4x\r\n", 1), (DONE, 1)],
        budget: BUDGET,
        told: BAD_LENGTH,
        answers: 1,
        head_only: false,
        end: ConnEnd::Closed { at: Some(0) },
        taken: 0,
        left: 0,
    },
    // No digit, for the head alone.
    Refused {
        input: &[("HEAD / HTTP/1.1\r\nContent-Length:\r\n\r\n", 1)],
        budget: BUDGET,
        told: BAD_LENGTH,
        answers: 1,
        head_only: true,
        end: ConnEnd::Closed { at: Some(0) },
        taken: 0,
        left: 0,
    },
    // A length of 2^64.
    Refused {
        input: &[
            (LIST, 1),
            ("Content-Length: 18446744073709551616\r\n", 1),
            (DONE, 1),
        ],
        budget: BUDGET,
        told: BAD_LENGTH,
        answers: 1,
        head_only: false,
        end: ConnEnd::Closed { at: Some(0) },
        taken: 0,
        left: 0,
    },
    // Two lengths.
    Refused {
        input: &[
            (LIST, 1),
            ("Content-Length: 4\r\nContent-Length: 5\r\n\r\n", 1),
            ("abcd", 1),
            (LIST, 10),
        ],
        budget: BUDGET,
        told: BAD_LENGTH,
        answers: 1,
        head_only: false,
        end: ConnEnd::Closed { at: Some(0) },
        taken: 0,
        left: 202,
    },
    // The same length twice is one length: the next request stands behind its bytes.
    Refused {
        input: &[(
            "GET / HTTP/1.1\r\nContent-Length: 4\r\nContent-Length: 4\r\n\r\nabcd",
            2,
        )],
        budget: BUDGET,
        told: NO_HEADER,
        answers: 2,
        head_only: false,
        end: ConnEnd::Ended,
        taken: 120,
        left: 0,
    },
    // A body that is a byte too long.
    Refused {
        input: &[
            (
                "PUT /data/a.txt?comp=range HTTP/1.1\r\nContent-Length: 4194305\r\n\r\n",
                1,
            ),
            ("abcd", 100),
        ],
        budget: BUDGET,
        told: BODY_LONG,
        answers: 1,
        head_only: false,
        end: ConnEnd::Closed { at: Some(0) },
        taken: 0,
        left: 400,
    },
    // The same, for the head alone.
    Refused {
        input: &[("HEAD / HTTP/1.1\r\nContent-Length: 4194305\r\n\r\n", 1)],
        budget: BUDGET,
        told: BODY_LONG,
        answers: 1,
        head_only: true,
        end: ConnEnd::Closed { at: Some(0) },
        taken: 0,
        left: 0,
    },
    // The greatest number.
    Refused {
        input: &[(
            "GET / HTTP/1.1\r\nContent-Length: 18446744073709551615\r\n\r\n",
            1,
        )],
        budget: BUDGET,
        told: HUGE,
        answers: 1,
        head_only: false,
        end: ConnEnd::Closed { at: Some(0) },
        taken: 0,
        left: 0,
    },
    // HTTP/1.0 closes behind its answer.
    Refused {
        input: &[("GET / HTTP/1.0\r\n\r\n", 1), (LIST, 10)],
        budget: BUDGET,
        told: NO_HEADER,
        answers: 1,
        head_only: false,
        end: ConnEnd::Closed { at: None },
        taken: 18,
        left: 214,
    },
    // So does `close` among other words,
    Refused {
        input: &[
            (LIST, 1),
            ("Connection: keep-alive,\t CLOSE ,x\r\n", 1),
            (DONE, 1),
            (LIST, 10),
        ],
        budget: BUDGET,
        told: NO_HEADER,
        answers: 1,
        head_only: false,
        end: ConnEnd::Closed { at: None },
        taken: 63,
        left: 259,
    },
    // and in a second header.
    Refused {
        input: &[
            (LIST, 1),
            ("connection: x\r\nCONNECTION: close\r\n", 1),
            (DONE, 1),
            (LIST, 10),
        ],
        budget: BUDGET,
        told: NO_HEADER,
        answers: 1,
        head_only: false,
        end: ConnEnd::Closed { at: None },
        taken: 62,
        left: 258,
    },
    // Other words don't close.
    Refused {
        input: &[(
            "GET / HTTP/1.1\r\nConnection: closed, close x\r\nclose: close\r\n\r\n",
            3,
        )],
        budget: BUDGET,
        told: NO_HEADER,
        answers: 3,
        head_only: false,
        end: ConnEnd::Ended,
        taken: 183,
        left: 0,
    },
];
