//! Connections whose requests are no calls, or whose bytes end inside of one.

use crate::refused::{
    BAD_DATE, BAD_HEADER, DATED, DIFFERS, DONE, LIST, NO_DATE, NO_HEADER, NONE, OTHER_ACCOUNT,
    Refused, SIGNED, TOO_NEW, TOO_OLD, VERB,
};
use crate::rows::BUDGET;
use sx_book::ConnEnd;

/// The connections.
pub const UNCALLED: [Refused; 19] = [
    // No signature, for the head alone.
    Refused {
        input: &[("HEAD / HTTP/1.1\r\n", 1), (DATED, 1), (DONE, 1)],
        budget: BUDGET,
        told: NO_HEADER,
        answers: 1,
        head_only: true,
        end: ConnEnd::Ended,
        taken: 61,
        left: 0,
    },
    // A signature of another form.
    Refused {
        input: &[
            (LIST, 1),
            (DATED, 1),
            ("Authorization: Bearer acct\r\n", 1),
            (DONE, 1),
        ],
        budget: BUDGET,
        told: BAD_HEADER,
        answers: 1,
        head_only: false,
        end: ConnEnd::Ended,
        taken: 98,
        left: 0,
    },
    // Two signatures.
    Refused {
        input: &[(LIST, 1), (DATED, 1), (SIGNED, 2), (DONE, 1)],
        budget: BUDGET,
        told: BAD_HEADER,
        answers: 1,
        head_only: false,
        end: ConnEnd::Ended,
        taken: 222,
        left: 0,
    },
    // Another account.
    Refused {
        input: &[
            (LIST, 1),
            (
                "Authorization: SharedKey other:yrfANInyXScWuZZQvC5+W4Ku6x4dZKYJjcSQnoBWXIg=\r\n",
                1,
            ),
            (DONE, 1),
        ],
        budget: BUDGET,
        told: OTHER_ACCOUNT,
        answers: 1,
        head_only: false,
        end: ConnEnd::Ended,
        taken: 105,
        left: 0,
    },
    // No date.
    Refused {
        input: &[(LIST, 1), (SIGNED, 1), (DONE, 1)],
        budget: BUDGET,
        told: NO_DATE,
        answers: 1,
        head_only: false,
        end: ConnEnd::Ended,
        taken: 104,
        left: 0,
    },
    // A date that can't be read.
    Refused {
        input: &[(LIST, 1), (SIGNED, 1), ("Date: today\r\n", 1), (DONE, 1)],
        budget: BUDGET,
        told: BAD_DATE,
        answers: 1,
        head_only: false,
        end: ConnEnd::Ended,
        taken: 117,
        left: 0,
    },
    // Two dates.
    Refused {
        input: &[(LIST, 1), (SIGNED, 1), (DATED, 2), (DONE, 1)],
        budget: BUDGET,
        told: BAD_DATE,
        answers: 1,
        head_only: false,
        end: ConnEnd::Ended,
        taken: 188,
        left: 0,
    },
    // A date 15 minutes and a second ago.
    Refused {
        input: &[
            (LIST, 1),
            (SIGNED, 1),
            ("Date: Fri, 31 Dec 2021 23:44:59 GMT\r\n", 1),
            (DONE, 1),
        ],
        budget: BUDGET,
        told: TOO_OLD,
        answers: 1,
        head_only: false,
        end: ConnEnd::Ended,
        taken: 141,
        left: 0,
    },
    // A date 15 minutes and a second ahead.
    Refused {
        input: &[
            (LIST, 1),
            (SIGNED, 1),
            ("Date: Sat, 01 Jan 2022 00:15:01 GMT\r\n", 1),
            (DONE, 1),
        ],
        budget: BUDGET,
        told: TOO_NEW,
        answers: 1,
        head_only: false,
        end: ConnEnd::Ended,
        taken: 141,
        left: 0,
    },
    // A date 15 minutes ago is in time, and then its signature is another's.
    Refused {
        input: &[
            (LIST, 1),
            (SIGNED, 1),
            ("Date: Fri, 31 Dec 2021 23:45:00 GMT\r\n", 1),
            (DONE, 1),
        ],
        budget: BUDGET,
        told: DIFFERS,
        answers: 1,
        head_only: false,
        end: ConnEnd::Ended,
        taken: 141,
        left: 0,
    },
    // A signature under another key.
    Refused {
        input: &[
            (LIST, 1),
            (DATED, 1),
            (
                "Authorization: SharedKey acct:NSJfGkjv6uOh0kC7IA4xmOCZDy7E3piUA4gGQAfeDlk=\r\n",
                1,
            ),
            (DONE, 1),
        ],
        budget: BUDGET,
        told: DIFFERS,
        answers: 1,
        head_only: false,
        end: ConnEnd::Ended,
        taken: 146,
        left: 0,
    },
    // A signed request of another method.
    Refused {
        input: &[
            ("POST / HTTP/1.1\r\n", 1),
            (DATED, 1),
            (
                "Authorization: SharedKey acct:/BzGwA1UmSyZYEwZuedm7OGfnSW3GZzjHOwAa2I+6iw=\r\n",
                1,
            ),
            (DONE, 1),
        ],
        budget: BUDGET,
        told: VERB,
        answers: 1,
        head_only: false,
        end: ConnEnd::Ended,
        taken: 137,
        left: 0,
    },
    // Nothing.
    Refused {
        input: &[],
        budget: BUDGET,
        told: NONE,
        answers: 0,
        head_only: false,
        end: ConnEnd::Ended,
        taken: 0,
        left: 0,
    },
    // The end in a head, behind a request.
    Refused {
        input: &[("GET / HTTP/1.1\r\n\r\n", 1), (LIST, 1), (DATED, 1)],
        budget: BUDGET,
        told: NO_HEADER,
        answers: 1,
        head_only: false,
        end: ConnEnd::Cut { left: 68 },
        taken: 86,
        left: 0,
    },
    // The end in a body.
    Refused {
        input: &[(
            "PUT /data/a.txt HTTP/1.1\r\nContent-Length: 10\r\n\r\n123456789",
            1,
        )],
        budget: BUDGET,
        told: NONE,
        answers: 0,
        head_only: false,
        end: ConnEnd::Cut { left: 57 },
        taken: 57,
        left: 0,
    },
    // A budget of 100 bytes, and a head of 200.
    Refused {
        input: &[(LIST, 1), ("a: ", 1), ("b", 167), ("\r\n\r\n", 1)],
        budget: 100,
        told: NONE,
        answers: 0,
        head_only: false,
        end: ConnEnd::Spent,
        taken: 100,
        left: 100,
    },
    // A budget that ends in a body.
    Refused {
        input: &[
            ("PUT /data/a.txt HTTP/1.1\r\nContent-Length: 100\r\n\r\n", 1),
            ("b", 100),
        ],
        budget: 100,
        told: NONE,
        answers: 0,
        head_only: false,
        end: ConnEnd::Spent,
        taken: 100,
        left: 49,
    },
    // A budget of a request.
    Refused {
        input: &[("GET / HTTP/1.1\r\n\r\n", 2)],
        budget: 18,
        told: NO_HEADER,
        answers: 1,
        head_only: false,
        end: ConnEnd::Spent,
        taken: 18,
        left: 18,
    },
    // No budget.
    Refused {
        input: &[("GET / HTTP/1.1\r\n\r\n", 1)],
        budget: 0,
        told: NONE,
        answers: 0,
        head_only: false,
        end: ConnEnd::Spent,
        taken: 0,
        left: 18,
    },
];
