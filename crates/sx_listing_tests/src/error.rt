//! The body of an error.

use crate::made::joined;
use std::alloc::Global;
use std::process::Abort;
use sx_listing::{BodyFault, ErrorBody, read_error, write_error};
use sx_names::Text;

/// What stands in front of the code.
const FRONT: &str = "<?xml version=\"1.0\" encoding=\"utf-8\"?><Error><Code>";

fn an_error(rt: &impl Abort, alloc: Global, code: &str, message: &str) -> ErrorBody {
    ErrorBody {
        code: joined(rt, alloc, &[code]),
        message: joined(rt, alloc, &[message]),
    }
}

fn written(rt: &impl Abort, alloc: Global, error: &ErrorBody) -> Text {
    match write_error(alloc, error) {
        Ok(text) => text,
        Err(_) => panic!(rt; "no memory"),
    }
}

fn read(rt: &impl Abort, alloc: Global, text: &Text) -> ErrorBody {
    match read_error(alloc, text.bytes()) {
        Ok(error) => error,
        Err(_) => panic!(rt; "unread"),
    }
}

fn error_row(rt: &impl Abort, alloc: Global, code: &str, message: &str, behind: &str) {
    let error = an_error(rt, alloc, code, message);
    let text = written(rt, alloc, &error);
    assert!(rt; text.same(&joined(rt, alloc, &[FRONT, behind])), "{behind}");
    assert!(rt; read(rt, alloc, &text) == error, "{behind}");
}

/// The worked body of a missing file, one of empty texts, and one with each escape and characters of two to four bytes.
#[test]
fn errors_are_written_and_read(rt: HostRuntime) {
    let cases = [
        (
            "ResourceNotFound",
            "no name",
            "ResourceNotFound</Code><Message>no name</Message></Error>",
        ),
        ("", "", "</Code><Message></Message></Error>"),
        (
            "a&b<c>d",
            "\u{e4}\u{20ac}\u{1f600}&amp;",
            "a&amp;b&lt;c&gt;d</Code><Message>\u{e4}\u{20ac}\u{1f600}&amp;amp;</Message></Error>",
        ),
    ];
    for (code, message, behind) in cases {
        error_row(&rt, rt.alloc(), code, message, behind);
    }
}

fn place(rt: &impl Abort, alloc: Global, bytes: &[u8]) -> Option<u64> {
    match read_error(alloc, bytes) {
        Ok(_) => None,
        Err(BodyFault::Bad { at }) => Some(at),
        Err(BodyFault::NoMemory) => panic!(rt; "no memory"),
    }
}

fn damaged_row(rt: &impl Abort, alloc: Global, behind: &[u8], at: u64) {
    let mut bytes = joined(rt, alloc, &[FRONT]).into_vec();
    let front = bytes.len() as u64;
    if bytes.extend_from_slice(behind).is_err() {
        panic!(rt; "no memory");
    }
    assert_eq!(rt;
        place(rt, alloc, &bytes).map(|at| at.saturating_sub(front)),
        Some(at),
        "{behind:?}"
    );
}

/// Damaged bodies: an escape that is none, a bare `>`, a byte that no text has, a character that is cut, half of a
/// pair of
/// surrogates, another tag, text behind the body, and a body that is cut.
#[test]
fn damaged_errors(rt: HostRuntime) {
    let cases: [(&[u8], u64); 9] = [
        (b"a&quot;", 2),
        (b"a&amp,", 5),
        (b"a>", 1),
        (b"a\xff", 1),
        (b"\xc3</Code>", 1),
        (b"\xed\xa0\x80", 1),
        (b"a</code>", 3),
        (b"a</Code><Message>b</Message></Error>\n", 36),
        (b"a</Code><Message>b</Mess", 24),
    ];
    for (behind, at) in cases.iter() {
        damaged_row(&rt, rt.alloc(), *behind, *at);
    }
}
