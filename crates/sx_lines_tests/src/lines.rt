//! Lines that are read, and that are written again for their calls.
use std::alloc::Global;
use std::process::Abort;
use sx_call::{Call, Door};
use sx_lines::{Line, call_of_line, line_of_call};

/// A line, and the line that is written for its call.
struct Row {
    line: &'static [u8],
    written: &'static [u8],
}

const ROWS: [Row; 20] = [
    Row {
        line: b"open data a.txt rwd rwd create file doc",
        written: b"open data a.txt rwd rwd create file doc",
    },
    Row {
        line: b"open data %C3%A4/b%20c/d w - existing dir\r",
        written: b"open data %C3%A4/b%20c/d w - existing dir",
    },
    Row {
        line: b"open my-share-1 \xc3\xa4/%7E+%41 rd wd either file",
        written: b"open my-share-1 %C3%A4/~%2BA rd wd either file",
    },
    Row {
        line: b"open data a - d create dir",
        written: b"open data a - d create dir",
    },
    Row {
        line: b"open data a rw r create dir",
        written: b"open data a rw r create dir",
    },
    Row {
        line: b"close 4294967295",
        written: b"close 4294967295",
    },
    Row {
        line: b"read 1 9223372036854775807 1\r",
        written: b"read 1 9223372036854775807 1",
    },
    Row {
        line: b"read 10 0 1048576",
        written: b"read 10 0 1048576",
    },
    Row {
        line: b"write 1 4 686921",
        written: b"write 1 4 686921",
    },
    Row {
        line: b"write 1 4398046511103 fF",
        written: b"write 1 4398046511103 ff",
    },
    Row {
        line: b"resize 1 4398046511104",
        written: b"resize 1 4398046511104",
    },
    Row {
        line: b"resize 1 0",
        written: b"resize 1 0",
    },
    Row {
        line: b"lock 1 10 20 shared",
        written: b"lock 1 10 20 shared",
    },
    Row {
        line: b"lock 1 0 9223372036854775808 exclusive",
        written: b"lock 1 0 9223372036854775808 exclusive",
    },
    Row {
        line: b"unlock 1 10 20 exclusive",
        written: b"unlock 1 10 20 exclusive",
    },
    Row {
        line: b"stat 7",
        written: b"stat 7",
    },
    Row {
        line: b"list 1 * 5000",
        written: b"list 1 * 5000",
    },
    Row {
        line: b"list 1 a%2fb%2A 1",
        written: b"list 1 a%2Fb%2A 1",
    },
    Row {
        line: b"dispose 1 on",
        written: b"dispose 1 on",
    },
    Row {
        line: b"dispose 1 off",
        written: b"dispose 1 off",
    },
];

/// Sees that the line that is written for a call is this one.
fn is_written(rt: &impl Abort, alloc: Global, call: &Call, written: &[u8]) {
    let Door::InSession = call.door() else {
        panic!(rt; "no call in a session")
    };
    match line_of_call(alloc, call) {
        Ok(line) => assert!(rt; line.bytes() == written),
        Err(_) => panic!(rt; "no memory"),
    }
}

/// The call that a line says.
fn call_of(rt: &impl Abort, alloc: Global, line: &[u8]) -> Call {
    match call_of_line(alloc, line) {
        Ok(Line::Ask(call)) => call,
        Ok(Line::Quit) => panic!(rt; "no call"),
        Err(_) => panic!(rt; "no line"),
    }
}

/// Lets go of a value.
fn let_go<T: Drop>(_value: T) {}

/// Sees that a line is read, and which line is written for its call.
fn is_read(rt: &impl Abort, alloc: Global, row: &Row) {
    let call = call_of(rt, alloc, row.line);
    is_written(rt, alloc, &call, row.written);
    let_go(call);
}

/// Lines of each call, also in the spellings in which none is written.
#[test]
fn each_line_is_read_and_written(rt: HostRuntime) {
    for row in ROWS.iter() {
        is_read(&rt, rt.alloc(), row);
    }
}
