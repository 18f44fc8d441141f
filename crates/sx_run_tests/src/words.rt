//! The words of `serve`, read and refused.

use std::alloc::Global;
use std::process::Abort;
use sx_run::{WordsFault, serve_words};

/// Nine words, and whether they are the command.
struct Row {
    words: [&'static str; 9],
    passes: bool,
}

const ROWS: [Row; 8] = [
    Row {
        words: ["serve", "0", "65535", "1", "30", "0", "1", "acct", "a2V5"],
        passes: true,
    },
    Row {
        words: [
            "serve",
            "8080",
            "4450",
            "4",
            "4",
            "4294967295",
            "4294967295",
            "acct",
            "a2V5",
        ],
        passes: true,
    },
    // Another command, a port too great, a leading zero, no worker, too many, no place, no account, a dash.
    Row {
        words: ["server", "0", "0", "1", "1", "0", "1", "acct", "a2V5"],
        passes: false,
    },
    Row {
        words: ["serve", "65536", "0", "1", "1", "0", "1", "acct", "a2V5"],
        passes: false,
    },
    Row {
        words: ["serve", "0", "01", "1", "1", "0", "1", "acct", "a2V5"],
        passes: false,
    },
    Row {
        words: ["serve", "0", "0", "0", "31", "0", "1", "acct", "a2V5"],
        passes: false,
    },
    Row {
        words: ["serve", "0", "0", "1", "1", "0", "0", "acct", "a2V5"],
        passes: false,
    },
    Row {
        words: ["serve", "-1", "0", "1", "1", "0", "1", "Acct", "a2V5"],
        passes: false,
    },
];

fn owned(rt: &impl Abort, alloc: Global, words: &[&'static str]) -> Vec<String> {
    let mut owned = Vec::new(alloc);
    for word in words {
        match String::from_str(alloc, word) {
            Ok(word) => assert!(rt; owned.push(word).is_ok()),
            Err(_) => panic!(rt; "no memory"),
        }
    }
    owned
}

fn check(rt: &impl Abort, alloc: Global, row: &Row) {
    let words = owned(rt, alloc, &row.words);
    match serve_words(alloc, words.as_slice()) {
        Ok(_words) => assert!(rt; row.passes),
        Err(fault) => {
            assert!(rt; !row.passes);
            assert_eq!(rt; fault, WordsFault::Unknown);
        }
    }
}

#[test]
fn words_are_read(rt: HostRuntime) {
    let alloc = rt.alloc();
    for row in &ROWS {
        check(&rt, alloc, row);
    }
}
