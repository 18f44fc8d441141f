//! Lines of answers, by hand, and what each tells.

use std::alloc::Global;
use std::process::Abort;
use sx_answer_reader::{Answer, Entry, Told, read_line};
use sx_call::{Fate, Stop};
use sx_names::Attributes;

/// The place and what is told of a line that says so.
fn done(rt: &impl Abort, alloc: Global, line: &str, place: u64) -> Told {
    match read_line(alloc, line.as_bytes()) {
        Ok(Answer::Done { place: at, told }) => {
            assert!(rt; at == place, "{line}");
            told
        }
        _ => panic!(rt; "{line}"),
    }
}

/// Panics unless a session of this number was started.
fn was_started(rt: &impl Abort, told: &Told, number: u32) {
    match told {
        Told::Started { session } => assert!(rt; *session == number),
        _ => panic!(rt; "started"),
    }
}

/// Panics unless a session ended with so many handles closed.
fn was_ended(rt: &impl Abort, told: &Told, count: u32) {
    match told {
        Told::Ended { closed } => assert!(rt; *closed == count),
        _ => panic!(rt; "ended"),
    }
}

/// Panics unless a file or directory was opened so.
fn was_opened(rt: &impl Abort, told: &Told, wanted: (u32, bool, u64, u64)) {
    match told {
        Told::Opened {
            index,
            made,
            id,
            length,
        } => {
            assert!(rt; index.number() == wanted.0);
            assert!(rt; *made == wanted.1);
            assert!(rt; *id == wanted.2);
            assert!(rt; *length == wanted.3);
        }
        _ => panic!(rt; "opened"),
    }
}

/// Panics unless a handle was closed so.
fn was_closed(rt: &impl Abort, told: &Told, wanted: Fate) {
    match told {
        Told::Closed { fate } => assert!(rt; *fate == wanted),
        _ => panic!(rt; "closed"),
    }
}

/// Panics unless these bytes were read.
fn was_read(rt: &impl Abort, told: &Told, wanted: &[u8]) {
    match told {
        Told::Read { bytes } => assert!(rt; bytes.as_slice() == wanted),
        _ => panic!(rt; "read"),
    }
}

/// The attributes of which these are set, in their order.
fn attributes(set: [bool; 9]) -> Attributes {
    Attributes {
        read_only: set[0],
        hidden: set[1],
        system: set[2],
        archive: set[3],
        temporary: set[4],
        offline: set[5],
        not_content_indexed: set[6],
        no_scrub_data: set[7],
        directory: set[8],
    }
}

/// Panics unless these are the facts of a file or directory: its id, kind, length and three times.
fn was_told(rt: &impl Abort, told: &Told, wanted: (u64, bool, u64, [u64; 3]), set: [bool; 9]) {
    match told {
        Told::Stats {
            id,
            dir,
            length,
            attributes: given,
            created,
            written,
            changed,
        } => {
            assert!(rt; (*id, *dir, *length) == (wanted.0, wanted.1, wanted.2));
            assert!(rt; [*created, *written, *changed] == wanted.3);
            assert!(rt; *given == attributes(set));
        }
        _ => panic!(rt; "told"),
    }
}

/// Panics unless this entry is a file or directory of this length and name.
fn is_entry(rt: &impl Abort, entry: Option<&Entry>, dir: bool, length: u64, name: &str) {
    match entry {
        Some(entry) => {
            assert!(rt; entry.dir == dir);
            assert!(rt; entry.length == length);
            assert!(rt; entry.name.bytes() == name.as_bytes(), "{name}");
        }
        None => panic!(rt; "{name}"),
    }
}

/// Panics unless so many entries were told, and the next page begins in this name.
fn was_listed(rt: &impl Abort, told: &Told, count: usize, name: &str) {
    match told {
        Told::Listed { entries, next } => {
            assert!(rt; entries.len() == count);
            assert!(rt; next.bytes() == name.as_bytes());
        }
        _ => panic!(rt; "listed"),
    }
}

/// The entry at a place of those that are told.
fn entry_at(told: &Told, at: usize) -> Option<&Entry> {
    match told {
        Told::Listed { entries, .. } => entries.get(at),
        _ => None,
    }
}

/// Panics unless so many bytes were written, and the file is so long now.
fn was_written(rt: &impl Abort, told: &Told, bytes: u32, now: u64) {
    match told {
        Told::Wrote { count, length } => {
            assert!(rt; *count == bytes);
            assert!(rt; *length == now);
        }
        _ => panic!(rt; "written"),
    }
}

/// Panics unless a file has this new length.
fn was_resized(rt: &impl Abort, told: &Told, now: u64) {
    match told {
        Told::Resized { length } => assert!(rt; *length == now),
        _ => panic!(rt; "resized"),
    }
}

#[test]
fn sessions_begin_and_end(rt: HostRuntime) {
    was_started(&rt, &done(&rt, rt.alloc(), "OK 2 start 1", 2), 1);
    was_ended(&rt, &done(&rt, rt.alloc(), "OK 9 end 0", 9), 0);
    was_ended(
        &rt,
        &done(
            &rt,
            rt.alloc(),
            "OK 18446744073709551615 end 4294967295",
            18_446_744_073_709_551_615,
        ),
        4_294_967_295,
    );
}

#[test]
fn opens_and_closes_are_read(rt: HostRuntime) {
    was_opened(
        &rt,
        &done(&rt, rt.alloc(), "OK 3 open 1 created 2 0", 3),
        (1, true, 2, 0),
    );
    was_opened(
        &rt,
        &done(&rt, rt.alloc(), "OK 9 open 4294967295 opened 9 65536", 9),
        (4_294_967_295, false, 9, 65_536),
    );
    was_closed(
        &rt,
        &done(&rt, rt.alloc(), "OK 5 close kept", 5),
        Fate::Kept,
    );
    was_closed(
        &rt,
        &done(&rt, rt.alloc(), "OK 5 close pending", 5),
        Fate::Pending,
    );
    was_closed(
        &rt,
        &done(&rt, rt.alloc(), "OK 5 close gone", 5),
        Fate::Gone,
    );
}

#[test]
fn bytes_are_read(rt: HostRuntime) {
    was_read(&rt, &done(&rt, rt.alloc(), "OK 4 read 0 -", 4), b"");
    was_read(
        &rt,
        &done(&rt, rt.alloc(), "OK 4 read 5 68656c6c6f", 4),
        b"hello",
    );
    was_read(
        &rt,
        &done(&rt, rt.alloc(), "OK 4 read 3 00ff0a", 4),
        &[0, 255, 10],
    );
}

#[test]
fn files_and_directories_are_told(rt: HostRuntime) {
    let none = [false; 9];
    let read_only = [true, true, false, false, false, false, false, false, false];
    let directory = [false, false, false, false, false, false, false, false, true];
    was_told(
        &rt,
        &done(&rt, rt.alloc(), "OK 5 stat 7 file 10 None 1 2 3", 5),
        (7, false, 10, [1, 2, 3]),
        none,
    );
    was_told(
        &rt,
        &done(
            &rt,
            rt.alloc(),
            "OK 5 stat 7 file 0 ReadOnly|Hidden 1 2 3",
            5,
        ),
        (7, false, 0, [1, 2, 3]),
        read_only,
    );
    was_told(
        &rt,
        &done(&rt, rt.alloc(), "OK 5 stat 1 dir 0 Directory 0 0 0", 5),
        (1, true, 0, [0, 0, 0]),
        directory,
    );
}

#[test]
fn every_attribute_is_told(rt: HostRuntime) {
    let line = "OK 5 stat 7 file 0 ReadOnly|Hidden|System|Archive|Temporary|Offline|\
        NotContentIndexed|NoScrubData|Directory 1 2 3";
    was_told(
        &rt,
        &done(&rt, rt.alloc(), line, 5),
        (7, false, 0, [1, 2, 3]),
        [true; 9],
    );
}

#[test]
fn empty_pages_are_told(rt: HostRuntime) {
    was_listed(&rt, &done(&rt, rt.alloc(), "OK 6 list 0 *", 6), 0, "");
    was_listed(
        &rt,
        &done(&rt, rt.alloc(), "OK 6 list 0 b%20c", 6),
        0,
        "b c",
    );
}

#[test]
fn names_are_told(rt: HostRuntime) {
    let told = done(
        &rt,
        rt.alloc(),
        "OK 6 list 3 %C3%A9 file:5:a.txt dir:0:sub file:18446744073709551615:b%3Ac",
        6,
    );
    was_listed(&rt, &told, 3, "é");
    is_entry(&rt, entry_at(&told, 0), false, 5, "a.txt");
    is_entry(&rt, entry_at(&told, 1), true, 0, "sub");
    is_entry(
        &rt,
        entry_at(&told, 2),
        false,
        18_446_744_073_709_551_615,
        "b:c",
    );
}

#[test]
fn writes_and_lengths_are_read(rt: HostRuntime) {
    was_written(&rt, &done(&rt, rt.alloc(), "OK 4 write 5 10", 4), 5, 10);
    was_resized(
        &rt,
        &done(&rt, rt.alloc(), "OK 7 resize 4398046511104", 7),
        4_398_046_511_104,
    );
}

#[test]
fn words_alone_are_read(rt: HostRuntime) {
    assert!(rt; matches!(done(&rt, rt.alloc(), "OK 6 lock", 6), Told::Locked));
    assert!(rt; matches!(done(&rt, rt.alloc(), "OK 6 unlock", 6), Told::Unlocked));
    assert!(rt; matches!(done(&rt, rt.alloc(), "OK 6 dispose", 6), Told::Disposed));
}

#[test]
fn lines_outside_the_grammar_are_told(rt: HostRuntime) {
    match read_line(rt.alloc(), b"ERR SYNTAX 6") {
        Ok(Answer::Syntax { at }) => assert!(rt; at == 6),
        _ => panic!(rt; "syntax"),
    }
    assert!(rt; matches!(read_line(rt.alloc(), b"ERR LINE 2097408"), Ok(Answer::Long)));
}

#[test]
fn stops_are_told(rt: HostRuntime) {
    assert!(rt;
        matches!(
            read_line(rt.alloc(), b"ERR NO_MEMORY"),
            Ok(Answer::Stop(Stop::NoMemory))
        )
    );
    match read_line(rt.alloc(), b"ERR HISTORY_FULL 8 2 10") {
        Ok(
            Answer::Stop(
                Stop::HistoryFull {
                    entries,
                    sessions,
                    limit,
                },
            ),
        ) => {
            assert!(rt; entries == 8);
            assert!(rt; sessions == 2);
            assert!(rt; limit == 10);
        }
        _ => panic!(rt; "full"),
    }
}
