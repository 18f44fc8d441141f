//! Workers that wait for one another. A service that does everything on one thread, or one door behind the other, ends
//! none of these waits.

use crate::common::{FILE_REQUESTS, LISTING, Size, status};
use crate::meeting::{Meeting, MeetingListener, Met, NONE, Part, Wanted};
use std::alloc::Global;
use std::process::Abort;
use std::sync::Wait;
use std::thread::Threads;
use sx_base::{Listener, MemSink};

/// Serves one link a worker at each door, as these parts say. The status is 0, and no call of a listener failed.
fn serves<R: Abort + Threads + Wait + Sync>(
    rt: &R,
    alloc: Global,
    workers: u32,
    meeting: &Meeting,
    rest: Part,
    smb: Part,
) {
    let mut out = MemSink::new(alloc, Vec::new(alloc));
    let mut rest = MeetingListener::new(alloc, meeting, rest);
    let mut smb = MeetingListener::new(alloc, meeting, smb);
    let size = Size {
        rest_port: 8080,
        smb_port: 4450,
        workers,
        conns: 1,
        limit: 100,
    };
    assert_eq!(rt; status(rt, alloc, size, &mut out, &mut rest, &mut smb), 0);
    assert_eq!(rt; [rest.listen_faults(), smb.listen_faults()], [0, 0]);
    assert_eq!(rt; out.bytes(), b"rest 8080\nsmb 4450\n".as_slice());
}

/// The session's first read waits until the put of a file's bytes has begun at the other door, and that put waits until
/// the session's first answer was put: a body is put outside the turn, while a session is served.
#[test]
fn a_session_is_served_within_a_body(rt: HostRuntime) {
    let meeting = Meeting::new();
    let rest = Part {
        input: FILE_REQUESTS,
        answers: b"\r\n\r\nold!",
        mark: b"old!",
        read: NONE,
        put: Wanted { begun: 0, ended: 1 },
    };
    let smb = Part {
        input: b"open data a.txt r rwd existing file\nread 1 0 4\nquit\n",
        answers: b"OK 6 open 1 opened 2 4\nOK 7 read 4 6f6c6421\nOK 8 end 1\n",
        mark: b"OK ",
        read: Wanted { begun: 1, ended: 0 },
        put: NONE,
    };
    serves(&rt, rt.alloc(), 1, &meeting, rest, smb);
    let wanted = Met {
        begun: 2,
        ended: 2,
        given_up: 0,
        answered: 2,
    };
    assert_eq!(rt; meeting.met(), wanted);
}

/// The first put of each of four links waits until all four have begun theirs: two workers of each door serve at once.
#[test]
fn four_links_are_served_at_once(rt: HostRuntime) {
    let meeting = Meeting::new();
    let rest = Part {
        input: LISTING,
        answers: b"<NextMarker></NextMarker></EnumerationResults>",
        mark: b"HTTP/1.1 200 OK\r\n",
        read: NONE,
        put: Wanted { begun: 4, ended: 0 },
    };
    let smb = Part {
        input: b"sing\n",
        answers: b"ERR SYNTAX 0\n",
        mark: b"ERR ",
        read: NONE,
        put: Wanted { begun: 4, ended: 0 },
    };
    serves(&rt, rt.alloc(), 2, &meeting, rest, smb);
    let wanted = Met {
        begun: 4,
        ended: 4,
        given_up: 0,
        answered: 4,
    };
    assert_eq!(rt; meeting.met(), wanted);
}
