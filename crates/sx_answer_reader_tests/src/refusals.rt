//! Lines of refusals, by hand, and why each says that a call was refused.

use std::alloc::Global;
use std::process::Abort;
use sx_answer_reader::{Answer, Reason, read_line};
use sx_guard::HandleId;

/// Panics unless a line says that the call at place 7 was refused for this reason.
fn is_refused(rt: &impl Abort, alloc: Global, line: &str, wanted: Reason) {
    let answer = read_line(alloc, line.as_bytes());
    match &answer {
        Ok(Answer::Refused { place, reason }) => {
            assert!(rt; *place == 7, "{line}");
            assert!(rt; *reason == wanted, "{line}");
        }
        _ => panic!(rt; "{line}"),
    }
}

fn handle() -> HandleId {
    HandleId {
        session: 3,
        index: 12,
    }
}

#[test]
fn refused_names_are_told(rt: HostRuntime) {
    is_refused(
        &rt,
        rt.alloc(),
        "ERR BAD_NETWORK_NAME 7 no share",
        Reason::ShareAbsent,
    );
    is_refused(
        &rt,
        rt.alloc(),
        "ERR OBJECT_PATH_NOT_FOUND 7 no parent 2",
        Reason::ParentAbsent { parts: 2 },
    );
    is_refused(
        &rt,
        rt.alloc(),
        "ERR OBJECT_NAME_NOT_FOUND 7 no name",
        Reason::NameAbsent,
    );
    is_refused(
        &rt,
        rt.alloc(),
        "ERR OBJECT_NAME_COLLISION 7 there id 5",
        Reason::NameThere { id: 5 },
    );
}

#[test]
fn refused_kinds_are_told(rt: HostRuntime) {
    is_refused(
        &rt,
        rt.alloc(),
        "ERR FILE_IS_A_DIRECTORY 7 directory id 5",
        Reason::IsDirectory { id: 5 },
    );
    is_refused(
        &rt,
        rt.alloc(),
        "ERR NOT_A_DIRECTORY 7 file id 5",
        Reason::IsFile { id: 5 },
    );
    is_refused(
        &rt,
        rt.alloc(),
        "ERR DELETE_PENDING 7 pending id 5",
        Reason::Pending { id: 5 },
    );
    is_refused(
        &rt,
        rt.alloc(),
        "ERR ACCESS_DENIED 7 read-only id 5",
        Reason::ReadOnly { id: 5 },
    );
}

#[test]
fn refused_opens_are_told(rt: HostRuntime) {
    is_refused(
        &rt,
        rt.alloc(),
        "ERR SHARING_VIOLATION 7 lease held",
        Reason::LeaseHeld,
    );
    is_refused(
        &rt,
        rt.alloc(),
        "ERR SHARING_VIOLATION 7 sharing handle 3.12",
        Reason::Shared { handle: handle() },
    );
    is_refused(
        &rt,
        rt.alloc(),
        "ERR DISK_FULL 7 quota used 10 more 3 limit 12",
        Reason::QuotaMet {
            used: 10,
            more: 3,
            limit: 12,
        },
    );
    is_refused(
        &rt,
        rt.alloc(),
        "ERR TOO_MANY_OPENED_FILES 7 opens 10000",
        Reason::OpensFull { n: 10_000 },
    );
    is_refused(
        &rt,
        rt.alloc(),
        "ERR INVALID_HANDLE 7 handle 3.12",
        Reason::NoHandle { handle: handle() },
    );
    is_refused(
        &rt,
        rt.alloc(),
        "ERR ACCESS_DENIED 7 access 3.12",
        Reason::LacksAccess { handle: handle() },
    );
}

#[test]
fn refused_locks_are_told(rt: HostRuntime) {
    is_refused(
        &rt,
        rt.alloc(),
        "ERR FILE_LOCK_CONFLICT 7 lock handle 3.12 from 0 to 9",
        Reason::Locked {
            handle: handle(),
            first: 0,
            last: 9,
            locking: false,
        },
    );
    is_refused(
        &rt,
        rt.alloc(),
        "ERR LOCK_NOT_GRANTED 7 lock handle 3.12 from 0 to 9",
        Reason::Locked {
            handle: handle(),
            first: 0,
            last: 9,
            locking: true,
        },
    );
    is_refused(
        &rt,
        rt.alloc(),
        "ERR RANGE_NOT_LOCKED 7 not locked",
        Reason::NotLocked,
    );
}
