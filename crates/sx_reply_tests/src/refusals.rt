//! The table of refusals: status, code, word and message of each.

use crate::made::{answer, check, joined, new_year, whole};
use std::alloc::Global;
use std::process::Abort;
use sx_base::{Fragment, MemSink};
use sx_call::{Refusal, Reply};
use sx_guard::{HandleId, Held};
use sx_reply::{code_of, has_code, put_message, status_of, word_of};

fn handle() -> HandleId {
    HandleId {
        session: 1,
        index: 1,
    }
}

fn held() -> Held {
    Held {
        handle: handle(),
        from: 10,
        end: 20,
        exclusive: true,
    }
}

/// The status and code of a refusal, and 0 and nothing where no REST call is refused so.
fn rest_answer(refusal: &Refusal) -> (u16, &'static str) {
    if has_code(refusal) {
        (status_of(refusal), code_of(refusal))
    } else {
        (0, "")
    }
}

/// Panics unless the refusal's status, code, word and message are these, with a space between them and `: ` before the
/// message.
fn row(rt: &impl Abort, alloc: Global, refusal: Refusal, told: &str) {
    let (status, code) = rest_answer(&refusal);
    let mut sink = MemSink::new(alloc, Vec::new(alloc));
    let front = [
        Fragment::Decimal(status as u64),
        Fragment::Text(b" "),
        Fragment::Text(code.as_bytes()),
        Fragment::Text(b" "),
        Fragment::Text(word_of(&refusal).as_bytes()),
        Fragment::Text(b": "),
    ];
    assert!(rt; sx_base::print(&mut sink, &front).is_ok(), "{told}");
    assert!(rt; put_message(&mut sink, &refusal).is_ok(), "{told}");
    assert!(rt; sink.bytes() == told.as_bytes(), "{told}");
}

/// Shares, snapshots, and what a path names.
#[test]
fn refusals_of_names(rt: HostRuntime) {
    let rows = [
        (
            Refusal::ShareAbsent,
            "404 ShareNotFound BAD_NETWORK_NAME: no share",
        ),
        (Refusal::ShareThere, "409 ShareAlreadyExists : share there"),
        (
            Refusal::SnapshotAbsent { moment: new_year() },
            "404 ShareSnapshotNotFound : no snapshot",
        ),
        (
            Refusal::ParentAbsent { parts: 2 },
            "404 ParentNotFound OBJECT_PATH_NOT_FOUND: no parent 2",
        ),
        (
            Refusal::NameAbsent,
            "404 ResourceNotFound OBJECT_NAME_NOT_FOUND: no name",
        ),
        (
            Refusal::NameThere { id: 7 },
            "409 ResourceAlreadyExists OBJECT_NAME_COLLISION: there id 7",
        ),
    ];
    for (refusal, told) in rows {
        row(&rt, rt.alloc(), refusal, told);
    }
}

/// What a file or directory is.
#[test]
fn refusals_of_kinds(rt: HostRuntime) {
    let rows = [
        (
            Refusal::IsDirectory { id: 7 },
            "409 ResourceTypeMismatch FILE_IS_A_DIRECTORY: directory id 7",
        ),
        (
            Refusal::IsFile { id: 7 },
            "409 ResourceTypeMismatch NOT_A_DIRECTORY: file id 7",
        ),
        (
            Refusal::Pending { id: 2 },
            "409 SMBDeletePending DELETE_PENDING: pending id 2",
        ),
        (
            Refusal::NotEmpty { id: 7 },
            "409 DirectoryNotEmpty : not empty id 7",
        ),
        (
            Refusal::ReadOnly { id: 7 },
            "409 ReadOnlyAttribute ACCESS_DENIED: read-only id 7",
        ),
    ];
    for (refusal, told) in rows {
        row(&rt, rt.alloc(), refusal, told);
    }
}

/// Leases.
#[test]
fn refusals_of_leases(rt: HostRuntime) {
    let rows = [
        (
            Refusal::LeaseHeld,
            "412 LeaseIdMissing SHARING_VIOLATION: lease held",
        ),
        (
            Refusal::LeaseOther { share: false },
            "412 LeaseIdMismatchWithFileOperation : lease differs",
        ),
        (
            Refusal::LeaseOther { share: true },
            "412 LeaseIdMismatchWithShareOperation : lease differs",
        ),
        (
            Refusal::NoLease { share: false },
            "412 LeaseNotPresentWithFileOperation : no lease",
        ),
        (
            Refusal::NoLease { share: true },
            "412 LeaseNotPresentWithShareOperation : no lease",
        ),
        (Refusal::LeaseTaken, "409 LeaseAlreadyPresent : lease taken"),
        (
            Refusal::LeaseIdWrong,
            "409 LeaseIdMismatchWithLeaseOperation : lease id differs",
        ),
        (
            Refusal::LeaseNotThere,
            "409 LeaseNotPresentWithLeaseOperation : lease not there",
        ),
    ];
    for (refusal, told) in rows {
        row(&rt, rt.alloc(), refusal, told);
    }
}

/// Handles, locks, ranges and limits.
#[test]
fn refusals_of_handles_and_limits(rt: HostRuntime) {
    let rows = [
        (
            Refusal::Shared { handle: handle() },
            "409 SharingViolation SHARING_VIOLATION: sharing handle 1.1",
        ),
        (
            Refusal::Locked { held: held() },
            "409 FileLockConflict FILE_LOCK_CONFLICT: lock handle 1.1 from 10 to 19",
        ),
        (Refusal::NotLocked, "0  RANGE_NOT_LOCKED: not locked"),
    ];
    for (refusal, told) in rows {
        row(&rt, rt.alloc(), refusal, told);
    }
}

/// Ranges, quotas, and numbers of snapshots and opens.
#[test]
fn refusals_of_limits(rt: HostRuntime) {
    let rows = [
        (
            Refusal::OutOfFile { length: 9 },
            "416 InvalidRange : range length 9",
        ),
        (
            Refusal::QuotaMet {
                used: 8,
                more: 1,
                limit: 8,
            },
            "409 ShareQuotaExceeded DISK_FULL: quota used 8 more 1 limit 8",
        ),
        (
            Refusal::SnapshotsFull { n: 200 },
            "409 ShareSnapshotCountExceeded : snapshots 200",
        ),
        (
            Refusal::SnapshotsStand { n: 2 },
            "409 ShareHasSnapshots : snapshots 2",
        ),
        (
            Refusal::OpensFull { n: 2_000 },
            "0  TOO_MANY_OPENED_FILES: opens 2000",
        ),
        (
            Refusal::NoHandle { handle: handle() },
            "0  INVALID_HANDLE: handle 1.1",
        ),
        (
            Refusal::LacksAccess { handle: handle() },
            "0  ACCESS_DENIED: access 1.1",
        ),
    ];
    for (refusal, told) in rows {
        row(&rt, rt.alloc(), refusal, told);
    }
}

/// The worked answer to a Get File that meets an open handle.
#[test]
fn a_refusal_is_printed(rt: HostRuntime) {
    let answer = answer(Reply::Refused(Refusal::Shared { handle: handle() }));
    let rest = joined(
        &rt,
        rt.alloc(),
        &[
            "x-ms-error-code: SharingViolation\r\nContent-Type: application/xml\r\n",
            "Content-Length: 119\r\n\r\n",
            "<?xml version=\"1.0\" encoding=\"utf-8\"?><Error><Code>SharingViolation</Code>",
            "<Message>sharing handle 1.1</Message></Error>",
        ],
    );
    check(
        &rt,
        rt.alloc(),
        &answer,
        whole(),
        "409 Conflict",
        rest.as_str(),
    );
}
