//! Answers but those with bytes or names, byte by byte.
ghost use Rattle.std.specs.Prelude.{◌≡◌, true};
ghost use Rattle.sx_lines.specs.Answers.{is_printed};

use std::alloc::Global;
use std::process::Abort;
use sx_base::MemSink;
use sx_call::{Attributes, Fate, Refusal, Reply, SmbReply, Stop};
use sx_guard::{HandleId, HandleIndex, Held};
use sx_lines::{LineAnswer, print_line};
use sx_moment::Moment;
use sx_reply::word_of;

/// Panics unless the answer is printed as this line.
pub fn prints(rt: &impl Abort, alloc: Global, answer: &LineAnswer, line: &str)
    requires { is_printed answer.now ≡ true }
{
    let mut sink = MemSink::new(alloc, Vec::new(alloc));
    assert!(rt; print_line(&mut sink, answer).is_ok(), "{line}");
    assert!(rt; sink.bytes() == line.as_bytes(), "{line}");
}

/// Panics unless the reply at place 9 is printed as this line.
pub fn prints_reply(rt: &impl Abort, alloc: Global, reply: SmbReply, line: &str) {
    let answer = LineAnswer::Core {
        place: 9,
        reply: Reply::Smb(reply),
        locking: false,
    };
    prints(rt, alloc, &answer, line);
}

fn opened(index: u32, made: bool, id: u64, length: u64) -> SmbReply {
    SmbReply::Opened {
        index: HandleIndex::of(index.max(1)),
        made,
        id,
        length,
    }
}

#[test]
fn opens_and_closes_are_printed(rt: HostRuntime) {
    let alloc = rt.alloc();
    prints_reply(
        &rt,
        alloc,
        opened(1, true, 2, 0),
        "OK 9 open 1 created 2 0\n",
    );
    prints_reply(
        &rt,
        alloc,
        opened(4_294_967_295, false, 9, 65_536),
        "OK 9 open 4294967295 opened 9 65536\n",
    );
    prints_reply(
        &rt,
        alloc,
        SmbReply::Closed { fate: Fate::Kept },
        "OK 9 close kept\n",
    );
    prints_reply(
        &rt,
        alloc,
        SmbReply::Closed {
            fate: Fate::Pending,
        },
        "OK 9 close pending\n",
    );
    prints_reply(
        &rt,
        alloc,
        SmbReply::Closed { fate: Fate::Gone },
        "OK 9 close gone\n",
    );
    prints_reply(
        &rt,
        alloc,
        SmbReply::Started { session: 1 },
        "OK 9 start 1\n",
    );
    prints_reply(&rt, alloc, SmbReply::Ended { closed: 3 }, "OK 9 end 3\n");
}

#[test]
fn changes_are_printed(rt: HostRuntime) {
    let alloc = rt.alloc();
    prints_reply(
        &rt,
        alloc,
        SmbReply::Wrote {
            count: 2,
            length: 7,
        },
        "OK 9 write 2 7\n",
    );
    prints_reply(
        &rt,
        alloc,
        SmbReply::Resized {
            length: 4_398_046_511_104,
        },
        "OK 9 resize 4398046511104\n",
    );
    prints_reply(&rt, alloc, SmbReply::Locked, "OK 9 lock\n");
    prints_reply(&rt, alloc, SmbReply::Unlocked, "OK 9 unlock\n");
    prints_reply(&rt, alloc, SmbReply::Disposed, "OK 9 dispose\n");
}

/// No attributes, or each of them.
fn attributes(all: bool) -> Attributes {
    Attributes {
        read_only: all,
        hidden: all,
        system: all,
        archive: all,
        temporary: all,
        offline: all,
        not_content_indexed: all,
        no_scrub_data: all,
        directory: all,
    }
}

fn stats(dir: bool, all: bool) -> SmbReply {
    SmbReply::Stats {
        id: 3,
        dir,
        length: 5,
        attributes: attributes(all),
        created: Moment::of(16_409_952_000_000_000),
        written: Moment::of(16_409_952_000_000_001),
        changed: Moment::of(0),
    }
}

#[test]
fn stats_are_printed(rt: HostRuntime) {
    let alloc = rt.alloc();
    prints_reply(
        &rt,
        alloc,
        stats(false, false),
        "OK 9 stat 3 file 5 None 16409952000000000 16409952000000001 0\n",
    );
    prints_reply(
        &rt,
        alloc,
        stats(true, true),
        "OK 9 stat 3 dir 5 ReadOnly|Hidden|System|Archive|Temporary|Offline|NotContentIndexed|NoScrubData|\
Directory 16409952000000000 16409952000000001 0\n",
    );
}

#[test]
fn other_answers_are_printed(rt: HostRuntime) {
    let alloc = rt.alloc();
    let full = Stop::HistoryFull {
        entries: 9,
        sessions: 1,
        limit: 10,
    };
    prints(&rt, alloc, &LineAnswer::Syntax { at: 0 }, "ERR SYNTAX 0\n");
    prints(&rt, alloc, &LineAnswer::Long, "ERR LINE 2097408\n");
    prints(
        &rt,
        alloc,
        &LineAnswer::Stop(Stop::NoMemory),
        "ERR NO_MEMORY\n",
    );
    prints(
        &rt,
        alloc,
        &LineAnswer::Stop(full),
        "ERR HISTORY_FULL 9 1 10\n",
    );
}

/// Panics unless the refusal at place 9, of a lock line or another, is printed as this line.
fn refused(rt: &impl Abort, alloc: Global, refusal: Refusal, locking: bool, line: &str) {
    assert!(rt; 0 < word_of(&refusal).len(), "{line}");
    let answer = LineAnswer::Core {
        place: 9,
        reply: Reply::Refused(refusal),
        locking,
    };
    prints(rt, alloc, &answer, line);
}

fn handle() -> HandleId {
    HandleId {
        session: 1,
        index: 2,
    }
}

fn held() -> Held {
    Held {
        handle: handle(),
        from: 10,
        end: 20,
        exclusive: true,
    }
}

#[test]
fn refused_names_are_printed(rt: HostRuntime) {
    let rows = [
        (Refusal::ShareAbsent, "ERR BAD_NETWORK_NAME 9 no share\n"),
        (
            Refusal::ParentAbsent { parts: 2 },
            "ERR OBJECT_PATH_NOT_FOUND 9 no parent 2\n",
        ),
        (Refusal::NameAbsent, "ERR OBJECT_NAME_NOT_FOUND 9 no name\n"),
        (
            Refusal::NameThere { id: 7 },
            "ERR OBJECT_NAME_COLLISION 9 there id 7\n",
        ),
        (
            Refusal::IsDirectory { id: 7 },
            "ERR FILE_IS_A_DIRECTORY 9 directory id 7\n",
        ),
        (
            Refusal::IsFile { id: 7 },
            "ERR NOT_A_DIRECTORY 9 file id 7\n",
        ),
        (
            Refusal::Pending { id: 7 },
            "ERR DELETE_PENDING 9 pending id 7\n",
        ),
        (
            Refusal::ReadOnly { id: 7 },
            "ERR ACCESS_DENIED 9 read-only id 7\n",
        ),
    ];
    for (refusal, line) in rows {
        refused(&rt, rt.alloc(), refusal, false, line);
    }
}

#[test]
fn refused_opens_are_printed(rt: HostRuntime) {
    let rows = [
        (Refusal::LeaseHeld, "ERR SHARING_VIOLATION 9 lease held\n"),
        (
            Refusal::Shared { handle: handle() },
            "ERR SHARING_VIOLATION 9 sharing handle 1.2\n",
        ),
        (
            Refusal::Locked { held: held() },
            "ERR FILE_LOCK_CONFLICT 9 lock handle 1.2 from 10 to 19\n",
        ),
        (Refusal::NotLocked, "ERR RANGE_NOT_LOCKED 9 not locked\n"),
        (
            Refusal::QuotaMet {
                used: 8,
                more: 1,
                limit: 8,
            },
            "ERR DISK_FULL 9 quota used 8 more 1 limit 8\n",
        ),
        (
            Refusal::OpensFull { n: 2_000 },
            "ERR TOO_MANY_OPENED_FILES 9 opens 2000\n",
        ),
        (
            Refusal::NoHandle { handle: handle() },
            "ERR INVALID_HANDLE 9 handle 1.2\n",
        ),
        (
            Refusal::LacksAccess { handle: handle() },
            "ERR ACCESS_DENIED 9 access 1.2\n",
        ),
    ];
    for (refusal, line) in rows {
        refused(&rt, rt.alloc(), refusal, false, line);
    }
}

/// To a lock line a lock in the way has a word of its own.
#[test]
fn refused_locks_are_printed(rt: HostRuntime) {
    let line = "ERR LOCK_NOT_GRANTED 9 lock handle 1.2 from 10 to 19\n";
    let held = Refusal::Locked { held: held() };
    refused(&rt, rt.alloc(), held, true, line);
}
