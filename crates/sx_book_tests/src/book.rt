//! The book alone: entries that stand in no session, and the history's limit. Calls in a session are tested by the
//! door.
ghost use Rattle.std.specs.Prelude.{true};

use std::alloc::Global;
use std::process::Abort;
use sx_base::GREATEST_MOMENT;
use sx_book::{Book, Stop};
use sx_call::{Call, CreateShare, Entry, Noted, Refusal, Reply, SmbReply, Start};
use sx_moment::ClockMoment;
use sx_names::{Meta, Quota, ShareName};

fn share(rt: &impl Abort, alloc: Global, name: &str) -> ShareName {
    match ShareName::read(alloc, name.as_bytes()) {
        Ok(name) => name,
        Err(_) => panic!(rt; "{name} is no name of a share"),
    }
}

/// What the book answers to Create Share at a moment.
fn create(
    rt: &impl Abort,
    alloc: Global,
    book: &mut Book,
    at: u64,
    name: &str,
) -> Result<Reply, Stop> {
    assert!(rt; book.last_moment() <= at && at <= GREATEST_MOMENT);
    let call = Call::CreateShare(CreateShare {
        share: share(rt, alloc, name),
        quota: Quota::of(1),
        meta: Meta::new(alloc),
    });
    book.step(Entry {
        who: 3,
        session: 0,
        at: ClockMoment::of(at),
        fresh: 0,
        call,
    })
}

/// What the book answers to the start of a session.
fn start(rt: &impl Abort, book: &mut Book, at: u64) -> Result<Reply, Stop> {
    assert!(rt; book.last_moment() <= at && at <= GREATEST_MOMENT);
    book.step(Entry {
        who: 3,
        session: 0,
        at: ClockMoment::of(at),
        fresh: 0,
        call: Call::Start(Start { peer: 7 }),
    })
}

/// Makes a share.
fn makes(rt: &impl Abort, alloc: Global, book: &mut Book, at: u64, name: &str) {
    let answer = create(rt, alloc, book, at, name);
    assert!(rt; matches!(answer, Ok(Reply::Stamped { .. })), "{name}");
}

/// Finds the share's name taken.
fn finds_there(rt: &impl Abort, alloc: Global, book: &mut Book, at: u64, name: &str) {
    let answer = create(rt, alloc, book, at, name);
    assert!(rt;
        matches!(answer, Ok(Reply::Refused(Refusal::ShareThere))),
        "{name}"
    );
}

/// Starts the first session.
fn starts(rt: &impl Abort, book: &mut Book, at: u64) {
    let answer = start(rt, book, at);
    assert!(rt; matches!(answer, Ok(Reply::Smb(SmbReply::Started { session: 1 }))));
}

/// Whether an answer is that the history is full, beside one live session and with a limit of six.
fn is_full(answer: &Result<Reply, Stop>, wanted: u64) -> bool {
    match answer {
        Err(
            Stop::HistoryFull {
                entries,
                sessions,
                limit,
            },
        ) => *entries == wanted && *sessions == 1 && *limit == 6,
        _ => false,
    }
}

fn check_entry(rt: &impl Abort, noted: &Noted, refused: bool) {
    assert_eq!(rt; noted.refused, refused);
    assert_eq!(rt; noted.entry.who, 3);
}

/// Shares and sessions up to a limit of six. Each answer is worked out by hand.
#[test]
fn entries_up_to_the_limit(rt: HostRuntime) {
    let alloc = rt.alloc();
    let mut book = Book::new(alloc, 6);
    assert_eq!(rt; book.limit(), 6);
    assert_eq!(rt; book.last_moment(), 0);
    makes(&rt, alloc, &mut book, 10, "one");
    finds_there(&rt, alloc, &mut book, 10, "one");
    starts(&rt, &mut book, 20);
    makes(&rt, alloc, &mut book, 30, "two");
    assert_eq!(rt; book.started(), 1);
    assert_eq!(rt; book.live(), 1);
    assert_eq!(rt; book.state().live(), 1);
    assert_eq!(rt; book.last_moment(), 30);
    // A second session needs its own place, the place of its end and that of the first one's end.
    assert!(rt; is_full(&start(&rt, &mut book, 30), 4));
    makes(&rt, alloc, &mut book, 40, "three");
    // The last place is kept for the session's end.
    assert!(rt; is_full(&create(&rt, alloc, &mut book, 50, "four"), 5));
    let marks = [false, true, false, false, false];
    assert_eq!(rt; book.entries().len(), 5);
    for (noted, mark) in book.entries().iter().zip(marks.iter()) {
        check_entry(&rt, noted, *mark);
    }
}
