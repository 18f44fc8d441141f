//! An office without shares, the outside of its doors, and its close.
ghost use Rattle.std.specs.Prelude.{◌≡◌, Ok};

use std::alloc::Global;
use std::process::Abort;
use std::sync::Wait;
use sx_base::{StepClock, StepWords};
use sx_book::{Book, Office, Pass};
use sx_key::Account;

/// A clock, random words and the account of the requests.
#[derive(Drop)]
pub(crate) struct Outside {
    /// The clock of both doors.
    pub clock: StepClock,
    /// The random words of the REST door.
    pub random: StepWords,
    /// The account under whose key requests are signed.
    pub account: Account,
}

/// The outside from 2022-01-01T00:00:00Z on, whose clock goes on by this step each time that it is asked.
pub(crate) fn new_year(rt: &impl Abort, alloc: Global, step: u64) -> Outside {
    match Account::read(alloc, b"acct", b"a2V5") {
        Ok(account) => Outside {
            clock: StepClock {
                at: 16_409_952_000_000_000,
                step,
            },
            random: StepWords { at: 0 },
            account,
        },
        Err(_) => panic!(rt; "no account"),
    }
}

pub(crate) fn begun(rt: &impl Abort, alloc: Global) -> (Office, Pass)
    ensures { result.1.office ≡ result.0 }
{
    match Office::begin(alloc, 1_000_000) {
        Ok(made) => made,
        Err(_) => panic!(rt; "no memory"),
    }
}

fn closed<R: Abort + Wait>(rt: &R, office: Office, pass: Pass) -> Book
    requires { pass.office ≡ office }
{
    match office.close(rt, pass) {
        Ok(book) => book,
        Err(fault) => panic!(rt; "{} out", Office::abandon(fault)),
    }
}

/// Closes the office, whose history has so many entries, and in which no session is live.
pub(crate) fn closes<R: Abort + Wait>(rt: &R, office: Office, pass: Pass, entries: usize)
    requires { pass.office ≡ office }
{
    let book = closed(rt, office, pass);
    assert_eq!(rt; book.entries().len(), entries);
    assert_eq!(rt; book.live(), 0);
    let_go(book);
}

pub(crate) fn let_go<T: Drop>(_value: T) {}

/// The value of an answer that has one, or the test ends.
pub(crate) fn made<T, E: Drop>(rt: &impl Abort, answer: Result<T, E>) -> T
    ensures { answer ≡ Ok result }
{
    match answer {
        Ok(value) => value,
        Err(_) => panic!(rt; "no answer"),
    }
}
