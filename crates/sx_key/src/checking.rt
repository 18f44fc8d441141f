//! The check of a signed request.

ghost use Rattle.std.specs.Prelude.{map};
ghost use Rattle.sx_key.specs.Answers.{Answers};
ghost use Rattle.sx_http.specs.Lookup.{header_values};
ghost use Rattle.sx_key.specs.Checking.{auth, request_date, only_date, or_bad_date, date_moment, check_date};
ghost use Rattle.sx_key.specs.Checking.{check_account, check_signature};

use crate::account::Account;
use crate::fault::AuthFault;
use crate::sent::{SentSignature, read_signature};
use crate::signing::signature;
use std::alloc::Global;
use sx_base::read_date;
use sx_http::{Head, Header, has_header, header_values};

/// How far a request's date may be from now, in ticks of 100 ns: 15 minutes (this profile's rule for dates ahead, too).
pub const DATE_WINDOW: u64 = 9_000_000_000;

/// Checks a signed head at a moment, in ticks of 100 ns since 1970-01-01T00:00:00Z: `Ok` where it has no fault, else
/// the first of the faults in the order of `AuthFault`.
pub fn check(alloc: Global, head: &Head, account: &Account, now: u64) -> Result<(), AuthFault>
    ensures { Answers result (auth head.now account.now now) }
{
    let sent = read_signature(alloc, head.headers.as_slice())?;
    check_account(account.name.bytes(), &sent)?;
    let date = request_date(alloc, head.headers.as_slice())?;
    check_date(date, now)?;
    let computed = signature(alloc, head, account)?;
    check_signature(&computed, &sent)
}

fn check_account(name: &[u8], sent: &SentSignature) -> Result<(), AuthFault>
    ensures { Answers result (check_account name.now sent.now) }
{
    if sent.account.as_slice() == name {
        Ok(())
    } else {
        Err(AuthFault::OtherAccount)
    }
}

/// The moment of `x-ms-date`, else of Date.
fn request_date(alloc: Global, headers: &[Header]) -> Result<u64, AuthFault>
    ensures { Answers result (request_date headers.now) }
{
    if has_header(headers, b"x-ms-date") {
        return named_date(alloc, headers, b"x-ms-date");
    }
    named_date(alloc, headers, b"date")
}

fn named_date(alloc: Global, headers: &[Header], name: &[u8]) -> Result<u64, AuthFault>
    ensures { Answers result (only_date (header_values name.now headers.now)) }
{
    let values = header_values(alloc, headers, name)?;
    only_date(&values)
}

fn only_date(values: &[&[u8]]) -> Result<u64, AuthFault>
    ensures { Answers result (only_date (map (λ t. t.now) values.now)) }
{
    match values {
        [] => Err(AuthFault::NoDate),
        [value] => or_bad_date(value),
        _ => Err(AuthFault::BadDate),
    }
}

fn or_bad_date(value: &[u8]) -> Result<u64, AuthFault>
    ensures { Answers result (or_bad_date (date_moment value.now)) }
{
    match read_date(value) {
        Some(moment) => Ok(moment),
        None => Err(AuthFault::BadDate),
    }
}

fn check_date(date: u64, now: u64) -> Result<(), AuthFault>
    ensures { Answers result (check_date date now) }
{
    if now.saturating_sub(date) > DATE_WINDOW {
        return Err(AuthFault::TooOld { dated: date, now });
    }
    if date.saturating_sub(now) > DATE_WINDOW {
        return Err(AuthFault::TooNew { dated: date, now });
    }
    Ok(())
}

fn check_signature(computed: &[u8], sent: &SentSignature) -> Result<(), AuthFault>
    ensures { Answers result (check_signature computed.now sent.now) }
{
    if sent.signature.as_slice() == computed {
        Ok(())
    } else {
        Err(AuthFault::Differs)
    }
}
