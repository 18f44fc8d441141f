//! What the commands write.

ghost use Rattle.std.specs.Prelude.{◌≢◌, ◌≤◌, ◌++◌, codes, decimal, Err};
ghost use Rattle.std.specs.List.{flat_map};
ghost use Rattle.sx_base.specs.Printer.{text_of};
ghost use Rattle.sx_key.specs.Checking.{auth};
ghost use Rattle.sx_key.specs.declared.fault.AuthFault.TheVariants.{NoMemory};
ghost use Rattle.sx_tool.specs.Tools.{Reports, signed_lines, verdict_line, verdict_status};

use std::alloc::Global;
use sx_base::{Fragment, Sink, print};
use sx_http::Head;
use sx_key::{Account, AuthFault, check, sign, string_to_sign};

/// The command was done.
pub(crate) const DONE: u8 = 0;

/// A put failed.
pub(crate) const WRITE_FAULT: u8 = 4;

/// Out of memory.
pub(crate) const NO_MEMORY: u8 = 5;

/// The head has a fault.
pub(crate) const UNSIGNED: u8 = 8;

/// Writes fragments, and gives the status, or that of a failed write.
fn print_all<K: Sink>(out: &mut K, fragments: &[Fragment], status: u8) -> u8
    ensures reports { Reports K.wrote (flat_map text_of fragments.now) status out.old out.new (K.write_count out.old)
        (K.write_count out.new) result }
    ensures later { K.write_count out.old ≤ K.write_count out.new }
    ensures step { K.puts out.old out.new }
{
    match print(out, fragments) {
        Ok(()) => status,
        Err(_) => WRITE_FAULT,
    }
}

/// Writes the signed text of a head, and the header that signs it.
pub(crate) fn write_signed<K: Sink>(
    alloc: Global,
    out: &mut K,
    account: &Account,
    head: &Head,
) -> u8
    ensures reports { Reports K.wrote (signed_lines account.now head.now) 0 out.old out.new (K.write_count out.old)
        (K.write_count out.new) result }
    ensures later { K.write_count out.old ≤ K.write_count out.new }
    ensures step { K.puts out.old out.new }
{
    let Ok(text) = string_to_sign(alloc, head, &account.name) else {
        return NO_MEMORY;
    };
    let Ok(value) = sign(alloc, head, account) else {
        return NO_MEMORY;
    };
    print_signed(out, text.bytes(), value.bytes())
}

fn print_signed<'a, K: Sink>(out: &mut K, text: &'a [u8], value: &'a [u8]) -> u8
    ensures reports { Reports K.wrote (text.now ++ codes "\nAuthorization: " ++ value.now
        ++ codes "\n") 0 out.old out.new (K.write_count out.old) (K.write_count out.new) result }
    ensures later { K.write_count out.old ≤ K.write_count out.new }
    ensures step { K.puts out.old out.new }
{
    let fragments = [
        Fragment::Text(text),
        Fragment::Text(b"\nAuthorization: "),
        Fragment::Text(value),
        Fragment::Text(b"\n"),
    ];
    print_all(out, &fragments, DONE)
}

/// Checks a signed head, and writes the verdict.
pub(crate) fn write_verdict<K: Sink>(
    alloc: Global,
    out: &mut K,
    account: &Account,
    now: u64,
    head: &Head,
) -> u8
    ensures reports { Reports K.wrote (verdict_line (auth head.now account.now now))
        (verdict_status (auth head.now account.now now)) out.old out.new (K.write_count out.old)
        (K.write_count out.new) result }
    ensures later { K.write_count out.old ≤ K.write_count out.new }
    ensures step { K.puts out.old out.new }
{
    match check(alloc, head, account, now) {
        Ok(()) => print_all(out, &[Fragment::Text(b"ok\n")], DONE),
        Err(AuthFault::NoMemory) => NO_MEMORY,
        Err(fault) => print_fault(out, fault),
    }
}

fn print_fault<K: Sink>(out: &mut K, fault: AuthFault) -> u8
    requires { fault ≢ NoMemory }
    ensures reports { Reports K.wrote (verdict_line (Err fault)) 8 out.old out.new (K.write_count out.old)
        (K.write_count out.new) result }
    ensures later { K.write_count out.old ≤ K.write_count out.new }
    ensures step { K.puts out.old out.new }
{
    match fault {
        AuthFault::NoHeader => print_all(out, &[Fragment::Text(b"auth no-header\n")], UNSIGNED),
        AuthFault::BadHeader => print_all(out, &[Fragment::Text(b"auth bad-header\n")], UNSIGNED),
        AuthFault::OtherAccount => print_all(
            out,
            &[Fragment::Text(b"auth other-account\n")],
            UNSIGNED,
        ),
        AuthFault::NoDate => print_all(out, &[Fragment::Text(b"auth no-date\n")], UNSIGNED),
        AuthFault::BadDate => print_all(out, &[Fragment::Text(b"auth bad-date\n")], UNSIGNED),
        AuthFault::TooOld { dated, now } => print_moments(out, b"auth too-old ", dated, now),
        AuthFault::TooNew { dated, now } => print_moments(out, b"auth too-new ", dated, now),
        AuthFault::Differs => print_all(out, &[Fragment::Text(b"auth differs\n")], UNSIGNED),
        AuthFault::NoMemory => unreachable!(),
    }
}

fn print_moments<K: Sink>(out: &mut K, word: &[u8], dated: u64, now: u64) -> u8
    ensures reports { Reports K.wrote (word.now ++ decimal dated ++ codes " " ++ decimal now
        ++ codes "\n") 8 out.old out.new (K.write_count out.old) (K.write_count out.new) result }
    ensures later { K.write_count out.old ≤ K.write_count out.new }
    ensures step { K.puts out.old out.new }
{
    let fragments = [
        Fragment::Text(word),
        Fragment::Decimal(dated),
        Fragment::Text(b" "),
        Fragment::Decimal(now),
        Fragment::Text(b"\n"),
    ];
    print_all(out, &fragments, UNSIGNED)
}
