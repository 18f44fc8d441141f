//! The commands by their words.

ghost use Rattle.std.specs.Prelude.{◌≤◌, map};
ghost use Rattle.std.specs.String.{string_bytes};
ghost use Rattle.sx_tool.specs.Tools.{RunsTool, Signs, Checks};

use crate::found::{Found, find_head};
use crate::output::{NO_MEMORY, write_signed, write_verdict};
use crate::words::{Tool, tool_of};
use std::alloc::Global;
use sx_base::{Sink, Source};
use sx_key::Account;

/// The words are no command.
const WORDS_REFUSED: u8 = 1;

/// The input isn't one head.
const INPUT_REFUSED: u8 = 2;

/// A read failed.
const READ_FAULT: u8 = 3;

/// Does what the words say over the one head of a request that the input is, and gives the status.
///
/// `sign ACCOUNT KEY` writes the text that the head signs, a line feed, `Authorization: ` and the header's value: 0.
/// `check ACCOUNT KEY TICKS` writes `ok`: 0, or `auth` and the first fault at that moment: 8. KEY is in strict
/// base64. All other words are refused with 1; 2 where the input isn't one head, 3 and 4 where a read or put failed,
/// 5 where memory runs out. Of an input no more is taken than the bytes of a head and one piece, `PIECE_LIMIT`.
pub fn run_tool<S: Source, K: Sink>(
    alloc: Global,
    words: &[String],
    input: &mut S,
    out: &mut K,
) -> u8
    ensures runs { RunsTool K.wrote (map string_bytes words.now)
        (record {
          sides = record { left = S.left input.old; reads = S.read_count input.old; writes = K.write_count out.old };
          out = out.old;
        })
        (record {
          sides = record { left = S.left input.new; reads = S.read_count input.new; writes = K.write_count out.new };
          out = out.new;
        }) result }
    ensures read_later { S.read_count input.old ≤ S.read_count input.new }
    ensures write_later { K.write_count out.old ≤ K.write_count out.new }
    ensures reads { S.reads input.old input.new }
    ensures puts { K.puts out.old out.new }
{
    match tool_of(alloc, words) {
        Tool::Sign(account) => sign_input(alloc, &account, input, out),
        Tool::Check(account, now) => check_input(alloc, &account, now, input, out),
        Tool::NoMemory => NO_MEMORY,
        Tool::Unknown => {
            // The words are refused where this can't be written, too.
            let _written = out.put(b"words refused\n");
            WORDS_REFUSED
        }
    }
}

/// Writes the text that the one head of the input signs, and the header that signs it, and gives the status.
pub fn sign_input<S: Source, K: Sink>(
    alloc: Global,
    account: &Account,
    input: &mut S,
    out: &mut K,
) -> u8
    ensures signs { Signs K.wrote account.now
        (record {
          sides = record { left = S.left input.old; reads = S.read_count input.old; writes = K.write_count out.old };
          out = out.old;
        })
        (record {
          sides = record { left = S.left input.new; reads = S.read_count input.new; writes = K.write_count out.new };
          out = out.new;
        }) result }
    ensures read_later { S.read_count input.old ≤ S.read_count input.new }
    ensures write_later { K.write_count out.old ≤ K.write_count out.new }
    ensures reads { S.reads input.old input.new }
    ensures puts { K.puts out.old out.new }
{
    match find_head(alloc, input) {
        Found::Head(head) => write_signed(alloc, out, account, &head),
        Found::NoHead => INPUT_REFUSED,
        Found::ReadFault => READ_FAULT,
        Found::NoMemory => NO_MEMORY,
    }
}

/// Writes the verdict on the one head of the input at a moment, and gives the status.
pub fn check_input<S: Source, K: Sink>(
    alloc: Global,
    account: &Account,
    now: u64,
    input: &mut S,
    out: &mut K,
) -> u8
    ensures checks { Checks K.wrote account.now now
        (record {
          sides = record { left = S.left input.old; reads = S.read_count input.old; writes = K.write_count out.old };
          out = out.old;
        })
        (record {
          sides = record { left = S.left input.new; reads = S.read_count input.new; writes = K.write_count out.new };
          out = out.new;
        }) result }
    ensures read_later { S.read_count input.old ≤ S.read_count input.new }
    ensures write_later { K.write_count out.old ≤ K.write_count out.new }
    ensures reads { S.reads input.old input.new }
    ensures puts { K.puts out.old out.new }
{
    match find_head(alloc, input) {
        Found::Head(head) => write_verdict(alloc, out, account, now, &head),
        Found::NoHead => INPUT_REFUSED,
        Found::ReadFault => READ_FAULT,
        Found::NoMemory => NO_MEMORY,
    }
}
