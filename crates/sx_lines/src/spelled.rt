//! A session's calls as the lines that spell them.
ghost use Rattle.std.specs.Prelude.{◌≡◌, ◌-◌, codes, true, IfOk, Ok};
ghost use Rattle.std.specs.Str.{is_utf8};
ghost use Rattle.sx_base.specs.Sink.{Prints};
ghost use Rattle.hex.specs.Hex.{IsBytes};
ghost use Rattle.sx_call.specs.CallLimits.{IsWithinLimits};
ghost use Rattle.sx_call.specs.Calls.{door_of};
ghost use Rattle.sx_call.specs.declared.calls.Call.{Call};
ghost use Rattle.sx_call.specs.declared.doors.Door.{Door};
ghost use Rattle.sx_lines.specs.Lines.{line_of};
ghost use Rattle.sx_lines.specs.declared.line.Line.{Line};
ghost use Rattle.sx_lines.specs.Spelled.{letters_text, how_word, lock_word, opened_word, mark_word, open_text};
ghost use Rattle.sx_lines.specs.Spelled.{handle_text, read_text, write_text, resize_text, lock_text, list_text};
ghost use Rattle.sx_lines.specs.Spelled.{dispose_text, call_text, HasBytes};
ghost use Rattle.sx_reply.specs.Values.{text_if};

use crate::gather::{Word, print_words};
use crate::middle::{Middle, print_parts};
use crate::smb_answer::next_word;
use std::alloc::Global;
use sx_base::{Failed, Items, MemSink, Sink};
use sx_call::{ByteRange, Call, How, SmbDispose, SmbList, SmbOpen, SmbRead, SmbResize, SmbWrite};
use sx_guard::HandleIndex;
use sx_memory::NoMemory;
use sx_names::Text;

/// The line that says a call of a session, without a line feed. Reading it gives the call.
///
/// Its hexadecimal digits are in lower case, and its names percent-encoded (RFC 3986, section 2.1) but for ASCII
/// letters, digits, `-`, `_`, `.` and `~`. The call comes in a session: its start and its end have no line here.
///
/// `NoMemory` comes where no memory is left. The line is held twice while it is made.
pub fn line_of_call(alloc: Global, call: &Call) -> Result<Text, NoMemory>
    requires { door_of call.now ≡ Door.InSession }
    ensures line { IfOk result (λ line. line ≡ call_text call.now) }
    ensures says { IfOk result (λ line. line_of line ≡ Ok (Line.Ask call.now)) }
{
    call.keeps_limits();
    has_bytes(call);
    says(call);
    let mut sink = MemSink::new(alloc, Vec::new(alloc));
    match print_call(&mut sink, call) {
        Ok(()) => text_of(alloc, sink.bytes()),
        Err(_) => Err(NoMemory),
    }
}

/// That what a write writes is bytes. It does nothing.
fn has_bytes(call: &Call)
    ensures { HasBytes call.now }
{
    match call {
        Call::SmbWrite(call) => are_bytes(call.write.piece.bytes()),
        _ => {}
    }
}

/// That these are bytes. It does nothing.
fn are_bytes(bytes: &[u8])
    ensures { IsBytes bytes.now }
{
    let _count = bytes.len();
}

/// That a call's line is a text that says it. It does nothing.
fn says(call: &Call)
    requires within { IsWithinLimits call.now }
    requires bytes { HasBytes call.now }
    requires door { door_of call.now ≡ Door.InSession }
    ensures says { line_of (call_text call.now) ≡ Ok (Line.Ask call.now) }
    ensures text { is_utf8 (call_text call.now) ≡ true }
{
    let _call = call;
}

/// The text of these bytes.
fn text_of(alloc: Global, bytes: &[u8]) -> Result<Text, NoMemory>
    requires { is_utf8 bytes.now ≡ true }
    ensures { IfOk result (λ text. text ≡ bytes.now) }
{
    let bytes = Items::copy_of(alloc, bytes)?;
    match Text::of(bytes) {
        Some(text) => Ok(text),
        None => unreachable!(),
    }
}

/// Writes a call's line.
#[tactic(auto, unfolding(crate::specs::Spelled::call_text))]
fn print_call<K: Sink>(sink: &mut K, call: &Call) -> Result<(), Failed>
    requires { door_of call.now ≡ Door.InSession }
    ensures { Prints K.wrote K.write_count K.puts sink.old sink.new (call_text call.now) result }
{
    match call {
        Call::SmbOpen(call) => print_open(sink, call),
        Call::SmbClose(call) => print_handle(sink, b"close ", call.index),
        Call::SmbRead(call) => print_read(sink, call),
        Call::SmbWrite(call) => print_write(sink, call),
        Call::SmbResize(call) => print_resize(sink, call),
        Call::SmbLock(call) => {
            print_lock(sink, b"lock ", call.index, &call.range, call.exclusive)
        }
        Call::SmbUnlock(call) => {
            print_lock(sink, b"unlock ", call.index, &call.range, call.exclusive)
        }
        Call::SmbStat(call) => print_handle(sink, b"stat ", call.index),
        Call::SmbList(call) => print_list(sink, call),
        Call::SmbDispose(call) => print_dispose(sink, call),
        _ => unreachable!(),
    }
}

fn print_handle<K: Sink>(sink: &mut K, verb: &[u8], index: HandleIndex) -> Result<(), Failed>
    ensures { Prints K.wrote K.write_count K.puts sink.old sink.new (handle_text verb.now index) result }
{
    print_words(
        sink,
        &[Word::Text(verb), Word::Number(index.number() as u64)],
    )
}

fn print_read<K: Sink>(sink: &mut K, call: &SmbRead) -> Result<(), Failed>
    ensures { Prints K.wrote K.write_count K.puts sink.old sink.new
        (read_text call.now.index call.now.range.at call.now.range.count) result }
{
    print_words(
        sink,
        &[
            Word::Text(b"read "),
            Word::Number(call.index.number() as u64),
            Word::Text(b" "),
            Word::Number(call.range.at),
            Word::Text(b" "),
            Word::Number(call.range.count as u64),
        ],
    )
}

fn print_write<K: Sink>(sink: &mut K, call: &SmbWrite) -> Result<(), Failed>
    ensures { Prints K.wrote K.write_count K.puts sink.old sink.new
        (write_text call.now.index call.now.write.at call.now.write.piece) result }
{
    print_words(
        sink,
        &[
            Word::Text(b"write "),
            Word::Number(call.index.number() as u64),
            Word::Text(b" "),
            Word::Number(call.write.at),
            Word::Text(b" "),
            Word::Hex(call.write.piece.bytes()),
        ],
    )
}

fn print_resize<K: Sink>(sink: &mut K, call: &SmbResize) -> Result<(), Failed>
    ensures { Prints K.wrote K.write_count K.puts sink.old sink.new
        (resize_text call.now.index call.now.length) result }
{
    print_words(
        sink,
        &[
            Word::Text(b"resize "),
            Word::Number(call.index.number() as u64),
            Word::Text(b" "),
            Word::Number(call.length.bytes()),
        ],
    )
}

fn lock_word(exclusive: bool) -> &'static [u8]
    ensures { result.now ≡ lock_word exclusive }
{
    if exclusive { b"exclusive" } else { b"shared" }
}

fn print_lock<K: Sink>(
    sink: &mut K,
    verb: &[u8],
    index: HandleIndex,
    range: &ByteRange,
    exclusive: bool,
) -> Result<(), Failed>
    ensures { Prints K.wrote K.write_count K.puts sink.old sink.new
        (lock_text verb.now index range.now.from range.now.end exclusive) result }
{
    let from = range.from;
    let count = range.end - from;
    let kind = lock_word(exclusive);
    print_words(
        sink,
        &[
            Word::Text(verb),
            Word::Number(index.number() as u64),
            Word::Text(b" "),
            Word::Number(from),
            Word::Text(b" "),
            Word::Number(count),
            Word::Text(b" "),
            Word::Text(kind),
        ],
    )
}

fn print_list<K: Sink>(sink: &mut K, call: &SmbList) -> Result<(), Failed>
    ensures { Prints K.wrote K.write_count K.puts sink.old sink.new
        (list_text call.now.index call.now.marker call.now.max) result }
{
    let marker = next_word(&call.marker);
    print_words(
        sink,
        &[
            Word::Text(b"list "),
            Word::Number(call.index.number() as u64),
            Word::Text(b" "),
            marker,
            Word::Text(b" "),
            Word::Number(call.max.results() as u64),
        ],
    )
}

fn mark_word(on: bool) -> &'static [u8]
    ensures { result.now ≡ mark_word on }
{
    if on { b"on" } else { b"off" }
}

fn print_dispose<K: Sink>(sink: &mut K, call: &SmbDispose) -> Result<(), Failed>
    ensures { Prints K.wrote K.write_count K.puts sink.old sink.new (dispose_text call.now.index call.now.on) result }
{
    let mark = mark_word(call.on);
    print_words(
        sink,
        &[
            Word::Text(b"dispose "),
            Word::Number(call.index.number() as u64),
            Word::Text(b" "),
            Word::Text(mark),
        ],
    )
}

/// The letters of the rights that are set.
fn letters(read: bool, write: bool, delete: bool) -> &'static [u8]
    ensures { result.now ≡ letters_text read write delete }
{
    match (read, write, delete) {
        (false, false, false) => b"-",
        (true, false, false) => b"r",
        (false, true, false) => b"w",
        (false, false, true) => b"d",
        (true, true, false) => b"rw",
        (true, false, true) => b"rd",
        (false, true, true) => b"wd",
        (true, true, true) => b"rwd",
    }
}

fn how_word(how: How) -> &'static [u8]
    ensures { result.now ≡ how_word how }
{
    match how {
        How::Existing => b"existing",
        How::Create => b"create",
        How::Either => b"either",
    }
}

fn opened_word(dir: bool) -> &'static [u8]
    ensures { result.now ≡ opened_word dir }
{
    if dir { b"dir" } else { b"file" }
}

fn doc_word(on_close: bool) -> &'static [u8]
    ensures { result.now ≡ text_if on_close (codes " doc") }
{
    if on_close { b" doc" } else { b"" }
}

#[tactic(auto, unfolding(crate::specs::Spelled::open_text))]
fn print_open<K: Sink>(sink: &mut K, call: &SmbOpen) -> Result<(), Failed>
    ensures { Prints K.wrote K.write_count K.puts sink.old sink.new (open_text call.now) result }
{
    let access = call.access.access;
    let access = letters(access.read, access.write, access.delete);
    let mode = letters(call.mode.read, call.mode.write, call.mode.delete);
    let how = how_word(call.how);
    let kind = opened_word(call.dir);
    let doc = doc_word(call.access.on_close);
    print_parts(
        sink,
        &[
            Word::Text(b"open "),
            Word::Text(call.share.bytes()),
            Word::Text(b" "),
        ],
        &Middle::Path(call.path.path().parts()),
        &[
            Word::Text(b" "),
            Word::Text(access),
            Word::Text(b" "),
            Word::Text(mode),
            Word::Text(b" "),
            Word::Text(how),
            Word::Text(b" "),
            Word::Text(kind),
            Word::Text(doc),
        ],
    )
}
