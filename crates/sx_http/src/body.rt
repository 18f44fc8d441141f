//! The bytes of a body, read into their own place.

ghost use Rattle.std.specs.Prelude.{◌≤◌, ◌<◌, ◌≡◌, take, drop, length};
ghost use Rattle.std.specs.Io.{ReadsAtMost};
ghost use Rattle.std.specs.Io.KnownBytes.{ReadConsumes};
ghost use Rattle.sx_base.specs.Causes.{HasCause};
ghost use Rattle.sx_http.specs.Filling.{FillsBehind, body_stop};

use crate::next::Next;
use sx_base::{Failed, Source};

/// Why no further byte of a body was read.
#[derive(Clone, Copy)]
pub(crate) enum Stop {
    /// There is no room for one.
    Full,
    /// The source has ended.
    End,
    /// A read failed.
    ReadFault,
}

/// How many bytes of a place are filled, and why no more.
#[derive(Clone, Copy)]
pub(crate) struct Taken {
    /// The bytes that are filled, at most those that there is room for.
    pub count: usize,
    /// Why no more.
    pub stop: Stop,
}

/// Fills a slice, whose first `from` bytes are there, until it is full, the source ends or a read fails.
fn fill_behind<S: Source>(into: &mut [u8], from: usize, source: &mut S) -> Taken
    requires { from ≤ length into.old }
    ensures filled { FillsBehind result from into.old into.new (S.left source.old) (S.left source.new)
        (S.read_count source.old) (S.read_count source.new) }
    ensures later { S.read_count source.old ≤ S.read_count source.new }
    ensures step { S.reads source.old source.new }
{
    let mut count = from;
    while count < into.len() {
        match read_behind(into, count, source) {
            Err(_) => {
                return Taken {
                    count,
                    stop: Stop::ReadFault,
                };
            }
            Ok(0) => {
                return Taken {
                    count,
                    stop: Stop::End,
                };
            }
            Ok(more) => count += more,
        }
    }
    Taken {
        count,
        stop: Stop::Full,
    }
}

/// The same over a vector, whose length stays.
pub(crate) fn fill_body<S: Source>(body: &mut Vec<u8>, from: usize, source: &mut S) -> Taken
    requires { from ≤ length body.old.items }
    ensures filled { FillsBehind result from body.old.items body.new.items (S.left source.old) (S.left source.new)
        (S.read_count source.old) (S.read_count source.new) }
    ensures later { S.read_count source.old ≤ S.read_count source.new }
    ensures step { S.reads source.old source.new }
{
    fill_behind(body, from, source)
}

/// Reads over the bytes from a place on.
fn read_behind<S: Source>(bytes: &mut [u8], at: usize, source: &mut S) -> Result<usize, Failed>
    requires { at < length bytes.old }
    ensures front { take at bytes.new ≡ take at bytes.old }
    ensures bound { ReadsAtMost result (drop at bytes.new) }
    ensures bytes { ReadConsumes (S.left source.old) (S.left source.new) result (drop at bytes.new) }
    ensures cause { HasCause (S.read_count source.old) (S.read_count source.new) result }
    ensures step { S.reads source.old source.new }
{
    source.read(&mut bytes[at..])
}

/// Takes the first bytes off a vector.
pub(crate) fn drop_front(bytes: &mut Vec<u8>, count: usize)
    requires { count ≤ length bytes.old.items }
    ensures { bytes.new.items ≡ drop count bytes.old.items }
{
    let left = bytes.len() - count;
    bytes.copy_within(count.., 0);
    bytes.truncate(left);
}

/// The answer where a body isn't whole, by why no more of it was read, and how many bytes of the request are held.
pub(crate) fn body_stop(stop: Stop, left: u64) -> Next
    ensures { result ≡ body_stop stop left }
{
    match stop {
        Stop::Full => Next::Spent,
        Stop::End => Next::Cut { left },
        Stop::ReadFault => Next::ReadFault,
    }
}
