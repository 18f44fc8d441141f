//! Bytes that were read and aren't used yet.
ghost use Rattle.std.specs.Prelude.{◌≡◌, ◌<◌, ◌≤◌, ◌+◌, ◌-◌, [], length, take, drop, OnOk, OnErr, IfOk};
ghost use Rattle.std.specs.Io.{ReadsAtMost};
ghost use Rattle.std.specs.Io.KnownBytes.{ReadConsumes};
ghost use Rattle.sx_base.specs.Causes.{HasCause};
ghost use Rattle.sx_base.specs.Buffer.{Refills};

use crate::fault::Failed;
use crate::items::Items;
use crate::source::Source;
use std::alloc::Global;
use std::marker::Model;
use sx_memory::NoMemory;

/// The least room that is taken, in bytes.
const LEAST_ROOM: usize = 16_384;

/// How one read behind the bytes of a buffer went.
#[derive(Clone, Copy, Debug, PartialEq, Eq)]
pub enum Refill {
    /// At least one byte came.
    More,
    /// The source has ended.
    End,
    /// The read failed.
    ReadFault,
    /// Out of memory. The source was not read.
    NoMemory,
}

/// Bytes that were read and aren't used yet. They are taken off the front, and read to the end.
///
/// They stand between two places of a vector, which is filled with zeros where it grows, and at no read. They are
/// moved to its front only where it is full and at most half of it is held, and it grows to the double else. So each
/// byte costs its share, however many come at a time.
#[derive(Drop)]
pub struct Buffer {
    bytes: Vec<u8>,
    start: usize,
    end: usize,
}

impl Model for Buffer {
    ghost use Rattle.std.specs.Prelude.{◌≤◌, ℕ, List, drop, take, length};

    ghost Value = { List ℕ };

    ghost view = { λ b. drop b.start (take b.end b.bytes.items) };

    ghost invariant = { λ b. (b.start ≤ b.end) × (b.end ≤ length b.bytes.items) };
}

impl Buffer {
    /// A buffer that holds no byte. It takes no memory.
    pub fn new(alloc: Global) -> Buffer
        ensures { result ≡ [] }
    {
        Buffer {
            bytes: Vec::new(alloc),
            start: 0,
            end: 0,
        }
    }

    /// A buffer that holds these bytes, with room for so many: until it is full, no read takes memory.
    pub fn with_room(alloc: Global, held: &[u8], room: usize) -> Result<Buffer, NoMemory>
        requires { length held.now ≤ room }
        ensures { IfOk result (λ buffer. buffer ≡ held.now) }
    {
        let mut bytes = Vec::from_slice(alloc, held)?;
        bytes.resize(room, 0)?;
        Ok(Buffer {
            bytes,
            start: 0,
            end: held.len(),
        })
    }

    /// The bytes that are held.
    pub fn held(&self) -> &[u8]
        ensures { result.now ≡ self.now }
    {
        &self.bytes[self.start..self.end]
    }

    /// The allocator that the buffer was made with.
    pub fn allocator(&self) -> Global {
        *self.bytes.allocator()
    }

    /// The bytes that are held, in the memory of the buffer.
    pub fn into_items(self) -> Items<u8>
        ensures { result ≡ self }
    {
        let Buffer {
            mut bytes,
            start,
            end,
        } = self;
        move_to_front(&mut bytes, start, end);
        bytes.truncate(end - start);
        Items::of(bytes)
    }

    /// Takes so many bytes off the front of those held.
    pub fn take(&mut self, count: usize)
        requires { count ≤ length self.old }
        ensures { self.new ≡ drop count self.old }
    {
        self.start += count;
    }

    /// Reads once behind the bytes that are held, at most `most` bytes.
    pub fn refill<S: Source>(&mut self, source: &mut S, most: usize) -> Refill
        requires { 0 < most }
        ensures refilled { Refills S.left S.read_count result most self.old self.new source.old source.new }
        ensures later { S.read_count source.old ≤ S.read_count source.new }
        ensures step { S.reads source.old source.new }
    {
        let Ok((start, end)) = make_room(&mut self.bytes, self.start, self.end) else {
            return Refill::NoMemory;
        };
        self.start = start;
        self.end = end;
        let past = end + most.min(self.bytes.len() - end);
        match read_between(&mut self.bytes, end, past, source) {
            Err(_) => Refill::ReadFault,
            Ok(0) => Refill::End,
            Ok(count) => {
                self.end = end + count;
                Refill::More
            }
        }
    }
}

/// Makes room behind the bytes between two places for at least one more, and gives the places where they stand then.
fn make_room(bytes: &mut Vec<u8>, start: usize, end: usize) -> Result<(usize, usize), NoMemory>
    requires order { start ≤ end }
    requires within { end ≤ length bytes.old.items }
    ensures room { IfOk result (λ places. (places.0 ≤ places.1) × (places.1 < length bytes.new.items)) }
    ensures ok { IfOk result
        (λ places. drop places.0 (take places.1 bytes.new.items) ≡ drop start (take end bytes.old.items)) }
    ensures err { OnErr result (bytes.new.items ≡ bytes.old.items) }
{
    if end < bytes.len() {
        return Ok((start, end));
    }
    if start > 0 && bytes.len() / 2 <= start {
        move_to_front(bytes, start, end);
        return Ok((0, end - start));
    }
    grow(bytes)?;
    Ok((start, end))
}

/// Moves the bytes between two places to the front.
fn move_to_front(bytes: &mut Vec<u8>, start: usize, end: usize)
    requires order { start ≤ end }
    requires within { end ≤ length bytes.old.items }
    ensures moved { take (end - start) bytes.new.items ≡ drop start (take end bytes.old.items) }
    ensures length { length bytes.new.items ≡ length bytes.old.items }
{
    bytes.copy_within(start..end, 0);
}

/// Doubles the length of a vector.
fn grow(bytes: &mut Vec<u8>) -> Result<(), NoMemory>
    ensures longer { OnOk result (length bytes.old.items < length bytes.new.items) }
    ensures front { OnOk result (take (length bytes.old.items) bytes.new.items ≡ bytes.old.items) }
    ensures err { OnErr result (bytes.new.items ≡ bytes.old.items) }
{
    let length = (bytes.len() * 2).max(LEAST_ROOM);
    bytes.resize(length, 0)?;
    Ok(())
}

/// Reads over the bytes between two places.
fn read_between<S: Source>(
    bytes: &mut Vec<u8>,
    at: usize,
    past: usize,
    source: &mut S,
) -> Result<usize, Failed>
    requires order { at < past }
    requires within { past ≤ length bytes.old.items }
    ensures front { take at bytes.new.items ≡ take at bytes.old.items }
    ensures length { length bytes.new.items ≡ length bytes.old.items }
    ensures bound { ReadsAtMost result (take (past - at) (drop at bytes.new.items)) }
    ensures bytes { ReadConsumes (S.left source.old) (S.left source.new) result
        (take (past - at) (drop at bytes.new.items)) }
    ensures cause { HasCause (S.read_count source.old) (S.read_count source.new) result }
    ensures step { S.reads source.old source.new }
{
    source.read(&mut bytes[at..past])
}
