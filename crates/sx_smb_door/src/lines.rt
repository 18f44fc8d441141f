//! Reading lines off a source.
ghost use Rattle.std.specs.Prelude.{◌≡◌, ◌≤◌, ◌<◌, ◌+◌, ◌⊎◌, ℕ, List, Some, IfOk, OnErr, MatchOption, length};
ghost use Rattle.std.specs.Prelude.{position, take, drop, []};
ghost use Rattle.std.specs.declared.option.Option.{Option};
ghost use Rattle.sx_smb_door.specs.Lines.{is_line_end, IsOneLine, BeginsUnended, WantsMore, IsNextLine};
ghost use Rattle.sx_smb_door.specs.Lines.{IsReasonAtEnd, HasReadCause, FillsLine};

use std::alloc::Global;
use std::marker::Model;
use sx_base::{Buffer, Items, Refill, Source};
use sx_lines::LINE_LIMIT;
use sx_memory::NoMemory;

/// The most bytes that one read asks for.
const PIECE: u64 = 16_384;

/// What a reader of lines found next.
#[derive(Debug, Drop)]
pub enum NextLine {
    /// A line without its line feed. A carriage return at its end stays.
    Line(Items<u8>),
    /// The source ended behind a line.
    End,
    /// The source ended inside a line.
    Cut {
        /// How many bytes of the line were left, 1 or more.
        left: u64,
    },
    /// A line is over its limit.
    Long {
        /// How many bytes stand before the line.
        at: u64,
    },
    /// The budget is reached, and a further byte is wanted.
    Spent,
    /// A read failed.
    ReadFault,
    /// Out of memory: there is none to keep more, or to give the line.
    NoMemory,
}

/// Reads lines that end in a line feed, and takes at most `budget` bytes off its source in all.
///
/// Contracts see the bytes that it holds, which it took off the source and hasn't given, the number of bytes of the
/// lines that it gave, their line feeds counted, and the budget.
#[derive(Drop)]
pub struct LineReader {
    buffer: Buffer,
    taken: u64,
    budget: u64,
}

impl Model for LineReader {
    ghost use Rattle.std.specs.Prelude.{◌+◌, ◌≤◌, length};
    ghost use Rattle.sx_smb_door.specs.LineReaderView.{LineReaderView};

    ghost Value = { LineReaderView };

    ghost view = { λ r. record { held = r.buffer; taken = r.taken; budget = r.budget } };

    ghost invariant = { λ r. r.taken + length r.buffer ≤ r.budget };
}

impl LineReader {
    /// A reader that has taken nothing. It takes no memory.
    pub fn new(alloc: Global, budget: u64) -> LineReader
        ensures { result ≡ record { held = []; taken = 0; budget = budget } }
    {
        LineReader {
            buffer: Buffer::new(alloc),
            taken: 0,
            budget,
        }
    }

    /// The number of bytes of the lines that were given, their line feeds counted.
    pub fn taken(&self) -> u64
        ensures value { result ≡ self.now.taken }
        ensures within { self.now.taken + length self.now.held ≤ self.now.budget }
    {
        self.taken
    }

    /// The next line.
    ///
    /// A whole line is given first; then it is told that the line is over its limit, then that the budget is reached,
    /// and only else the source is read. Where no line is given, what the reader has yet to give is as before. After
    /// each answer it may be asked again.
    pub fn next<S: Source>(&mut self, source: &mut S) -> NextLine
        ensures answered { IsNextLine result self.old self.new (S.left source.old) (S.left source.new)
            (S.read_count source.old) (S.read_count source.new) }
        ensures cause { HasReadCause result (S.read_count source.old) (S.read_count source.new) }
        ensures within { self.new.taken + length self.new.held ≤ self.new.budget }
        ensures later { S.read_count source.old ≤ S.read_count source.new }
        ensures step { S.reads source.old source.new }

        // Where what is held has an answer, the source is not read.
        ensures unread { (source.new ≡ source.old) ⊎ WantsMore self.old }
    {
        let mut searched = 0;
        loop {
            if let Some(next) = self.ready(searched) {
                return next;
            }
            searched = self.held().len();
            match self.fill(source) {
                Refill::More => {}
                Refill::End => return self.at_end(),
                Refill::ReadFault => return NextLine::ReadFault,
                Refill::NoMemory => return NextLine::NoMemory,
            }
        }
    }

    /// The bytes that are held.
    fn held(&self) -> &[u8]
        ensures value { result.now ≡ self.now.held }
        ensures within { self.now.taken + length self.now.held ≤ self.now.budget }
    {
        self.buffer.held()
    }

    /// The answer that needs no read, if there is one. The first `searched` bytes are known to hold no line feed.
    fn ready(&mut self, searched: usize) -> Option<NextLine>
        requires { BeginsUnended searched self.old.held }
        ensures within { self.new.taken + length self.new.held ≤ self.new.budget }
        ensures answered { MatchOption result ((self.new ≡ self.old) × WantsMore self.new) (λ next.
            (left : Option (List ℕ)) → (count : ℕ) → IsNextLine next self.old self.new left left count count
            × HasReadCause next count count) }
    {
        match line_end(self.held(), searched) {
            Some(place) => Some(self.give(place)),
            None => self.refused(),
        }
    }

    /// Gives the line before the first line feed, which stands at a place.
    fn give(&mut self, place: usize) -> NextLine
        requires { position is_line_end self.old.held ≡ Some place }
        ensures within { self.new.taken + length self.new.held ≤ self.new.budget }
        ensures answered { (left : Option (List ℕ)) → (count : ℕ) →
            IsNextLine result self.old self.new left left count count }
        ensures cause { (count : ℕ) → HasReadCause result count count }
    {
        if LINE_LIMIT < place as u64 {
            return NextLine::Long { at: self.taken() };
        }
        match self.cut_off(place) {
            Ok(line) => NextLine::Line(line),
            Err(_) => NextLine::NoMemory,
        }
    }

    /// Takes a line of this length, and the byte behind it, off what is held.
    fn cut_off(&mut self, count: usize) -> Result<Items<u8>, NoMemory>
        requires { count < length self.old.held }
        ensures within { self.new.taken + length self.new.held ≤ self.new.budget }
        ensures ok { IfOk result (λ line. (line ≡ take count self.old.held) × (self.new ≡ record {
          held = drop (count + 1) self.old.held;
          taken = self.old.taken + count + 1;
          budget = self.old.budget;
        })) }
        ensures err { OnErr result (self.new ≡ self.old) }
    {
        let line = Items::copy_of(self.buffer.allocator(), &self.buffer.held()[..count])?;
        self.buffer.take(count + 1);
        self.taken += count as u64 + 1;
        Ok(line)
    }

    /// Of what holds no line feed: that it is over the limit of a line, or that it reaches the budget.
    fn refused(&self) -> Option<NextLine>
        requires { IsOneLine self.now.held }
        ensures { MatchOption result (WantsMore self.now) (λ next.
            (left : Option (List ℕ)) → (count : ℕ) → IsNextLine next self.now self.now left left count count
            × HasReadCause next count count) }
    {
        let length = self.held().len() as u64;
        if LINE_LIMIT < length {
            return Some(NextLine::Long { at: self.taken() });
        }
        if self.budget - self.taken <= length {
            return Some(NextLine::Spent);
        }
        None
    }

    /// Reads once, at most what the budget leaves.
    fn fill<S: Source>(&mut self, source: &mut S) -> Refill
        requires { self.old.taken + length self.old.held < self.old.budget }
        ensures within { self.new.taken + length self.new.held ≤ self.new.budget }
        ensures filled { FillsLine result self.old self.new (S.left source.old) (S.left source.new)
            (S.read_count source.old) (S.read_count source.new) }
        ensures later { S.read_count source.old ≤ S.read_count source.new }
        ensures step { S.reads source.old source.new }
    {
        let room = self.budget - self.taken - self.buffer.held().len() as u64;
        self.buffer.refill(source, room.min(PIECE) as usize)
    }

    /// The answer where the source has ended, and no line feed is held.
    fn at_end(&self) -> NextLine
        requires { WantsMore self.now }
        ensures answered { IsReasonAtEnd result self.now }
        ensures cause { (count : ℕ) → HasReadCause result count count }
    {
        match self.held().len() {
            0 => NextLine::End,
            left => NextLine::Cut { left: left as u64 },
        }
    }
}

/// The place of the first line feed. The first `searched` bytes are known to hold none.
fn line_end(bytes: &[u8], searched: usize) -> Option<usize>
    requires { BeginsUnended searched bytes.now }
    ensures { result ≡ position is_line_end bytes.now }
{
    match first_line_end(&bytes[searched..]) {
        Some(place) => Some(searched + place),
        None => None,
    }
}

fn first_line_end(bytes: &[u8]) -> Option<usize>
    ensures { result ≡ position is_line_end bytes.now }
{
    bytes.iter().position(|b| *b == b'\n')
}
