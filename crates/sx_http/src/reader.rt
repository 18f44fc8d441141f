//! A reader of the requests of a connection.

ghost use Rattle.std.specs.Prelude.{◌≡◌, ◌≤◌, ◌<◌, ◌+◌, ◌-◌, ◌++◌, [], ℕ, List, true, false, IfOk, OnErr};
ghost use Rattle.std.specs.Prelude.{MatchOption, MatchResult, length, take, drop};
ghost use Rattle.std.specs.List.{list_any};
ghost use Rattle.std.specs.declared.option.Option.{Option};
ghost use Rattle.sx_http.specs.Heads.{head_window, IsParsed, MayHaveHead};
ghost use Rattle.sx_http.specs.RequestStream.{IsAnswer, Counts, NeedsMore};
ghost use Rattle.sx_http.specs.Filling.{Fills, Awaits, HoldsHead, Settles, Stays, Stops, is_line_feed, finished_reader};
ghost use Rattle.sx_http.specs.Judging.{long_head, ended_with};
ghost use Rattle.sx_http.specs.declared.next.Next.TheVariants.{End, Whole};

use crate::body::{body_stop, drop_front, fill_body};
use crate::facts::no_facts;
use crate::heads::Request;
use crate::judging::{WholeHead, judge};
use crate::limits::{HEAD_LIMIT, READ_LIMIT};
use crate::next::{Long, Next};
use crate::parse::{Parsed, parse_front};
use httparse::spans::HeaderSpan;
use std::alloc::Global;
use std::marker::Model;
use sx_base::{Buffer, Items, NoMemory, Refill, Source};

/// Reads the requests of a connection one after another, and takes at most `budget` bytes off its source in all.
///
/// Contracts see the bytes that it holds, which it took off the source and hasn't given; how many bytes it gave; how
/// many it tells to have taken; the budget; and whether it has ended, as it has after each answer but `Whole`.
#[derive(Drop)]
pub struct Reader {
    buffer: Buffer,
    broken: Vec<u8>,
    slots: Vec<HeaderSpan>,
    given: u64,
    taken: u64,
    budget: u64,
    ended: bool,
}

impl Model for Reader {
    ghost use Rattle.std.specs.Prelude.{◌≡◌, ◌+◌, ◌≤◌, ◌++◌, [], false, length};
    ghost use Rattle.sx_http.specs.Readers.{Requests};

    ghost Value = { Requests };

    ghost view = { λ r. record {
      held = r.buffer ++ r.broken.items;
      given = r.given;
      taken = r.taken;
      budget = r.budget;
      ended = r.ended;
    } };

    ghost invariant = { λ r. (r.given + length (r.buffer ++ r.broken.items) ≤ r.budget)
        × (r.ended ≡ false → r.broken.items ≡ []) };
}

impl Reader {
    /// A reader that has taken nothing. It takes no memory.
    pub fn new(alloc: Global, budget: u64) -> Reader
        ensures { result ≡ record { held = []; given = 0; taken = 0; budget = budget; ended = false } }
    {
        Reader {
            buffer: Buffer::new(alloc),
            broken: Vec::new(alloc),
            slots: Vec::new(alloc),
            given: 0,
            taken: 0,
            budget,
            ended: false,
        }
    }

    /// The place of the first byte of the first request that was not given; the bytes of a cut request are added, and
    /// it is the budget where that is spent.
    pub fn taken(&self) -> u64
        ensures { result ≡ self.now.taken }
    {
        self.taken
    }

    /// The next request, or why there is none. After each answer but `Whole` the reader has ended, and answers `End`.
    ///
    /// A request that is held whole is given and its refusals are told before the budget is looked at, and only then
    /// the source is read. What is held beyond a request's bytes is the beginning of the next one.
    pub fn next<S: Source>(&mut self, source: &mut S) -> Next
        ensures answered { self.old.ended ≡ false → IsAnswer result self.old self.new (S.left source.old)
            (S.left source.new) }
        ensures over { self.old.ended ≡ true → (result ≡ End) × (self.new ≡ self.old) × (source.new ≡ source.old) }
        ensures unread { ¬ (NeedsMore self.old) → source.new ≡ source.old }
        ensures cause { Counts result (S.read_count source.old) (S.read_count source.new) }
        ensures within { self.new.given + length self.new.held ≤ self.new.budget }
        ensures later { S.read_count source.old ≤ S.read_count source.new }
        ensures step { S.reads source.old source.new }
    {
        if self.ended {
            return Next::End;
        }
        self.advance(source)
    }

    /// The next request of a reader that hasn't ended.
    fn advance<S: Source>(&mut self, source: &mut S) -> Next
        requires { self.old.ended ≡ false }
        ensures answered { IsAnswer result self.old self.new (S.left source.old) (S.left source.new) }
        ensures unread { ¬ (NeedsMore self.old) → source.new ≡ source.old }
        ensures cause { Counts result (S.read_count source.old) (S.read_count source.new) }
        ensures within { self.new.given + length self.new.held ≤ self.new.budget }
        ensures later { S.read_count source.old ≤ S.read_count source.new }
        ensures step { S.reads source.old source.new }
    {
        match self.find_head(source) {
            Err(next) => {
                self.finish(&next);
                next
            }
            Ok(found) => self.with_body(found, source),
        }
    }

    /// Reads until a whole head is held. A head is parsed again only where a line has ended, or no further byte comes.
    fn find_head<S: Source>(&mut self, source: &mut S) -> Result<WholeHead, Next>
        requires { self.old.ended ≡ false }
        ensures found { MatchResult result
            (λ found. Stays self.old self.new (S.left source.old) (S.left source.new) × HoldsHead self.new.held found
            × (S.read_count source.new ≡ S.read_count source.old))
            (λ next. Stops next self.old self.new (S.left source.old) (S.left source.new) (S.read_count source.old)
            (S.read_count source.new)) }
        ensures unread { ¬ (NeedsMore self.old) → (source.new ≡ source.old) × (self.new ≡ self.old) }
        ensures open { self.new.ended ≡ false }
        ensures within { self.new.given + length self.new.held ≤ self.new.budget }
        ensures later { S.read_count source.old ≤ S.read_count source.new }
        ensures step { S.reads source.old source.new }
    {
        let mut ended = false;
        loop {
            match self.parse() {
                Parsed::Whole { head, size } => return judge(head, size, self.given),
                Parsed::Never => return Err(Next::BadHead { at: self.given }),
                Parsed::NoMemory => return Err(Next::NoMemory),
                Parsed::More => {}
            }
            if let Some(next) = self.settle(ended) {
                return Err(next);
            }
            match self.await_line(source) {
                Refill::More => {}
                Refill::End => ended = true,
                Refill::ReadFault => return Err(Next::ReadFault),
                Refill::NoMemory => return Err(Next::NoMemory),
            }
        }
    }

    /// The answer where no head is held and one may yet come: None where a further byte is wanted.
    fn settle(&self, ended: bool) -> Option<Next>
        requires open { self.now.ended ≡ false }
        requires head { MayHaveHead (head_window self.now.held) }
        requires within { self.now.given + length self.now.held ≤ self.now.budget }
        ensures { MatchOption result
            ((ended ≡ false) × NeedsMore self.now × (length self.now.held < HEAD_LIMIT))
            (λ next. Settles next ended self.now) }
    {
        let held = self.held().len();
        if HEAD_LIMIT <= held {
            return Some(long_head(self.given));
        }
        if self.room() <= held as u64 {
            return Some(Next::Spent);
        }
        if ended {
            return Some(at_end(held as u64));
        }
        None
    }

    /// Reads until a line feed has come, or as many bytes are held as a head or the budget may have.
    fn await_line<S: Source>(&mut self, source: &mut S) -> Refill
        requires open { self.old.ended ≡ false }
        requires room { self.old.given + length self.old.held < self.old.budget }
        ensures awaited { Awaits result self.old self.new (S.left source.old) (S.left source.new)
            (S.read_count source.old) (S.read_count source.new) }
        ensures open { self.new.ended ≡ false }
        ensures within { self.new.given + length self.new.held ≤ self.new.budget }
        ensures later { S.read_count source.old ≤ S.read_count source.new }
        ensures step { S.reads source.old source.new }
    {
        loop {
            let held = self.held().len();
            match self.fill(source) {
                Refill::More => {}
                stopped => return stopped,
            }
            if self.is_due(held) {
                return Refill::More;
            }
        }
    }

    /// Whether a line has ended behind the first `from` bytes that are held, or no further byte may be held.
    fn is_due(&self, from: usize) -> bool
        requires open { self.now.ended ≡ false }
        requires from { from ≤ length self.now.held }
        ensures { result ≡ false → (list_any is_line_feed (drop from self.now.held) ≡ false)
            × (length self.now.held < HEAD_LIMIT) × (self.now.given + length self.now.held < self.now.budget) }
    {
        let held = self.held();
        HEAD_LIMIT <= held.len() || self.room() <= held.len() as u64 || has_line_feed(&held[from..])
    }

    /// Reads once, at most what the budget leaves.
    fn fill<S: Source>(&mut self, source: &mut S) -> Refill
        requires open { self.old.ended ≡ false }
        requires room { self.old.given + length self.old.held < self.old.budget }
        ensures filled { Fills result self.old self.new (S.left source.old) (S.left source.new)
            (S.read_count source.old) (S.read_count source.new) }
        ensures open { self.new.ended ≡ false }
        ensures within { self.new.given + length self.new.held ≤ self.new.budget }
        ensures later { S.read_count source.old ≤ S.read_count source.new }
        ensures step { S.reads source.old source.new }
    {
        let room = self.budget - self.given - self.buffer.held().len() as u64;
        self.buffer.refill(source, room.min(READ_LIMIT) as usize)
    }

    /// Gives a request whose head is held, and reads what its body lacks.
    fn with_body<S: Source>(&mut self, found: WholeHead, source: &mut S) -> Next
        requires open { self.old.ended ≡ false }
        requires head { HoldsHead self.old.held found }
        ensures answered { IsAnswer result self.old self.new (S.left source.old) (S.left source.new) }
        ensures unread { ¬ (NeedsMore self.old) → source.new ≡ source.old }
        ensures cause { Counts result (S.read_count source.old) (S.read_count source.new) }
        ensures within { self.new.given + length self.new.held ≤ self.new.budget }
        ensures later { S.read_count source.old ≤ S.read_count source.new }
        ensures step { S.reads source.old source.new }
    {
        let whole = found.size + found.body as usize;
        if whole <= self.held().len() {
            return self.give_held(found);
        }
        if self.room() <= self.held().len() as u64 {
            self.finish(&Next::Spent);
            return Next::Spent;
        }
        self.read_body(found, source)
    }

    /// Gives a request that is held whole.
    fn give_held(&mut self, found: WholeHead) -> Next
        requires open { self.old.ended ≡ false }
        requires head { HoldsHead self.old.held found }
        requires whole { found.size + found.body ≤ length self.old.held }
        ensures answered { (left : Option (List ℕ)) → IsAnswer result self.old self.new left left }
        ensures cause { (count : ℕ) → Counts result count count }
        ensures within { self.new.given + length self.new.held ≤ self.new.budget }
    {
        match self.cut_off(found.size, found.body as usize) {
            Ok(body) => Next::Whole(Request {
                head: found.head,
                body,
            }),
            Err(_) => {
                self.finish(&Next::NoMemory);
                Next::NoMemory
            }
        }
    }

    /// Takes a head of this size, and the body behind it, off what is held, and gives the body.
    fn cut_off(&mut self, size: usize, body: usize) -> Result<Items<u8>, NoMemory>
        requires open { self.old.ended ≡ false }
        requires whole { size + body ≤ length self.old.held }
        ensures ok { IfOk result (λ bytes. (bytes ≡ take body (drop size self.old.held))
            × (self.new ≡ record {
              held = drop (size + body) self.old.held;
              given = self.old.given + (size + body);
              taken = self.old.given + (size + body);
              budget = self.old.budget;
              ended = self.old.ended;
            })) }
        ensures err { OnErr result (self.new ≡ self.old) }
        ensures within { self.new.given + length self.new.held ≤ self.new.budget }
    {
        let held = self.buffer.held();
        let whole = size + body;
        let bytes = Items::copy_of(self.buffer.allocator(), &held[size..whole])?;
        self.buffer.take(whole);
        self.given += (size + body) as u64;
        self.taken = self.given;
        Ok(bytes)
    }

    /// Reads the body of a head behind which too little is held, and gives both. The body is read into its own place.
    fn read_body<S: Source>(&mut self, found: WholeHead, source: &mut S) -> Next
        requires open { self.old.ended ≡ false }
        requires head { HoldsHead self.old.held found }
        requires lacks { length self.old.held < found.size + found.body }
        requires room { self.old.given + length self.old.held < self.old.budget }
        ensures answered { IsAnswer result self.old self.new (S.left source.old) (S.left source.new) }
        ensures cause { Counts result (S.read_count source.old) (S.read_count source.new) }
        ensures within { self.new.given + length self.new.held ≤ self.new.budget }
        ensures later { S.read_count source.old ≤ S.read_count source.new }
        ensures step { S.reads source.old source.new }
    {
        let begun = self.held().len() - found.size;
        let room = found.body.min(self.room() - found.size as u64) as usize;
        let Ok(mut body) = self.begun_body(found.size, room) else {
            self.finish(&Next::NoMemory);
            return Next::NoMemory;
        };
        let taken = fill_body(&mut body, begun, source);
        if taken.count as u64 == found.body {
            return self.give_read(found, body);
        }
        let next = body_stop(taken.stop, (found.size + taken.count) as u64);
        body.truncate(taken.count);
        drop_front(&mut body, begun);
        self.break_off(&next, body);
        next
    }

    /// Room for a body, at whose front stands what is held behind a head of this size.
    fn begun_body(&self, size: usize, room: usize) -> Result<Vec<u8>, NoMemory>
        requires open { self.now.ended ≡ false }
        requires size { size ≤ length self.now.held }
        requires room { length self.now.held ≤ size + room }
        ensures { IfOk result (λ v. (length v.items ≡ room)
            × (take (length self.now.held - size) v.items ≡ drop size self.now.held)) }
    {
        let mut body = vec![in self.buffer.allocator(); 0; room]?;
        put_front(&mut body, &self.held()[size..]);
        Ok(body)
    }

    /// Gives a request whose head is held and whose body was read.
    fn give_read(&mut self, found: WholeHead, body: Vec<u8>) -> Next
        requires open { self.old.ended ≡ false }
        requires within { self.old.given + (found.size + length body.items) ≤ self.old.budget }
        ensures given { result ≡ Whole (record { head = found.head; body = body.items }) }
        ensures new { self.new ≡ record {
          held = [];
          given = self.old.given + (found.size + length body.items);
          taken = self.old.given + (found.size + length body.items);
          budget = self.old.budget;
          ended = self.old.ended;
        } }
        ensures within { self.new.given + length self.new.held ≤ self.new.budget }
    {
        self.buffer.take(self.buffer.held().len());
        self.given += (found.size + body.len()) as u64;
        self.taken = self.given;
        Next::Whole(Request {
            head: found.head,
            body: Items::of(body),
        })
    }

    /// Ends the reader inside a body, of which these bytes were read behind those that are held.
    fn break_off(&mut self, next: &Next, read: Vec<u8>)
        requires open { self.old.ended ≡ false }
        requires within { self.old.given + length (self.old.held ++ read.items) ≤ self.old.budget }
        ensures ended { self.new ≡ finished_reader next.now
            (record {
              held = self.old.held ++ read.items;
              given = self.old.given;
              taken = self.old.taken;
              budget = self.old.budget;
              ended = true;
            }) }
        ensures within { self.new.given + length self.new.held ≤ self.new.budget }
    {
        self.broken = read;
        self.ended = true;
        self.finish(next);
    }

    /// Notes an answer that gives no request: the reader has ended.
    fn finish(&mut self, next: &Next)
        requires { self.old.given + length self.old.held ≤ self.old.budget }
        ensures ended { self.new ≡ finished_reader next.now self.old }
        ensures within { self.new.given + length self.new.held ≤ self.new.budget }
    {
        self.ended = true;
        match next {
            Next::Cut { .. } => {
                self.taken = self.given + (self.buffer.held().len() + self.broken.len()) as u64;
            }
            Next::Spent => self.taken = self.budget,
            _ => self.taken = self.given,
        }
    }

    /// Parses the head at the front of what is held.
    fn parse(&mut self) -> Parsed
        requires { self.old.ended ≡ false }
        ensures same { self.new ≡ self.old }
        ensures parsed { IsParsed (head_window self.old.held) result }
        ensures within { self.new.given + length self.new.held ≤ self.new.budget }
    {
        parse_front(self.buffer.allocator(), self.buffer.held(), &mut self.slots)
    }

    /// The bytes that are held.
    fn held(&self) -> &[u8]
        requires { self.now.ended ≡ false }
        ensures value { result.now ≡ self.now.held }
        ensures within { self.now.given + length self.now.held ≤ self.now.budget }
    {
        self.buffer.held()
    }

    /// How many bytes may stand behind those that were given.
    fn room(&self) -> u64
        ensures value { result ≡ self.now.budget - self.now.given }
        ensures within { self.now.given ≤ self.now.budget }
    {
        self.budget - self.given
    }
}

/// Copies bytes to the front of a slice.
fn put_front(into: &mut [u8], front: &[u8])
    requires { length front.now ≤ length into.old }
    ensures { take (length front.now) into.new ≡ front.now }
{
    into[..front.len()].copy_from_slice(front);
}

fn has_line_feed(bytes: &[u8]) -> bool
    ensures { result ≡ list_any is_line_feed bytes.now }
{
    bytes.iter().any(|b| *b == b'\n')
}

fn long_head(at: u64) -> Next
    ensures { result ≡ long_head at }
{
    Next::TooLong {
        at,
        what: Long::Head,
        n: HEAD_LIMIT as u64,
        facts: no_facts(),
    }
}

/// The answer where the source has ended, by how many bytes are held.
fn at_end(held: u64) -> Next
    ensures { result ≡ ended_with held }
{
    match held {
        0 => Next::End,
        left => Next::Cut { left },
    }
}
