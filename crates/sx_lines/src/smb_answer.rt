//! The answers to calls of sessions that were not refused.
ghost use Rattle.std.specs.Prelude.{◌≡◌};
ghost use Rattle.sx_base.specs.Sink.{Prints};
ghost use Rattle.sx_lines.specs.Printed.{word_text};
ghost use Rattle.sx_lines.specs.Answers.{smb_line, word_line, number_line, open_line, made_word, fate_word, bytes_line};
ghost use Rattle.sx_lines.specs.Answers.{write_line, kind_word, stat_line, next_text, list_line};

use crate::gather::{Word, print_words};
use crate::middle::{Middle, print_parts};
use sx_base::{Failed, Sink};
use sx_call::{Fate, NamesPage, SmbReply};
use sx_extent::View;
use sx_names::{Attributes, Text};

/// What is told of a file or directory.
#[derive(Clone, Copy)]
struct Stats<'a> {
    id: u64,
    dir: bool,
    length: u64,
    attributes: &'a Attributes,
    created: u64,
    written: u64,
    changed: u64,
}

/// Writes the answer to a session's call that was not refused.
#[tactic(auto, unfolding(crate::specs::Answers::smb_line))]
pub(crate) fn print_smb<K: Sink>(sink: &mut K, place: u64, reply: &SmbReply) -> Result<(), Failed>
    ensures { Prints K.wrote K.write_count K.puts sink.old sink.new (smb_line place reply.now) result }
{
    match reply {
        SmbReply::Started { session } => print_number(sink, place, b" start ", *session as u64),
        SmbReply::Ended { closed } => print_number(sink, place, b" end ", *closed as u64),
        SmbReply::Opened {
            index,
            made,
            id,
            length,
        } => print_opened(sink, place, index.number(), *made, *id, *length),
        SmbReply::Closed { fate } => print_word(sink, place, fate_word(*fate)),
        SmbReply::Bytes { view } => print_bytes(sink, place, view),
        SmbReply::Wrote { count, length } => print_wrote(sink, place, *count, *length),
        SmbReply::Resized { length } => print_number(sink, place, b" resize ", *length),
        SmbReply::Locked => print_word(sink, place, b" lock"),
        SmbReply::Unlocked => print_word(sink, place, b" unlock"),
        SmbReply::Stats {
            id,
            dir,
            length,
            attributes,
            created,
            written,
            changed,
        } => print_stats(
            sink,
            place,
            &Stats {
                id: *id,
                dir: *dir,
                length: *length,
                attributes,
                created: created.ticks(),
                written: written.ticks(),
                changed: changed.ticks(),
            },
        ),
        SmbReply::Names { page } => print_page(sink, place, page),
        SmbReply::Disposed => print_word(sink, place, b" dispose"),
    }
}

fn print_word<K: Sink>(sink: &mut K, place: u64, word: &[u8]) -> Result<(), Failed>
    ensures { Prints K.wrote K.write_count K.puts sink.old sink.new (word_line place word.now) result }
{
    print_words(
        sink,
        &[
            Word::Text(b"OK "),
            Word::Number(place),
            Word::Text(word),
            Word::Text(b"\n"),
        ],
    )
}

fn print_number<K: Sink>(sink: &mut K, place: u64, word: &[u8], number: u64) -> Result<(), Failed>
    ensures { Prints K.wrote K.write_count K.puts sink.old sink.new (number_line place word.now number) result }
{
    print_words(
        sink,
        &[
            Word::Text(b"OK "),
            Word::Number(place),
            Word::Text(word),
            Word::Number(number),
            Word::Text(b"\n"),
        ],
    )
}

fn made_word(made: bool) -> &'static [u8]
    ensures { result.now ≡ made_word made }
{
    if made { b" created " } else { b" opened " }
}

fn print_opened<K: Sink>(
    sink: &mut K,
    place: u64,
    index: u32,
    made: bool,
    id: u64,
    length: u64,
) -> Result<(), Failed>
    ensures { Prints K.wrote K.write_count K.puts sink.old sink.new (open_line place index made id length) result }
{
    let word = made_word(made);
    print_words(
        sink,
        &[
            Word::Text(b"OK "),
            Word::Number(place),
            Word::Text(b" open "),
            Word::Number(index as u64),
            Word::Text(word),
            Word::Number(id),
            Word::Text(b" "),
            Word::Number(length),
            Word::Text(b"\n"),
        ],
    )
}

fn fate_word(fate: Fate) -> &'static [u8]
    ensures { result.now ≡ fate_word fate }
{
    match fate {
        Fate::Kept => b" close kept",
        Fate::Pending => b" close pending",
        Fate::Gone => b" close gone",
    }
}

#[tactic(auto, unfolding(crate::specs::Answers::bytes_line))]
fn print_bytes<K: Sink>(sink: &mut K, place: u64, view: &View) -> Result<(), Failed>
    ensures { Prints K.wrote K.write_count K.puts sink.old sink.new (bytes_line place view.now) result }
{
    let length = view.length();
    if length == 0 {
        return print_word(sink, place, b" read 0 -");
    }
    print_parts(
        sink,
        &[
            Word::Text(b"OK "),
            Word::Number(place),
            Word::Text(b" read "),
            Word::Number(length),
            Word::Text(b" "),
        ],
        &Middle::View(view),
        &[Word::Text(b"\n")],
    )
}

fn print_wrote<K: Sink>(sink: &mut K, place: u64, count: u32, length: u64) -> Result<(), Failed>
    ensures { Prints K.wrote K.write_count K.puts sink.old sink.new (write_line place count length) result }
{
    print_words(
        sink,
        &[
            Word::Text(b"OK "),
            Word::Number(place),
            Word::Text(b" write "),
            Word::Number(count as u64),
            Word::Text(b" "),
            Word::Number(length),
            Word::Text(b"\n"),
        ],
    )
}

fn kind_word(dir: bool) -> &'static [u8]
    ensures { result.now ≡ kind_word dir }
{
    if dir { b" dir " } else { b" file " }
}

#[tactic(auto, unfolding(crate::specs::Answers::stat_line))]
fn print_stats<K: Sink>(sink: &mut K, place: u64, stats: &Stats) -> Result<(), Failed>
    ensures { Prints K.wrote K.write_count K.puts sink.old sink.new
        (stat_line place stats.now.id stats.now.dir stats.now.length stats.now.attributes.now stats.now.created
        stats.now.written stats.now.changed)
        result }
{
    let kind = kind_word(stats.dir);
    print_parts(
        sink,
        &[
            Word::Text(b"OK "),
            Word::Number(place),
            Word::Text(b" stat "),
            Word::Number(stats.id),
            Word::Text(kind),
            Word::Number(stats.length),
            Word::Text(b" "),
        ],
        &Middle::Attributes(stats.attributes),
        &[
            Word::Text(b" "),
            Word::Number(stats.created),
            Word::Text(b" "),
            Word::Number(stats.written),
            Word::Text(b" "),
            Word::Number(stats.changed),
            Word::Text(b"\n"),
        ],
    )
}

/// The name in which a page begins, as a word: `*` where it is empty, at the beginning or past the end.
pub(crate) fn next_word(next: &Text) -> Word<'_>
    ensures { word_text result ≡ next_text next.now }
{
    let name = next.bytes();
    if name.is_empty() {
        Word::Text(b"*")
    } else {
        Word::Percent(name)
    }
}

#[tactic(auto, unfolding(crate::specs::Answers::list_line))]
fn print_page<K: Sink>(sink: &mut K, place: u64, page: &NamesPage) -> Result<(), Failed>
    ensures { Prints K.wrote K.write_count K.puts sink.old sink.new (list_line place page.now) result }
{
    let next = next_word(&page.next);
    print_parts(
        sink,
        &[
            Word::Text(b"OK "),
            Word::Number(place),
            Word::Text(b" list "),
            Word::Number(page.items.len() as u64),
            Word::Text(b" "),
            next,
        ],
        &Middle::Items(page.items.as_slice()),
        &[Word::Text(b"\n")],
    )
}
