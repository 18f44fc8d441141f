//! The attributes of a file or directory, as a header shows them.
ghost use Rattle.std.specs.Prelude.{codes, ◌≡◌, ◌&&◌, ◌||◌, if◌then◌else◌};
ghost use Rattle.sx_base.specs.Printer.{Gathers};
ghost use Rattle.sx_reply.specs.Values.{attributes_line, text_if};

use crate::gather::{Gathered, Word, gather};
use crate::values::text_if;
use sx_base::{Failed, Sink};
use sx_names::Attributes;

/// Whether one of two is set.
fn either(one: bool, other: bool) -> bool
    ensures { result ≡ (one || other) }
{
    one || other
}

/// The bar between two words: before a word that is set, behind another one.
fn bar(set: bool, before: bool) -> &'static [u8]
    ensures { result.now ≡ text_if (set && before) (codes " | ") }
{
    text_if(set && before, b" | ")
}

/// The end of the line, behind words or none.
fn line_end(before: bool) -> &'static [u8]
    ensures { result.now ≡ if before then codes "\r\n" else codes "None\r\n" }
{
    if before { b"\r\n" } else { b"None\r\n" }
}

/// Gathers the line with the attributes that are set.
#[tactic(auto, unfolding(crate::specs::Values::attributes_line))]
pub(crate) fn gather_attributes<K: Sink>(
    sink: &mut K,
    gathered: &mut Gathered,
    set: &Attributes,
) -> Result<(), Failed>
    ensures { Gathers K.wrote K.write_count K.puts sink.old sink.new gathered.old.items gathered.new.items
        (attributes_line set.now) result }
{
    let hidden = either(set.read_only, set.hidden);
    let system = either(hidden, set.system);
    let archive = either(system, set.archive);
    let temporary = either(archive, set.temporary);
    let offline = either(temporary, set.offline);
    let not_indexed = either(offline, set.not_content_indexed);
    let not_scrubbed = either(not_indexed, set.no_scrub_data);
    let any = either(not_scrubbed, set.directory);
    gather(
        sink,
        gathered,
        &[
            Word::Text(b"x-ms-file-attributes: "),
            Word::Text(bar(set.read_only, false)),
            Word::Text(text_if(set.read_only, b"ReadOnly")),
            Word::Text(bar(set.hidden, set.read_only)),
            Word::Text(text_if(set.hidden, b"Hidden")),
            Word::Text(bar(set.system, hidden)),
            Word::Text(text_if(set.system, b"System")),
            Word::Text(bar(set.archive, system)),
            Word::Text(text_if(set.archive, b"Archive")),
            Word::Text(bar(set.temporary, archive)),
            Word::Text(text_if(set.temporary, b"Temporary")),
            Word::Text(bar(set.offline, temporary)),
            Word::Text(text_if(set.offline, b"Offline")),
            Word::Text(bar(set.not_content_indexed, offline)),
            Word::Text(text_if(set.not_content_indexed, b"NotContentIndexed")),
            Word::Text(bar(set.no_scrub_data, not_indexed)),
            Word::Text(text_if(set.no_scrub_data, b"NoScrubData")),
            Word::Text(bar(set.directory, not_scrubbed)),
            Word::Text(text_if(set.directory, b"Directory")),
            Word::Text(line_end(any)),
        ],
    )
}
