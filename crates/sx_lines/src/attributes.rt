//! The attributes of a file or directory in an answer.
ghost use Rattle.std.specs.Prelude.{codes, ◌≡◌, ◌&&◌, ◌||◌, [], if◌then◌else◌};
ghost use Rattle.sx_base.specs.Printer.{Gathers};
ghost use Rattle.sx_reply.specs.Values.{text_if};
ghost use Rattle.sx_lines.specs.Printed.{attributes_text};

use crate::gather::{Word, gather};
use sx_base::{Failed, Sink};
use sx_names::Attributes;
use sx_reply::Gathered;

/// Whether one of two is set.
fn either(one: bool, other: bool) -> bool
    ensures { result ≡ (one || other) }
{
    one || other
}

/// A text, where a condition holds.
fn text_if<'a>(condition: bool, text: &'a [u8]) -> &'a [u8]
    ensures { result.now ≡ text_if condition text.now }
{
    if condition { text } else { b"" }
}

/// The bar between two words: before a word that is set, behind another one.
fn bar(set: bool, before: bool) -> &'static [u8]
    ensures { result.now ≡ text_if (set && before) (codes "|") }
{
    text_if(set && before, b"|")
}

/// The end, behind words or none.
fn none_if_none(before: bool) -> &'static [u8]
    ensures { result.now ≡ if before then [] else codes "None" }
{
    if before { b"" } else { b"None" }
}

/// Gathers the attributes that are set.
#[tactic(auto, unfolding(crate::specs::Printed::attributes_text))]
pub(crate) fn gather_attributes<K: Sink>(
    sink: &mut K,
    gathered: &mut Gathered,
    set: &Attributes,
) -> Result<(), Failed>
    ensures { Gathers K.wrote K.write_count K.puts sink.old sink.new gathered.old.items gathered.new.items
        (attributes_text set.now) result }
{
    let hidden = either(set.read_only, set.hidden);
    let system = either(hidden, set.system);
    let archive = either(system, set.archive);
    let temporary = either(archive, set.temporary);
    let offline = either(temporary, set.offline);
    let not_indexed = either(offline, set.not_content_indexed);
    let not_scrubbed = either(not_indexed, set.no_scrub_data);
    let any = either(not_scrubbed, set.directory);
    gather(
        sink,
        gathered,
        &[
            Word::Text(bar(set.read_only, false)),
            Word::Text(text_if(set.read_only, b"ReadOnly")),
            Word::Text(bar(set.hidden, set.read_only)),
            Word::Text(text_if(set.hidden, b"Hidden")),
            Word::Text(bar(set.system, hidden)),
            Word::Text(text_if(set.system, b"System")),
            Word::Text(bar(set.archive, system)),
            Word::Text(text_if(set.archive, b"Archive")),
            Word::Text(bar(set.temporary, archive)),
            Word::Text(text_if(set.temporary, b"Temporary")),
            Word::Text(bar(set.offline, temporary)),
            Word::Text(text_if(set.offline, b"Offline")),
            Word::Text(bar(set.not_content_indexed, offline)),
            Word::Text(text_if(set.not_content_indexed, b"NotContentIndexed")),
            Word::Text(bar(set.no_scrub_data, not_indexed)),
            Word::Text(text_if(set.no_scrub_data, b"NoScrubData")),
            Word::Text(bar(set.directory, not_scrubbed)),
            Word::Text(text_if(set.directory, b"Directory")),
            Word::Text(none_if_none(any)),
        ],
    )
}
