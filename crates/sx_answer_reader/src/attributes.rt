//! The attributes of a file or directory, by their words.
ghost use Rattle.std.specs.Prelude.{codes, ◌≡◌, ◌&&◌, ◌||◌, bytes_eq, [], if◌then◌else◌, IfOk};
ghost use Rattle.sx_reply.specs.Values.{text_if};
ghost use Rattle.sx_lines.specs.Printed.{attributes_text};
ghost use Rattle.sx_lines.specs.Words.{next_word};
ghost use Rattle.sx_answer_reader.specs.Attributes.{has_word, named, attributes_of};
ghost use Rattle.sx_answer_reader.specs.Reading.{Reads};

use crate::answer::Unread;
use crate::joined::joined;
use crate::words::next_word;
use std::alloc::{AllocError, Global};
use sx_names::Attributes;

/// Whether a name is one of the words that bars part.
fn has_word(name: &[u8], word: &[u8]) -> bool
    ensures { result ≡ has_word name.now word.now }
{
    word.split(|b| *b == b'|').any(|part| part == name)
}

/// The attributes whose names stand in a word.
fn named(word: &[u8]) -> Attributes
    ensures { result ≡ named word.now }
{
    Attributes {
        read_only: has_word(b"ReadOnly", word),
        hidden: has_word(b"Hidden", word),
        system: has_word(b"System", word),
        archive: has_word(b"Archive", word),
        temporary: has_word(b"Temporary", word),
        offline: has_word(b"Offline", word),
        not_content_indexed: has_word(b"NotContentIndexed", word),
        no_scrub_data: has_word(b"NoScrubData", word),
        directory: has_word(b"Directory", word),
    }
}

/// Whether one of two is set.
fn either(one: bool, other: bool) -> bool
    ensures { result ≡ (one || other) }
{
    one || other
}

/// A text, where a condition holds.
fn text_if<'a>(condition: bool, text: &'a [u8]) -> &'a [u8]
    ensures { result.now ≡ text_if condition text.now }
{
    if condition { text } else { b"" }
}

/// The bar between two names: before one that is set, behind another one.
fn bar(set: bool, before: bool) -> &'static [u8]
    ensures { result.now ≡ text_if (set && before) (codes "|") }
{
    text_if(set && before, b"|")
}

/// The end, behind names or none.
fn none_if_none(before: bool) -> &'static [u8]
    ensures { result.now ≡ if before then [] else codes "None" }
{
    if before { b"" } else { b"None" }
}

/// The names of the attributes that are set, with bars between them.
#[tactic(auto, unfolding(sx_lines::specs::Printed::attributes_text))]
fn attributes_text(alloc: Global, set: &Attributes) -> Result<Vec<u8>, AllocError>
    ensures { IfOk result (λ text. text.items ≡ attributes_text set.now) }
{
    let hidden = either(set.read_only, set.hidden);
    let system = either(hidden, set.system);
    let archive = either(system, set.archive);
    let temporary = either(archive, set.temporary);
    let offline = either(temporary, set.offline);
    let not_indexed = either(offline, set.not_content_indexed);
    let not_scrubbed = either(not_indexed, set.no_scrub_data);
    let any = either(not_scrubbed, set.directory);
    joined(
        alloc,
        &[
            bar(set.read_only, false),
            text_if(set.read_only, b"ReadOnly"),
            bar(set.hidden, set.read_only),
            text_if(set.hidden, b"Hidden"),
            bar(set.system, hidden),
            text_if(set.system, b"System"),
            bar(set.archive, system),
            text_if(set.archive, b"Archive"),
            bar(set.temporary, archive),
            text_if(set.temporary, b"Temporary"),
            bar(set.offline, temporary),
            text_if(set.offline, b"Offline"),
            bar(set.not_content_indexed, offline),
            text_if(set.not_content_indexed, b"NotContentIndexed"),
            bar(set.no_scrub_data, not_indexed),
            text_if(set.no_scrub_data, b"NoScrubData"),
            bar(set.directory, not_scrubbed),
            text_if(set.directory, b"Directory"),
            none_if_none(any),
        ],
    )
}

/// Whether a word is how these attributes are written.
fn is_attributes_text(alloc: Global, set: &Attributes, word: &[u8]) -> Result<bool, AllocError>
    ensures { IfOk result (λ same. same ≡ bytes_eq (attributes_text set.now) word.now) }
{
    let text = attributes_text(alloc, set)?;
    Ok(text.as_slice() == word)
}

/// The attributes of a word.
#[tactic(auto, unfolding(crate::specs::Attributes::attributes_of))]
fn attributes_of(alloc: Global, word: &[u8]) -> Result<Attributes, Unread>
    ensures { Reads result (attributes_of word.now) }
{
    let set = named(word);
    if is_attributes_text(alloc, &set, word)? {
        Ok(set)
    } else {
        Err(Unread::NoAnswer)
    }
}

/// The attributes of the next word.
pub(crate) fn attributes_in(alloc: Global, behind: &[u8]) -> Result<Attributes, Unread>
    ensures { Reads result (attributes_of (next_word behind.now)) }
{
    attributes_of(alloc, next_word(behind))
}
