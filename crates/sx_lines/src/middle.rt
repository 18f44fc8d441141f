//! Lines of three parts: words, a part in the middle, and words.
ghost use Rattle.std.specs.Prelude.{◌++◌, ◌∷◌};
ghost use Rattle.std.specs.List.{flat_map};
ghost use Rattle.sx_base.specs.Sink.{Prints};
ghost use Rattle.sx_base.specs.Printer.{Gathers};
ghost use Rattle.sx_lines.specs.Printed.{word_text, item_text, slashed, path_text, middle_text};

use crate::attributes::gather_attributes;
use crate::gather::{Word, gather};
use crate::view::gather_view;
use sx_base::{Failed, Sink};
use sx_extent::View;
use sx_names::{Attributes, NameItem, Part};
use sx_reply::{Gathered, put_gathered};

/// The part in the middle of a line.
#[derive(Clone, Copy)]
pub(crate) enum Middle<'a> {
    /// Bytes of a file in hexadecimal digits.
    View(&'a View),
    /// The attributes of a file or directory.
    Attributes(&'a Attributes),
    /// The items of a page.
    Items(&'a [NameItem]),
    /// The parts of a path, percent-encoded one by one, with slashes between them.
    Path(&'a [Part]),
}

/// Gathers one item of a page.
#[tactic(auto, unfolding(crate::specs::Printed::item_text))]
fn gather_item<K: Sink>(
    sink: &mut K,
    gathered: &mut Gathered,
    item: &NameItem,
) -> Result<(), Failed>
    ensures { Gathers K.wrote K.write_count K.puts sink.old sink.new gathered.old.items gathered.new.items
        (item_text item.now) result }
{
    let name = item.name.bytes();
    if item.dir {
        gather(
            sink,
            gathered,
            &[Word::Text(b" dir:0:"), Word::Percent(name)],
        )
    } else {
        gather(
            sink,
            gathered,
            &[
                Word::Text(b" file:"),
                Word::Number(item.length),
                Word::Text(b":"),
                Word::Percent(name),
            ],
        )
    }
}

/// Gathers the items of a page.
fn gather_items<K: Sink>(
    sink: &mut K,
    gathered: &mut Gathered,
    items: &[NameItem],
) -> Result<(), Failed>
    ensures { Gathers K.wrote K.write_count K.puts sink.old sink.new gathered.old.items gathered.new.items
        (flat_map item_text items.now) result }
{
    for item in items {
        match gather_item(sink, gathered, item) {
            Ok(()) => {}
            Err(failed) => return Err(failed),
        }
    }
    Ok(())
}

/// Gathers a part of a path with a slash before it.
fn gather_part<K: Sink>(sink: &mut K, gathered: &mut Gathered, part: &Part) -> Result<(), Failed>
    ensures { Gathers K.wrote K.write_count K.puts sink.old sink.new gathered.old.items gathered.new.items
        (slashed part.now) result }
{
    gather(
        sink,
        gathered,
        &[Word::Text(b"/"), Word::Percent(part.kept())],
    )
}

/// Gathers the parts of a path with a slash before each.
fn gather_slashed<K: Sink>(
    sink: &mut K,
    gathered: &mut Gathered,
    parts: &[Part],
) -> Result<(), Failed>
    ensures { Gathers K.wrote K.write_count K.puts sink.old sink.new gathered.old.items gathered.new.items
        (flat_map slashed parts.now) result }
{
    for part in parts {
        match gather_part(sink, gathered, part) {
            Ok(()) => {}
            Err(failed) => return Err(failed),
        }
    }
    Ok(())
}

/// Gathers the parts of a path with slashes between them.
fn gather_path<K: Sink>(sink: &mut K, gathered: &mut Gathered, parts: &[Part]) -> Result<(), Failed>
    ensures { Gathers K.wrote K.write_count K.puts sink.old sink.new gathered.old.items gathered.new.items
        (path_text parts.now) result }
{
    match parts {
        [first, rest @ ..] => gather_named(sink, gathered, first, rest),
        [] => gather(sink, gathered, &[]),
    }
}

/// Gathers the first part of a path, and the others with a slash before each.
fn gather_named<K: Sink>(
    sink: &mut K,
    gathered: &mut Gathered,
    first: &Part,
    rest: &[Part],
) -> Result<(), Failed>
    ensures { Gathers K.wrote K.write_count K.puts sink.old sink.new gathered.old.items gathered.new.items
        (path_text (first.now ∷ rest.now)) result }
{
    match gather(sink, gathered, &[Word::Percent(first.kept())]) {
        Ok(()) => gather_slashed(sink, gathered, rest),
        Err(failed) => Err(failed),
    }
}

/// Gathers the part in the middle.
fn gather_middle<K: Sink>(
    sink: &mut K,
    gathered: &mut Gathered,
    middle: &Middle,
) -> Result<(), Failed>
    ensures { Gathers K.wrote K.write_count K.puts sink.old sink.new gathered.old.items gathered.new.items
        (middle_text middle.now) result }
{
    match *middle {
        Middle::View(view) => gather_view(sink, gathered, view),
        Middle::Attributes(attributes) => gather_attributes(sink, gathered, attributes),
        Middle::Items(items) => gather_items(sink, gathered, items),
        Middle::Path(parts) => gather_path(sink, gathered, parts),
    }
}

/// Gathers words, and the part in the middle behind them.
fn gather_front<K: Sink>(
    sink: &mut K,
    gathered: &mut Gathered,
    front: &[Word],
    middle: &Middle,
) -> Result<(), Failed>
    ensures { Gathers K.wrote K.write_count K.puts sink.old sink.new gathered.old.items gathered.new.items
        (flat_map word_text front.now ++ middle_text middle.now) result }
{
    match gather(sink, gathered, front) {
        Ok(()) => gather_middle(sink, gathered, middle),
        Err(failed) => Err(failed),
    }
}

/// Gathers words, the part in the middle behind them, and words behind that.
fn gather_parts<K: Sink>(
    sink: &mut K,
    gathered: &mut Gathered,
    front: &[Word],
    middle: &Middle,
    last: &[Word],
) -> Result<(), Failed>
    ensures { Gathers K.wrote K.write_count K.puts sink.old sink.new gathered.old.items gathered.new.items
        (flat_map word_text front.now ++ middle_text middle.now ++ flat_map word_text last.now) result }
{
    match gather_front(sink, gathered, front, middle) {
        Ok(()) => gather(sink, gathered, last),
        Err(failed) => Err(failed),
    }
}

/// Writes words, the part in the middle behind them, and words behind that, or a prefix where the sink fails.
pub(crate) fn print_parts<K: Sink>(
    sink: &mut K,
    front: &[Word],
    middle: &Middle,
    last: &[Word],
) -> Result<(), Failed>
    ensures { Prints K.wrote K.write_count K.puts sink.old sink.new
        (flat_map word_text front.now ++ middle_text middle.now ++ flat_map word_text last.now) result }
{
    let mut gathered = Gathered::new();
    match gather_parts(sink, &mut gathered, front, middle, last) {
        Ok(()) => put_gathered(sink, &mut gathered),
        Err(failed) => Err(failed),
    }
}
