//! Gathering the texts of an answer on the stack, so that its head is put at once.
ghost use Rattle.std.specs.Prelude.{◌≡◌, [], OnOk};
ghost use Rattle.std.specs.List.{flat_map};
ghost use Rattle.sx_base.specs.Sink.{Prints};
ghost use Rattle.sx_base.specs.Printer.{Gathers};
ghost use Rattle.sx_reply.specs.Words.{word_text};

use arrayvec::ArrayVec;
use itoa::Buffer;
use sx_base::{Failed, Sink};

/// How many bytes are gathered at most, before they are put.
const ROOM: usize = 4_096;

/// Bytes that are to be put together, at most 4,096.
pub type Gathered = ArrayVec<u8, ROOM>;

/// A part of a text: words as they stand, or a number.
#[derive(Clone, Copy)]
pub(crate) enum Word<'a> {
    /// Bytes as they stand.
    Text(&'a [u8]),
    /// A number in decimal digits without leading zeros.
    Number(u64),
}

/// Writes the texts of words one behind another, or a prefix of them where the sink fails.
pub(crate) fn print_words<K: Sink>(sink: &mut K, words: &[Word]) -> Result<(), Failed>
    ensures { Prints K.wrote K.write_count K.puts sink.old sink.new (flat_map word_text words.now) result }
{
    let mut gathered = Gathered::new();
    match gather(sink, &mut gathered, words) {
        Ok(()) => put_gathered(sink, &mut gathered),
        Err(failed) => Err(failed),
    }
}

/// Gathers the texts of words one behind another.
pub(crate) fn gather<K: Sink>(
    sink: &mut K,
    gathered: &mut Gathered,
    words: &[Word],
) -> Result<(), Failed>
    ensures { Gathers K.wrote K.write_count K.puts sink.old sink.new gathered.old.items gathered.new.items
        (flat_map word_text words.now) result }
{
    for word in words {
        match gather_word(sink, gathered, word) {
            Ok(()) => {}
            Err(failed) => return Err(failed),
        }
    }
    Ok(())
}

/// Gathers the text of a word.
fn gather_word<K: Sink>(sink: &mut K, gathered: &mut Gathered, word: &Word) -> Result<(), Failed>
    ensures { Gathers K.wrote K.write_count K.puts sink.old sink.new gathered.old.items gathered.new.items
        (word_text word.now) result }
{
    match *word {
        Word::Text(bytes) => gather_bytes(sink, gathered, bytes),
        Word::Number(number) => {
            let mut buffer = Buffer::new();
            gather_bytes(sink, gathered, buffer.format(number).as_bytes())
        }
    }
}

/// Gathers bytes. Where there is no room for them, they are put behind what was gathered; where that fails, a prefix of
/// all was written.
pub fn gather_bytes<K: Sink>(
    sink: &mut K,
    gathered: &mut Gathered,
    bytes: &[u8],
) -> Result<(), Failed>
    ensures { Gathers K.wrote K.write_count K.puts sink.old sink.new gathered.old.items gathered.new.items bytes.now
        result }
{
    let Err(_no_room) = gathered.try_extend_from_slice(bytes) else {
        return Ok(());
    };
    match put_gathered(sink, gathered) {
        Ok(()) => sink.put(bytes),
        Err(failed) => Err(failed),
    }
}

/// Puts what was gathered, at once; nothing is gathered then.
pub fn put_gathered<K: Sink>(sink: &mut K, gathered: &mut Gathered) -> Result<(), Failed>
    ensures printed { Prints K.wrote K.write_count K.puts sink.old sink.new gathered.old.items result }
    ensures emptied { OnOk result (gathered.new.items ≡ []) }
{
    if gathered.is_empty() {
        return Ok(());
    }
    match sink.put(gathered.as_slice()) {
        Ok(()) => {
            gathered.clear();
            Ok(())
        }
        Err(failed) => Err(failed),
    }
}
