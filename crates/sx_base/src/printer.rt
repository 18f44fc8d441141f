//! Printing without memory: texts, numbers and hexadecimal digits one behind another, gathered on the stack.
ghost use Rattle.std.specs.Prelude.{◌≡◌, ◌∷◌, [], OnOk};
ghost use Rattle.std.specs.List.{flat_map};
ghost use Rattle.sx_base.specs.Sink.{Prints};
ghost use Rattle.sx_base.specs.Printer.{text_of, Gathers};
ghost use Rattle.hex.specs.Hex.{encode_lower};

use crate::fault::Failed;
use crate::sink::Sink;
use arrayvec::ArrayVec;
use itoa::Buffer;

/// How many bytes are gathered at most, before they are put.
const ROOM: usize = 4_096;

/// Bytes that are to be put together.
type Gathered = ArrayVec<u8, ROOM>;

/// A part of a text that is printed without memory.
#[derive(Clone, Copy)]
pub enum Fragment<'a> {
    /// Bytes as they stand.
    Text(&'a [u8]),
    /// A number in decimal digits without leading zeros.
    Decimal(u64),
    /// Bytes in lower-case hexadecimal digits, two each.
    Hex(&'a [u8]),
}

/// Writes the texts of fragments one behind another, or a prefix of them where the sink fails. It takes no memory.
///
/// They are gathered on the stack, so a text of at most 4,096 bytes is one put, and an empty one is none.
pub fn print<K: Sink>(sink: &mut K, fragments: &[Fragment]) -> Result<(), Failed>
    ensures { Prints K.wrote K.write_count K.puts sink.old sink.new (flat_map text_of fragments.now) result }
{
    let mut gathered = Gathered::new();
    for fragment in fragments {
        match gather_fragment(sink, &mut gathered, fragment) {
            Ok(()) => {}
            Err(failed) => return Err(failed),
        }
    }
    put_gathered(sink, &mut gathered)
}

/// Gathers the text of a fragment.
fn gather_fragment<K: Sink>(
    sink: &mut K,
    gathered: &mut Gathered,
    fragment: &Fragment,
) -> Result<(), Failed>
    ensures { Gathers K.wrote K.write_count K.puts sink.old sink.new gathered.old.items gathered.new.items
        (text_of fragment.now) result }
{
    match *fragment {
        Fragment::Text(bytes) => gather(sink, gathered, bytes),
        Fragment::Decimal(number) => {
            let mut buffer = Buffer::new();
            gather(sink, gathered, buffer.format(number).as_bytes())
        }
        Fragment::Hex(bytes) => gather_digits(sink, gathered, bytes),
    }
}

/// Gathers the hexadecimal digits of bytes.
fn gather_digits<K: Sink>(sink: &mut K, gathered: &mut Gathered, bytes: &[u8]) -> Result<(), Failed>
    ensures { Gathers K.wrote K.write_count K.puts sink.old sink.new gathered.old.items gathered.new.items
        (encode_lower bytes.now) result }
{
    for byte in bytes {
        let digits = digits_of(*byte);
        match gather(sink, gathered, &digits) {
            Ok(()) => {}
            Err(failed) => return Err(failed),
        }
    }
    Ok(())
}

/// Gathers bytes. Where there is no room for them, what was gathered before is put first; more than there is ever
/// room for are put themselves.
fn gather<K: Sink>(sink: &mut K, gathered: &mut Gathered, bytes: &[u8]) -> Result<(), Failed>
    ensures { Gathers K.wrote K.write_count K.puts sink.old sink.new gathered.old.items gathered.new.items bytes.now
        result }
{
    let Err(_no_room) = gathered.try_extend_from_slice(bytes) else {
        return Ok(());
    };
    match put_gathered(sink, gathered) {
        Ok(()) => gather_next(sink, gathered, bytes),
        Err(failed) => Err(failed),
    }
}

/// Gathers bytes where none are gathered.
fn gather_next<K: Sink>(sink: &mut K, gathered: &mut Gathered, bytes: &[u8]) -> Result<(), Failed>
    requires { gathered.old.items ≡ [] }
    ensures { Gathers K.wrote K.write_count K.puts sink.old sink.new [] gathered.new.items bytes.now result }
{
    if gathered.try_extend_from_slice(bytes).is_ok() {
        return Ok(());
    }
    sink.put(bytes)
}

/// Puts what was gathered.
fn put_gathered<K: Sink>(sink: &mut K, gathered: &mut Gathered) -> Result<(), Failed>
    ensures printed { Prints K.wrote K.write_count K.puts sink.old sink.new gathered.old.items result }
    ensures emptied { OnOk result (gathered.new.items ≡ []) }
{
    if gathered.is_empty() {
        return Ok(());
    }
    match sink.put(gathered.as_slice()) {
        Ok(()) => {
            gathered.clear();
            Ok(())
        }
        Err(failed) => Err(failed),
    }
}

/// The two hexadecimal digits of a byte.
fn digits_of(byte: u8) -> [u8; 2]
    ensures { result ≡ encode_lower (byte ∷ []) }
{
    let mut digits = [0u8; 2];
    match hex::encode_to_slice([byte], &mut digits) {
        Ok(()) => digits,
        Err(_) => unreachable!(),
    }
}
