//! The bytes of a file in an answer, in hexadecimal digits.
ghost use Rattle.std.specs.Prelude.{◌≡◌, ◌+◌, ◌<◌, ◌≤◌, length, take};
ghost use Rattle.hex.specs.Hex.{encode_lower};
ghost use Rattle.sx_base.specs.Printer.{Gathers};
ghost use Rattle.sx_extent.specs.View.{part};

use crate::gather::gather_hex;
use std::cmp::min;
use sx_base::{Failed, Sink};
use sx_extent::View;
use sx_reply::Gathered;

/// How many bytes of a file are read at once at most.
const PIECE: usize = 4_096;

/// Gathers the bytes of a view, piece by piece.
pub(crate) fn gather_view<K: Sink>(
    sink: &mut K,
    gathered: &mut Gathered,
    view: &View,
) -> Result<(), Failed>
    ensures { Gathers K.wrote K.write_count K.puts sink.old sink.new gathered.old.items gathered.new.items
        (encode_lower view.now) result }
{
    let mut piece = [0u8; PIECE];
    gather_by(sink, gathered, view, &mut piece)
}

/// Gathers the bytes of a view in pieces of as many bytes as there is room for.
fn gather_by<K: Sink>(
    sink: &mut K,
    gathered: &mut Gathered,
    view: &View,
    piece: &mut [u8],
) -> Result<(), Failed>
    requires { 1 ≤ length piece.old }
    ensures { Gathers K.wrote K.write_count K.puts sink.old sink.new gathered.old.items gathered.new.items
        (encode_lower view.now) result }
{
    let mut at = 0u64;
    while at < view.length() {
        let count = count_at(view, at, piece.len());
        match gather_part(sink, gathered, view, at, piece, count) {
            Ok(()) => at += count as u64,
            Err(failed) => return Err(failed),
        }
    }
    Ok(())
}

/// How many bytes of a view are gathered next, where there is room for so many.
fn count_at(view: &View, at: u64, room: usize) -> usize
    requires within { at < length view.now }
    requires room { 1 ≤ room }
    ensures some { 1 ≤ result }
    ensures room { result ≤ room }
    ensures within { at + result ≤ length view.now }
{
    min(view.length() - at, room as u64) as usize
}

/// Gathers so many bytes of a view.
fn gather_part<K: Sink>(
    sink: &mut K,
    gathered: &mut Gathered,
    view: &View,
    at: u64,
    piece: &mut [u8],
    count: usize,
) -> Result<(), Failed>
    requires room { count ≤ length piece.old }
    requires within { at + count ≤ length view.now }
    ensures gathered { Gathers K.wrote K.write_count K.puts sink.old sink.new gathered.old.items gathered.new.items
        (encode_lower (part view.now at count)) result }
    ensures room { length piece.new ≡ length piece.old }
{
    read_part(view, at, piece, count);
    gather_hex(sink, gathered, &piece[..count])
}

/// Reads so many bytes of a view.
fn read_part(view: &View, at: u64, piece: &mut [u8], count: usize)
    requires room { count ≤ length piece.old }
    requires within { at + count ≤ length view.now }
    ensures read { take count piece.new ≡ part view.now at count }
    ensures room { length piece.new ≡ length piece.old }
{
    view.read_into(at, &mut piece[..count]);
}
