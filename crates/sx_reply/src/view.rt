//! Printing the bytes of a file.
ghost use Rattle.std.specs.Prelude.{◌≡◌, ◌+◌, ◌<◌, ◌≤◌, length, take};
ghost use Rattle.sx_base.specs.Sink.{Prints};
ghost use Rattle.sx_extent.specs.View.{part};

use std::cmp::min;
use sx_base::{Failed, Sink};
use sx_extent::View;

/// How many bytes of a file are put at once at most.
const PIECE: usize = 65_536;

/// How many bytes of a file are put at once where it has no more, so that no large piece is filled for it.
const SMALL_PIECE: usize = 4_096;

/// Prints the bytes of a view, piece by piece.
pub(crate) fn print_view<K: Sink>(sink: &mut K, view: &View) -> Result<(), Failed>
    ensures { Prints K.wrote K.write_count K.puts sink.old sink.new view.now result }
{
    if view.length() <= SMALL_PIECE as u64 {
        print_small(sink, view)
    } else {
        print_large(sink, view)
    }
}

/// Prints the bytes of a view in small pieces.
fn print_small<K: Sink>(sink: &mut K, view: &View) -> Result<(), Failed>
    ensures { Prints K.wrote K.write_count K.puts sink.old sink.new view.now result }
{
    let mut piece = [0u8; SMALL_PIECE];
    print_by(sink, view, &mut piece)
}

/// Prints the bytes of a view in large pieces.
fn print_large<K: Sink>(sink: &mut K, view: &View) -> Result<(), Failed>
    ensures { Prints K.wrote K.write_count K.puts sink.old sink.new view.now result }
{
    let mut piece = [0u8; PIECE];
    print_by(sink, view, &mut piece)
}

/// Prints the bytes of a view in pieces of as many bytes as there is room for.
fn print_by<K: Sink>(sink: &mut K, view: &View, piece: &mut [u8]) -> Result<(), Failed>
    requires { 1 ≤ length piece.old }
    ensures { Prints K.wrote K.write_count K.puts sink.old sink.new view.now result }
{
    let mut at = 0u64;
    while at < view.length() {
        let count = count_at(view, at, piece.len());
        match print_part(sink, view, at, piece, count) {
            Ok(()) => at += count as u64,
            Err(failed) => return Err(failed),
        }
    }
    Ok(())
}

/// How many bytes of a view are put next, where there is room for so many.
fn count_at(view: &View, at: u64, room: usize) -> usize
    requires within { at < length view.now }
    requires room { 1 ≤ room }
    ensures some { 1 ≤ result }
    ensures room { result ≤ room }
    ensures within { at + result ≤ length view.now }
{
    min(view.length() - at, room as u64) as usize
}

/// Prints so many bytes of a view.
fn print_part<K: Sink>(
    sink: &mut K,
    view: &View,
    at: u64,
    piece: &mut [u8],
    count: usize,
) -> Result<(), Failed>
    requires room { count ≤ length piece.old }
    requires within { at + count ≤ length view.now }
    ensures printed { Prints K.wrote K.write_count K.puts sink.old sink.new (part view.now at count) result }
    ensures room { length piece.new ≡ length piece.old }
{
    read_part(view, at, piece, count);
    sink.put(&piece[..count])
}

/// Reads so many bytes of a view.
fn read_part(view: &View, at: u64, piece: &mut [u8], count: usize)
    requires room { count ≤ length piece.old }
    requires within { at + count ≤ length view.now }
    ensures read { take count piece.new ≡ part view.now at count }
    ensures room { length piece.new ≡ length piece.old }
{
    view.read_into(at, &mut piece[..count]);
}
