//! The fields of calls, by the words that spell them.
ghost use Rattle.std.specs.Prelude.{◌≡◌, ◌+◌, IfOk, option_map};
ghost use Rattle.sx_call.specs.Limits.{if_within};
ghost use Rattle.sx_call.specs.Ranges.{is_byte_range};
ghost use Rattle.sx_call.specs.Updates.{is_handle_write};
ghost use Rattle.sx_lines.specs.Reading.{Reads};
ghost use Rattle.sx_lines.specs.Words.{judged, next_word};
ghost use Rattle.sx_lines.specs.Fields.{index_of, offset_of, length_of, page_size_of, read_range_of, byte_range_of};
ghost use Rattle.sx_lines.specs.Fields.{write_of, hex_bytes_of, choice_of};
ghost use Rattle.sx_lines.specs.Lines.{index_in, offset_in};

use crate::letters::choice_of;
use crate::numbers::number_in;
use crate::unread::Unread;
use crate::words::{next_word, wrong};
use hex::FromHexError;
use std::alloc::Global;
use sx_call::{ByteRange, FileLength, HandleWrite, OFFSET_LIMIT, ReadRange, TRANSFER_LIMIT};
use sx_extent::Piece;
use sx_guard::HandleIndex;
use sx_memory::NoMemory;
use sx_names::{MAX_RESULTS, PageSize};

#[tactic(auto, unfolding(crate::specs::Fields::index_of))]
fn index_of(word: &[u8]) -> Option<HandleIndex>
    ensures { result ≡ index_of word.now }
{
    match number_in(1, 4_294_967_295, word) {
        Some(index) => Some(HandleIndex::of(index as u32)),
        None => None,
    }
}

/// K, the index of a handle.
pub(crate) fn index_in(behind: &[u8]) -> Result<HandleIndex, Unread>
    ensures { Reads result (index_in behind.now) }
{
    match index_of(next_word(behind)) {
        Some(index) => Ok(index),
        None => wrong(behind),
    }
}

#[tactic(auto, unfolding(crate::specs::Fields::offset_of))]
fn offset_of(word: &[u8]) -> Option<u64>
    ensures { result ≡ offset_of word.now }
{
    number_in(0, 18_446_744_073_709_551_615, word)
}

/// AT, an offset.
pub(crate) fn offset_in(behind: &[u8]) -> Result<u64, Unread>
    ensures { Reads result (offset_in behind.now) }
{
    match offset_of(next_word(behind)) {
        Some(offset) => Ok(offset),
        None => wrong(behind),
    }
}

#[tactic(auto, unfolding(crate::specs::Fields::length_of))]
fn length_of(word: &[u8]) -> Option<FileLength>
    ensures { result ≡ length_of word.now }
{
    match offset_of(word) {
        Some(bytes) => FileLength::of(bytes),
        None => None,
    }
}

/// LENGTH, which a file may have.
pub(crate) fn length_in(behind: &[u8]) -> Result<FileLength, Unread>
    ensures { Reads result (judged behind.now (length_of (next_word behind.now))) }
{
    match length_of(next_word(behind)) {
        Some(length) => Ok(length),
        None => wrong(behind),
    }
}

#[tactic(auto, unfolding(crate::specs::Fields::page_size_of))]
fn page_size_of(word: &[u8]) -> Option<PageSize>
    ensures { result ≡ page_size_of word.now }
{
    match number_in(1, MAX_RESULTS as u64, word) {
        Some(results) => Some(PageSize::of(results as u32)),
        None => None,
    }
}

/// MAX, how many results a page has at most.
pub(crate) fn page_size_in(behind: &[u8]) -> Result<PageSize, Unread>
    ensures { Reads result (judged behind.now (page_size_of (next_word behind.now))) }
{
    match page_size_of(next_word(behind)) {
        Some(size) => Ok(size),
        None => wrong(behind),
    }
}

#[tactic(auto, unfolding(crate::specs::Fields::read_range_of))]
fn read_range_of(at: u64, word: &[u8]) -> Option<ReadRange>
    ensures { result ≡ read_range_of at word.now }
{
    match number_in(1, TRANSFER_LIMIT as u64, word) {
        Some(count) => ReadRange::of(at, count as u32),
        None => None,
    }
}

/// COUNT, which completes the range of a read.
pub(crate) fn read_range_in(at: u64, behind: &[u8]) -> Result<ReadRange, Unread>
    ensures { Reads result (judged behind.now (read_range_of at (next_word behind.now))) }
{
    match read_range_of(at, next_word(behind)) {
        Some(range) => Ok(range),
        None => wrong(behind),
    }
}

/// So many bytes from an offset on, where a lock may have them.
fn counted_range(from: u64, count: u64) -> Option<ByteRange>
    ensures { result ≡ if_within is_byte_range (record { from = from; end = from + count }) }
{
    if count <= OFFSET_LIMIT && from <= OFFSET_LIMIT - count {
        ByteRange::of(from, from + count)
    } else {
        None
    }
}

#[tactic(auto, unfolding(crate::specs::Fields::byte_range_of))]
fn byte_range_of(from: u64, word: &[u8]) -> Option<ByteRange>
    ensures { result ≡ byte_range_of from word.now }
{
    match offset_of(word) {
        Some(count) => counted_range(from, count),
        None => None,
    }
}

/// COUNT, which completes the range of a lock.
pub(crate) fn byte_range_in(from: u64, behind: &[u8]) -> Result<ByteRange, Unread>
    ensures { Reads result (judged behind.now (byte_range_of from (next_word behind.now))) }
{
    match byte_range_of(from, next_word(behind)) {
        Some(range) => Ok(range),
        None => wrong(behind),
    }
}

/// The bytes of an even number of hexadecimal digits, in either case.
fn hex_bytes_of(alloc: Global, word: &[u8]) -> Result<Option<Vec<u8>>, NoMemory>
    ensures { IfOk result (λ bytes. option_map (λ b. b.items) bytes ≡ hex_bytes_of word.now) }
{
    match hex::decode(alloc, word) {
        Ok(bytes) => Ok(Some(bytes)),
        Err(FromHexError::OutOfMemory) => Err(NoMemory),
        Err(_) => Ok(None),
    }
}

/// A write of bytes at an offset, where one write may write them.
fn write_at(alloc: Global, at: u64, bytes: Vec<u8>) -> Result<Option<HandleWrite>, NoMemory>
    ensures { IfOk result (λ w. w ≡ if_within is_handle_write (record { at = at; piece = bytes.items })) }
{
    if bytes.is_empty() || (TRANSFER_LIMIT as usize) < bytes.len() {
        return Ok(None);
    }
    let piece = Piece::of(alloc, bytes)?;
    Ok(HandleWrite::of(at, piece))
}

#[tactic(auto, unfolding(crate::specs::Fields::write_of))]
fn write_of(alloc: Global, at: u64, word: &[u8]) -> Result<Option<HandleWrite>, NoMemory>
    ensures { IfOk result (λ w. w ≡ write_of at word.now) }
{
    match hex_bytes_of(alloc, word)? {
        Some(bytes) => write_at(alloc, at, bytes),
        None => Ok(None),
    }
}

/// HEX, which completes the range of a write.
pub(crate) fn write_in(alloc: Global, at: u64, behind: &[u8]) -> Result<HandleWrite, Unread>
    ensures { Reads result (judged behind.now (write_of at (next_word behind.now))) }
{
    match write_of(alloc, at, next_word(behind))? {
        Some(write) => Ok(write),
        None => wrong(behind),
    }
}

/// One of two words: whether it is the first.
pub(crate) fn choice_in(first: &[u8], second: &[u8], behind: &[u8]) -> Result<bool, Unread>
    ensures { Reads result (judged behind.now (choice_of first.now second.now (next_word behind.now))) }
{
    match choice_of(first, second, next_word(behind)) {
        Some(choice) => Ok(choice),
        None => wrong(behind),
    }
}
