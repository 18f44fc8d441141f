//! Bytes that calls write, with the place in the file where they are written.
ghost use Rattle.std.specs.Prelude.{◌≡◌, ◌+◌, ◌≤◌, length, IfOk};
ghost use Rattle.sx_call.specs.Limits.{if_within};
ghost use Rattle.sx_call.specs.Updates.{is_handle_write, is_range_update};
ghost use Rattle.sx_call.specs.declared.ranges.TheConstants.{OFFSET_LIMIT};
ghost use Rattle.sx_extent.specs.Ranges.{most_bytes};

use crate::ranges::{OFFSET_LIMIT, TRANSFER_LIMIT};
use std::marker::Model;
use sx_extent::{FILE_LIMIT, Piece};
use sx_memory::NoMemory;

/// The bytes of a Put Range with `update`: 1 to 4,194,304, which end at most at 2^63. Whether they lie in the file is
/// seen when the call is done.
#[derive(Debug, Drop)]
pub struct RangeUpdate {
    /// The offset of the first byte.
    pub from: u64,
    /// The bytes.
    pub piece: Piece,
}

impl Model for RangeUpdate {
    ghost use Rattle.std.specs.Prelude.{◌≡◌, true};
    ghost use Rattle.sx_call.specs.Updates.{PieceFrom, is_range_update};

    ghost Value = { PieceFrom };

    ghost view = { λ u. record { from = u.from; piece = u.piece } };

    ghost invariant = { λ u. is_range_update (record { from = u.from; piece = u.piece }) ≡ true };
}

impl RangeUpdate {
    /// A piece at an offset, where one Put Range may write it.
    pub fn of(from: u64, piece: Piece) -> Option<RangeUpdate>
        ensures { result ≡ if_within is_range_update (record { from = from; piece = piece }) }
    {
        let count = piece.bytes().len() as u64;
        if from <= OFFSET_LIMIT - count {
            Some(RangeUpdate { from, piece })
        } else {
            None
        }
    }

    /// The offset past the last byte.
    pub fn end(&self) -> u64
        ensures value { result ≡ self.now.from + length self.now.piece }
        ensures limit { result ≤ OFFSET_LIMIT }
    {
        self.from + self.piece.bytes().len() as u64
    }

    /// An equal update of its own.
    pub fn copy(&self) -> Result<RangeUpdate, NoMemory>
        ensures { IfOk result (λ u. u ≡ self.now) }
    {
        Ok(RangeUpdate {
            from: self.from,
            piece: self.piece.copy()?,
        })
    }
}

/// A write through a handle: 1 to 1,048,576 bytes, which end at most at 4 TiB, past the end of the file too.
#[derive(Debug, Drop)]
pub struct HandleWrite {
    /// The offset of the first byte.
    pub at: u64,
    /// The bytes.
    pub piece: Piece,
}

impl Model for HandleWrite {
    ghost use Rattle.std.specs.Prelude.{◌≡◌, true};
    ghost use Rattle.sx_call.specs.Updates.{PieceAt, is_handle_write};

    ghost Value = { PieceAt };

    ghost view = { λ w. record { at = w.at; piece = w.piece } };

    ghost invariant = { λ w. is_handle_write (record { at = w.at; piece = w.piece }) ≡ true };
}

impl HandleWrite {
    /// A piece at an offset, where one write may write it.
    pub fn of(at: u64, piece: Piece) -> Option<HandleWrite>
        ensures { result ≡ if_within is_handle_write (record { at = at; piece = piece }) }
    {
        let count = piece.bytes().len() as u64;
        if count <= u64::from(TRANSFER_LIMIT) && at <= FILE_LIMIT - count {
            Some(HandleWrite { at, piece })
        } else {
            None
        }
    }

    /// The offset past the last byte.
    pub fn end(&self) -> u64
        ensures value { result ≡ self.now.at + length self.now.piece }
        ensures limit { result ≤ most_bytes }
    {
        self.at + self.piece.bytes().len() as u64
    }

    /// An equal write of its own.
    pub fn copy(&self) -> Result<HandleWrite, NoMemory>
        ensures { IfOk result (λ w. w ≡ self.now) }
    {
        Ok(HandleWrite {
            at: self.at,
            piece: self.piece.copy()?,
        })
    }
}
