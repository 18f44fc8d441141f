//! Intervals of bytes that calls name, each with the limits of its kind.
ghost use Rattle.std.specs.Prelude.{◌≡◌, ◌+◌, ◌≤◌, ◌<◌};
ghost use Rattle.sx_call.specs.Limits.{if_within};
ghost use Rattle.sx_call.specs.Ranges.{is_byte_range, is_first, is_read_range};

use std::marker::Model;

/// What the offsets that a call names lie below: 2^63.
pub const OFFSET_LIMIT: u64 = 9_223_372_036_854_775_808;

/// The most bytes of one read or write through a handle: 1 MiB.
pub const TRANSFER_LIMIT: u32 = 1_048_576;

/// The bytes from `from` on, as far as `last` where it is given, as the header Range names them: `bytes=FROM-` or
/// `bytes=FROM-LAST`.
#[derive(Clone, Copy, Debug, PartialEq, Eq)]
pub struct First {
    /// The offset of the first byte, below 2^63.
    pub from: u64,
    /// The offset of the last byte, at least `from` and below 2^63.
    pub last: Option<u64>,
}

impl Model for First {
    ghost use Rattle.std.specs.Prelude.{◌≡◌, true};
    ghost use Rattle.sx_call.specs.Ranges.{BytesFrom, is_first};

    ghost Value = { BytesFrom };

    ghost view = { λ f. record { from = f.from; last = f.last } };

    ghost invariant = { λ f. is_first (record { from = f.from; last = f.last }) ≡ true };

    ghost inverse = { λ b. record { from = b.from; last = b.last } };
}

impl First {
    /// These bytes, where a header Range may name them.
    pub fn of(from: u64, last: Option<u64>) -> Option<First>
        ensures { result ≡ if_within is_first (record { from = from; last = last }) }
    {
        let is_last = match last {
            Some(last) => from <= last && last < OFFSET_LIMIT,
            None => true,
        };
        if from < OFFSET_LIMIT && is_last {
            Some(First { from, last })
        } else {
            None
        }
    }
}

/// The bytes from `from` to before `end`, at least one: what is cleared, locked or unlocked.
#[derive(Clone, Copy, Debug, PartialEq, Eq)]
pub struct ByteRange {
    /// The offset of the first byte.
    pub from: u64,
    /// The offset past the last byte, above `from` and at most 2^63.
    pub end: u64,
}

impl Model for ByteRange {
    ghost use Rattle.std.specs.Prelude.{◌≡◌, true};
    ghost use Rattle.sx_extent.specs.Ranges.{Interval};
    ghost use Rattle.sx_call.specs.Ranges.{is_byte_range};

    ghost Value = { Interval };

    ghost view = { λ r. record { from = r.from; end = r.end } };

    ghost invariant = { λ r. is_byte_range (record { from = r.from; end = r.end }) ≡ true };

    ghost inverse = { λ i. record { from = i.from; end = i.end } };
}

impl ByteRange {
    /// These bytes, where a call may name them.
    pub fn of(from: u64, end: u64) -> Option<ByteRange>
        ensures { result ≡ if_within is_byte_range (record { from = from; end = end }) }
    {
        if from < end && end <= OFFSET_LIMIT {
            Some(ByteRange { from, end })
        } else {
            None
        }
    }
}

/// A read through a handle: at most `count` bytes from `at` on.
#[derive(Clone, Copy, Debug, PartialEq, Eq)]
pub struct ReadRange {
    /// The offset of the first byte.
    pub at: u64,
    /// How many bytes are asked for: 1 to 1,048,576. The range ends at most at 2^63.
    pub count: u32,
}

impl Model for ReadRange {
    ghost use Rattle.std.specs.Prelude.{◌≡◌, true};
    ghost use Rattle.sx_call.specs.Ranges.{BytesAt, is_read_range};

    ghost Value = { BytesAt };

    ghost view = { λ r. record { at = r.at; count = r.count } };

    ghost invariant = { λ r. is_read_range (record { at = r.at; count = r.count }) ≡ true };

    ghost inverse = { λ b. record { at = b.at; count = b.count } };
}

impl ReadRange {
    /// So many bytes from an offset on, where one read may ask for them.
    pub fn of(at: u64, count: u32) -> Option<ReadRange>
        ensures { result ≡ if_within is_read_range (record { at = at; count = count }) }
    {
        if 0 < count && count <= TRANSFER_LIMIT && at <= OFFSET_LIMIT - u64::from(count) {
            Some(ReadRange { at, count })
        } else {
            None
        }
    }

    /// The offset past the last byte that is asked for.
    pub fn end(self) -> u64
        ensures value { result ≡ self.at + self.count }
        ensures limit { self.at + self.count ≤ OFFSET_LIMIT }
        ensures some { self.at < self.at + self.count }
    {
        self.at + u64::from(self.count)
    }
}
