//! Lengths of files.
ghost use Rattle.std.specs.Prelude.{◌≡◌, ◌≤◌};
ghost use Rattle.sx_call.specs.Limits.{if_within};
ghost use Rattle.sx_call.specs.Lengths.{is_file_length};
ghost use Rattle.sx_extent.specs.Ranges.{most_bytes};

use std::marker::Model;
use sx_extent::FILE_LIMIT;

/// A length that a call gives a file: 0 to 4,398,046,511,104 bytes (4 TiB). Contracts see the number of bytes.
#[derive(Clone, Copy, Debug, PartialEq, Eq)]
pub struct FileLength {
    bytes: u64,
}

impl Model for FileLength {
    ghost use Rattle.std.specs.Prelude.{◌≡◌, ℕ, true};
    ghost use Rattle.sx_call.specs.Lengths.{is_file_length};

    ghost Value = { ℕ };

    ghost view = { λ l. l.bytes };

    ghost invariant = { λ l. is_file_length l.bytes ≡ true };

    ghost inverse = { λ n. record { bytes = n } };
}

impl FileLength {
    /// A length of so many bytes, where a file may have it.
    pub fn of(bytes: u64) -> Option<FileLength>
        ensures { result ≡ if_within is_file_length bytes }
    {
        if bytes <= FILE_LIMIT {
            Some(FileLength { bytes })
        } else {
            None
        }
    }

    /// The number of bytes.
    pub fn bytes(self) -> u64
        ensures value { result ≡ self }
        ensures limit { self ≤ most_bytes }
    {
        self.bytes
    }
}
