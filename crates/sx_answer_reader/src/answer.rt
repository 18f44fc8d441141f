//! What the lines of a session's answers tell.

use crate::reason::Reason;
use std::alloc::AllocError;
use sx_base::{Items, NoMemory};
use sx_call::{Fate, Stop};
use sx_guard::HandleIndex;
use sx_names::{Attributes, Text};

/// A name in a page of a directory's names.
#[derive(Debug, Drop, PartialEq)]
pub struct Entry {
    /// Whether it is a directory's.
    pub dir: bool,
    /// The file's length in bytes, and 0 for a directory.
    pub length: u64,
    /// The name as it is kept.
    pub name: Text,
}

/// What a session's call is told, where it was not refused.
#[derive(Debug, Drop)]
pub enum Told {
    /// The session is started.
    Started {
        /// Its number.
        session: u32,
    },
    /// The session is ended.
    Ended {
        /// How many handles were closed.
        closed: u32,
    },
    /// The file or directory is open.
    Opened {
        /// The handle's index in the session.
        index: HandleIndex,
        /// Whether the open made it.
        made: bool,
        /// Its id.
        id: u64,
        /// Its length in bytes.
        length: u64,
    },
    /// The handle is closed.
    Closed {
        /// What its file or directory is now.
        fate: Fate,
    },
    /// The bytes that were read.
    Read {
        /// They are none at or past the end of the file.
        bytes: Items<u8>,
    },
    /// The bytes are written.
    Wrote {
        /// How many they were.
        count: u32,
        /// The file's length after it, in bytes.
        length: u64,
    },
    /// The file has a new length.
    Resized {
        /// The length in bytes.
        length: u64,
    },
    /// The range is locked.
    Locked,
    /// The lock is removed.
    Unlocked,
    /// What the file or directory is.
    Stats {
        /// Its id.
        id: u64,
        /// Whether it is a directory.
        dir: bool,
        /// Its length in bytes, and 0 for a directory.
        length: u64,
        /// Its attributes.
        attributes: Attributes,
        /// Its creation time, in ticks of 100 ns since 1970.
        created: u64,
        /// Its last write time, in ticks.
        written: u64,
        /// Its change time, in ticks.
        changed: u64,
    },
    /// A page of the directory's names.
    Listed {
        /// The names.
        entries: Items<Entry>,
        /// The name in which the next page begins. It is empty at the end.
        next: Text,
    },
    /// The handle's mark for delete on close is set or taken off.
    Disposed,
}

/// What the line of an answer tells.
#[derive(Debug, Drop)]
pub enum Answer {
    /// The call was appended to the history, and was not refused.
    Done {
        /// The place of its entry, counted from 1.
        place: u64,
        /// What it is told.
        told: Told,
    },
    /// The call was appended to the history, and was refused.
    Refused {
        /// The place of its entry, counted from 1.
        place: u64,
        /// Why it was refused.
        reason: Reason,
    },
    /// A word of the line that was asked isn't as it must be.
    Syntax {
        /// The offset of the first such word, in bytes.
        at: u64,
    },
    /// The line that was asked is over its limit.
    Long,
    /// The call was not appended to the history.
    Stop(Stop),
}

/// Why a line was not read.
#[derive(Clone, Copy, Debug, PartialEq, Eq)]
pub enum Unread {
    /// It is the line of no answer.
    NoAnswer,
    /// No memory was left to keep what is told.
    NoMemory,
}

impl From<AllocError> for Unread {
    ghost use Rattle.std.specs.Prelude.{◌≡◌};
    ghost use Rattle.sx_answer_reader.specs.declared.answer.Unread.TheVariants.{NoMemory};

    ghost from_gives = { λ _ e. e ≡ NoMemory };

    fn from(_error: AllocError) -> Unread {
        Unread::NoMemory
    }
}

impl From<NoMemory> for Unread {
    ghost use Rattle.std.specs.Prelude.{◌≡◌};
    ghost use Rattle.sx_answer_reader.specs.declared.answer.Unread.TheVariants.{NoMemory};

    ghost from_gives = { λ _ e. e ≡ NoMemory };

    fn from(_error: NoMemory) -> Unread {
        Unread::NoMemory
    }
}
