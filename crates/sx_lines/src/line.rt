//! What a session's line says.

use sx_call::Call;

/// The most bytes of a line, its line feed not counted (this profile's rule).
pub const LINE_LIMIT: u64 = 2_097_408;

/// What a session's line says.
#[derive(Debug, Drop)]
pub enum Line {
    /// It asks for a call.
    Ask(Call),
    /// It ends the session.
    Quit,
}

/// Why a line says nothing.
#[derive(Clone, Copy, Debug, PartialEq, Eq)]
pub enum LineFault {
    /// A word isn't as it must be.
    Syntax {
        /// The offset of the first such word, in bytes: the line's length where a word is missing.
        at: u64,
    },
    /// No memory was left to keep the call.
    NoMemory,
}
