//! What reading a body answers where it gives no value.

/// Why bytes were not read as a body.
#[derive(Clone, Copy, Debug, PartialEq, Eq)]
pub enum BodyFault {
    /// The bytes are no such body. `at` is the length in bytes of their longest prefix that begins one.
    Bad {
        /// The length of the longest prefix that begins such a body.
        at: u64,
    },
    /// Out of memory.
    NoMemory,
}
