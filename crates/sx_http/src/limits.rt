//! The limits of a request.

/// The most bytes of a head (this profile's rule).
pub const HEAD_LIMIT: usize = 65_536;

/// The most headers of a head (this profile's rule).
pub const HEADER_LIMIT: usize = 100;

/// The most bytes of a body (this profile's rule).
pub const BODY_LIMIT: u64 = 4_194_304;

/// How many headers the parser has room for: more than a head within its limit can have, since each takes at least 3
/// bytes.
pub(crate) const SLOT_COUNT: usize = 21_846;

/// The most bytes that one read of a head asks for.
pub(crate) const READ_LIMIT: u64 = 65_536;
