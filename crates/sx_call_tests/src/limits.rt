//! The numbers of the limits.

use sx_call::{OFFSET_LIMIT, QUERY_TEXT_LIMIT, TRANSFER_LIMIT};
use sx_moment::TICKS_OF_A_SECOND;

/// Each limit is the number that the profile states.
#[test]
fn numbers_of_limits(rt: HostRuntime) {
    assert_eq!(rt; OFFSET_LIMIT, 1 << 63);
    assert_eq!(rt; TRANSFER_LIMIT, 1_048_576);
    assert_eq!(rt; QUERY_TEXT_LIMIT, 4_096);
    assert_eq!(rt; TICKS_OF_A_SECOND, 10_000_000);
}
