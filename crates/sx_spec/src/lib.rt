//! The single-threaded share: what an account is, what each of the 41 calls does to it and is answered, and the laws
//! on both.
#![tactic(auto)]

mod checks;
mod examples;
mod laws;

pub use checks::{Asks, Checks, LeaseAsk, Limit, LockAsk, OpenAsk, Overuse, Touch};
pub use examples::{
    a_byte_is_locked, a_directory_is_not_empty, a_file_is_deleted_on_close,
    a_file_with_an_open_is_made_anew, a_holder_meets_its_own_shared_lock, a_lease_meets_an_open,
    a_parent_is_pending, a_session_writes_and_reads, a_snapshot_asks_nothing_of_others,
    a_write_passes_the_quota, an_open_shares_no_reading, an_open_shares_too_little,
    handles_are_closed_by_scope, names_are_compared_folded, the_first_check_is_told,
    two_snapshots_at_one_moment,
};
pub use laws::{
    closing_cannot_fail, conflicts_are_exact, histories_begin_and_fit, histories_grow,
    refused_exactly_where_a_check_applies, snapshots_read_as_the_share_stood, steps_keep_wholeness,
};
