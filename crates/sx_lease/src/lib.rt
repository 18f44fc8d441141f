//! Leases of files and of shares: a lease is available, leased under an id, or broken, and has no end.
#![tactic(auto)]

mod lease;

pub use lease::{FileLease, LeaseCheck, LeaseId, LeaseSay, LeaseState, ShareLease, first_lease_id};
