//! The state of the account: where calls act in it, what refuses them there, and the changes that calls are made of.
#![tactic(auto)]

mod asks;
mod by_node;
mod checks;
mod closing;
mod facts;
mod handles;
mod holding;
mod leases;
mod listing;
mod locked;
mod needs;
mod opens;
mod places;
mod scopes;
mod seeking;
mod sessions;
mod shares;
mod snapshots;
mod state;
mod trees;
mod views;

pub use checks::{
    all_shared, asks_nothing, file_checks, held_checks, read_only_check, share_asks, unchecked,
};
pub use facts::{FactsChange, new_facts, shown_of, stamp_of, time_given};
pub use leases::{lease_after, lease_reply, lease_shown};
pub use needs::{
    access_needed, end_of_span, first_of_span, has_rights, heeds_read_only, is_out_of_file,
    lease_given, new_marks, touched, writes_under_lease,
};
pub use places::{
    FilePlace, HandlePlace, HeldFile, MakingPlace, NodePlace, SharePlace, Spot, Volume, Where,
};
pub use seeking::{live_volume, may_make, of_kind};
pub use shares::ShareChange;
pub use state::State;
pub use sx_memory::NoMemory;
pub use views::view_within;
