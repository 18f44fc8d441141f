//! The calls on shares and snapshots, each equal to what the definitions say of it at its place.
#![tactic(auto)]

mod items;
mod leases;
mod listing;
mod making;
mod reading;
mod snapshots;
mod writing;

pub use leases::lease_share;
pub use listing::list_shares;
pub use making::{create_share, delete_share};
pub use reading::{get_share_metadata, get_share_properties};
pub use snapshots::{delete_snapshot, snapshot_share};
pub use sx_memory::NoMemory;
pub use writing::{set_share_metadata, set_share_properties};
