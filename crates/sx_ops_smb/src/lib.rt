//! The calls of sessions, each equal to what the definitions say of it at its place.
#![tactic(auto)]

mod bytes;
mod closing;
mod handles;
mod locking;
mod opening;
mod places;
mod sessions;
mod showing;

pub use bytes::{smb_read, smb_resize, smb_write};
pub use closing::{smb_close, smb_dispose};
pub use handles::{force_close_handles, list_handles};
pub use locking::{smb_lock, smb_unlock};
pub use opening::smb_open;
pub use sessions::{smb_end, smb_start};
pub use showing::{smb_list, smb_stat};
pub use sx_memory::NoMemory;
