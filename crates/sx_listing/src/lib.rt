//! The bodies of listings and of errors: each is written by one function, and read back by another.
#![tactic(auto)]

mod body;
mod error;
mod etags;
mod handles;
mod handles_reader;
mod moments;
mod names;
mod names_reader;
mod percent;
mod percent_reader;
mod ranges;
mod shares;
mod shares_reader;
mod texts;

pub use body::BodyFault;
pub use error::{ErrorBody, errors_are_read_back, read_error, write_error};
pub use handles::write_handles;
pub use handles_reader::{handles_are_read_back, read_handles};
pub use moments::append_moment;
pub use names::write_names;
pub use names_reader::{names_are_read_back, read_names};
pub use ranges::{MAX_OFFSET, ranges_are_read_back, read_ranges, write_ranges};
pub use shares::write_shares;
pub use shares_reader::{read_shares, shares_are_read_back};
