//! The REST calls on files and directories, each equal to what the definitions say of it at its place.
#![tactic(auto)]

mod bytes;
mod leases;
mod listing;
mod making;
mod properties;
mod reading;
mod writing;

pub use bytes::{get_file, list_ranges};
pub use leases::lease_file;
pub use listing::list_directory;
pub use making::{create_directory, create_file};
pub use properties::set_file_properties;
pub use reading::{
    get_directory_metadata, get_directory_properties, get_file_metadata, get_file_properties,
};
pub use sx_memory::NoMemory;
pub use writing::{
    clear_range, delete_directory, delete_file, set_directory_metadata, set_file_metadata,
    update_range,
};
