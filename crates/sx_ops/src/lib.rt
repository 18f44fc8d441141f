//! Every call of the account: what an entry does to the state and is answered is what the definitions say of it.
#![tactic(auto)]

mod files;
mod rest;
mod serving;
mod sessions;
mod shares;

pub use serving::serve;
pub use sx_memory::NoMemory;
