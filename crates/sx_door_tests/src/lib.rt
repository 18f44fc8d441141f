//! What no clause of sx_smb_door says: readers and sessions, with ample memory.
#![tactic(auto)]

#[cfg(test)]
mod lines;
#[cfg(test)]
mod session;
#[cfg(test)]
mod threads;
