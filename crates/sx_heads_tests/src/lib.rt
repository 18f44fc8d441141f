//! What no clause of sx_heads says: that requests are written with ample memory, and worked requests, byte by byte.
#![tactic(auto)]

#[cfg(test)]
mod directories;
#[cfg(test)]
mod files;
#[cfg(test)]
mod ranges;
#[cfg(test)]
mod shares;
#[cfg(test)]
mod written;
