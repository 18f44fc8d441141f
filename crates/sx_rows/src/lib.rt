//! What the service answers over both doors, row by row.
#![tactic(auto)]

#[cfg(test)]
mod asking;
#[cfg(test)]
mod bytes_of_files;
#[cfg(test)]
mod directories;
#[cfg(test)]
mod faults;
#[cfg(test)]
mod files;
#[cfg(test)]
mod handles;
#[cfg(test)]
mod leases;
#[cfg(test)]
mod limits;
#[cfg(test)]
mod locks;
#[cfg(test)]
mod named;
#[cfg(test)]
mod opening;
#[cfg(test)]
mod opens;
#[cfg(test)]
mod saying;
#[cfg(test)]
mod shares;
#[cfg(test)]
mod snapshots;
#[cfg(test)]
mod sparse;
#[cfg(test)]
mod upload;
