//! Tests of calls: the numbers of the limits, and that copies succeed with ample memory.
#![tactic(auto)]

#[cfg(test)]
mod copies;
#[cfg(test)]
mod directories;
#[cfg(test)]
mod files;
#[cfg(test)]
mod limits;
#[cfg(test)]
mod made;
#[cfg(test)]
mod sessions;
#[cfg(test)]
mod shares;
