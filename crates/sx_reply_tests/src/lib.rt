//! Tests of printed answers: worked examples of each kind, byte by byte, and the table of refusals.
#![tactic(auto)]

#[cfg(test)]
mod faults;
#[cfg(test)]
mod files;
#[cfg(test)]
mod made;
#[cfg(test)]
mod refusals;
#[cfg(test)]
mod replies;
