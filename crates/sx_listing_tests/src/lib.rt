//! Tests of the bodies of listings: worked examples, and damaged bodies with the place of their fault.
#![tactic(auto)]

#[cfg(test)]
mod error;
#[cfg(test)]
mod handles;
#[cfg(test)]
mod made;
#[cfg(test)]
mod names;
#[cfg(test)]
mod ranges;
#[cfg(test)]
mod shares;
