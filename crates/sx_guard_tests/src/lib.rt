//! Tests of sx_guard and sx_lease, of what no clause of theirs says: worked rows, and that calls succeed with ample
//! memory.
#![tactic(auto)]

#[cfg(test)]
mod leases;
#[cfg(test)]
mod locks;
#[cfg(test)]
mod sharing;
