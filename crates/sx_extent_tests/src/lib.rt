//! Tests of sparse files: worked examples, and that calls succeed with ample memory.
#![tactic(auto)]

#[cfg(test)]
mod files;
#[cfg(test)]
mod views;
