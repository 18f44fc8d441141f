//! Tests of names and plain fields: worked examples, and that calls succeed with ample memory.
#![tactic(auto)]

#[cfg(test)]
mod fields;
#[cfg(test)]
mod made;
#[cfg(test)]
mod names;
#[cfg(test)]
mod paths;
