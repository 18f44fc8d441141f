//! Tests of trees: worked examples, and that calls succeed with ample memory.
#![tactic(auto)]

#[cfg(test)]
mod changes;
#[cfg(test)]
mod made;
#[cfg(test)]
mod pages;
#[cfg(test)]
mod paths;
