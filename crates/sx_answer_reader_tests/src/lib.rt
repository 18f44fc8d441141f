//! Tests of the reader of answers: worked lines of each answer, and lines that no answer has.
#![tactic(auto)]

#[cfg(test)]
mod answers;
#[cfg(test)]
mod faults;
#[cfg(test)]
mod refusals;
