//! Tests of reading requests: a request of each call, and each refusal of one, with ample memory.
#![tactic(auto)]

#[cfg(test)]
mod calls;
#[cfg(test)]
mod refusals;
#[cfg(test)]
mod table;
#[cfg(test)]
mod told;
