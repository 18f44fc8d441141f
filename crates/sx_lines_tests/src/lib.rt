//! Tests of the lines of sessions: worked lines and answers, byte by byte, read, written and printed with ample memory.
#![tactic(auto)]

#[cfg(test)]
mod answers;
#[cfg(test)]
mod calls;
#[cfg(test)]
mod faults;
#[cfg(test)]
mod lines;
#[cfg(test)]
mod pages;
