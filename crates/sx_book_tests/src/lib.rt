//! What no clause of sx_book says: that its calls come to an end and have memory, on one thread and on two.
#![tactic(auto)]

#[cfg(test)]
mod book;
#[cfg(test)]
mod common;
#[cfg(test)]
mod office;
#[cfg(test)]
mod threads;
