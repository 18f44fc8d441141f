//! Tests of requests, of their signatures and of the commands over one head.
#![tactic(auto)]

#[cfg(test)]
mod http;
#[cfg(test)]
mod key;
#[cfg(test)]
mod tool;
