//! What no clause of sx_run says: the words of the command, and the service over memory and over the loopback, with
//! ample memory.
#![tactic(auto)]

#[cfg(test)]
mod at_once;
#[cfg(test)]
mod common;
#[cfg(test)]
mod failing;
#[cfg(test)]
mod faults;
#[cfg(test)]
mod loopback;
#[cfg(test)]
mod meeting;
#[cfg(test)]
mod ports;
#[cfg(test)]
mod service;
#[cfg(test)]
mod words;
#[cfg(test)]
mod workers;
