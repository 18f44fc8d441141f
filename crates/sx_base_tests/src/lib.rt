//! What no clause of sx_text and sx_base says: worked examples, ample memory, and the adapters to the system.
#![tactic(auto)]

#[cfg(test)]
mod adapters;
#[cfg(test)]
mod buffers;
#[cfg(test)]
mod connections;
#[cfg(test)]
mod dates;
#[cfg(test)]
mod links;
#[cfg(test)]
mod lists;
#[cfg(test)]
mod moments;
#[cfg(test)]
mod printing;
#[cfg(test)]
mod steps;
#[cfg(test)]
mod texts;
