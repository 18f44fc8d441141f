//! What no clause of sx_rest_door says: connections, also beside a session, with ample memory.
#![tactic(auto)]

#[cfg(test)]
mod both;
#[cfg(test)]
mod conn;
#[cfg(test)]
mod faults;
#[cfg(test)]
mod refused;
#[cfg(test)]
mod rows;
#[cfg(test)]
mod threads;
#[cfg(test)]
mod uncalled;
#[cfg(test)]
mod unread;
