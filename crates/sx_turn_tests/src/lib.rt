//! Tests of sx_turn, of what no clause of it says: calls come to an end and have memory, on one thread and on
//! several, and the answers are the same whatever the schedule.
#![tactic(auto)]

#[cfg(test)]
mod turns;
