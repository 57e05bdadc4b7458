//! Parts of short programs: a value under a mutex, with the condition variables on which its threads
//! wait; and the threads of one lot, which run closures with their tokens.
#![tactic(auto)]

pub mod monitor;
mod retries;
pub mod team;
pub mod waits;

pub use monitor::Monitor;
pub use team::Team;
