//! The lot, tried by one thread: each call of it, and both kinds of queues. What a thread takes to
//! line up is for `test_meets` too.
#![tactic(auto)]

pub mod lines;
pub mod mutexes;
#[cfg(test)]
mod tests;
