//! The names of a lot's threads, by which a thread finds the mutexes that it has counted, and the
//! shares of counts.
#![tactic(auto)]

pub mod name;
pub mod plays;

pub use name::{CountShare, Name};
