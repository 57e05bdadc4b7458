//! The driver of real threads: it leads a call through the places that the simulated world runs,
//! and does each act on the lot.
#![tactic(auto)]

mod acting;
pub mod driver;
pub mod laws;
pub mod limits;
mod sleepers;
mod taking;
pub mod turns;
pub mod words;
