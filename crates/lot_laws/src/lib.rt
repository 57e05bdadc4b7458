//! The machine behaves as the abstract locks: what is promised of its states and steps, and the
//! proofs.
#![tactic(auto)]

pub mod laws;
