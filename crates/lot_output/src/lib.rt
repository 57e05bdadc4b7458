//! What a search of a program has found, as JSON and as pictures.
#![tactic(auto)]

pub mod json;
pub mod pictures;

pub use json::{write_headline, write_json, write_remarked};
pub use pictures::record_turns;
