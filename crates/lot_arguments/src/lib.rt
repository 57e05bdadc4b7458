//! The arguments of `lotexplore`.
#![tactic(auto)]

pub mod arguments;

pub use arguments::{Arguments, Form, Grains, Job, MOST_TURNS, Way, job_from};
