//! Schedules: lines in, lines out, of any number of threads over named locks.
#![tactic(auto)]

pub mod actions;
pub mod drains;
pub mod replay;
mod session;
pub mod show;
pub mod start;
pub mod state;
pub mod status;
