//! Runs a program of threads and locks by one schedule after another.
//!
//! `explore` runs the program again and again, each time in a thread of its own and by a director of its
//! own. A run that deadlocks leaves its threads asleep, since nothing can end them. The run that went
//! wrong is told as a schedule of the simulator, which takes it too (`judge`): so what is said of owners is
//! what the simulated locks have.
#![tactic(auto)]

mod failure;
mod judge;
mod report;
mod runs;
mod schedule;
mod script;
mod search;
mod silent;
mod summary;
mod waits;

pub use core_director::{
    CallName, Choice, Course, Deed, Director, Ending, Grain, Log, Member, Policy, Turn,
};
pub use failure::Failure;
pub use report::json;
pub use runs::explore;
pub use script::{script_from, script_text};
pub use search::Search;
pub use summary::{Summary, Tally};
