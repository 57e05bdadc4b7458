//! Which thread of a lot runs: one at a time, by a policy and a seed.
//!
//! A thread asks for its turn before each thing that it does, and waits until the director gives it
//! (`Director::turn`). The `Plan` knows what each thread is about to do, and chooses who is next: among
//! the same threads, by the same course, always the same one. So a run repeats. Nobody is given a turn
//! before all threads are there, and which of them came last is not asked.
#![tactic(auto)]

mod calls;
mod chooser;
mod course;
mod crew;
mod director;
mod gates;
mod log;
mod plan;
mod random;
mod turns;

pub use calls::CallName;
pub use course::{Course, Grain, Policy};
pub use crew::{Member, Status};
pub use director::{Director, MOST_THREADS};
pub use log::{Choice, Log, NewWord, Sort};
pub use turns::{Deed, Ending, Turn};
