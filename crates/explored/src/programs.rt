//! Programs with a known bug each, as a user writes them, and with its cure.
//!
//! Of schedules they know `Team::directed` alone, and where they assert something `Director::check`.

pub mod counter;
pub mod forks;
pub mod lazy;
pub mod queue;
pub mod readers;
pub mod sorts;
pub mod trials;

/// Whether a program has its bug.
#[derive(Clone, Copy, Debug, PartialEq, Eq)]
pub enum Version {
    Wrong,
    Cured,
}
