//! Hostile schedules: every step of a world goes through a slow checker, also where a line of another sort
//! disturbs the schedule.
#![tactic(auto)]

pub mod checked;
pub mod disturbed;
pub mod scripts;
#[cfg(test)]
mod tests;
