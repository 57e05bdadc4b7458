//! Programs that run by chosen schedules. They run as tests.
#![tactic(auto)]

#[cfg(test)]
mod tests;
