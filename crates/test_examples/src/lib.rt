//! Programs over the locks, as a user writes them. They run as tests.
#![tactic(auto)]

#[cfg(test)]
mod tests;
