//! Threads that meet in the queues of a lot. Nothing is here but tests: they meet the lot as the
//! locks above it do.
#![tactic(auto)]

#[cfg(test)]
mod tests;
