//! Condition variables, tried by threads. Nothing is here but tests: they meet them as their users
//! do.
#![tactic(auto)]

#[cfg(test)]
mod tests;
