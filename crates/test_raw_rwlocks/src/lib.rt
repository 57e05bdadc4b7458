//! Raw reader-writer locks, tried by threads. Nothing is here but tests: they meet the locks as
//! their users do.
#![tactic(auto)]

#[cfg(test)]
mod tests;
