//! Mutexes, raw and with a value, tried by threads. Nothing is here but tests: they meet the mutexes as
//! their users do.
#![tactic(auto)]

#[cfg(test)]
mod tests;
