//! `Once`, once cells and semaphores, tried by threads. Nothing is here but tests.
#![tactic(auto)]

#[cfg(test)]
mod tests;
