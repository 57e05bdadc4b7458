//! Searches of programs, tried. Nothing is here but tests: they meet the search as the crates above it
//! do.
#![tactic(auto)]

#[cfg(test)]
mod tests;
