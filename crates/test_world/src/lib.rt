//! The world and the steps of calls, tried. Nothing is here but tests: they meet both as the crates
//! above them do.
#![tactic(auto)]

#[cfg(test)]
mod tests;
