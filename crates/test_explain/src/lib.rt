//! Explanations of replays, tried. Nothing is here but tests.
#![tactic(auto)]

#[cfg(test)]
mod tests;
