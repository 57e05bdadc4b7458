//! Drains, tried: of worked schedules, and of worlds that a walk leads to. Nothing is here but tests.
#![tactic(auto)]

#[cfg(test)]
mod tests;
