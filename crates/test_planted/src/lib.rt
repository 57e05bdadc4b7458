//! Wrong states, steps and answers that are planted: the checker names each. Nothing is here but tests.
#![tactic(auto)]

#[cfg(test)]
mod tests;
