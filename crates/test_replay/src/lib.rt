//! Replays of whole inputs: how lines are read and printed, and what a broken device leaves. Worked schedules
//! are the transcripts of the program `replays`. Nothing is here but tests.
#![tactic(auto)]

#[cfg(test)]
mod tests;
