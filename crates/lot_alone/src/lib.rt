//! Calls of one thread that goes on alone end, or fall asleep, within a bounded number of steps.
#![tactic(auto)]
