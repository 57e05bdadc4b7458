//! What a search of a program has found, as data: the moves that lead there and where they lead, what is
//! said in one line, and who waits for what.
#![tactic(auto)]

pub mod finding;
pub mod grain;
pub mod headline;
pub mod readings;
pub mod schedule;
pub mod source;
pub mod waits;
pub mod walks;
pub mod words;

pub use finding::{Finding, Lap, new_world};
pub use grain::{GrainName, Turns};
pub use headline::{Headline, Scope, Start};
pub use readings::{Reading, write_readings};
pub use schedule::write_schedule;
pub use source::Source;
pub use waits::{Waiting, locks_owned, waitings, write_waitings};
pub use walks::{finding_by, walk_by, walk_on};
pub use words::{cause_of, end_of, instruction_of, line_of, sort_words, test_words};
