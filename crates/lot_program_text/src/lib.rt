//! The text of a program of lock calls.
#![tactic(auto)]

pub mod parser;
pub mod properties;

pub use lot_program_flow::{Answers, Warning, answer_words, warnings_of};
pub use lot_program_lines::{NamedThread, Shown, TextError, ThreadName, Variable};
pub use parser::{Ending, ProgramText, parse};
