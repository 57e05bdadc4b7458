//! What a program's instructions alone say: what calls have answered before each, and what is hardly meant so.
#![tactic(auto)]

pub mod answers;
pub mod warnings;

pub use answers::{Answers, Unanswered, answer_words, unanswered_in};
pub use warnings::{Warning, warnings_of};
