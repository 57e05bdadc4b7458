//! The text of schedules and of what they lead to: lines, their meanings, and the printed forms.
#![tactic(auto)]

pub mod answers;
pub mod grammar;
pub mod input;
pub mod names;
pub mod output;
pub mod steps;
pub mod turns;
mod words;

pub use answers::{print_malformed, print_no_memory, print_turn};
pub use grammar::{Command, NamedCall, NamedTurn, meaning, numbers_are_decimal};
pub use input::{LINE_LEN, Reading, read_line};
pub use names::{Name, Names};
pub use output::{Page, send_all};
pub use steps::{print_drain_refused, print_drain_step, print_step, steps_are_read_back};
pub use turns::{Line, PlainTurn, ShownLine, first_line};
