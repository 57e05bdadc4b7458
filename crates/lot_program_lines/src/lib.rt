//! The lines of a program's text: words, names, calls and conditions, and the instructions of one block of threads.
#![tactic(auto)]

pub mod blocks;
pub mod calls;
pub mod conditions;
pub mod malformed;
pub mod names;
pub mod sections;
pub mod words;

pub use blocks::{Block, BlockSort, of_runner};
pub use calls::{Locks, call, declared};
pub use conditions::Scope;
pub use malformed::{Shown, TextError};
pub use names::{Constants, NamedThread, ThreadName, Threads, Variable, Variables};
pub use sections::{Failing, MOST_CODE, Section};
