//! The words of a lot under one rule: each lock word is the code of what all that step on it own
//! together.
#![tactic(auto)]

pub mod draws;
pub mod free;
pub mod laws;
pub mod owners;
pub mod permits;
pub mod plays;
pub mod rights;
pub mod shown;
pub mod table;
pub mod views;
pub mod words;

pub use owners::{Owner, Ownership};
pub use permits::OpenHeld;
pub use rights::{Held, Right};
pub use table::{LotWords, Seat};
pub use views::{Counting, Drawn, Naming, View, WordStep};
pub use words::{Word, WordKind};
