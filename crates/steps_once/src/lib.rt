//! The steps of every call of a `Once`.
//!
//! A wait with a deadline is a call of its own. A thread whose time is up has places of its own
//! (`GiveUp`), which no other call comes to, so that no clause has to say that only timed calls come
//! there.
#![tactic(auto)]

pub mod give_up;
pub mod laws;
pub mod look;
pub mod places;
pub mod run;

pub use give_up::GiveUpAt;
pub use look::{Course, LookAt};
pub use places::{DONE, LOCKED, NOT_PARKED, OncePlace, PARKED, POISONED};
pub use run::RunAt;
