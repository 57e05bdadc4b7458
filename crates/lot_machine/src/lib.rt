//! The world's machine: places, locks, sections and queues, and each act of a thread, exactly.
#![tactic(auto)]

mod acts;
mod copies;
pub mod debts;
pub mod hands;
pub mod laws;
pub mod locks;
pub mod machine;
pub mod parts;
pub mod shares;
mod turns;
pub mod views;

pub use debts::{Debt, DebtBook, Debts};
pub use hands::Successor;
pub use locks::Lock;
pub use machine::Machine;
pub use parts::Parts;
pub use views::{OwnersOf, QueueOf};
