//! Signals of threads beside locks: `Once`, whose closure runs once, whichever thread calls first;
//! a cell whose value is made once; and semaphores.
#![tactic(auto)]

pub mod once;
mod once_calls;
pub mod once_cell;
pub mod semaphore;
mod semaphore_calls;
pub mod showing;

pub use once::{Once, OnceFault};
pub use once_cell::OnceCell;
pub use semaphore::{Permit, Semaphore};
pub use showing::OnceShown;
pub use spec_locks::OnceState;
