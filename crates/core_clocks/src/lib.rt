//! Clocks of threads that wait up to a deadline.
#![tactic(auto)]

pub mod clocks;
pub mod system;
pub mod ticks;

pub use clocks::{Clock, to_deadline};
pub use system::SystemClock;
pub use ticks::TickClock;
