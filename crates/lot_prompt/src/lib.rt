//! Walks through a program that are told turn by turn: by orders, along a schedule, and till threads rest.
#![tactic(auto)]

pub mod along;
pub mod orders;
pub mod prompt;
pub mod settling;

pub use along::{AlongError, moves_along};
pub use orders::{Order, OrderError, order_of};
pub use prompt::Prompt;
pub use settling::settle;
