//! The steps of fair releases and of bumps of a reader-writer lock, and of those to which they hand
//! the lock.
//!
//! Fair releases and bumps have places round those of the other calls. A bump that enters again is at a
//! place of a call that enters, with another row, so that its laws are read off that call's. A thread
//! that hands over keeps how many of those it took share, the want of the one that wants more, and
//! whether no waiter is left: from these it computes the word after the hand-over, and whether the
//! limit has room.
#![tactic(auto)]

pub mod begin;
pub mod hand_over;
pub mod handed;
pub mod laws;
pub mod places;

pub use begin::call_right;
pub use hand_over::{HandOverAt, Taken};
pub use handed::HandedAt;
pub use places::RwLockCallPlace;
