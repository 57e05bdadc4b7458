//! The steps of every call of a condition variable.
//!
//! A place of a wait has two parts: how its thread is queued, and where its release is. Other threads
//! move the waiter, take it, hand it its mutex and wake it while it still releases that, and its own
//! take may find itself. The two parts meet after the release (`past_release`). A wait releases and
//! locks at the places of its mutex.
//!
//! A waiter that is late in the queue of its mutex leaves `PARKED` as it is, answers `notified`, and
//! locks the mutex without a limit.
#![tactic(auto)]

pub mod laws;
pub mod notify;
pub mod places;
pub mod wait;

pub use notify::NotifyAt;
pub use places::{CondvarPlace, condvar_right, shown, shows};
pub use spec_locks::CondvarCall;
pub use wait::{WaitAt, WaiterFate};
