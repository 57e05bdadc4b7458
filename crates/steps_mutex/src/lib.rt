//! The steps of every call of a mutex, plain or fair.
#![tactic(auto)]

pub mod hand_off;
pub mod laws;
pub mod lock;
pub mod places;
pub mod unlock;

pub use hand_off::HandOffAt;
pub use lock::{Entry, LockAt};
pub use places::{LOCKED, MutexPlace, PARKED, is_locked, is_parked, mutex_right};
pub use unlock::UnlockAt;
