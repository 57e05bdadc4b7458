//! The steps of every call of a semaphore.
#![tactic(auto)]

pub mod acquire;
pub mod laws;
pub mod places;
pub mod release;
pub mod tries;

pub use acquire::AcquireAt;
pub use places::{NOT_PARKED, ONE_FREE, PARKED, SemaphorePlace, free_permits, semaphore_right};
pub use release::ReleaseAt;
pub use tries::TryAt;
