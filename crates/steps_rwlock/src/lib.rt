//! The steps of every call of a reader-writer lock.
//!
//! All calls share one list of locations. One decision, by the want, the patience and the word, leads
//! on from a word that was seen; the kind of the lock, normal or recursive, and its limit go along
//! (`Admission`). A pending writer decides by the value that it saw: where the bit of the second queue
//! is set it goes aside, else it sets the bit. No place remembers that the bit was clear.
#![tactic(auto)]

pub mod begin;
pub mod changes;
pub mod enter;
pub mod laws;
pub mod park;
pub mod pend;
pub mod places;
pub mod purposes;
pub mod release;

pub use begin::has_access;
pub use changes::Change;
pub use places::{Admission, RwLockAt, RwLockPlace};
pub use purposes::RwLockPurpose;
