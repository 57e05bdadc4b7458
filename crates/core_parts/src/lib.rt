//! Parts over a table of words: a value in a plain place and the permit that opens it, a row of locks
//! whose values fit a key, and what seats do with no step.
#![tactic(auto)]

mod keyed;
mod lends;
mod permit;
mod place;
pub mod seats;
mod slot;

pub use keyed::{Held, Keyed, KeyedLocks};
pub use permit::{NamesPermit, Permit, Permits};
pub use place::{Open, Place};
pub use slot::PermitSlot;
