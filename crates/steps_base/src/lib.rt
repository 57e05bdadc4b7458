//! The acts of threads, the outcomes that they are told, and the owners of locks. The steps of all
//! calls are written in these words.
#![tactic(auto)]

pub mod acts;
pub mod bits;
pub mod owners;

pub use acts::{Act, Check, Next, Reply, TakeWhich, Wakes, takes_effect};
pub use core_base::Op;
pub use owners::{Fallback, Owner, Owners, Pending, Phase};
