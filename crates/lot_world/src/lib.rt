//! Any number of threads over locks, by a list of steps; and the schedule that drains a world of one
//! lock, with the laws that it does: threads come to rest, and each owner gives its right up.
#![tactic(auto)]

pub mod course_laws;
pub mod drainable;
pub mod draining;
mod gains;
pub mod ground_laws;
pub mod laws;
pub mod waiting_laws;
pub mod world;

pub use drainable::is_drainable;
pub use draining::schedule;
pub use lot_machine::{Debt, DebtBook, Debts, Lock, OwnersOf, Parts, QueueOf};
pub use lot_steps::{
    Act, Check, Entry, Fallback, HandOffAt, LockAt, MutexPlace, Next, Op, Owner, Owners, Pending,
    Phase, Place, Reply, TakeWhich, UnlockAt, Wakes, advance, has_right,
};
pub use spec_locks::{Answer, Call, Kind, MutexCall, OnceState, Outcome, Step, Turn};
pub use world::{MOST_LOCKS, MOST_THREADS, SOLO_STEPS, Stopped, World};
