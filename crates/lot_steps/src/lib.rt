//! The steps of every call: what a thread does next, and where the reply leads it.
//!
//! A step is pure. The world of `lot_world` follows it, and so does the driver of real threads in
//! `parking_lot`.
#![tactic(auto)]

pub mod places;

pub use places::{Place, advance, has_right};
pub use spec_locks::{Answer, Call, Kind, MutexCall, OnceState, Outcome, Step, Turn};
pub use steps_base::{
    Act, Check, Fallback, Next, Op, Owner, Owners, Pending, Phase, Reply, TakeWhich, Wakes,
};
pub use steps_mutex::{Entry, HandOffAt, LockAt, MutexPlace, UnlockAt};
