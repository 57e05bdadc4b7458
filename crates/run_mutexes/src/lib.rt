//! Slow halves of a mutex's calls, for threads.
//!
//! There are two ways through a slow half, and both take the same steps. The driver (`run_base`)
//! serves every place of every call: it copies and asks a place of 88 bytes in each turn. A course of
//! its own is written out here, turn by turn, for what a call mostly does once others wait. It leaves
//! for the driver wherever something else comes between.
//!
//! | call | by its own course | by the driver |
//! |---|---|---|
//! | a lock, others wait | parks, is handed the mutex | is woken otherwise, or late |
//! | a lock, nobody waits | | all: it spins first |
//! | a fair unlock | hands the mutex over | nobody was left to take |
//! | `unlock` that saw a waiter | all | |
//! | `bump` | | all |
//!
//! Threads that hand a fair mutex from one to the next pay for both halves in each operation. A lock
//! that parks takes 1,270 instructions by its course, and took 3,640 by the driver. A fair unlock
//! takes 910 for 2,760. A thread that spins waits anyway, and few threads bump: there the driver's
//! code is enough.
#![tactic(auto)]

pub mod calls;
mod finish;
mod hand_off_courses;
mod lock_courses;
pub mod unlocks;
