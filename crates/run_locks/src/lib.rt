//! Calls of condition variables and reader-writer locks for threads.
//!
//! A wait, and a notification that has seen a mutex, go by courses of their own, turn by turn. They
//! leave for the driver (`run_base`) wherever something comes between: another mutex, an owner of the
//! mutex as it is locked again, a time that is up. A call of a reader-writer lock has a fast half of
//! its own, of a step or two. To wake those in the main queue it has a course too. It waits, hands
//! over and wakes a writer aside by the driver.
//!
//! A turn by the driver takes some 500 instructions, one of a course 200: the head of `run_mutexes`
//! has the figures. Waits and notifications would pay that at each turn, inside the lot's lock.
#![tactic(auto)]

mod call_names;
pub mod condvar_calls;
mod condvar_courses;
mod notify_courses;
pub mod rwlock_calls;
pub mod rwlock_courses;
pub mod rwlock_fair_calls;
mod wait_courses;
mod wake_courses;
