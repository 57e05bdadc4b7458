//! Pauses of a thread that waits for others without sleep.
//!
//! A thread that waits spins by pauses alone, for microseconds, and then parks; it never yields. Where
//! busy processes are as many as processors, a processor that was yielded comes back a slice later,
//! some three milliseconds. Each spin is a count of rounds of a pause, as no clock is at hand.

use std::hint::spin_loop;

/// The rounds of a pause in which another thread can take its turn with a lock.
pub const SHORT_PAUSE: u32 = 64;

/// Lets so many rounds pass, each of which tells the processor that its thread only waits.
pub fn pause(rounds: u32) {
    for _ in 0..rounds {
        spin_loop();
    }
}
