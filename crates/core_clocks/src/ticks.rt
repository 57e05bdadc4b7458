//! A clock for tests, on which time passes by looks alone.
use crate::clocks::Clock;
use std::hint::spin_loop;
use std::sync::atomic::AtomicU64;
use std::sync::atomic::Ordering::SeqCst;

// The rounds of a pause: a third of a microsecond, where a round takes 11 nanoseconds, as long as a
// yield takes where nobody else wants the processor. Beside busy processes each yield of the many
// that a deadline takes would last a whole slice.
const PAUSE: u32 = 30;

/// A clock on which each look takes a nanosecond, whichever thread looks. A pause spins.
#[derive(Drop)]
pub struct TickClock {
    start: u64,
    now: AtomicU64,
}

impl TickClock {
    /// Makes a clock at 0.
    pub fn new() -> TickClock {
        TickClock::starting_at(0)
    }

    /// Makes a clock at a time. Far from 0, a deadline that leaves out the time of its call is long
    /// over.
    pub fn starting_at(start: u64) -> TickClock {
        TickClock {
            start,
            now: AtomicU64::new(start),
        }
    }

    /// Sets the clock back to its start. No thread may sleep by it then.
    pub fn restart(&self) {
        self.now.store(self.start, SeqCst);
    }
}

impl Clock for TickClock {
    // Any time counts as reported, so that clauses on what this clock reported are empty.
    ghost tells = { λ _ _. Unit {0} };

    fn now(&self) -> u64 {
        self.now.fetch_add(1, SeqCst)
    }

    fn pause(&self, _left: u64) {
        for _ in 0..PAUSE {
            spin_loop();
        }
    }
}
