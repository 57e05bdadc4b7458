//! The system's monotonic clock.

use crate::clocks::Clock;
use crossbeam_utils::sync::Parker;
use std::io;
use std::sync::Wait;
use std::time::{Clock as SystemTimes, Duration};

// The longest pause, in nanoseconds. A sleeper that looks between pauses sees its wake that soon.
const LONGEST: u64 = 10_000;

/// The system's monotonic time. A thread that parks by this clock sleeps until another one wakes it or its
/// time is up. A clock that can't be read tells the last of all times.
#[derive(Drop)]
pub struct SystemClock<R: SystemTimes> {
    rt: R,
}

impl<R: SystemTimes> SystemClock<R> {
    pub fn new(rt: R) -> SystemClock<R> {
        SystemClock { rt }
    }
}

// The handle of a thread that waits, with the times of another.
#[derive(Drop)]
struct TimedWait<'a, W: Wait, R: SystemTimes> {
    wait: &'a W,
    times: &'a R,
}

impl<'a, W: Wait, R: SystemTimes> Wait for TimedWait<'a, W, R> {}

impl<'a, W: Wait, R: SystemTimes> SystemTimes for TimedWait<'a, W, R> {
    fn monotonic(&self) -> io::Result<Duration> {
        self.times.monotonic()
    }

    fn since_1970(&self) -> io::Result<Duration> {
        self.times.since_1970()
    }
}

impl<R: SystemTimes> Clock for SystemClock<R> {
    // Any time counts as reported, so that clauses on what this clock reported are empty.
    ghost tells = { λ _ _. Unit {0} };

    fn now(&self) -> u64 {
        match self.rt.monotonic() {
            Ok(time) => u64::try_from(time.as_nanos()).unwrap_or(u64::MAX),
            Err(_) => u64::MAX,
        }
    }

    fn pause(&self, left: u64) {
        self.rt.sleep(Duration::from_nanos(left.min(LONGEST)));
    }

    fn park<W: Wait>(&self, rt: &W, parker: &Parker, left: u64) {
        let timed = TimedWait {
            wait: rt,
            times: &self.rt,
        };
        parker.park_timeout(&timed, Duration::from_nanos(left));
    }
}
