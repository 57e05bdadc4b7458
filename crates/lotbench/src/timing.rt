//! Loops, timed.
use crate::least::LeastLock;
use crate::loops::{Told, hold_often, hold_told, look_often, take_often};
use std::alloc::{AllocError, Global};
use std::io;
use std::sync::Wait;
use std::time::{Clock, Instant};

/// The work of one round of a loop.
#[derive(Clone, Copy, Debug, PartialEq, Eq)]
pub enum Loop {
    /// Looks at the word.
    Look,
    /// Takes the lock and gives it up, with nothing that says which thread owns it.
    Take,
    /// Steps, splits off what the guard has apart from its thread, and joins it.
    Hold,
    /// Steps, and asks each time whether a section is told.
    HoldTold,
}

impl Loop {
    /// Returns the loop of a name, if one has it.
    pub fn named(name: &str) -> Option<Loop> {
        match name {
            "look" => Some(Loop::Look),
            "take" => Some(Loop::Take),
            "hold" => Some(Loop::Hold),
            "hold_told" => Some(Loop::HoldTold),
            _ => None,
        }
    }
}

/// Times so many rounds of a loop on a lock of its own, in nanoseconds.
///
/// # Errors
///
/// `AllocError`, where memory was refused. The inner error is the clock's.
pub fn time_loop<R: Wait + Clock>(
    rt: &R,
    alloc: Global,
    which: Loop,
    times: u64,
) -> Result<io::Result<u128>, AllocError> {
    let (lock, mut seat) = LeastLock::new(alloc)?;
    let mut told = Told {
        is_told: times == 0,
    };
    let started = match Instant::now(rt) {
        Ok(started) => started,
        Err(e) => return Ok(Err(e)),
    };
    match which {
        Loop::Look => look_often(rt, &lock, &mut seat, times),
        Loop::Take => take_often(rt, &lock, &mut seat, times),
        Loop::Hold => hold_often(rt, &lock, &mut seat, times),
        Loop::HoldTold => hold_told(rt, &lock, &mut seat, &mut told, times),
    }
    Ok(started.elapsed(rt).map(|elapsed| elapsed.as_nanos()))
}
