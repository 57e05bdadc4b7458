//! Where threads wait for their turns.

use std::alloc::{AllocError, Global};
use std::hint::spin_loop;
use std::sync::Wait;
use std::sync::atomic::AtomicU64;
use std::sync::atomic::Ordering::SeqCst;
use std::thread::yield_now;

// How often a thread looks at its gate before it yields between two looks.
const LOOKS: u64 = 30;

const SHUT: u64 = 0;

// Shut, and its thread sleeps there.
const ASLEEP: u64 = 1;

// Opened for one turn.
const OPEN: u64 = 2;

// Open from now on.
const FREE: u64 = 3;

/// A gate for each thread, opened for the one whose turn it is.
pub(crate) struct Gates {
    gates: Vec<AtomicU64>,
}

// The drop is written, and not derived, so that it is proved here alone.
impl Drop for Gates {
    fn drop(self) {
        let Gates { gates: _gates } = self;
    }
}

// Opens a gate, and wakes its thread where that sleeps.
fn open(gate: &AtomicU64, how: u64) {
    if gate.swap(how, SeqCst) == ASLEEP {
        gate.wake_all();
    }
}

// Whether the gate lets its thread pass.
fn passes(gate: &AtomicU64) -> bool {
    match gate.load(SeqCst) {
        SHUT | ASLEEP => false,
        OPEN => {
            gate.store(SHUT, SeqCst);
            true
        }
        _ => true,
    }
}

impl Gates {
    pub(crate) fn new(alloc: Global, threads: usize) -> Result<Gates, AllocError> {
        let mut gates = Vec::with_capacity(alloc, threads)?;
        for _ in 0..threads {
            gates.push(AtomicU64::new(SHUT))?;
        }
        Ok(Gates { gates })
    }

    /// Opens the gate of a thread for one turn.
    pub(crate) fn open(&self, thread: usize) {
        if let Some(gate) = self.gates.get(thread) {
            open(gate, OPEN);
        }
    }

    /// Opens the first gates for good.
    pub(crate) fn free(&self, threads: usize) {
        for gate in self.gates.iter().take(threads) {
            open(gate, FREE);
        }
    }

    /// Waits at the gate of a thread, which may not sleep.
    pub(crate) fn look(&self, thread: usize) {
        let Some(gate) = self.gates.get(thread) else {
            return;
        };
        for look in 0..u64::MAX {
            if passes(gate) {
                return;
            }
            if look < LOOKS {
                spin_loop();
            } else {
                yield_now();
            }
        }
    }

    /// Waits at the gate of a thread, asleep.
    pub(crate) fn sleep<R: Wait>(&self, rt: &R, thread: usize) {
        let Some(gate) = self.gates.get(thread) else {
            return;
        };
        for _ in rt.forever() {
            if passes(gate) {
                return;
            }
            let _ = gate.compare_exchange(SHUT, ASLEEP, SeqCst, SeqCst);
            gate.park(rt, ASLEEP as u32);
        }
    }
}
