//! Whether two references are to one lot.
//!
//! Each lot has a permit of its own. A thread that has the permits of two at once has two lots, since no
//! two permits have one id. A thread that finds the second permit taken asks whose it is: it changes the
//! mark of the first lot, which it alone may do meanwhile, and looks for that through the second.
ghost use Rattle.std.specs.Prelude.{◌≡◌, ◌≢◌, false, IfOk, IfSome};

use crate::lot::ParkingLot;
use crate::pauses::pause;
use core_parts::{Held, Keyed, KeyedLocks, Permit, Permits};
use std::alloc::{AllocError, Global};
use std::sync::atomic::AtomicUsize;
use std::sync::atomic::Ordering::SeqCst;

// How often a thread changes the mark before it says that the lots are one. Threads that ask about two
// lots at once, each from the other side, would have to change two marks in step so often.
const ROUNDS: usize = 32;

/// The permit of a lot.
#[derive(Drop)]
pub struct Probe {
    permit: Permit,
}

impl Keyed<Permits> for Probe {
    ghost use Rattle.parking_lot_core.specs.Same.{probe_id};

    ghost fits = { λ source probe. probe.permit.id ≡ probe_id source };
}

/// The permit of a lot, which a thread that asks takes out, and the mark, which it changes.
#[derive(Drop)]
pub(crate) struct Probes {
    row: KeyedLocks<Permits, Probe>,
    mark: AtomicUsize,
    ghost one: { row.count ≡ 1 },
}

enum Asked {
    Differ,
    Same,
    // Another thread asks.
    Busy,
}

impl Probes {
    ghost use Rattle.parking_lot_core.specs.Same.{IsProbeOf};

    /// Makes a permit that no other lot has. The mark is another one at lots of other sizes.
    pub(crate) fn new(alloc: Global, mark: usize) -> Result<Probes, AllocError> {
        let mut source = Permits::new();
        let permit = source.draw();
        let mut probes = Vec::with_capacity(alloc, 1)?;
        probes.push(Some(Probe { permit }))?;
        let row = KeyedLocks::new(alloc, probes, &source)?;
        Ok(Probes {
            row,
            mark: AtomicUsize::new(mark),
        })
    }

    fn take(&self) -> Option<(Probe, Held<Permits, Probe>)>
        ensures { IfSome result (λ taken. IsProbeOf self.now taken.0
            × (taken.1.seat.table_id ≡ self.now.row.table.shared.table_id) × (taken.1.at ≡ 0)) }
    {
        self.row.try_take(0)
    }

    // Returns whether all changes of this mark are seen through the other, and no more.
    fn shows(&self, other: &Probes) -> bool {
        for _ in 0..ROUNDS {
            let now = self.mark.load(SeqCst);
            let next = now.wrapping_add(1);
            let before = other.mark.load(SeqCst);
            self.mark.store(next, SeqCst);
            if before != now || other.mark.load(SeqCst) != next {
                return false;
            }
            pause((next % 8) as u32);
        }
        true
    }
}

impl ParkingLot {
    ghost use Rattle.parking_lot_core.specs.Same.{IsProbeOf};
    ghost use Rattle.parking_lot_core.specs.declared.same.Asked.TheVariants.{Differ};

    // Compares the lots by the probe of this one.
    fn meet(&self, other: &ParkingLot, mine: Probe) -> (Probe, Asked)
        requires { IsProbeOf self.now.probes mine }
        ensures mine { IsProbeOf self.now.probes result.0 }
        ensures differ { result.1 ≡ Differ → self.now ≢ other.now }
    {
        let Some((theirs, held)) = other.probes.take() else {
            let asked = if self.probes.shows(&other.probes) {
                Asked::Same
            } else {
                Asked::Busy
            };
            return (mine, asked);
        };
        let (permit, theirs) = mine.permit.beside(theirs.permit);
        other.probes.row.give_back(Probe { permit: theirs }, held);
        (Probe { permit }, Asked::Differ)
    }

    fn ask(&self, other: &ParkingLot) -> Asked
        ensures { result ≡ Differ → self.now ≢ other.now }
    {
        let Some((mine, held)) = self.probes.take() else {
            return Asked::Busy;
        };
        let (mine, asked) = self.meet(other, mine);
        self.probes.row.give_back(mine, held);
        asked
    }

    /// Returns whether this is the other lot. It never says no of one lot.
    pub fn same_lot(&self, other: &ParkingLot) -> bool
        ensures { result ≡ false → self.now ≢ other.now }
    {
        for round in 0..u64::MAX {
            match self.ask(other) {
                Asked::Differ => return false,
                Asked::Same => return true,
                Asked::Busy => pause((round % 64) as u32),
            }
        }
        true
    }
}
