//! Places in queues, by which alone a thread sleeps.
ghost use Rattle.std.specs.Prelude.{◌≡◌};
ghost use Rattle.parking_lot_core.specs.Places.{IsPlaceOf, thread_of};

use crate::lot::ParkingLot;

/// The place of a thread in a queue. `Section::append` alone makes one, and a sleep or the thread's
/// removal spends it.
pub struct QueuePlace<'a> {
    pub(crate) lot: &'a ParkingLot,
    pub(crate) thread: usize,
}

// The drop is written, and not derived, so that it is proved here and not in each program.
impl<'a> Drop for QueuePlace<'a> {
    fn drop(self) {
        let QueuePlace {
            lot: _lot,
            thread: _thread,
        } = self;
    }
}

impl<'a> QueuePlace<'a> {
    pub(crate) fn new(lot: &'a ParkingLot, thread: usize) -> QueuePlace<'a>
        ensures { IsPlaceOf lot.now thread result }
    {
        QueuePlace { lot, thread }
    }

    /// Returns the thread whose place it is.
    pub fn thread(&self) -> usize
        ensures { result ≡ thread_of self.now }
    {
        self.thread
    }
}
