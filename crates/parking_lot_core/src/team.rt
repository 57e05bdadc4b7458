//! Lots whose sizes nobody has tested yet, and closures that run with a token.
ghost use Rattle.std.specs.Prelude.{◌≡◌, ◌⊎◌, ◌↔◌, All, IfErr, IfOk, IsErrOf, map};
ghost use Rattle.std.specs.Arc.{arc_value};
ghost use Rattle.std.specs.Fn.{FnOnceReturnsAtMut, FnOnceTakesAtMut};
ghost use Rattle.std.specs.List.{range_with_len};
ghost use Rattle.parking_lot_core.specs.Team.{AreSizes, IsIn};

use crate::lot::ParkingLot;
use crate::tokens::{Ticket, Token};
use core_base::Fault;
use core_director::Director;
use std::alloc::Global;
use std::sync::Arc;

/// The words of a lot whose maker names no number.
pub const DEFAULT_WORDS: usize = 64;

impl ParkingLot {
    ghost use Rattle.parking_lot_core.specs.Tokens.{IsNewTicketOf, number_of};

    /// Tests the sizes, and makes a lot as `new` does.
    ///
    /// # Errors
    ///
    /// `SizesOutOfRange`, but for 1 to 2^20 words and 1 to 1024 threads, and `NoMemory`, where
    /// memory was refused.
    pub fn try_new(
        alloc: Global,
        words: usize,
        seats: usize,
    ) -> Result<(Arc<ParkingLot>, Vec<Ticket>), Fault>
        ensures lot { IfOk result (λ made. ((arc_value made.0).words.count ≡ words)
            × ((arc_value made.0).records.count ≡ seats)) }
        ensures tickets { IfOk result (λ made. (map number_of made.1.items ≡ range_with_len 0 seats)
            × All (IsNewTicketOf (arc_value made.0)) made.1.items) }
        ensures sizes { IsErrOf result Fault.SizesOutOfRange ↔ (AreSizes words seats → ⊥) }
        ensures err { IfErr result (λ fault. (fault ≡ Fault.NoMemory)
            ⊎ (fault ≡ Fault.SizesOutOfRange)) }
    {
        if !ParkingLot::fits(words, seats) {
            return Err(Fault::SizesOutOfRange);
        }
        ParkingLot::new(alloc, words, seats)
    }

    /// Tests the sizes, and makes a lot whose threads run when a director says so.
    ///
    /// # Errors
    ///
    /// As of `try_new`.
    pub fn try_directed(
        alloc: Global,
        words: usize,
        seats: usize,
        director: &Arc<Director>,
    ) -> Result<(Arc<ParkingLot>, Vec<Ticket>), Fault>
        ensures lot { IfOk result (λ made. ((arc_value made.0).words.count ≡ words)
            × ((arc_value made.0).records.count ≡ seats)) }
        ensures tickets { IfOk result (λ made. (map number_of made.1.items ≡ range_with_len 0 seats)
            × All (IsNewTicketOf (arc_value made.0)) made.1.items) }
        ensures sizes { IsErrOf result Fault.SizesOutOfRange ↔ (AreSizes words seats → ⊥) }
        ensures err { IfErr result (λ fault. (fault ≡ Fault.NoMemory)
            ⊎ (fault ≡ Fault.SizesOutOfRange)) }
    {
        if !ParkingLot::fits(words, seats) {
            return Err(Fault::SizesOutOfRange);
        }
        let Ok(director) = Arc::try_clone(director) else {
            return Err(Fault::NoMemory);
        };
        ParkingLot::with_director(alloc, words, seats, Some(director))
    }

    /// Makes a lot of 64 words for so many threads, as `try_new` does.
    ///
    /// # Errors
    ///
    /// `SizesOutOfRange`, but for 1 to 1024 threads, and `NoMemory`, where memory was refused.
    pub fn for_threads(
        alloc: Global,
        threads: usize,
    ) -> Result<(Arc<ParkingLot>, Vec<Ticket>), Fault>
        ensures lot { IfOk result (λ made. ((arc_value made.0).words.count ≡ 64)
            × ((arc_value made.0).records.count ≡ threads)) }
        ensures tickets { IfOk result
            (λ made. (map number_of made.1.items ≡ range_with_len 0 threads)
            × All (IsNewTicketOf (arc_value made.0)) made.1.items) }
        ensures sizes { IsErrOf result Fault.SizesOutOfRange ↔ (AreSizes 64 threads → ⊥) }
        ensures err { IfErr result (λ fault. (fault ≡ Fault.NoMemory)
            ⊎ (fault ≡ Fault.SizesOutOfRange)) }
    {
        ParkingLot::try_new(alloc, DEFAULT_WORDS, threads)
    }
}

impl Ticket {
    /// Enters the lot, runs a closure with the token, and leaves. Returns the ticket with what the
    /// closure answered.
    pub fn run<U, F: FnOnce(&mut Token) -> U>(self, f: F) -> (Ticket, U)
        requires { (token : Token) → IsIn self token → FnOnceTakesAtMut F.FnOnce f token }
        ensures { (entered : Token) × (left : Token) × IsIn self entered × IsIn result.0 left
            × FnOnceReturnsAtMut F.FnOnce f entered result.1 left }
    {
        let mut token = self.enter();
        let answer = f(&mut token);
        (token.leave(), answer)
    }
}
