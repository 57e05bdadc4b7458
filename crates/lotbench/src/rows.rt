//! The operations on many locks of one lot.
ghost use Rattle.std.specs.Prelude.{◌≡◌, All, IfOk};
ghost use Rattle.std.specs.Arc.{arc_value};
ghost use Rattle.crossbeam_utils.specs.Padded.{padded_value};
ghost use Rattle.parking_lot.specs.LotOf.{lot_of};
ghost use Rattle.parking_lot_core.specs.Tokens.{IsTokenOf};

use crate::made::{both, unless_refused};
use crossbeam_utils::CachePadded;
use parking_lot::lock_api::RawMutex as RawLock;
use parking_lot::{Fault, ParkingLot, RawFairMutex, RawMutex, Token, lock_api};
use std::alloc::Global;
use std::sync::{Arc, Wait};

/// How many locks stand in a row.
const LENGTH: usize = 64;

/// How many words both rows take of their lot.
pub(crate) const ROWS: usize = 2 * LENGTH;

// Mutexes, each with its value on cache lines of its own.
type Row<M> = Vec<CachePadded<lock_api::Mutex<M, u64>>>;

/// A row of mutexes and one of fair mutexes, of one lot.
#[derive(Drop)]
pub(crate) struct Rows {
    pub(crate) plain: Row<RawMutex>,
    pub(crate) fair: Row<RawFairMutex>,
}

// Returns a row of mutexes, drawn from the lot.
fn row_of<M: RawLock + Drop>(
    alloc: Global,
    lot: &Arc<M::Lot>,
    token: &mut M::Token,
) -> Result<Row<M>, Fault>
    requires { M.is_token_of (arc_value lot.now) token.old }
    ensures token { M.is_token_of (arc_value lot.now) token.new }
    ensures made { IfOk result
        (λ row. All (λ padded. M.lot_of (padded_value padded) ≡ arc_value lot.now) row.items) }
{
    let mut row = Vec::new(alloc);
    for _ in 0..LENGTH {
        let mutex = unless_refused(lock_api::Mutex::new(lot, token, 0))?;
        if row.push(CachePadded::new(mutex)).is_err() {
            return Err(Fault::NoMemory);
        }
    }
    Ok(row)
}

/// Both rows, drawn from the lot.
pub(crate) fn rows_of(
    alloc: Global,
    lot: &Arc<ParkingLot>,
    token: &mut Token,
) -> Result<Rows, Fault>
    requires { IsTokenOf (arc_value lot.now) token.old }
    ensures token { IsTokenOf (arc_value lot.now) token.new }
    ensures made { IfOk result
        (λ rows. All (λ padded. lot_of (padded_value padded) ≡ arc_value lot.now) rows.plain.items
        × All (λ padded. lot_of (padded_value padded) ≡ arc_value lot.now) rows.fair.items) }
{
    let plain = row_of::<RawMutex>(alloc, lot, token);
    let fair = row_of::<RawFairMutex>(alloc, lot, token);
    let (plain, fair) = both(plain, fair)?;
    Ok(Rows { plain, fair })
}

/// Adds 1 under one mutex of a row after the other, with a stride of the thread's own.
#[inline(never)]
pub(crate) fn add_along<const SECOND: bool, M: RawLock, R: Wait>(
    rt: &R,
    row: &[CachePadded<lock_api::Mutex<M, u64>>],
    token: &mut M::Token,
    lot: &M::Lot,
    number: usize,
    times: u64,
)
    requires token { M.is_token_of lot.now token.old }
    requires row { All (λ padded. M.lot_of (padded_value padded) ≡ lot.now) row.now }
    ensures { M.is_token_of lot.now token.new }
{
    let _ = lot;
    let stride = number.wrapping_mul(2).wrapping_add(1);
    let mut place = stride;
    for _ in 0..times {
        place = place.wrapping_add(stride) % LENGTH;
        if let Some(mutex) = row.get(place) {
            mutex.with(rt, token, |value: &mut u64| *value = value.wrapping_add(1));
        }
    }
}
