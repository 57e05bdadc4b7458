//! Desks for pairs of threads, in a row.
ghost use Rattle.std.specs.Prelude.{◌≡◌, ◌≤◌, All, IfOk};
ghost use Rattle.std.specs.Arc.{arc_value};
ghost use Rattle.crossbeam_utils.specs.Padded.{padded_value};
ghost use Rattle.lotbench.specs.Desks.{desk_lot};
ghost use Rattle.parking_lot.specs.LotOf.{IsTokenOf};

use crate::condvars::{DESK, Desk, desk_for};
use crate::plans::Plan;
use crossbeam_utils::CachePadded;
use parking_lot::{Fault, ParkingLot, Token};
use std::alloc::Global;
use std::sync::Arc;

// The most pairs of threads.
const PAIRS: usize = 32;

/// How many words the desks of all pairs take of their lot.
pub(crate) const DESKS: usize = PAIRS * DESK;

/// Desks of one lot, each on cache lines of its own.
pub(crate) type Desks = Vec<CachePadded<Desk>>;

// Returns how many pairs the threads of a plan make. The last thread may be alone.
fn pairs_of(plan: Plan) -> u64
    ensures { 1 ≤ result }
{
    (plan.threads as u64).div_ceil(2).max(1)
}

// Returns how many operations a pair is to do.
fn share_of(plan: Plan, pair: usize) -> u64 {
    let pairs = pairs_of(plan);
    let more = u64::from((pair as u64) < plan.operations % pairs);
    (plan.operations / pairs).saturating_add(more)
}

// Puts one more desk into the row.
fn put_desk(lot: &ParkingLot, row: &mut Desks, desk: Desk) -> Result<(), Fault>
    requires { All (λ padded. desk_lot (padded_value padded) ≡ lot.now) row.old.items
        × (desk_lot desk ≡ lot.now) }
    ensures { All (λ padded. desk_lot (padded_value padded) ≡ lot.now) row.new.items }
{
    let _ = lot;
    match row.push(CachePadded::new(desk)) {
        Ok(()) => Ok(()),
        Err(_) => Err(Fault::NoMemory),
    }
}

// Makes one more desk in the row, at which so many operations are to be done.
fn add_desk(
    lot: &Arc<ParkingLot>,
    token: &mut Token,
    row: &mut Desks,
    operations: u64,
) -> Result<(), Fault>
    requires token { IsTokenOf (arc_value lot.now) token.old }
    requires row { All (λ padded. desk_lot (padded_value padded) ≡ arc_value lot.now)
        row.old.items }
    ensures token { IsTokenOf (arc_value lot.now) token.new }
    ensures row { All (λ padded. desk_lot (padded_value padded) ≡ arc_value lot.now)
        row.new.items }
{
    let desk = desk_for(lot, token, operations)?;
    put_desk(lot, row, desk)
}

/// Makes a desk for each pair of threads, drawn from the lot.
pub(crate) fn desks_of(
    alloc: Global,
    lot: &Arc<ParkingLot>,
    token: &mut Token,
    plan: Plan,
) -> Result<Desks, Fault>
    requires { IsTokenOf (arc_value lot.now) token.old }
    ensures token { IsTokenOf (arc_value lot.now) token.new }
    ensures made { IfOk result (λ row.
        All (λ padded. desk_lot (padded_value padded) ≡ arc_value lot.now) row.items) }
{
    let mut row = Vec::new(alloc);
    for pair in 0..PAIRS {
        add_desk(lot, token, &mut row, share_of(plan, pair))?;
    }
    Ok(row)
}

/// Returns the number of a thread's pair, and how many threads the pair has. The last thread may be
/// alone.
pub(crate) fn pair_of(plan: Plan, number: usize) -> (usize, u64) {
    let alone = number % 2 == 0 && number.saturating_add(1) == plan.threads;
    (number / 2, if alone { 1 } else { 2 })
}
