//! Plans, carried out by threads.
//!
//! Each loop of operations is a function of its own, which is inlined nowhere: so what stands
//! beside it has no part in its time. Each is in the code twice, by a parameter that says nothing else: a
//! loop of ten nanoseconds takes some of them more where a jump lies on a border of 32 bytes.
ghost use Rattle.std.specs.Prelude.{◌≡◌, ◌≤◌, IfOk, IfSome, All};
ghost use Rattle.std.proofs.Props.{props};
ghost use Rattle.std.specs.Arc.{arc_value};
ghost use Rattle.crossbeam_utils.specs.Padded.{padded_value};
ghost use Rattle.lotbench.specs.Desks.{desk_lot};
ghost use Rattle.parking_lot.specs.LotOf.{lot_of, lot_of_condvar, lot_of_once, lot_of_rwlock};
ghost use Rattle.parking_lot.specs.LotOf.{lot_of_semaphore};
ghost use Rattle.parking_lot_core.specs.Tokens.{IsTicketOf, IsTokenOf};

use crate::condvars::{DESK, Desk, Way, desk_for, done_at, notify_nobody, work_at};
use crate::desks::{DESKS, Desks, desks_of, pair_of};
use crate::made::{both, boxed};
use crate::mutexes::{
    MUTEXES, Mutexes, lock_again, lock_once, lock_raw, lock_value, mutexes_of, try_raw, try_value,
    value_in as added_to,
};
use crate::plans::{CodePlace, Mode, Plan};
use crate::rows::{ROWS, Rows, add_along, rows_of};
use crate::rwlocks::{
    RWLOCKS, RwLocks, come_upgradable, downgrade_value, mix_value, read_raw, read_value,
    rwlocks_of, upgrade_value, value_in, write_raw, write_value,
};
use crate::semaphores::{SEMAPHORES, Semaphores, hold_permit, semaphores_of};
use crate::shares::Shares;
use parking_lot::lock_api::RawMutex as RawLock;
use parking_lot::{Fault, Once, ParkingLot, Ticket, Token};
use std::alloc::Global;
use std::io;
use std::sync::{Arc, Wait};
use std::thread::{Threads, map_vec};
use std::time::{Clock, Instant};

/// The figures of a plan that was carried out.
#[derive(Clone, Copy, Debug, PartialEq, Eq)]
pub struct Figures {
    pub nanos: u128,
    /// The value, in the modes that add 1 to it each time, and else how often the lock was taken.
    pub answer: u64,
    /// How often the thread took the lock that took it least.
    pub low: u64,
    /// The count of the thread that took it most.
    pub high: u64,
}

// Mutexes, rows of them, reader-writer locks, a `Once` that is done, semaphores, and desks, of one
// lot.
#[derive(Drop)]
struct Bench {
    mutexes: Box<Mutexes>,
    rows: Box<Rows>,
    rwlocks: Box<RwLocks>,
    done: Box<Once>,
    semaphores: Box<Semaphores>,
    desk: Box<Desk>,
    desks: Desks,
    ghost together: { (lot_of_rwlock rwlocks.value.raw ≡ lot_of mutexes.value.raw)
        × (lot_of_once done.value ≡ lot_of mutexes.value.raw)
        × (lot_of_semaphore semaphores.value.one ≡ lot_of mutexes.value.raw)
        × (lot_of_condvar desk.value.filled ≡ lot_of mutexes.value.raw)
        × All (λ padded. desk_lot (padded_value padded) ≡ lot_of mutexes.value.raw) desks.items
        × All (λ padded. lot_of (padded_value padded) ≡ lot_of mutexes.value.raw) rows.value.plain.items
        × All (λ padded. lot_of (padded_value padded) ≡ lot_of mutexes.value.raw) rows.value.fair.items } by { Prim.hlevel props },
}

// The locks, drawn from the lot.
fn bench_of(
    alloc: Global,
    lot: &Arc<ParkingLot>,
    token: &mut Token,
    plan: Plan,
) -> Result<Bench, Fault>
    requires { IsTokenOf (arc_value lot.now) token.old }
    ensures token { IsTokenOf (arc_value lot.now) token.new }
    ensures made { IfOk result (λ bench. lot_of bench.mutexes.value.raw ≡ arc_value lot.now) }
{
    let mutexes = boxed(alloc, mutexes_of(lot, token));
    let rows = boxed(alloc, rows_of(alloc, lot, token));
    let rwlocks = boxed(alloc, rwlocks_of(lot, token));
    let done = boxed(alloc, Once::new_completed(lot, token));
    let semaphores = boxed(alloc, semaphores_of(lot, token));
    let desk = boxed(alloc, desk_for(lot, token, plan.operations));
    let desks = desks_of(alloc, lot, token, plan);
    let locks = both(both(mutexes, rwlocks), both(rows, semaphores));
    let others = both(done, both(desk, desks));
    let (((mutexes, rwlocks), (rows, semaphores)), (done, (desk, desks))) = both(locks, others)?;
    Ok(Bench {
        mutexes,
        rows,
        rwlocks,
        done,
        semaphores,
        desk,
        desks,
    })
}

// Benches by the thread of a ticket, which it gives back.
fn bench_by(
    alloc: Global,
    lot: &Arc<ParkingLot>,
    ticket: Ticket,
    plan: Plan,
) -> (Result<Bench, Fault>, Ticket)
    requires { IsTicketOf (arc_value lot.now) ticket }
    ensures { IfOk result.0 (λ bench. lot_of bench.mutexes.value.raw ≡ arc_value lot.now)
        × IsTicketOf (arc_value lot.now) result.1 }
{
    let mut token = ticket.enter();
    let bench = bench_of(alloc, lot, &mut token, plan);
    (bench, token.leave())
}

fn one_of(lot: &ParkingLot, tickets: &mut Vec<Ticket>) -> Option<Ticket>
    requires { All (IsTicketOf lot.now) tickets.old.items }
    ensures left { All (IsTicketOf lot.now) tickets.new.items }
    ensures one { IfSome result (IsTicketOf lot.now) }
{
    tickets.pop()
}

// Locks of a lot, the thread that made them, and the tickets of so many other threads.
fn bench_for(alloc: Global, plan: Plan) -> Result<(Bench, Ticket, Vec<Ticket>), Fault>
    ensures { IfOk result
        (λ made. IsTicketOf (lot_of made.0.mutexes.value.raw) made.1
        × All (IsTicketOf (lot_of made.0.mutexes.value.raw)) made.2.items) }
{
    let words = MUTEXES + ROWS + RWLOCKS + 1 + SEMAPHORES + DESK + DESKS;
    let (lot, mut tickets) = ParkingLot::new(alloc, words, plan.threads + 1)?;
    let Some(maker) = one_of(&lot, &mut tickets) else {
        return Err(Fault::NoMemory);
    };
    let (bench, maker) = bench_by(alloc, &lot, maker, plan);
    Ok((bench?, maker, tickets))
}

// Calls it so many times.
#[inline(never)]
fn call_once<const SECOND: bool, R: Wait>(rt: &R, once: &Once, token: &mut Token, times: u64)
    requires { IsTokenOf (lot_of_once once.now) token.old }
    ensures { IsTokenOf (lot_of_once once.now) token.new }
{
    for _ in 0..times {
        let answer = once.call_once(rt, token, || Err(Fault::Poisoned));
        drop(answer);
    }
}

// Does so many operations, by the loops at the first or at the second place in the code.
fn operate<const SECOND: bool, R: Wait>(
    rt: &R,
    mode: Mode,
    bench: &Bench,
    token: &mut Token,
    times: u64,
)
    requires { IsTokenOf (lot_of bench.now.mutexes.value.raw) token.old }
    ensures { IsTokenOf (lot_of bench.now.mutexes.value.raw) token.new }
{
    let mutexes = &bench.mutexes;
    let rwlocks = &bench.rwlocks;
    let (lot, number) = (mutexes.raw.lot(), token.number());
    match mode {
        Mode::RawMutex => lock_raw::<SECOND, _, _>(rt, &mutexes.raw, token, times),
        Mode::RawMutexTry => try_raw::<SECOND, _, _>(rt, &mutexes.raw, token, times),
        Mode::Mutex => lock_value::<SECOND, _, _>(rt, &mutexes.value, token, times),
        Mode::MutexTry => try_value::<SECOND, _, _>(rt, &mutexes.value, token, times),
        Mode::Fair => lock_value::<SECOND, _, _>(rt, &mutexes.fair, token, times),
        Mode::Many => add_along::<SECOND, _, _>(
            rt,
            bench.rows.plain.as_slice(),
            token,
            lot,
            number,
            times,
        ),
        Mode::ManyFair => add_along::<SECOND, _, _>(
            rt,
            bench.rows.fair.as_slice(),
            token,
            lot,
            number,
            times,
        ),
        Mode::Remutex => lock_once::<SECOND, _>(rt, &mutexes.again, token, times),
        Mode::Remutex2 => lock_again::<SECOND, _>(rt, &mutexes.again, token, times),
        Mode::RawRead => read_raw::<SECOND, _, _>(rt, &rwlocks.raw, token, times),
        Mode::RawWrite => write_raw::<SECOND, _, _>(rt, &rwlocks.raw, token, times),
        Mode::Read => read_value::<SECOND, _, _>(rt, &rwlocks.value, token, times),
        Mode::Write => write_value::<SECOND, _, _>(rt, &rwlocks.value, token, times),
        Mode::RwMix => mix_value::<SECOND, _, _>(rt, &rwlocks.value, token, times),
        Mode::ReadRecursive => read_value::<SECOND, _, _>(rt, &rwlocks.recursive, token, times),
        Mode::Upgradable => come_upgradable::<SECOND, _, _>(rt, &rwlocks.value, token, times),
        Mode::Upgrade => upgrade_value::<SECOND, _, _>(rt, &rwlocks.value, token, times),
        Mode::Downgrade => downgrade_value::<SECOND, _, _>(rt, &rwlocks.value, token, times),
        Mode::Once => call_once::<SECOND, _>(rt, &bench.done, token, times),
        Mode::Semaphore => hold_permit::<SECOND, _>(rt, &bench.semaphores.one, token, times),
        Mode::Semaphore2 => hold_permit::<SECOND, _>(rt, &bench.semaphores.two, token, times),
        Mode::Notify => notify_nobody::<SECOND, _>(rt, &bench.desk.filled, token, times),
        // The modes that share no operations in batches.
        Mode::NotifyAll | Mode::PingPong | Mode::ManyTurns | Mode::Queue => (),
    }
}

// Returns how the threads of a mode work at a desk, if they do.
fn way_of(mode: Mode) -> Option<Way> {
    match mode {
        Mode::NotifyAll => Some(Way::Meet),
        Mode::PingPong | Mode::ManyTurns => Some(Way::TakeTurns),
        Mode::Queue => Some(Way::Queue),
        _ => None,
    }
}

// Returns the desk at which a thread works, and how many work there.
fn desk_of(plan: Plan, bench: &Bench, number: usize) -> (&Desk, u64)
    ensures { lot_of_condvar result.0.now.filled ≡ lot_of bench.now.mutexes.value.raw }
{
    let (pair, threads) = pair_of(plan, number);
    match bench.desks.get(pair) {
        Some(desk) if plan.mode == Mode::ManyTurns => (desk, threads),
        _ => (&bench.desk, plan.threads as u64),
    }
}

// Does operations until none is left. How many it did.
fn work<R: Wait>(rt: &R, plan: Plan, bench: &Bench, ticket: Ticket, shares: &Shares) -> u64
    requires { IsTicketOf (lot_of bench.now.mutexes.value.raw) ticket }
{
    let mode = plan.mode;
    let mut token = ticket.enter();
    if let Some(way) = way_of(mode) {
        let (desk, threads) = desk_of(plan, bench, token.number());
        let done = work_at(rt, desk, &mut token, way, threads);
        drop(token.leave());
        return done;
    }
    let mut done = 0u64;
    for _ in rt.forever() {
        let times = shares.take();
        if times == 0 {
            break;
        }
        match plan.place {
            CodePlace::First => operate::<false, R>(rt, mode, bench, &mut token, times),
            CodePlace::Second => operate::<true, R>(rt, mode, bench, &mut token, times),
        }
        done = done.saturating_add(times);
    }
    drop(token.leave());
    done
}

fn total_of<R: Wait>(rt: &R, mode: Mode, bench: &Bench, maker: Ticket, counts: &[u64]) -> u64
    requires { IsTicketOf (lot_of bench.now.mutexes.value.raw) maker }
{
    let mut token = maker.enter();
    match mode {
        Mode::Mutex | Mode::MutexTry => added_to(rt, &bench.mutexes.value, &mut token),
        Mode::Fair => added_to(rt, &bench.mutexes.fair, &mut token),
        Mode::Write | Mode::Upgrade | Mode::Downgrade => {
            value_in(rt, &bench.rwlocks.value, &mut token)
        }
        Mode::NotifyAll | Mode::PingPong | Mode::Queue => done_at(rt, &bench.desk, &mut token),
        Mode::RawMutex
        | Mode::RawMutexTry
        | Mode::Many
        | Mode::ManyFair
        | Mode::Remutex
        | Mode::Remutex2
        | Mode::RawRead
        | Mode::RawWrite
        | Mode::Read
        | Mode::RwMix
        | Mode::ReadRecursive
        | Mode::Upgradable
        | Mode::Once
        | Mode::Semaphore
        | Mode::Semaphore2
        | Mode::ManyTurns
        | Mode::Notify => counts
            .iter()
            .fold(0u64, |all, count| all.saturating_add(*count)),
    }
}

// Returns the figures of the work, and how long it took.
fn figures_of(nanos: u128, answer: u64, counts: &[u64]) -> Figures {
    Figures {
        nanos,
        answer,
        low: counts.iter().copied().min().unwrap_or(0),
        high: counts.iter().copied().max().unwrap_or(0),
    }
}

// Threads with these tickets do all operations: how long they took, and how many each did.
fn time_work<R: Threads + Wait + Sync + Clock>(
    rt: &R,
    plan: Plan,
    bench: &Bench,
    tickets: Vec<Ticket>,
) -> Result<io::Result<(u128, Vec<u64>)>, Fault>
    requires { All (IsTicketOf (lot_of bench.now.mutexes.value.raw)) tickets.items }
{
    let left = &Shares::new(plan.operations);
    let started = match Instant::now(rt) {
        Ok(started) => started,
        Err(e) => return Ok(Err(e)),
    };
    let Ok(counts) = map_vec(rt, tickets, &|ticket| work(rt, plan, bench, ticket, left)) else {
        return Err(Fault::NoMemory);
    };
    match started.elapsed(rt) {
        Ok(elapsed) => Ok(Ok((elapsed.as_nanos(), counts))),
        Err(e) => Ok(Err(e)),
    }
}

/// Carries out a plan. The inner error is the clock's.
pub fn carry_out<R: Threads + Wait + Sync + Clock>(
    rt: &R,
    alloc: Global,
    plan: Plan,
) -> Result<io::Result<Figures>, Fault> {
    let (bench, maker, tickets) = bench_for(alloc, plan)?;
    match time_work(rt, plan, &bench, tickets)? {
        Ok((nanos, counts)) => {
            let answer = total_of(rt, plan.mode, &bench, maker, counts.as_slice());
            Ok(Ok(figures_of(nanos, answer, counts.as_slice())))
        }
        Err(e) => Ok(Err(e)),
    }
}
