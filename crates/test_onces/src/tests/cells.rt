//! A value that the first that asks makes.
ghost use Rattle.run_once_and_semaphores.specs.OnceUsers.{IsTokenOf, lot_of};

use super::crowds::{Part, play};
use super::{cell_of, check_eq, seats};
use parking_lot_core::Token;
use run_once_and_semaphores::OnceCell;
use std::alloc::Global;
use std::process::Abort;
use std::sync::Wait;
use std::sync::atomic::AtomicUsize;
use std::sync::atomic::Ordering::SeqCst;
use std::thread::yield_now;

// How a thread asks for the value, where nobody has made it.
#[derive(Clone, Copy)]
enum Ask {
    /// The thread makes the value of how many have made it before.
    Makes,
    /// Making it fails.
    Fails,
    /// The thread makes the value by a closure that can't fail.
    MakesSurely,
}

// An ask, and the value that comes of it.
type Line = (Ask, Option<u64>);

// The value, or none, where making it fails.
fn value_of<R: Wait>(
    rt: &R,
    cell: &OnceCell<u64>,
    token: &mut Token,
    runs: &AtomicUsize,
    ask: Ask,
) -> Option<u64>
    requires { IsTokenOf (lot_of cell.now.0) token.old }
    ensures { IsTokenOf (lot_of cell.now.0) token.new }
{
    if let Ask::MakesSurely = ask {
        return Some(*cell.get_or_init(rt, token, move || 7 + runs.fetch_add(1, SeqCst) as u64 % 2));
    }
    let found: Result<&u64, u32> = cell.get_or_try_init(rt, token, move || {
        let before = runs.fetch_add(1, SeqCst) as u64;
        match ask {
            Ask::Fails => Err(7u32),
            _ => Ok(before),
        }
    });
    found.ok().copied()
}

// A thread asks as the script says, and finds that each time. So many closures have run.
fn asks<R: Wait + Abort>(
    rt: &R,
    cell: &OnceCell<u64>,
    token: &mut Token,
    script: &[Line],
    runs: usize,
)
    requires { IsTokenOf (lot_of cell.now.0) token.old }
{
    let ran = AtomicUsize::new(0);
    check_eq(rt, cell.get().copied(), None);
    for (number, line) in script.iter().enumerate() {
        let (ask, wanted) = *line;
        let found = value_of(rt, cell, token, &ran, ask);
        check_eq(
            rt,
            (number, found, cell.get().copied()),
            (number, wanted, wanted),
        );
    }
    check_eq(rt, ran.load(SeqCst), runs);
}

// A cell that one thread has for itself.
fn cell_alone<A: Abort>(rt: &A, alloc: Global) -> (OnceCell<u64>, Token)
    ensures { IsTokenOf (lot_of result.0.0) result.1 }
{
    let (lot, mut token, _others) = seats(rt, alloc, 1);
    let cell = cell_of(rt, &lot, &mut token);
    (cell, token)
}

const IS_MADE: &[Line] = &[
    (Ask::Fails, None),
    (Ask::Makes, Some(1)),
    (Ask::Makes, Some(1)),
];

#[test]
fn a_value_is_made_once(rt: HostRuntime) {
    let (mut cell, mut token) = cell_alone(&rt, rt.alloc());
    asks(&rt, &cell, &mut token, IS_MADE, 2);
    if let Some(value) = cell.get_mut() {
        *value = 5;
    }
    check_eq(&rt, cell.into_inner(), Some(5));
}

const IS_MADE_SURELY: &[Line] = &[
    (Ask::Fails, None),
    (Ask::MakesSurely, Some(8)),
    (Ask::MakesSurely, Some(8)),
    (Ask::Fails, Some(8)),
];

#[test]
fn a_value_that_cannot_fail_is_made_once(rt: HostRuntime) {
    let (cell, mut token) = cell_alone(&rt, rt.alloc());
    asks(&rt, &cell, &mut token, IS_MADE_SURELY, 2);
}

const ASKERS: usize = 10;

// Looks until all that are to ask have come, a million times at most.
fn await_askers(came: &AtomicUsize) {
    for _ in 0..1_000_000 {
        if ASKERS <= came.load(SeqCst) {
            break;
        }
        yield_now();
    }
}

// The value, which each thread that makes it makes only once all have come to ask: a cell whose
// value each of them could make would have several made.
pub(super) fn shared_value_of<R: Wait>(
    rt: &R,
    cell: &OnceCell<u64>,
    token: &mut Token,
    came: &AtomicUsize,
    runs: &AtomicUsize,
) -> Option<u64>
    requires { IsTokenOf (lot_of cell.now.0) token.old }
    ensures { IsTokenOf (lot_of cell.now.0) token.new }
{
    let found: Result<&u64, u32> = cell.get_or_try_init(rt, token, move || {
        await_askers(came);
        Ok(runs.fetch_add(1, SeqCst) as u64)
    });
    found.ok().copied()
}

#[test]
fn ten_threads_ask_at_once(rt: HostRuntime) {
    check_eq(
        &rt,
        play(&rt, rt.alloc(), ASKERS, Part::Ask),
        (true, false, 1),
    );
}
