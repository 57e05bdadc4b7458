//! Threads that wait for the end of one run.
ghost use Rattle.std.specs.Prelude.{◌≡◌};
ghost use Rattle.run_once_and_semaphores.specs.OnceUsers.{IsTokenOf, lot_of};

use super::crowds::{Part, Told, play};
use super::{check_eq, count_run};
use parking_lot_core::{Key, ParkingLot, Token};
use run_once_and_semaphores::{Once, OnceFault, OnceState};
use std::sync::Wait;
use std::sync::atomic::AtomicBool;
use std::sync::atomic::Ordering::SeqCst;
use std::thread::yield_now;

const TURNS: usize = 1_000_000;

pub(super) fn await_flag<R: Wait>(rt: &R, flag: &AtomicBool) {
    for _ in rt.forever() {
        if flag.load(SeqCst) {
            break;
        }
        yield_now();
    }
}

// A forced call whose closure waits to be let go. Whether it ended well.
pub(super) fn run_long<R: Wait>(rt: &R, once: &Once, token: &mut Token, told: &Told) -> bool
    requires { IsTokenOf (lot_of once.now) token.old }
    ensures { IsTokenOf (lot_of once.now) token.new }
{
    let answer: Result<(), OnceFault<u32>> = once.call_once_force(
        rt,
        token,
        move |_before: OnceState| {
            told.inside.store(true, SeqCst);
            await_flag(rt, &told.go);
            Ok(())
        },
    );
    answer.is_ok()
}

// A call beside a run. Whether it ended well.
pub(super) fn call_beside<R: Wait>(rt: &R, once: &Once, token: &mut Token, told: &Told) -> bool
    requires { IsTokenOf (lot_of once.now) token.old }
    ensures { IsTokenOf (lot_of once.now) token.new }
{
    await_flag(rt, &told.inside);
    count_run(rt, once, token, &told.runs) == "ok"
}

// A wait beside a run.
pub(super) fn wait_beside<R: Wait>(rt: &R, once: &Once, token: &mut Token, told: &Told) -> bool
    requires { IsTokenOf (lot_of once.now) token.old }
    ensures { IsTokenOf (lot_of once.now) token.new }
{
    await_flag(rt, &told.inside);
    once.wait(rt, token).is_ok()
}

// Returns whether so many came to wait under a key.
pub(super) fn come_to_wait<R: Wait>(
    rt: &R,
    lot: &ParkingLot,
    token: &mut Token,
    key: Key,
    number: usize,
) -> bool
    requires { IsTokenOf lot.now token.old }
    ensures { IsTokenOf lot.now token.new }
{
    for _ in 0..TURNS {
        if lot.queued(rt, token, key) == number {
            return true;
        }
        yield_now();
    }
    false
}

// Lets the run go once two wait for its end. Whether that was seen.
pub(super) fn let_go<R: Wait>(
    rt: &R,
    lot: &ParkingLot,
    once: &Once,
    token: &mut Token,
    told: &Told,
) -> bool
    requires { IsTokenOf lot.now token.old × (lot_of once.now ≡ lot.now) }
    ensures { IsTokenOf lot.now token.new }
{
    let seen = come_to_wait(rt, lot, token, once.key(), 2);
    told.go.store(true, SeqCst);
    seen
}

#[test]
fn a_call_during_a_run_waits_for_its_end(rt: HostRuntime) {
    let found = play(&rt, rt.alloc(), 4, Part::Meet { poisoned: false });
    check_eq(&rt, found, (true, true, 0));
}

#[test]
fn a_call_during_a_forced_run_waits_for_it(rt: HostRuntime) {
    let found = play(&rt, rt.alloc(), 4, Part::Meet { poisoned: true });
    check_eq(&rt, found, (true, true, 0));
}
