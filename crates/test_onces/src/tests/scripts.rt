//! What one thread does about a `Once`, and what it is told each time.
ghost use Rattle.run_once_and_semaphores.specs.OnceUsers.{IsTokenOf, lot_of};

use super::{check_eq, count_run, fail, once_alone, seats, told};
use parking_lot_core::{Clock, Fault, TickClock, Token};
use run_once_and_semaphores::{Once, OnceFault, OnceState};
use std::alloc::Global;
use std::process::Abort;
use std::sync::Wait;
use std::sync::atomic::Ordering::SeqCst;
use std::sync::atomic::{AtomicBool, AtomicUsize};
use std::time::Duration;

// When the clock of a script begins.
const FAR: u64 = 1000;

// A call that a thread makes.
#[derive(Clone, Copy)]
enum Deed {
    /// Looks at the state by both calls that tell it.
    Looks,
    /// Calls it. The closure is counted, and ends well.
    Calls,
    /// Calls it. The closure fails.
    Fails,
    /// Calls it by force. The closure ends well, and looks whether the run before has failed.
    Mends,
    Waits,
    WaitsByForce,
    /// Waits for so many nanoseconds.
    WaitsFor(u64),
    /// Waits up to a time.
    WaitsUntil(u64),
    /// Looks whether the clock has just come past a time.
    IsPast(u64),
}

// A deed, and how it is answered.
type Line = (Deed, &'static str);

// The clock of a script, and how many closures were counted.
#[derive(Drop)]
struct Scene {
    clock: TickClock,
    runs: AtomicUsize,
}

// Names the state that both calls tell.
fn state_of(once: &Once, token: &mut Token) -> &'static str
    requires { IsTokenOf (lot_of once.now) token.old }
    ensures { IsTokenOf (lot_of once.now) token.new }
{
    let state = once.state(token);
    match (state, once.is_completed(token)) {
        (OnceState::New, false) => "new",
        (OnceState::InProgress, false) => "in progress",
        (OnceState::Poisoned, false) => "poisoned",
        (OnceState::Done, true) => "done",
        _ => "told in two ways",
    }
}

// Names the answer of a forced call, whose closure was told that the run before had failed.
fn mend<R: Wait>(rt: &R, once: &Once, token: &mut Token) -> &'static str
    requires { IsTokenOf (lot_of once.now) token.old }
    ensures { IsTokenOf (lot_of once.now) token.new }
{
    let poisoned = AtomicBool::new(false);
    let seen = &poisoned;
    let answer: Result<(), OnceFault<u32>> = once.call_once_force(
        rt,
        token,
        move |before: OnceState| {
            seen.store(matches!(before, OnceState::Poisoned), SeqCst);
            Ok(())
        },
    );
    if poisoned.load(SeqCst) {
        told(answer)
    } else {
        "told of no failure"
    }
}

// Names the answer of a wait.
pub(super) fn waited(answer: Result<bool, Fault>) -> &'static str {
    match answer {
        Ok(true) => "yes",
        Ok(false) => "no",
        Err(Fault::Poisoned) => "poisoned",
        Err(_) => "refused",
    }
}

// Tells whether the clock came to a time, and has not been looked at often since.
fn is_past(clock: &TickClock, time: u64) -> &'static str {
    let now = clock.now();
    if time < now && now < time.saturating_add(10) {
        "yes"
    } else {
        "no"
    }
}

// Does it, and names the answer.
fn perform<R: Wait>(
    rt: &R,
    once: &Once,
    token: &mut Token,
    scene: &Scene,
    deed: Deed,
) -> &'static str
    requires { IsTokenOf (lot_of once.now) token.old }
    ensures { IsTokenOf (lot_of once.now) token.new }
{
    match deed {
        Deed::Looks => state_of(once, token),
        Deed::Calls => count_run(rt, once, token, &scene.runs),
        Deed::Fails => fail(rt, once, token),
        Deed::Mends => mend(rt, once, token),
        Deed::Waits => match once.wait(rt, token) {
            Ok(()) => "yes",
            Err(fault) => waited(Err(fault)),
        },
        Deed::WaitsByForce => {
            once.wait_force(rt, token);
            "yes"
        }
        Deed::WaitsFor(nanos) => {
            let time = Duration::from_nanos(nanos);
            waited(once.wait_for(rt, token, &scene.clock, time))
        }
        Deed::WaitsUntil(time) => waited(once.wait_until(rt, token, &scene.clock, time)),
        Deed::IsPast(time) => is_past(&scene.clock, time),
    }
}

// A thread does what the script says, and is told that. So many closures are counted. All scripts
// share this one walk, since each statement of a test is proved.
fn plays<R: Wait + Abort>(rt: &R, once: &Once, token: &mut Token, script: &[Line], runs: usize)
    requires { IsTokenOf (lot_of once.now) token.old }
{
    let scene = Scene {
        clock: TickClock::starting_at(FAR),
        runs: AtomicUsize::new(0),
    };
    for (number, line) in script.iter().enumerate() {
        let (deed, wanted) = *line;
        let found = perform(rt, once, token, &scene, deed);
        check_eq(rt, (number, found), (number, wanted));
    }
    check_eq(rt, scene.runs.load(SeqCst), runs);
}

// The script is played with a `Once` of its own.
fn plays_anew<R: Wait + Abort>(rt: &R, alloc: Global, script: &[Line], runs: usize) {
    let (once, mut token) = once_alone(rt, alloc);
    plays(rt, &once, &mut token, script, runs);
}

const CALLS_FIRST: &[Line] = &[
    (Deed::Looks, "new"),
    (Deed::Calls, "ok"),
    (Deed::Looks, "done"),
    (Deed::Calls, "ok"),
    (Deed::Waits, "yes"),
    (Deed::WaitsByForce, "yes"),
    (Deed::Looks, "done"),
];

#[test]
fn the_first_call_runs(rt: HostRuntime) {
    plays_anew(&rt, rt.alloc(), CALLS_FIRST, 1);
}

const IS_DONE: &[Line] = &[(Deed::Looks, "done"), (Deed::Calls, "ok")];

#[test]
fn what_is_made_done_runs_nothing(rt: HostRuntime) {
    let (lot, mut token, _others) = seats(&rt, rt.alloc(), 1);
    let Ok(once) = Once::new_completed(&lot, &mut token) else {
        panic!(rt; "no Once");
    };
    plays(&rt, &once, &mut token, IS_DONE, 0);
}

const FAILS_AND_IS_MENDED: &[Line] = &[
    (Deed::Fails, "failed"),
    (Deed::Looks, "poisoned"),
    (Deed::Calls, "poisoned"),
    (Deed::Waits, "poisoned"),
    (Deed::Mends, "ok"),
    (Deed::Looks, "done"),
    (Deed::Calls, "ok"),
];

#[test]
fn a_failed_run_poisons(rt: HostRuntime) {
    plays_anew(&rt, rt.alloc(), FAILS_AND_IS_MENDED, 0);
}

const WAITS_FOR_NO_RUN: &[Line] = &[
    (Deed::WaitsFor(30), "no"),
    (Deed::IsPast(FAR + 30), "yes"),
    (Deed::WaitsUntil(FAR + 80), "no"),
    (Deed::IsPast(FAR + 80), "yes"),
];

#[test]
fn a_waiter_without_a_run_gives_up_in_time(rt: HostRuntime) {
    plays_anew(&rt, rt.alloc(), WAITS_FOR_NO_RUN, 0);
}

const COMES_LATE: &[Line] = &[
    (Deed::Fails, "failed"),
    (Deed::WaitsUntil(0), "poisoned"),
    (Deed::Calls, "poisoned"),
    (Deed::WaitsFor(5), "poisoned"),
];

#[test]
fn a_late_call_is_told_of_the_run_before(rt: HostRuntime) {
    plays_anew(&rt, rt.alloc(), COMES_LATE, 0);
}

const IS_DONE_PAST_IT: &[Line] = &[
    (Deed::WaitsUntil(0), "no"),
    (Deed::Calls, "ok"),
    (Deed::WaitsUntil(0), "yes"),
    (Deed::WaitsFor(0), "yes"),
];

#[test]
fn a_run_is_done_past_the_deadline_too(rt: HostRuntime) {
    plays_anew(&rt, rt.alloc(), IS_DONE_PAST_IT, 1);
}
