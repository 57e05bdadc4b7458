//! Waits that have a deadline, beside a run.
ghost use Rattle.run_once_and_semaphores.specs.OnceUsers.{IsTokenOf, lot_of};

use super::check_eq;
use super::crowds::{Part, Told, play};
use super::meets::await_flag;
use super::scripts::waited;
use parking_lot_core::{TickClock, Token};
use run_once_and_semaphores::{Once, OnceFault};
use std::sync::Wait;
use std::sync::atomic::Ordering::SeqCst;
use std::time::Duration;

// Waits for so many nanoseconds.
fn wait_within<R: Wait>(
    rt: &R,
    once: &Once,
    token: &mut Token,
    clock: &TickClock,
    nanos: u64,
) -> &'static str
    requires { IsTokenOf (lot_of once.now) token.old }
    ensures { IsTokenOf (lot_of once.now) token.new }
{
    waited(once.wait_for(rt, token, clock, Duration::from_nanos(nanos)))
}

// Waits up to a time.
fn wait_before<R: Wait>(
    rt: &R,
    once: &Once,
    token: &mut Token,
    clock: &TickClock,
    deadline: u64,
) -> &'static str
    requires { IsTokenOf (lot_of once.now) token.old }
    ensures { IsTokenOf (lot_of once.now) token.new }
{
    waited(once.wait_until(rt, token, clock, deadline))
}

// A call whose closure waits to be let go, and fails.
pub(super) fn fail_long<R: Wait>(rt: &R, once: &Once, token: &mut Token, with: &Told) -> bool
    requires { IsTokenOf (lot_of once.now) token.old }
    ensures { IsTokenOf (lot_of once.now) token.new }
{
    let answer: Result<(), OnceFault<u32>> = once.call_once(rt, token, move || {
        with.inside.store(true, SeqCst);
        await_flag(rt, &with.go);
        Err(7)
    });
    answer.is_err()
}

// Waits beside a run whose end comes in time. The thread is content where it is told this of it.
pub(super) fn wait_long<R: Wait>(
    rt: &R,
    once: &Once,
    token: &mut Token,
    with: &Told,
    wanted: &'static str,
) -> bool
    requires { IsTokenOf (lot_of once.now) token.old }
    ensures { IsTokenOf (lot_of once.now) token.new }
{
    await_flag(rt, &with.inside);
    wait_before(rt, once, token, &TickClock::new(), u64::MAX) == wanted
}

// Waits for a short time. None where that was in vain, and else whether the run is done.
fn wait_shortly<R: Wait>(rt: &R, once: &Once, token: &mut Token, with: &Told) -> Option<bool>
    requires { IsTokenOf (lot_of once.now) token.old }
    ensures { IsTokenOf (lot_of once.now) token.new }
{
    let word = wait_within(rt, once, token, &TickClock::new(), 30);
    if word != "no" {
        return Some(word == "yes");
    }
    with.runs.fetch_add(1, SeqCst);
    None
}

// Waits beside a run twice in vain, lets it go, and waits for its end. The thread is content where
// it is told in the end that the run is done.
pub(super) fn race<R: Wait>(rt: &R, once: &Once, token: &mut Token, with: &Told) -> bool
    requires { IsTokenOf (lot_of once.now) token.old }
    ensures { IsTokenOf (lot_of once.now) token.new }
{
    await_flag(rt, &with.inside);
    if let Some(content) = wait_shortly(rt, once, token, with) {
        return content;
    }
    if let Some(content) = wait_shortly(rt, once, token, with) {
        return content;
    }
    with.go.store(true, SeqCst);
    wait_before(rt, once, token, &TickClock::new(), u64::MAX) == "yes"
}

#[test]
fn a_run_that_ends_in_time_is_waited_for(rt: HostRuntime) {
    let (content, done, _) = play(&rt, rt.alloc(), 4, Part::InTime { fails: false });
    check_eq(&rt, (content, done), (true, true));
}

#[test]
fn a_waiter_is_told_of_a_run_that_fails(rt: HostRuntime) {
    let (content, done, _) = play(&rt, rt.alloc(), 4, Part::InTime { fails: true });
    check_eq(&rt, (content, done), (true, false));
}

#[test]
fn waits_that_give_up_race_the_end_of_a_run(rt: HostRuntime) {
    let (content, done, gave_up) = play(&rt, rt.alloc(), 5, Part::Race);
    check_eq(&rt, (content, done, gave_up >= 2), (true, true, true));
}
