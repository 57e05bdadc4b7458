//! The clock of the system, and one of ticks.
use super::{check, check_eq};
use core_clocks::{Clock, SystemClock, TickClock};
use std::process::Abort;

#[test]
fn the_system_clock_goes_on(rt: HostRuntime) {
    let clock = SystemClock::new(&rt);
    let before = clock.now();
    clock.pause(u64::MAX);
    clock.pause(20_000);
    check(&rt, clock.now().saturating_sub(before) >= 20_000);
}

#[test]
fn a_look_takes_a_nanosecond(rt: HostRuntime) {
    let clock = TickClock::new();
    check_eq(&rt, (clock.now(), clock.now()), (0, 1));
    clock.pause(u64::MAX);
    check_eq(&rt, clock.now(), 2);
    let far = TickClock::starting_at(1000);
    check_eq(&rt, far.now(), 1000);
    far.restart();
    check_eq(&rt, far.now(), 1000);
}
