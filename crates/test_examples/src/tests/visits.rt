//! A wait that ends in time.
ghost use Rattle.parking_lot.specs.LotOf.{IsTokenOf, lot_of};

use super::{check, check_eq};
use parking_lot::{Monitor, Team, TickClock, Token};
use std::sync::Wait;
use std::test::Fail;

// Waits until the value is 0, or up to a deadline, and then takes 1 away. Whether it was late.
fn wait_for_0<R: Wait>(rt: &R, monitor: &Monitor<u64, 1>, token: &mut Token) -> bool
    requires { IsTokenOf (lot_of monitor.now.0) token.old }
    ensures { IsTokenOf (lot_of monitor.now.0) token.new }
{
    let clock = TickClock::new();
    let guard = monitor.lock(rt, token);
    let (mut guard, late) = monitor.wait_while_until(
        rt,
        token,
        guard,
        0,
        |value: &mut u64| *value > 0,
        &clock,
        100,
    );
    *guard = guard.saturating_sub(1);
    guard.unlock(rt, token);
    late
}

#[test]
fn a_wait_of_a_monitor_ends_in_time(rt: HostRuntime) -> Result<(), Fail> {
    let (team, mut token) = Team::new(rt.alloc(), 0)?;
    let monitor = Monitor::new(rt.alloc(), team.lot(), &mut token, 1u64)?;
    check(&rt, wait_for_0(&rt, &monitor, &mut token));
    check(&rt, !wait_for_0(&rt, &monitor, &mut token));
    check(&rt, !monitor.notify_one(&rt, &mut token, 0));
    check_eq(&rt, monitor.notify_all(&rt, &mut token, 0), 0);
    check_eq(&rt, monitor.into_inner(), 0);
    Ok(())
}
