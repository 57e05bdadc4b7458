//! Calls of a reader-writer lock with a value that give up in time.
ghost use Rattle.std.specs.Prelude.{◌≡◌, MatchResult};
ghost use Rattle.lock_api_rw.specs.Guards.{lock_of};
ghost use Rattle.parking_lot_core.specs.Tokens.{IsTokenOf};
ghost use Rattle.parking_lot.specs.LotOf.{lot_of_rwlock};

use super::{
    Lock, Upgradable, Writer, check_eq, end_reader, end_upgradable, end_writer, lock_alone, read,
    read_upgradable, write,
};
use parking_lot::{Clock, TickClock, Token};
use std::sync::Wait;
use std::time::Duration;

// A deadline that is come to soon, on a clock that begins at 0.
const EARLY: u64 = 20;

// As long a time, from the beginning of such a clock.
fn soon() -> Duration {
    Duration::from_nanos(EARLY)
}

// Returns whether somebody waited until almost twice its time was up.
fn waited_long(clock: &TickClock) -> bool {
    2 * EARLY - 10 <= clock.now()
}

// Returns whether a reader that waits comes in, or gives up late.
fn reads_in_time<R: Wait>(rt: &R, lock: &Lock, token: &mut Token, until: bool) -> bool
    requires { IsTokenOf (lot_of_rwlock lock.now) token.old }
    ensures { IsTokenOf (lot_of_rwlock lock.now) token.new }
{
    let clock = TickClock::new();
    let taken = if until {
        lock.try_read_until(rt, token, &clock, EARLY)
    } else {
        lock.try_read_for(rt, token, &clock, soon())
    };
    match taken {
        Ok(Some(guard)) => {
            end_reader(rt, token, guard);
            true
        }
        _ => waited_long(&clock),
    }
}

// Comes as an upgradable reader, in time or not.
fn comes_upgradable_in_time<R: Wait>(rt: &R, lock: &Lock, token: &mut Token, until: bool) -> bool
    requires { IsTokenOf (lot_of_rwlock lock.now) token.old }
    ensures { IsTokenOf (lot_of_rwlock lock.now) token.new }
{
    let clock = TickClock::new();
    let taken = if until {
        lock.try_upgradable_read_until(rt, token, &clock, EARLY)
    } else {
        lock.try_upgradable_read_for(rt, token, &clock, soon())
    };
    match taken {
        Ok(Some(guard)) => {
            end_upgradable(rt, token, guard);
            true
        }
        _ => waited_long(&clock),
    }
}

// Comes as a writer, in time or not.
fn writes_in_time<R: Wait>(rt: &R, lock: &Lock, token: &mut Token, until: bool) -> bool
    requires { IsTokenOf (lot_of_rwlock lock.now) token.old }
    ensures { IsTokenOf (lot_of_rwlock lock.now) token.new }
{
    let clock = TickClock::new();
    let taken = if until {
        lock.try_write_until(rt, token, &clock, EARLY)
    } else {
        lock.try_write_for(rt, token, &clock, soon())
    };
    match taken {
        Some(guard) => {
            end_writer(rt, token, guard);
            true
        }
        None => waited_long(&clock),
    }
}

// The threads that try to come in beside a writer: a reader, an upgradable one, another writer.
fn come_beside_a_writer<R: Wait>(rt: &R, lock: &Lock, token: &mut Token, until: bool) -> [bool; 3]
    requires { IsTokenOf (lot_of_rwlock lock.now) token.old }
    ensures { IsTokenOf (lot_of_rwlock lock.now) token.new }
{
    let guard = write(rt, lock, token);
    let came = [
        reads_in_time(rt, lock, token, until),
        comes_upgradable_in_time(rt, lock, token, until),
        writes_in_time(rt, lock, token, until),
    ];
    end_writer(rt, token, guard);
    came
}

// Goes. Whether it had become the writer.
fn goes_upgraded<'l, R: Wait>(
    rt: &R,
    lock: &Lock,
    token: &mut Token,
    upgraded: Result<Writer<'l>, Upgradable<'l>>,
) -> bool
    requires token { IsTokenOf (lot_of_rwlock lock.now) token.old }
    requires guard { MatchResult upgraded (λ guard. lock_of guard ≡ lock.now)
        (λ guard. lock_of guard ≡ lock.now) }
    ensures { IsTokenOf (lot_of_rwlock lock.now) token.new }
{
    match upgraded {
        Ok(guard) => {
            end_writer(rt, token, guard);
            true
        }
        Err(guard) => {
            end_upgradable(rt, token, guard);
            false
        }
    }
}

// Returns whether an upgrade becomes the writer, where it doesn't give up late.
fn upgrades_in_time<R: Wait>(rt: &R, lock: &Lock, token: &mut Token, until: bool) -> Option<bool>
    requires { IsTokenOf (lot_of_rwlock lock.now) token.old }
    ensures { IsTokenOf (lot_of_rwlock lock.now) token.new }
{
    let clock = TickClock::new();
    let guard = read_upgradable(rt, lock, token)?;
    let upgraded = if until {
        guard.try_upgrade_until(rt, token, &clock, EARLY)
    } else {
        guard.try_upgrade_for(rt, token, &clock, soon())
    };
    let is_writer = goes_upgraded(rt, lock, token, upgraded);
    if waited_long(&clock) {
        return None;
    }
    Some(is_writer)
}

// The ends of upgrades, of both forms.
fn upgrades<R: Wait>(rt: &R, lock: &Lock, token: &mut Token) -> [Option<bool>; 2]
    requires { IsTokenOf (lot_of_rwlock lock.now) token.old }
    ensures { IsTokenOf (lot_of_rwlock lock.now) token.new }
{
    [
        upgrades_in_time(rt, lock, token, false),
        upgrades_in_time(rt, lock, token, true),
    ]
}

// The ends of upgrades beside a reader, and then without one.
fn upgrades_beside_a_reader<R: Wait>(
    rt: &R,
    lock: &Lock,
    token: &mut Token,
) -> Option<[[Option<bool>; 2]; 2]>
    requires { IsTokenOf (lot_of_rwlock lock.now) token.old }
{
    let guard = read(rt, lock, token)?;
    let beside = upgrades(rt, lock, token);
    end_reader(rt, token, guard);
    Some([beside, upgrades(rt, lock, token)])
}

#[test]
fn a_waiter_gives_up_in_time(rt: HostRuntime) {
    let (lock, mut token) = lock_alone(&rt, rt.alloc(), 0, false);
    let within = come_beside_a_writer(&rt, &lock, &mut token, false);
    let until = come_beside_a_writer(&rt, &lock, &mut token, true);
    check_eq(&rt, [within, until], [[false; 3]; 2]);
    let upgraded = upgrades_beside_a_reader(&rt, &lock, &mut token);
    check_eq(&rt, upgraded, Some([[Some(false); 2], [Some(true); 2]]));
}
