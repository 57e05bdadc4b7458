//! How many schedules there are. Two threads of n calls each that meet nowhere have (2n)! / n! n! of them;
//! by at most one interruption 2n, and by none 2.
ghost use Rattle.std.specs.Prelude.{◌≡◌};
ghost use Rattle.parking_lot.specs.LotOf.{IsTokenOf, lot_of};

use super::{check_eq, search_by};
use lock_explore::{Policy, Summary, explore};
use parking_lot::{Director, Fault, Mutex, Team, Token};
use std::alloc::{AllocError, Global};
use std::sync::{Arc, Wait};
use std::test::Fail;
use std::thread::Threads;

fn lock_own<R: Wait>(rt: &R, own: &Mutex<u32>, token: &mut Token)
    requires { IsTokenOf (lot_of own.now) token.old }
    ensures { IsTokenOf (lot_of own.now) token.new }
{
    let guard = own.lock(rt, token);
    guard.unlock(rt, token);
}

fn lock_often<R: Wait>(rt: &R, own: &Mutex<u32>, token: &mut Token, twice: bool)
    requires { IsTokenOf (lot_of own.now) token.old }
{
    lock_own(rt, own, token);
    if twice {
        lock_own(rt, own, token);
    }
}

// Locks the thread's own mutex once, or twice.
fn lock_some<R: Wait>(rt: &R, left: &Mutex<u32>, right: &Mutex<u32>, token: &mut Token, twice: bool)
    requires left { IsTokenOf (lot_of left.now) token.old }
    requires right { lot_of right.now ≡ lot_of left.now }
{
    if token.number() == 0 {
        lock_often(rt, left, token, twice);
    } else {
        lock_often(rt, right, token, twice);
    }
}

// Two threads with two calls each, or with four.
fn apart<R: Threads + Wait + Sync>(
    rt: &R,
    alloc: Global,
    director: &Arc<Director>,
    twice: bool,
) -> Result<(), Fault> {
    let (team, mut token) = Team::directed(alloc, 2, director)?;
    let left = Mutex::new(team.lot(), &mut token, 0u32)?;
    let right = Mutex::new(team.lot(), &mut token, 0u32)?;
    team.run(
        rt,
        &|token: &mut Token| lock_some(rt, &left, &right, token, twice),
    )?;
    Ok(())
}

fn all_of<R: Threads + Wait + Copy + Send + Sync + 'static>(
    rt: &R,
    alloc: Global,
    preemptions: u64,
    twice: bool,
) -> Result<Summary, AllocError> {
    let runs = search_by(alloc, Policy::Exhaustive { preemptions }, 1000);
    explore(rt, alloc, &runs, move |rt: &R, director: &Arc<Director>| {
        apart(rt, alloc, director, twice)
    })
}

#[test]
fn all_schedules_are_run_once(rt: HostRuntime) -> Result<(), Fail> {
    for (preemptions, twice, wanted) in [
        (0, false, 2),
        (1, false, 4),
        (2, false, 6),
        (3, false, 6),
        (0, true, 2),
        (1, true, 8),
        (7, true, 70),
    ] {
        let found = all_of(&rt, rt.alloc(), preemptions, twice)?;
        check_eq(&rt, (found.runs, found.fine.runs), (wanted, wanted));
        check_eq(&rt, found.is_complete, true);
    }
    Ok(())
}
