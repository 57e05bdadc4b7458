//! A queue of one place, a thread that fills it twice, and two that take one job each. Wrong: one
//! condition variable for two conditions, and each change notifies one thread.
ghost use Rattle.std.specs.Prelude.{◌≡◌};
ghost use Rattle.parking_lot.specs.LotOf.{IsTokenOf, lot_of, lot_of_condvar};

use crate::programs::Version;
use parking_lot::{Condvar, Director, Fault, Mutex, Team, Token};
use std::alloc::Global;
use std::sync::{Arc, Wait};
use std::thread::Threads;

// Waits until the place is as it is to be, and changes that.
fn change<R: Wait>(
    rt: &R,
    jobs: &Mutex<u32>,
    awaited: &Condvar,
    notified: &Condvar,
    token: &mut Token,
    brings: bool,
)
    requires token { IsTokenOf (lot_of jobs.now) token.old }
    requires awaited { lot_of_condvar awaited.now ≡ lot_of jobs.now }
    requires notified { lot_of_condvar notified.now ≡ lot_of jobs.now }
    ensures { IsTokenOf (lot_of jobs.now) token.new }
{
    let guard = jobs.lock(rt, token);
    let mut guard = match awaited.wait_while(
        rt,
        token,
        guard,
        |jobs: &mut u32| (*jobs == 0) != brings,
    ) {
        Ok(guard) => guard,
        Err((_, guard)) => guard,
    };
    *guard = if brings { 1 } else { 0 };
    notified.notify_one(rt, token);
    guard.unlock(rt, token);
}

// Thread 0 brings two jobs, and the others take one each.
fn bring_or_take<R: Wait>(
    rt: &R,
    jobs: &Mutex<u32>,
    filled: &Condvar,
    emptied: &Condvar,
    token: &mut Token,
)
    requires token { IsTokenOf (lot_of jobs.now) token.old }
    requires filled { lot_of_condvar filled.now ≡ lot_of jobs.now }
    requires emptied { lot_of_condvar emptied.now ≡ lot_of jobs.now }
{
    if token.number() == 0 {
        change(rt, jobs, emptied, filled, token, true);
        change(rt, jobs, emptied, filled, token, true);
    } else {
        change(rt, jobs, filled, emptied, token, false);
    }
}

fn pass_on<R: Wait>(
    rt: &R,
    jobs: &Mutex<u32>,
    filled: &Condvar,
    other: &Condvar,
    token: &mut Token,
    version: Version,
)
    requires token { IsTokenOf (lot_of jobs.now) token.old }
    requires filled { lot_of_condvar filled.now ≡ lot_of jobs.now }
    requires other { lot_of_condvar other.now ≡ lot_of jobs.now }
{
    match version {
        Version::Wrong => bring_or_take(rt, jobs, filled, filled, token),
        Version::Cured => bring_or_take(rt, jobs, filled, other, token),
    }
}

pub fn queue<R: Threads + Wait + Sync>(
    rt: &R,
    alloc: Global,
    director: &Arc<Director>,
    version: Version,
) -> Result<(), Fault> {
    let (team, mut token) = Team::directed(alloc, 3, director)?;
    let jobs = Mutex::new(team.lot(), &mut token, 0u32)?;
    let filled = Condvar::new(team.lot(), &mut token)?;
    let other = Condvar::new(team.lot(), &mut token)?;
    team.run(
        rt,
        &|token: &mut Token| pass_on(rt, &jobs, &filled, &other, token, version),
    )?;
    Ok(())
}
