//! What a search finds, counts and tells, and that it notices a lot whose tokens never ask.
mod counts;
mod endings;
mod planted;
mod told;

ghost use Rattle.std.specs.Prelude.{◌≡◌};
ghost use Rattle.parking_lot.specs.LotOf.{IsTokenOf, lot_of};

use lock_explore::{Policy, Search};
use parking_lot::{Director, Fault, Mutex, Team, Token};
use std::alloc::Global;
use std::fmt::Debug;
use std::process::Abort;
use std::sync::{Arc, Wait};
use std::thread::Threads;

/// Asserts that the thing found is the thing wanted. The tests share this one assertion, since each
/// is proved where it stands.
fn check_eq<T: PartialEq + Debug + Drop>(rt: &impl Abort, found: T, wanted: T) {
    assert_eq!(rt; found, wanted);
}

/// Makes a search by a policy of so many runs, which goes on after a run that went wrong.
fn search_by(alloc: Global, policy: Policy, runs: u64) -> Search {
    let mut search = Search::new(alloc);
    search.policy = policy;
    search.runs = runs;
    search.goes_on = true;
    search
}

/// Makes a search of one run, in which the threads of the script have the turns.
fn search_of(alloc: Global, script: Vec<usize>) -> Search {
    let mut search = Search::new(alloc);
    search.policy = Policy::Replay;
    search.runs = 1;
    search.script = script;
    search
}

/// Locks both mutexes, one after the other.
fn lock_both<R: Wait>(rt: &R, first: &Mutex<u32>, second: &Mutex<u32>, token: &mut Token)
    requires first { IsTokenOf (lot_of first.now) token.old }
    requires second { lot_of second.now ≡ lot_of first.now }
    ensures { IsTokenOf (lot_of first.now) token.new }
{
    let one = first.lock(rt, token);
    let other = second.lock(rt, token);
    other.unlock(rt, token);
    one.unlock(rt, token);
}

/// Locks both mutexes, each of two threads in its own order.
fn lock_crosswise<R: Wait>(rt: &R, left: &Mutex<u32>, right: &Mutex<u32>, token: &mut Token)
    requires left { IsTokenOf (lot_of left.now) token.old }
    requires right { lot_of right.now ≡ lot_of left.now }
{
    if token.number() == 0 {
        lock_both(rt, left, right, token);
    } else {
        lock_both(rt, right, left, token);
    }
}

/// Two threads lock two mutexes, each in its own order.
fn crosswise<R: Threads + Wait + Sync>(
    rt: &R,
    alloc: Global,
    director: &Arc<Director>,
) -> Result<(), Fault> {
    let (team, mut token) = Team::directed(alloc, 2, director)?;
    let left = Mutex::new(team.lot(), &mut token, 0u32)?;
    let right = Mutex::new(team.lot(), &mut token, 0u32)?;
    team.run(
        rt,
        &|token: &mut Token| lock_crosswise(rt, &left, &right, token),
    )?;
    Ok(())
}
