//! Two threads lock two mutexes. Wrong: each in its own order.
ghost use Rattle.std.specs.Prelude.{◌≡◌};
ghost use Rattle.parking_lot.specs.LotOf.{IsTokenOf, lot_of};

use crate::programs::Version;
use parking_lot::{Director, Fault, Mutex, Team, Token};
use std::alloc::Global;
use std::sync::{Arc, Wait};
use std::thread::Threads;

fn eat<R: Wait>(rt: &R, first: &Mutex<u32>, second: &Mutex<u32>, token: &mut Token)
    requires first { IsTokenOf (lot_of first.now) token.old }
    requires second { lot_of second.now ≡ lot_of first.now }
    ensures { IsTokenOf (lot_of first.now) token.new }
{
    let one = first.lock(rt, token);
    let other = second.lock(rt, token);
    other.unlock(rt, token);
    one.unlock(rt, token);
}

// Locks both, in the order of the thread's number where the program has its bug.
fn dine<R: Wait>(rt: &R, left: &Mutex<u32>, right: &Mutex<u32>, token: &mut Token, version: Version)
    requires left { IsTokenOf (lot_of left.now) token.old }
    requires right { lot_of right.now ≡ lot_of left.now }
{
    if token.number() == 0 || version == Version::Cured {
        eat(rt, left, right, token);
    } else {
        eat(rt, right, left, token);
    }
}

pub fn forks<R: Threads + Wait + Sync>(
    rt: &R,
    alloc: Global,
    director: &Arc<Director>,
    version: Version,
) -> Result<(), Fault> {
    let (team, mut token) = Team::directed(alloc, 2, director)?;
    let left = Mutex::new(team.lot(), &mut token, 0u32)?;
    let right = Mutex::new(team.lot(), &mut token, 0u32)?;
    team.run(
        rt,
        &|token: &mut Token| dine(rt, &left, &right, token, version),
    )?;
    Ok(())
}
