//! Two threads count to 2. Wrong: each reads the count in one section, and writes it in another.
ghost use Rattle.parking_lot.specs.LotOf.{IsTokenOf, lot_of};

use crate::programs::Version;
use parking_lot::{Director, Fault, Mutex, Team, Token};
use std::alloc::Global;
use std::sync::{Arc, Wait};
use std::thread::Threads;

fn count<R: Wait>(rt: &R, total: &Mutex<u32>, token: &mut Token, version: Version)
    requires { IsTokenOf (lot_of total.now) token.old }
{
    if version == Version::Cured {
        total.with(rt, token, |total: &mut u32| *total = total.wrapping_add(1));
    } else {
        let seen = total.with(rt, token, |total: &mut u32| *total);
        total.with(rt, token, |total: &mut u32| *total = seen.wrapping_add(1));
    }
}

pub fn counter<R: Threads + Wait + Sync>(
    rt: &R,
    alloc: Global,
    director: &Arc<Director>,
    version: Version,
) -> Result<(), Fault> {
    let (team, mut token) = Team::directed(alloc, 2, director)?;
    let total = Mutex::new(team.lot(), &mut token, 0u32)?;
    team.run(rt, &|token: &mut Token| count(rt, &total, token, version))?;
    director.check(total.into_inner() == 2, "both threads are counted");
    Ok(())
}
