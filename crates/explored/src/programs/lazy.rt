//! Two threads want a value that is made once. Wrong: a thread that finds it missing makes it before it
//! calls the `Once`.
ghost use Rattle.parking_lot.specs.LotOf.{IsTokenOf, lot_of_once};

use crate::programs::Version;
use parking_lot::{Director, Fault, Once, Team, Token};
use std::alloc::Global;
use std::sync::atomic::AtomicU32;
use std::sync::atomic::Ordering::SeqCst;
use std::sync::{Arc, Wait};
use std::thread::Threads;

fn want<R: Wait>(rt: &R, setup: &Once, made: &AtomicU32, token: &mut Token, version: Version)
    requires { IsTokenOf (lot_of_once setup.now) token.old }
{
    if setup.is_completed(token) {
        return;
    }
    if version == Version::Wrong {
        made.fetch_add(1, SeqCst);
    }
    let _ = setup.call_once(rt, token, || -> Result<(), Fault> {
        if version == Version::Cured {
            made.fetch_add(1, SeqCst);
        }
        Ok(())
    });
}

pub fn lazy<R: Threads + Wait + Sync>(
    rt: &R,
    alloc: Global,
    director: &Arc<Director>,
    version: Version,
) -> Result<(), Fault> {
    let (team, mut token) = Team::directed(alloc, 2, director)?;
    let setup = Once::new(team.lot(), &mut token)?;
    let made = AtomicU32::new(0);
    team.run(
        rt,
        &|token: &mut Token| want(rt, &setup, &made, token, version),
    )?;
    director.check(made.load(SeqCst) == 1, "the value is made once");
    Ok(())
}
