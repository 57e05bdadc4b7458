//! A lot whose tokens never ask for a turn, planted in a program that deadlocks. Its threads run one after
//! the other, so that no schedule finds the deadlock, and the search names them.
ghost use Rattle.std.specs.Prelude.{◌≡◌};
ghost use Rattle.parking_lot.specs.LotOf.{IsTokenOf, lot_of};

use super::{check_eq, crosswise, lock_crosswise, search_by};
use core_director::{Deed, Turn};
use lock_explore::{Policy, explore};
use parking_lot::{Director, Fault, Mutex, Team, Token};
use std::alloc::Global;
use std::sync::{Arc, Wait};
use std::test::Fail;
use std::thread::Threads;

// Comes and goes by the director, as the threads of a directed lot do, with a token that never asks.
fn lock_unasked<R: Wait>(
    rt: &R,
    director: &Arc<Director>,
    left: &Mutex<u32>,
    right: &Mutex<u32>,
    token: &mut Token,
)
    requires left { IsTokenOf (lot_of left.now) token.old }
    requires right { lot_of right.now ≡ lot_of left.now }
{
    let thread = token.number();
    director.turn(Turn::at(thread, Deed::Begin, 0));
    lock_crosswise(rt, left, right, token);
    director.finish(thread);
}

fn unasked<R: Threads + Wait + Sync>(
    rt: &R,
    alloc: Global,
    director: &Arc<Director>,
) -> Result<(), Fault> {
    let (team, mut token) = Team::new(alloc, 2)?;
    let left = Mutex::new(team.lot(), &mut token, 0u32)?;
    let right = Mutex::new(team.lot(), &mut token, 0u32)?;
    director.begin(2);
    team.run(
        rt,
        &|token: &mut Token| lock_unasked(rt, director, &left, &right, token),
    )?;
    Ok(())
}

#[test]
fn a_lot_whose_tokens_never_ask_is_noticed(rt: HostRuntime) -> Result<(), Fail> {
    let alloc = rt.alloc();
    let runs = search_by(alloc, Policy::Random, 100);
    let found = explore(
        &rt,
        alloc,
        &runs,
        move |rt: &HostRuntime, director: &Arc<Director>| { unasked(rt, alloc, director) },
    )?;
    check_eq(&rt, found.fine.runs, 100);
    check_eq(&rt, found.silent.as_slice(), [0usize, 1].as_slice());
    Ok(())
}

#[test]
fn a_lot_whose_tokens_ask_is_not(rt: HostRuntime) -> Result<(), Fail> {
    let alloc = rt.alloc();
    let runs = search_by(alloc, Policy::Random, 100);
    let found = explore(
        &rt,
        alloc,
        &runs,
        move |rt: &HostRuntime, director: &Arc<Director>| { crosswise(rt, alloc, director) },
    )?;
    check_eq(&rt, found.deadlocks.runs > 0, true);
    check_eq(&rt, found.silent.is_empty(), true);
    Ok(())
}
