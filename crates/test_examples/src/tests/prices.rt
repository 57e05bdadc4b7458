//! A function that locks, and calls another that locks.
ghost use Rattle.parking_lot.specs.LotOf.{IsSameThread, IsTokenOf, lot_of};

use super::check_eq;
use parking_lot::{Fault, ReentrantMutex, Team, Token};
use std::sync::Wait;
use std::test::Fail;

type Prices = ReentrantMutex<[u64; 3]>;

fn sum<R: Wait>(rt: &R, prices: &Prices, token: &mut Token) -> Result<u64, Fault>
    requires { IsTokenOf (lot_of prices.now.0) token.old }
    ensures { IsSameThread (lot_of prices.now.0) token.old token.new }
{
    let guard = prices.lock(rt, token)?;
    let sum = guard.iter().fold(0u64, |all, one| all.wrapping_add(*one));
    guard.unlock(rt, token);
    Ok(sum)
}

// The mutex is this thread's already when `sum` locks it.
fn mean<R: Wait>(rt: &R, prices: &Prices, token: &mut Token) -> Result<u64, Fault>
    requires { IsTokenOf (lot_of prices.now.0) token.old }
    ensures { IsSameThread (lot_of prices.now.0) token.old token.new }
{
    let guard = prices.lock(rt, token)?;
    let sum = sum(rt, prices, token);
    guard.unlock(rt, token);
    Ok(sum? / 3)
}

#[test]
fn a_function_that_locks_again(rt: HostRuntime) -> Result<(), Fail> {
    let (team, mut token) = Team::new(rt.alloc(), 0)?;
    let prices = Prices::new(team.lot(), &mut token, [3, 4, 5])?;
    check_eq(&rt, mean(&rt, &prices, &mut token)?, 4);
    Ok(())
}
