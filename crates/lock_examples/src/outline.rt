//! An outline that is read by a function which reads it again.
ghost use Rattle.parking_lot.specs.LotOf.{IsTokenOf, lot_of_rwlock};

use parking_lot::{Fault, RecursiveRwLock, Team, Token};
use std::alloc::Global;
use std::sync::Wait;
use std::thread::Threads;

type Outline = RecursiveRwLock<[usize; 3]>;

fn lines_of<R: Wait>(
    rt: &R,
    outline: &Outline,
    token: &mut Token,
    section: usize,
) -> Result<usize, Fault>
    requires { IsTokenOf (lot_of_rwlock outline.now) token.old }
    ensures { IsTokenOf (lot_of_rwlock outline.now) token.new }
{
    let guard = outline.read(rt, token)?;
    let lines = guard.get(section).copied().unwrap_or(0);
    guard.unlock(rt, token);
    Ok(lines)
}

// Reads all sections while it reads already. A waiting writer would keep this thread out of an
// `RwLock` then, and a `RecursiveRwLock` lets it in.
fn lines<R: Wait>(rt: &R, outline: &Outline, token: &mut Token) -> Result<usize, Fault>
    requires { IsTokenOf (lot_of_rwlock outline.now) token.old }
    ensures { IsTokenOf (lot_of_rwlock outline.now) token.new }
{
    let guard = outline.read(rt, token)?;
    let first = lines_of(rt, outline, token, 0);
    let last = lines_of(rt, outline, token, 2);
    guard.unlock(rt, token);
    Ok(first?.wrapping_add(last?))
}

/// Measures an outline in two threads. Returns the sum of both.
pub fn measure<R: Threads + Wait + Sync>(rt: &R, alloc: Global) -> Result<usize, Fault> {
    let (team, mut token) = Team::new(alloc, 2)?;
    let outline = Outline::new(team.lot(), &mut token, [12, 5, 30])?;
    let measured = team.run(rt, &|token: &mut Token| lines(rt, &outline, token))?;
    let mut all = 0usize;
    for one in measured {
        all = all.wrapping_add(one?);
    }
    Ok(all)
}
