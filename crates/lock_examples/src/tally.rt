//! Votes under a fair mutex, which no thread gets twice while another waits.
ghost use Rattle.parking_lot.specs.LotOf.{IsTokenOf, lot_of};

use parking_lot::{FairMutex, Fault, Team, Token};
use std::alloc::Global;
use std::sync::Wait;
use std::thread::Threads;

// Adds a vote. The unlock hands the mutex to the first waiter.
fn vote<R: Wait>(rt: &R, votes: &FairMutex<u32>, token: &mut Token)
    requires { IsTokenOf (lot_of votes.now) token.old }
    ensures { IsTokenOf (lot_of votes.now) token.new }
{
    let mut guard = votes.lock(rt, token);
    *guard = guard.wrapping_add(1);
    guard.unlock(rt, token);
}

/// Counts the votes of two threads, a hundred from each.
pub fn count<R: Threads + Wait + Sync>(rt: &R, alloc: Global) -> Result<u32, Fault> {
    let (team, mut token) = Team::new(alloc, 2)?;
    let votes = FairMutex::new(team.lot(), &mut token, 0)?;
    team.run_times(
        rt,
        100,
        &|token: &mut Token|
            requires { IsTokenOf (lot_of votes) token.old }
            ensures { IsTokenOf (lot_of votes) token.new }
        { vote(rt, &votes, token) },
    )?;
    Ok(votes.into_inner())
}
