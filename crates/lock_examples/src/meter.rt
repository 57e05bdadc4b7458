//! A meter that is set up once, by the thread that comes first.
ghost use Rattle.parking_lot.specs.LotOf.{IsTokenOf, lot_of_once};

use parking_lot::{Fault, Once, OnceFault, Team, Token};
use std::alloc::Global;
use std::sync::Wait;
use std::sync::atomic::AtomicU32;
use std::sync::atomic::Ordering::SeqCst;
use std::thread::Threads;

// Sets the meter up where no thread has, and reads it. A thread that comes during the run waits for
// its end.
fn read<R: Wait>(
    rt: &R,
    setup: &Once,
    meter: &AtomicU32,
    token: &mut Token,
) -> Result<u32, OnceFault<Fault>>
    requires { IsTokenOf (lot_of_once setup.now) token.old }
    ensures { IsTokenOf (lot_of_once setup.now) token.new }
{
    setup.call_once(rt, token, || {
        meter.fetch_add(7, SeqCst);
        Ok(())
    })?;
    Ok(meter.load(SeqCst))
}

/// Reads a meter in two threads. Returns what both have read, which is 14 where it was set up once.
pub fn read_twice<R: Threads + Wait + Sync>(rt: &R, alloc: Global) -> Result<u32, Fault> {
    let (team, mut token) = Team::new(alloc, 2)?;
    let setup = Once::new(team.lot(), &mut token)?;
    let meter = AtomicU32::new(0);
    let read = team.run(rt, &|token: &mut Token| read(rt, &setup, &meter, token))?;
    let mut all = 0u32;
    for one in read {
        all = all.wrapping_add(one.unwrap_or(0));
    }
    Ok(all)
}
