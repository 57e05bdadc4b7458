//! Settings that are read by many threads, and written by one that has looked first.
ghost use Rattle.std.specs.Prelude.{◌≡◌};
ghost use Rattle.parking_lot.specs.LotOf.{IsTokenOf, lot_of_rwlock};

use parking_lot::{Fault, RwLock, Team, Token};
use std::alloc::Global;
use std::sync::Wait;
use std::thread::Threads;

// The loudest volume.
const LOUDEST: u32 = 9;

// Turns the volume up by one, and returns it. The thread looks while others read, and keeps readers
// out only from the upgrade on. After the downgrade it reads what it wrote: no writer comes between.
fn louder<R: Wait>(rt: &R, volume: &RwLock<u32>, token: &mut Token) -> Result<u32, Fault>
    requires { IsTokenOf (lot_of_rwlock volume.now) token.old }
    ensures { IsTokenOf (lot_of_rwlock volume.now) token.new }
{
    let look = volume.upgradable_read(rt, token)?;
    if *look >= LOUDEST {
        let loudest = *look;
        look.unlock(rt, token);
        return Ok(loudest);
    }
    let mut write = look.upgrade(rt, token);
    *write = write.wrapping_add(1);
    let read = write.downgrade(rt, token);
    let now = *read;
    read.unlock(rt, token);
    Ok(now)
}

/// Turns the volume up in two threads. Returns it, which is up by two then.
pub fn turn_up<R: Threads + Wait + Sync>(rt: &R, alloc: Global) -> Result<u32, Fault> {
    let (team, mut token) = Team::new(alloc, 2)?;
    let volume = RwLock::new(team.lot(), &mut token, 3u32)?;
    let turned = team.run(rt, &|token: &mut Token| louder(rt, &volume, token))?;
    for one in turned {
        one?;
    }
    Ok(volume.into_inner())
}
