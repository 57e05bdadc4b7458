//! A pool of two drives for three threads. A permit of its semaphore is the right to take one.
ghost use Rattle.std.specs.Prelude.{◌≡◌, IfOk};
ghost use Rattle.std.specs.Arc.{arc_value};
ghost use Rattle.parking_lot.specs.LotOf.{IsTokenOf, lot_of, lot_of_semaphore};

use super::{check, check_eq, sum_of};
use parking_lot::{Fault, Mutex, ParkingLot, Semaphore, Team, Token};
use std::alloc::Global;
use std::sync::{Arc, Wait};
use std::test::Fail;

const TIMES: u64 = 100;

/// The numbers of the drives that nobody has, and a permit for each of them.
#[derive(Drop)]
struct Pool {
    permits: Semaphore,
    free: Mutex<Vec<u32>>,
    ghost together: { lot_of_semaphore permits ≡ lot_of free },
}

impl Pool {
    // A pool of two drives.
    fn new(alloc: Global, lot: &Arc<ParkingLot>, token: &mut Token) -> Result<Pool, Fault>
        requires { IsTokenOf (arc_value lot.now) token.old }
        ensures token { IsTokenOf (arc_value lot.now) token.new }
        ensures made { IfOk result (λ pool. lot_of pool.free ≡ arc_value lot.now) }
    {
        let permits = Semaphore::new(lot, token, 2)?;
        let free = Mutex::new(lot, token, vec![in alloc; 7u32, 8]?)?;
        Ok(Pool { permits, free })
    }

    // Writes to a drive, once one is free. Whether there was one, as there is for each permit.
    fn write<R: Wait>(&self, rt: &R, token: &mut Token) -> bool
        requires { IsTokenOf (lot_of self.now.free) token.old }
        ensures { IsTokenOf (lot_of self.now.free) token.new }
    {
        let permit = self.permits.acquire(rt, token);
        let drive = self.free.with(rt, token, |free: &mut Vec<u32>| free.pop());
        let found = match drive {
            Some(drive) => self
                .free
                .with(rt, token, |free: &mut Vec<u32>| free.push(drive).is_ok()),
            None => false,
        };
        permit.release(rt, token);
        found
    }
}

// How often a thread wrote to a drive.
fn write_often<R: Wait>(rt: &R, pool: &Pool, token: &mut Token) -> u64
    requires { IsTokenOf (lot_of pool.now.free) token.old }
{
    let mut written = 0u64;
    for _ in 0..TIMES {
        if pool.write(rt, token) {
            written = written.wrapping_add(1);
        }
    }
    written
}

#[test]
fn a_pool_of_drives(rt: HostRuntime) -> Result<(), Fail> {
    let (team, mut token) = Team::new(rt.alloc(), 2)?;
    let pool = Pool::new(rt.alloc(), team.lot(), &mut token)?;
    // One drive is kept, and the others share the second.
    let kept = pool.permits.acquire(&rt, &mut token);
    let written = team.run(&rt, &|token: &mut Token| write_often(&rt, &pool, token));
    kept.release(&rt, &mut token);
    check_eq(&rt, sum_of(&written?), 2 * TIMES);
    check(&rt, pool.permits.available(&mut token) == 2);
    Ok(())
}
