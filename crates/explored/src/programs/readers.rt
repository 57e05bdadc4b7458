//! A thread reads beside one that writes. Wrong: it reads again while it reads.
ghost use Rattle.parking_lot.specs.LotOf.{IsTokenOf, lot_of_rwlock};

use crate::programs::Version;
use parking_lot::{Director, Fault, RwLock, Team, Token};
use std::alloc::Global;
use std::sync::{Arc, Wait};
use std::thread::Threads;

fn read<R: Wait>(rt: &R, lock: &RwLock<u32>, token: &mut Token, version: Version)
    requires { IsTokenOf (lot_of_rwlock lock.now) token.old }
    ensures { IsTokenOf (lot_of_rwlock lock.now) token.new }
{
    let Ok(one) = lock.read(rt, token) else {
        return;
    };
    if version == Version::Wrong {
        if let Ok(other) = lock.read(rt, token) {
            other.unlock(rt, token);
        }
    }
    one.unlock(rt, token);
}

fn write<R: Wait>(rt: &R, lock: &RwLock<u32>, token: &mut Token)
    requires { IsTokenOf (lot_of_rwlock lock.now) token.old }
    ensures { IsTokenOf (lot_of_rwlock lock.now) token.new }
{
    let mut guard = lock.write(rt, token);
    *guard = 1;
    guard.unlock(rt, token);
}

// Thread 0 reads, and the other writes.
fn read_or_write<R: Wait>(rt: &R, lock: &RwLock<u32>, token: &mut Token, version: Version)
    requires { IsTokenOf (lot_of_rwlock lock.now) token.old }
{
    if token.number() == 0 {
        read(rt, lock, token, version);
    } else {
        write(rt, lock, token);
    }
}

pub fn readers<R: Threads + Wait + Sync>(
    rt: &R,
    alloc: Global,
    director: &Arc<Director>,
    version: Version,
) -> Result<(), Fault> {
    let (team, mut token) = Team::directed(alloc, 2, director)?;
    let lock = RwLock::new(team.lot(), &mut token, 0u32)?;
    team.run(
        rt,
        &|token: &mut Token| read_or_write(rt, &lock, token, version),
    )?;
    Ok(())
}
