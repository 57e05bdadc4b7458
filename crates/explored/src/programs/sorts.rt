//! Three threads call locks of each sort, untimed, timed and by tries. Each run counts as failed, so that it
//! is told as a schedule.
ghost use Rattle.std.specs.Prelude.{◌≡◌, IfOk};
ghost use Rattle.std.specs.Arc.{arc_value};
ghost use Rattle.parking_lot.specs.LotOf.{IsTokenOf, lot_of, lot_of_condvar, lot_of_once};
ghost use Rattle.parking_lot.specs.LotOf.{lot_of_rwlock, lot_of_semaphore};

use crate::programs::Version;
use parking_lot::{
    Condvar, Director, FairMutex, Fault, Mutex, Once, ParkingLot, RwLock, Semaphore, Team, Token,
    TurnClock,
};
use std::alloc::Global;
use std::sync::{Arc, Wait};
use std::thread::Threads;
use std::time::Duration;

// A lock of each sort, of one lot.
struct Locks {
    fair: FairMutex<u32>,
    lock: RwLock<u32>,
    permits: Semaphore,
    mutex: Mutex<u32>,
    condvar: Condvar,
    setup: Once,
    ghost others: { (lot_of_rwlock lock ≡ lot_of fair) × (lot_of_semaphore permits ≡ lot_of fair)
        × (lot_of_once setup ≡ lot_of fair) },
    ghost pair: { (lot_of mutex ≡ lot_of fair) × (lot_of_condvar condvar ≡ lot_of mutex) },
}

// The drop is written, and not derived, so that it is proved here alone.
impl Drop for Locks {
    fn drop(self) {
        let Locks {
            fair: _fair,
            lock: _lock,
            permits: _permits,
            mutex: _mutex,
            condvar: _condvar,
            setup: _setup,
        } = self;
    }
}

impl Locks {
    fn new(lot: &Arc<ParkingLot>, token: &mut Token) -> Result<Locks, Fault>
        requires { IsTokenOf (arc_value lot.now) token.old }
        ensures { IfOk result (λ locks. lot_of locks.fair ≡ arc_value lot.now) }
    {
        let fair = FairMutex::new(lot, token, 0u32)?;
        let lock = RwLock::new(lot, token, 0u32)?;
        let permits = Semaphore::new(lot, token, 2)?;
        let mutex = Mutex::new(lot, token, 0u32)?;
        let condvar = Condvar::new(lot, token)?;
        let setup = Once::new(lot, token)?;
        Ok(Locks {
            fair,
            lock,
            permits,
            mutex,
            condvar,
            setup,
        })
    }
}

fn soon() -> Duration {
    Duration::from_nanos(10)
}

fn use_fair<R: Wait>(rt: &R, clock: &TurnClock, fair: &FairMutex<u32>, token: &mut Token)
    requires { IsTokenOf (lot_of fair.now) token.old }
    ensures { IsTokenOf (lot_of fair.now) token.new }
{
    let guard = fair.lock(rt, token);
    guard.unlock(rt, token);
    if let Some(guard) = fair.try_lock(token) {
        guard.unlock(rt, token);
    }
    if let Some(guard) = fair.try_lock_for(rt, token, clock, soon()) {
        guard.unlock(rt, token);
    }
}

fn read<R: Wait>(
    rt: &R,
    clock: &TurnClock,
    lock: &RwLock<u32>,
    token: &mut Token,
) -> Result<(), Fault>
    requires { IsTokenOf (lot_of_rwlock lock.now) token.old }
    ensures { IsTokenOf (lot_of_rwlock lock.now) token.new }
{
    let guard = lock.read(rt, token)?;
    guard.unlock(rt, token);
    if let Some(guard) = lock.try_read(rt, token)? {
        guard.unlock(rt, token);
    }
    if let Some(guard) = lock.try_read_for(rt, token, clock, soon())? {
        guard.unlock(rt, token);
    }
    Ok(())
}

fn write<R: Wait>(
    rt: &R,
    clock: &TurnClock,
    lock: &RwLock<u32>,
    token: &mut Token,
) -> Result<(), Fault>
    requires { IsTokenOf (lot_of_rwlock lock.now) token.old }
    ensures { IsTokenOf (lot_of_rwlock lock.now) token.new }
{
    let guard = lock.write(rt, token);
    let guard = guard.downgrade(rt, token);
    guard.unlock(rt, token);
    let guard = lock.upgradable_read(rt, token)?;
    let guard = guard.upgrade(rt, token);
    guard.unlock_fair(rt, token);
    if let Some(guard) = lock.try_write(token) {
        guard.unlock(rt, token);
    }
    if let Some(guard) = lock.try_write_for(rt, token, clock, soon()) {
        guard.unlock(rt, token);
    }
    Ok(())
}

fn use_permits<R: Wait>(rt: &R, clock: &TurnClock, permits: &Semaphore, token: &mut Token)
    requires { IsTokenOf (lot_of_semaphore permits.now) token.old }
    ensures { IsTokenOf (lot_of_semaphore permits.now) token.new }
{
    let permit = permits.acquire(rt, token);
    permit.release(rt, token);
    if let Some(permit) = permits.try_acquire(rt, token) {
        permit.release(rt, token);
    }
    if let Some(permit) = permits.try_acquire_for(rt, token, clock, soon()) {
        permit.release(rt, token);
    }
}

fn wait_and_notify<R: Wait>(
    rt: &R,
    clock: &TurnClock,
    mutex: &Mutex<u32>,
    condvar: &Condvar,
    token: &mut Token,
)
    requires token { IsTokenOf (lot_of mutex.now) token.old }
    requires condvar { lot_of_condvar condvar.now ≡ lot_of mutex.now }
    ensures { IsTokenOf (lot_of mutex.now) token.new }
{
    let guard = mutex.lock(rt, token);
    let guard = match condvar.wait_for(rt, token, guard, clock, soon()) {
        Ok((guard, _)) => guard,
        Err((_, guard)) => guard,
    };
    condvar.notify_all(rt, token);
    guard.unlock(rt, token);
    condvar.notify_one(rt, token);
}

fn run_once<R: Wait>(rt: &R, clock: &TurnClock, setup: &Once, token: &mut Token)
    requires { IsTokenOf (lot_of_once setup.now) token.old }
    ensures { IsTokenOf (lot_of_once setup.now) token.new }
{
    if token.number() == 0 {
        let _ = setup.wait_for(rt, token, clock, soon());
    }
    let fails = token.number() == 1;
    let _ = setup.call_once_force(rt, token, |_| -> Result<(), Fault> {
        if fails { Err(Fault::LotFull) } else { Ok(()) }
    });
}

// Uses each lock. Returns whether the thread may read.
fn use_all<R: Wait>(rt: &R, clock: &TurnClock, locks: &Locks, token: &mut Token) -> bool
    requires { IsTokenOf (lot_of locks.now.fair) token.old }
{
    use_fair(rt, clock, &locks.fair, token);
    let reads = read(rt, clock, &locks.lock, token).is_ok();
    let writes = write(rt, clock, &locks.lock, token).is_ok();
    use_permits(rt, clock, &locks.permits, token);
    wait_and_notify(rt, clock, &locks.mutex, &locks.condvar, token);
    run_once(rt, clock, &locks.setup, token);
    reads && writes
}

pub fn sorts<R: Threads + Wait + Sync>(
    rt: &R,
    alloc: Global,
    director: &Arc<Director>,
    version: Version,
) -> Result<(), Fault> {
    let (team, mut token) = Team::directed(alloc, 3, director)?;
    let clock = TurnClock::new(director)?;
    let locks = Locks::new(team.lot(), &mut token)?;
    let read_all = team.run(rt, &|token: &mut Token| use_all(rt, &clock, &locks, token))?;
    director.check(read_all.iter().all(|one| *one), "each thread reads");
    director.check(version == Version::Cured, "the run is told");
    Ok(())
}
