//! Programs that try the search itself.
ghost use Rattle.std.specs.Prelude.{◌≡◌, ◌≤◌, ◌^◌};
ghost use Rattle.parking_lot.specs.LotOf.{IsTokenOf, lot_of, lot_of_semaphore};

use crate::programs::Version;
use parking_lot::{Director, Fault, Mutex, Semaphore, Team, Token, TurnClock};
use std::alloc::Global;
use std::sync::{Arc, Barrier, Wait};
use std::thread::Threads;
use std::time::Duration;

fn take_two<R: Wait>(rt: &R, permits: &Semaphore, token: &mut Token)
    requires { IsTokenOf (lot_of_semaphore permits.now) token.old }
{
    let one = permits.acquire(rt, token);
    let other = permits.acquire(rt, token);
    other.release(rt, token);
    one.release(rt, token);
}

// How many permits there are.
fn number_of_permits(version: Version) -> u64
    ensures { (1 ≤ result) × (result ≤ 2 ^ 62) }
{
    match version {
        Version::Wrong => 2,
        Version::Cured => 3,
    }
}

/// Two threads take two permits of two each, one after the other. Wrong: neither gives one back before.
pub fn permits<R: Threads + Wait + Sync>(
    rt: &R,
    alloc: Global,
    director: &Arc<Director>,
    version: Version,
) -> Result<(), Fault> {
    let (team, mut token) = Team::directed(alloc, 2, director)?;
    let permits = Semaphore::new(team.lot(), &mut token, number_of_permits(version))?;
    team.run(rt, &|token: &mut Token| take_two(rt, &permits, token))?;
    Ok(())
}

fn eat_in_time<R: Wait>(
    rt: &R,
    clock: &TurnClock,
    first: &Mutex<u32>,
    second: &Mutex<u32>,
    token: &mut Token,
) -> bool
    requires first { IsTokenOf (lot_of first.now) token.old }
    requires second { lot_of second.now ≡ lot_of first.now }
    ensures { IsTokenOf (lot_of first.now) token.new }
{
    let one = first.lock(rt, token);
    let eats = match second.try_lock_for(rt, token, clock, Duration::from_millis(10)) {
        Some(other) => {
            other.unlock(rt, token);
            true
        }
        None => false,
    };
    one.unlock(rt, token);
    eats
}

// Locks both, in the order of the thread's number where the program has its bug.
fn dine_in_time<R: Wait>(
    rt: &R,
    clock: &TurnClock,
    left: &Mutex<u32>,
    right: &Mutex<u32>,
    token: &mut Token,
    version: Version,
) -> bool
    requires left { IsTokenOf (lot_of left.now) token.old }
    requires right { lot_of right.now ≡ lot_of left.now }
{
    if token.number() == 0 || version == Version::Cured {
        eat_in_time(rt, clock, left, right, token)
    } else {
        eat_in_time(rt, clock, right, left, token)
    }
}

/// Two threads lock two mutexes, the second up to a deadline. Wrong: each in its own order, and both may
/// give up.
pub fn timed<R: Threads + Wait + Sync>(
    rt: &R,
    alloc: Global,
    director: &Arc<Director>,
    version: Version,
) -> Result<(), Fault> {
    let (team, mut token) = Team::directed(alloc, 2, director)?;
    let clock = TurnClock::new(director)?;
    let left = Mutex::new(team.lot(), &mut token, 0u32)?;
    let right = Mutex::new(team.lot(), &mut token, 0u32)?;
    let eats = team.run(
        rt,
        &|token: &mut Token| dine_in_time(rt, &clock, &left, &right, token, version),
    )?;
    director.check(eats.iter().any(|one| *one), "one of the threads eats");
    Ok(())
}

fn await_flag<R: Wait>(rt: &R, flag: &Mutex<u32>, token: &mut Token)
    requires { IsTokenOf (lot_of flag.now) token.old }
{
    for _ in rt.forever() {
        if flag.try_with(rt, token, |flag: &mut u32| *flag) == Some(1) {
            break;
        }
    }
}

// Thread 0 sets the flag, and the other waits for it.
fn set_or_await<R: Wait>(rt: &R, flag: &Mutex<u32>, token: &mut Token)
    requires { IsTokenOf (lot_of flag.now) token.old }
{
    if token.number() == 0 {
        flag.with(rt, token, |flag: &mut u32| *flag = 1);
    } else {
        await_flag(rt, flag, token);
    }
}

/// A thread tries until the other has set a flag. There is no bug, but that it spins.
pub fn spin<R: Threads + Wait + Sync>(
    rt: &R,
    alloc: Global,
    director: &Arc<Director>,
    _version: Version,
) -> Result<(), Fault> {
    let (team, mut token) = Team::directed(alloc, 2, director)?;
    let flag = Mutex::new(team.lot(), &mut token, 0u32)?;
    team.run(rt, &|token: &mut Token| set_or_await(rt, &flag, token))?;
    Ok(())
}

fn count_and_meet<R: Wait>(
    rt: &R,
    total: &Mutex<u32>,
    barrier: &Barrier,
    token: &mut Token,
    version: Version,
)
    requires { IsTokenOf (lot_of total.now) token.old }
{
    total.with(rt, token, |total: &mut u32| *total = total.wrapping_add(1));
    if version == Version::Wrong {
        barrier.wait(rt);
    }
}

/// Two threads meet at a barrier. Wrong: it is none of the lot's, and a thread that waits there keeps its
/// turn.
pub fn meeting<R: Threads + Wait + Sync>(
    rt: &R,
    alloc: Global,
    director: &Arc<Director>,
    version: Version,
) -> Result<(), Fault> {
    let (team, mut token) = Team::directed(alloc, 2, director)?;
    let total = Mutex::new(team.lot(), &mut token, 0u32)?;
    let barrier = Barrier::new(2);
    team.run(
        rt,
        &|token: &mut Token| count_and_meet(rt, &total, &barrier, token, version),
    )?;
    Ok(())
}

fn use_one<R: Wait>(rt: &R, lock: &Mutex<u32>, token: &mut Token)
    requires { IsTokenOf (lot_of lock.now) token.old }
    ensures { IsTokenOf (lot_of lock.now) token.new }
{
    let guard = lock.lock(rt, token);
    guard.unlock(rt, token);
}

// Makes ten calls.
fn use_both<R: Wait>(rt: &R, left: &Mutex<u32>, right: &Mutex<u32>, token: &mut Token)
    requires left { IsTokenOf (lot_of left.now) token.old }
    requires right { lot_of right.now ≡ lot_of left.now }
{
    use_one(rt, left, token);
    use_one(rt, right, token);
    use_one(rt, left, token);
    use_one(rt, right, token);
    use_one(rt, left, token);
}

/// Three threads with ten calls each, and no bug.
pub fn calls<R: Threads + Wait + Sync>(
    rt: &R,
    alloc: Global,
    director: &Arc<Director>,
    _version: Version,
) -> Result<(), Fault> {
    let (team, mut token) = Team::directed(alloc, 3, director)?;
    let left = Mutex::new(team.lot(), &mut token, 0u32)?;
    let right = Mutex::new(team.lot(), &mut token, 0u32)?;
    team.run(rt, &|token: &mut Token| use_both(rt, &left, &right, token))?;
    Ok(())
}
