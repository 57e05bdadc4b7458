//! Queues of workers, a try with a limit, a cache, a value that is made once, a function that locks
//! again, a pool, two accounts, a door, and a thread that is spawned.
mod accounts;
mod cache;
mod door;
mod pool;
mod prices;
mod rates;
mod spawned;
mod visits;
mod workers;

ghost use Rattle.parking_lot.specs.LotOf.{IsTokenOf, lot_of};

use parking_lot::{Fault, Mutex, Team, TickClock, Token};
use std::fmt::Debug;
use std::process::Abort;
use std::sync::Wait;
use std::test::Fail;
use std::time::Duration;

// Asserts that the thing found is the thing wanted. All tests share this one assertion, since each
// is proved where it stands.
fn check_eq<T: PartialEq + Debug + Drop>(rt: &impl Abort, found: T, wanted: T) {
    assert_eq!(rt; found, wanted);
}

// Asserts that a condition holds.
fn check(rt: &impl Abort, truth: bool) {
    assert!(rt; truth);
}

// Returns whether each of the answers is this one.
fn all_are<T: PartialEq + Drop>(answers: &[T], wanted: &T) -> bool {
    answers.iter().all(|answer| answer == wanted)
}

fn sum_of(answers: &[u64]) -> u64 {
    answers.iter().fold(0u64, |all, one| all.wrapping_add(*one))
}

// Takes jobs until none is left, and adds them up.
fn work<R: Wait>(rt: &R, jobs: &Mutex<Vec<u32>>, token: &mut Token) -> u64
    requires { IsTokenOf (lot_of jobs.now) token.old }
{
    let mut done = 0u64;
    for _ in rt.forever() {
        match jobs.with(rt, token, |jobs: &mut Vec<u32>| jobs.pop()) {
            Some(job) => done = done.wrapping_add(u64::from(job)),
            None => break,
        }
    }
    done
}

#[test]
fn a_workers_queue(rt: HostRuntime) -> Result<(), Fail> {
    let (team, mut token) = Team::new(rt.alloc(), 2)?;
    let jobs = [1u32, 2, 3, 4, 5, 6].to_vec(rt.alloc())?;
    let jobs = Mutex::new(team.lot(), &mut token, jobs)?;
    let done = team.run(&rt, &|token: &mut Token| work(&rt, &jobs, token))?;
    check_eq(&rt, sum_of(&done), 21);
    Ok(())
}

// Adds 1 where the mutex is free within a microsecond. Whether it was.
fn add_soon<R: Wait>(rt: &R, counter: &Mutex<u64>, token: &mut Token, clock: &TickClock) -> bool
    requires { IsTokenOf (lot_of counter.now) token.old }
    ensures { IsTokenOf (lot_of counter.now) token.new }
{
    match counter.try_lock_for(rt, token, clock, Duration::from_micros(1)) {
        Some(mut guard) => {
            *guard = guard.wrapping_add(1);
            guard.unlock(rt, token);
            true
        }
        None => false,
    }
}

#[test]
fn a_timed_try(rt: HostRuntime) -> Result<(), Fail> {
    let (team, mut token) = Team::new(rt.alloc(), 0)?;
    let counter = Mutex::new(team.lot(), &mut token, 0)?;
    let clock = TickClock::new();
    let guard = counter.lock(&rt, &mut token);
    let beside = add_soon(&rt, &counter, &mut token, &clock);
    guard.unlock(&rt, &mut token);
    check(&rt, !beside);
    check(&rt, add_soon(&rt, &counter, &mut token, &clock));
    Ok(())
}
