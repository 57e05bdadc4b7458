//! A queue with few places, under a mutex with two condition variables.
ghost use Rattle.std.specs.Prelude.{◌≡◌, IfOk};
ghost use Rattle.std.specs.Arc.{arc_value};
ghost use Rattle.parking_lot.specs.LotOf.{IsTokenOf, lot_of, lot_of_condvar};

use parking_lot::{Condvar, Fault, Mutex, ParkingLot, Team, Token};
use std::alloc::Global;
use std::sync::{Arc, Wait};
use std::thread::Threads;

// How many jobs may wait.
const PLACES: usize = 2;

// How many jobs are passed on.
const JOBS: u32 = 10;

#[derive(Drop)]
struct Queue {
    jobs: Mutex<Vec<u32>>,
    filled: Condvar,
    emptied: Condvar,
    ghost together: { (lot_of_condvar filled ≡ lot_of jobs) × (lot_of_condvar emptied ≡ lot_of jobs) },
}

impl Queue {
    fn new(alloc: Global, lot: &Arc<ParkingLot>, token: &mut Token) -> Result<Queue, Fault>
        requires { IsTokenOf (arc_value lot.now) token.old }
        ensures token { IsTokenOf (arc_value lot.now) token.new }
        ensures made { IfOk result (λ queue. lot_of queue.jobs ≡ arc_value lot.now) }
    {
        let jobs = Mutex::new(lot, token, Vec::new(alloc))?;
        let filled = Condvar::new(lot, token)?;
        let emptied = Condvar::new(lot, token)?;
        Ok(Queue {
            jobs,
            filled,
            emptied,
        })
    }

    // Waits for a place, and puts a job there. A wait that is refused gives the guard back: that has
    // to be unlocked before the function returns.
    fn put<R: Wait>(&self, rt: &R, token: &mut Token, job: u32) -> Result<(), Fault>
        requires { IsTokenOf (lot_of self.now.jobs) token.old }
        ensures { IsTokenOf (lot_of self.now.jobs) token.new }
    {
        let guard = self.jobs.lock(rt, token);
        let full = |jobs: &mut Vec<u32>| jobs.len() >= PLACES;
        match self.emptied.wait_while(rt, token, guard, full) {
            Ok(mut guard) => {
                let pushed = guard.push(job);
                guard.unlock(rt, token);
                self.filled.notify_one(rt, token);
                Ok(pushed?)
            }
            Err((fault, guard)) => {
                guard.unlock(rt, token);
                Err(fault)
            }
        }
    }

    // Waits for a job, and takes the newest.
    fn take<R: Wait>(&self, rt: &R, token: &mut Token) -> Result<u32, Fault>
        requires { IsTokenOf (lot_of self.now.jobs) token.old }
        ensures { IsTokenOf (lot_of self.now.jobs) token.new }
    {
        let guard = self.jobs.lock(rt, token);
        let empty = |jobs: &mut Vec<u32>| jobs.is_empty();
        match self.filled.wait_while(rt, token, guard, empty) {
            Ok(mut guard) => {
                let job = guard.pop().unwrap_or(0);
                guard.unlock(rt, token);
                self.emptied.notify_one(rt, token);
                Ok(job)
            }
            Err((fault, guard)) => {
                guard.unlock(rt, token);
                Err(fault)
            }
        }
    }
}

fn put_all<R: Wait>(rt: &R, queue: &Queue, token: &mut Token) -> Result<u32, Fault>
    requires { IsTokenOf (lot_of queue.now.jobs) token.old }
{
    for job in 1..=JOBS {
        queue.put(rt, token, job)?;
    }
    Ok(0)
}

fn take_all<R: Wait>(rt: &R, queue: &Queue, token: &mut Token) -> Result<u32, Fault>
    requires { IsTokenOf (lot_of queue.now.jobs) token.old }
{
    let mut sum = 0u32;
    for _ in 0..JOBS {
        sum = sum.wrapping_add(queue.take(rt, token)?);
    }
    Ok(sum)
}

// Thread 0 puts, and the other takes.
fn put_or_take<R: Wait>(rt: &R, queue: &Queue, token: &mut Token) -> Result<u32, Fault>
    requires { IsTokenOf (lot_of queue.now.jobs) token.old }
{
    if token.number() == 0 {
        put_all(rt, queue, token)
    } else {
        take_all(rt, queue, token)
    }
}

/// Passes jobs from one thread to another, and returns the sum of those that came.
pub fn pass_on<R: Threads + Wait + Sync>(rt: &R, alloc: Global) -> Result<u32, Fault> {
    let (team, mut token) = Team::new(alloc, 2)?;
    let queue = Queue::new(alloc, team.lot(), &mut token)?;
    let sums = team.run(rt, &|token: &mut Token| put_or_take(rt, &queue, token))?;
    let mut all = 0u32;
    for sum in sums {
        all = all.wrapping_add(sum?);
    }
    Ok(all)
}
