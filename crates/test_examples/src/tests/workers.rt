//! A queue of jobs with few places. A thread that brings jobs waits while it is full, and workers
//! wait while it is empty.
ghost use Rattle.parking_lot.specs.LotOf.{IsTokenOf, lot_of};

use super::{check_eq, sum_of};
use parking_lot::{Fault, Monitor, Team, Token};
use std::sync::Wait;
use std::test::Fail;

// How many jobs may wait.
const PLACES: usize = 4;

// A job was brought, or no further one comes.
const BROUGHT: usize = 0;

// A place is free.
const TAKEN: usize = 1;

// Jobs that wait for a worker, and whether further ones come.
#[derive(Drop)]
struct Jobs {
    waiting: Vec<u32>,
    closed: bool,
}

type Desk = Monitor<Jobs, 2>;

// Waits for a place, and brings a job. Whether memory was left for it.
fn bring<R: Wait>(rt: &R, desk: &Desk, token: &mut Token, job: u32) -> bool
    requires { IsTokenOf (lot_of desk.now.0) token.old }
    ensures { IsTokenOf (lot_of desk.now.0) token.new }
{
    let pushed = desk.with_while(
        rt,
        token,
        TAKEN,
        |jobs: &mut Jobs| jobs.waiting.len() >= PLACES,
        |jobs: &mut Jobs| jobs.waiting.push(job).is_ok(),
    );
    desk.notify_one(rt, token, BROUGHT);
    pushed
}

// Tells all workers that no further job comes.
fn close<R: Wait>(rt: &R, desk: &Desk, token: &mut Token)
    requires { IsTokenOf (lot_of desk.now.0) token.old }
    ensures { IsTokenOf (lot_of desk.now.0) token.new }
{
    desk.with(rt, token, |jobs: &mut Jobs| jobs.closed = true);
    desk.notify_all(rt, token, BROUGHT);
}

// Waits for a job. None once no further one comes.
fn take<R: Wait>(rt: &R, desk: &Desk, token: &mut Token) -> Option<u32>
    requires { IsTokenOf (lot_of desk.now.0) token.old }
    ensures { IsTokenOf (lot_of desk.now.0) token.new }
{
    let job = desk.with_while(
        rt,
        token,
        BROUGHT,
        |jobs: &mut Jobs| jobs.waiting.is_empty() && !jobs.closed,
        |jobs: &mut Jobs| jobs.waiting.pop(),
    );
    desk.notify_one(rt, token, TAKEN);
    job
}

// Brings twelve jobs, and closes the desk. Returns 0 where all were brought.
fn bring_all<R: Wait>(rt: &R, desk: &Desk, token: &mut Token) -> u64
    requires { IsTokenOf (lot_of desk.now.0) token.old }
{
    let mut lost = 0u64;
    for job in 1..=12 {
        if !bring(rt, desk, token, job) {
            lost = lost.wrapping_add(1);
        }
    }
    close(rt, desk, token);
    lost
}

// Adds up the jobs that a worker did.
fn work<R: Wait>(rt: &R, desk: &Desk, token: &mut Token) -> u64
    requires { IsTokenOf (lot_of desk.now.0) token.old }
{
    let mut done = 0u64;
    for _ in rt.forever() {
        match take(rt, desk, token) {
            Some(job) => done = done.wrapping_add(u64::from(job)),
            None => break,
        }
    }
    done
}

// Thread 0 brings, and the others work.
fn bring_or_work<R: Wait>(rt: &R, desk: &Desk, token: &mut Token) -> u64
    requires { IsTokenOf (lot_of desk.now.0) token.old }
{
    if token.number() == 0 {
        bring_all(rt, desk, token)
    } else {
        work(rt, desk, token)
    }
}

#[test]
fn a_bounded_queue_of_workers(rt: HostRuntime) -> Result<(), Fail> {
    let (team, mut token) = Team::new(rt.alloc(), 3)?;
    let jobs = Jobs {
        waiting: Vec::new(rt.alloc()),
        closed: false,
    };
    let desk = Desk::new(rt.alloc(), team.lot(), &mut token, jobs).map_err(Fault::from)?;
    let done = team.run(&rt, &|token: &mut Token| bring_or_work(&rt, &desk, token))?;
    check_eq(&rt, sum_of(&done), 78);
    Ok(())
}
