//! The program's work for its arguments.
use crate::plans::{CodePlace, MODES, Plan, plan_of};
use crate::runs::{Figures, carry_out};
use crate::timing::{Loop, time_loop};
use parking_lot::{Fault, ParkingLot};
use std::alloc::Global;
use std::io;
use std::sync::Wait;
use std::thread::Threads;
use std::time::Clock;

/// The plan was carried out, or there was none to carry out.
pub(crate) const DONE: u8 = 0;

/// The arguments are of another form.
pub(crate) const MALFORMED: u8 = 2;

/// Memory or a thread was refused.
pub(crate) const NO_MEMORY: u8 = 3;

/// The clock, a read or a write failed.
pub(crate) const BROKEN: u8 = 4;

const USAGE: &str =
    "usage: lotbench raw_mutex|raw_mutex_try|mutex|mutex_try|fair|many|many_fair|remutex|remutex2|raw_read|raw_write|read|write|rw_mix|read_recursive|upgradable|upgrade|downgrade|once|semaphore|semaphore2|notify|notify_all|pingpong|many_turns|queue THREADS N [second], lotbench each, lotbench lot SEATS, or lotbench least look|take|hold|hold_told N";

/// Does what the arguments ask for, and gives the status of the process.
pub(crate) fn start<R: Threads + Wait + Sync + Clock + Print + Eprint>(
    rt: &R,
    alloc: Global,
    args: &[&str],
) -> io::Result<u8> {
    match args {
        [] => {
            println!(rt; "{}", USAGE)?;
            Ok(DONE)
        }
        [word] if *word == "each" => try_each(rt, alloc),
        [word, seats] if *word == "lot" => make_lot(rt, alloc, seats),
        [word, name, times] if *word == "least" => time_least(rt, alloc, name, times),
        _ => time_plan(rt, alloc, args),
    }
}

// Carries out the plan of the arguments and tells its figures.
fn time_plan<R: Threads + Wait + Sync + Clock + Print + Eprint>(
    rt: &R,
    alloc: Global,
    args: &[&str],
) -> io::Result<u8> {
    let Some(plan) = plan_of(args) else {
        eprintln!(rt;
            "lotbench: no such plan; {}, 1 to 64 threads, 1 to 10^12 operations, 1 to 1024 seats",
            USAGE
        )?;
        return Ok(MALFORMED);
    };
    match carry_out(rt, alloc, plan) {
        Ok(told) => {
            tell(rt, plan, told?)?;
            Ok(DONE)
        }
        Err(Fault::NoMemory) => refused(rt),
        Err(_) => Ok(BROKEN),
    }
}

// Carries out a thousand operations of each mode by two threads, and tells its name and its answer,
// which no schedule changes.
fn try_each<R: Threads + Wait + Sync + Clock + Print + Eprint>(
    rt: &R,
    alloc: Global,
) -> io::Result<u8> {
    for mode in MODES {
        let plan = Plan {
            mode: *mode,
            threads: 2,
            operations: 1000,
            place: CodePlace::First,
        };
        match carry_out(rt, alloc, plan) {
            Ok(told) => {
                let name = mode.name();
                let answer = told?.answer;
                println!(rt; "{name} {answer}")?;
            }
            Err(_) => return refused(rt),
        }
    }
    Ok(DONE)
}

// Makes a lot of one word and so many seats, which a profiler of memory measures, and tells that.
fn make_lot<R: Print + Eprint>(rt: &R, alloc: Global, seats: &str) -> io::Result<u8> {
    let Some(seats) = seats
        .parse::<usize>()
        .ok()
        .filter(|seats: &usize| ParkingLot::fits(1, *seats))
    else {
        eprintln!(rt; "lotbench: a lot has 1 to 1024 seats")?;
        return Ok(MALFORMED);
    };
    match ParkingLot::new(alloc, 1, seats) {
        Ok(_) => {
            println!(rt; "lot {seats}")?;
            Ok(DONE)
        }
        Err(_) => refused(rt),
    }
}

// Times the least that a lock over the kit's table can take, and tells the nanoseconds.
fn time_least<R: Wait + Clock + Print + Eprint>(
    rt: &R,
    alloc: Global,
    name: &str,
    times: &str,
) -> io::Result<u8> {
    let (Some(which), Ok(times)) = (Loop::named(name), times.parse::<u64>()) else {
        eprintln!(rt; "lotbench: no such loop; look, take, hold or hold_told, and how often")?;
        return Ok(MALFORMED);
    };
    match time_loop(rt, alloc, which, times) {
        Ok(nanos) => {
            let nanos = nanos?;
            println!(rt; "least {name} {times} {nanos}")?;
            Ok(DONE)
        }
        Err(_) => refused(rt),
    }
}

fn refused(rt: &impl Eprint) -> io::Result<u8> {
    eprintln!(rt; "lotbench: no memory, or no thread could be started")?;
    Ok(NO_MEMORY)
}

// MODE THREADS N NANOS ANSWER LOW HIGH
fn tell(rt: &impl Print, plan: Plan, told: Figures) -> io::Result<()> {
    let mode = plan.mode.name();
    let Plan {
        mode: _,
        threads,
        operations,
        place: _,
    } = plan;
    let Figures {
        nanos,
        answer,
        low,
        high,
    } = told;
    println!(rt; "{mode} {threads} {operations} {nanos} {answer} {low} {high}")
}
