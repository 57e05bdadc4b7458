//! Times calls that have a deadline: how late a time-out is, and how soon a thread wakes that sleeps up to a
//! deadline, beside one that sleeps without.
#![tactic(auto)]

mod plans;
mod rooms;
mod sleeps;

use crate::plans::{MODES, Plan, plan_of};
use crate::sleeps::latencies;
use parking_lot::Fault;
use std::alloc::Global;
use std::process::ExitCode;
use std::rt::Env;
use std::sync::Wait;
use std::thread::Threads;
use std::time::Clock;
use std::{env, io};

const USAGE: &str =
    "usage: timedbench time_out|notify|notify_timed|hand_over|hand_over_timed SLEEPERS N, or timedbench each";

// The arguments are of another form.
const MALFORMED: u8 = 2;

// Memory or a thread was refused.
const NO_MEMORY: u8 = 3;

// A read or a write failed.
const BROKEN: u8 = 4;

fn main(rt: HostRuntime) -> ExitCode {
    match run(&rt) {
        Ok(status) => ExitCode::from(status),
        Err(_) => ExitCode::from(BROKEN),
    }
}

fn run<R: Threads + Wait + Sync + Clock + Env + Print + Eprint + AllocGlobal>(
    rt: &R,
) -> io::Result<u8> {
    let args = env::args(rt)?.skip(1).collect::<Vec<String>>(rt.alloc())?;
    let words = args
        .iter()
        .map(|arg| arg.as_str())
        .collect::<Vec<&str>>(rt.alloc())?;
    if words.as_slice() == ["each"].as_slice() {
        return try_each(rt, rt.alloc());
    }
    match plan_of(words.as_slice()) {
        Some(plan) => tell(rt, rt.alloc(), plan),
        None => {
            eprintln!(rt;
                "timedbench: no such plan; {USAGE}, 0 to 1,000 sleepers, 1 to 1,000,000 samples"
            )?;
            Ok(MALFORMED)
        }
    }
}

// Takes three samples of each mode beside two sleepers, and prints how many were taken.
fn try_each<R: Threads + Wait + Sync + Clock + Print + Eprint>(
    rt: &R,
    alloc: Global,
) -> io::Result<u8> {
    for mode in MODES {
        let plan = Plan {
            mode: *mode,
            sleepers: 2,
            samples: 3,
        };
        match latencies(rt, alloc, plan) {
            Ok(samples) => println!(rt; "{} {}", mode.name(), samples.len())?,
            Err(fault) => return refused(rt, fault),
        }
    }
    Ok(0)
}

// Carries out a plan, and prints its median, the 99th of 100 samples and the greatest, in nanoseconds.
fn tell<R: Threads + Wait + Sync + Clock + Print + Eprint>(
    rt: &R,
    alloc: Global,
    plan: Plan,
) -> io::Result<u8> {
    match latencies(rt, alloc, plan) {
        Ok(mut samples) => {
            samples.sort_unstable();
            let last = samples.len().saturating_sub(1);
            let at = |share: usize| {
                samples
                    .get(last.saturating_mul(share) / 100)
                    .copied()
                    .unwrap_or(0)
            };
            println!(rt;
                "{} {} {} {} {} {}",
                plan.mode.name(),
                plan.sleepers,
                plan.samples,
                at(50),
                at(99),
                at(100)
            )?;
            Ok(0)
        }
        Err(fault) => refused(rt, fault),
    }
}

fn refused<R: Eprint>(rt: &R, fault: Fault) -> io::Result<u8> {
    eprintln!(rt; "timedbench: {fault}")?;
    Ok(NO_MEMORY)
}
