//! Times many operations on one lock, by one thread or by several that share them.
#![tactic(auto)]

mod condvars;
mod desks;
mod least;
mod loops;
mod made;
mod mutexes;
mod plans;
mod rows;
mod runs;
mod rwlocks;
mod semaphores;
mod shares;
mod start;
mod timing;

use std::process::ExitCode;
use std::rt::Env;
use std::sync::Wait;
use std::thread::Threads;
use std::time::Clock;
use std::{env, io};

fn main(rt: HostRuntime) -> ExitCode {
    match run(&rt) {
        Ok(status) => ExitCode::from(status),
        Err(_) => ExitCode::from(start::BROKEN),
    }
}

fn run<R: Threads + Wait + Sync + Clock + Env + Print + Eprint + AllocGlobal>(
    rt: &R,
) -> io::Result<u8> {
    let args = env::args(rt)?.skip(1).collect::<Vec<String>>(rt.alloc())?;
    let words = args
        .iter()
        .map(|arg| arg.as_str())
        .collect::<Vec<&str>>(rt.alloc())?;
    start::start(rt, rt.alloc(), words.as_slice())
}
