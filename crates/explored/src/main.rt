//! Runs one of some programs of threads and locks by many schedules.
#![tactic(auto)]

mod arguments;
mod output;
mod programs;

use crate::arguments::{Arguments, arguments_from};
use crate::programs::counter::counter;
use crate::programs::forks::forks;
use crate::programs::lazy::lazy;
use crate::programs::queue::queue;
use crate::programs::readers::readers;
use crate::programs::sorts::sorts;
use crate::programs::trials::{calls, meeting, permits, spin, timed};
use lock_explore::{Director, Policy, Search, Summary, explore, script_from};
use std::alloc::{AllocError, Global};
use std::process::ExitCode;
use std::sync::{Arc, Wait};
use std::thread::Threads;
use std::{env, io};

fn main(rt: HostRuntime) -> ExitCode {
    match run(&rt, &rt) {
        Ok(status) => ExitCode::from(status),
        Err(error) => {
            eprintln!(rt; "explored: {error}").unwrap_or(());
            ExitCode::from(4)
        }
    }
}

fn run<T: Threads + Wait + Copy + Send + Sync + 'static>(
    threads: &T,
    rt: &HostRuntime,
) -> io::Result<u8> {
    let words = env::args(rt)?.collect::<Vec<String>>(rt.alloc())?;
    let mut arguments = match arguments_from(rt.alloc(), words.as_slice()) {
        Ok(arguments) => arguments,
        Err(error) => {
            error.print(rt)?;
            return Ok(error.exit_code() as u8);
        }
    };
    if let Some(text) = arguments.replay {
        match script_from(rt.alloc(), text)? {
            Ok(script) => replay(&mut arguments.search, script),
            Err(part) => {
                eprintln!(rt;
                    "error: --replay: expected threads with their turns, as 0:3,1,0:2, and found '{part}'"
                )?;
                return Ok(2);
            }
        }
    }
    let summary = search(threads, rt.alloc(), &arguments)?;
    output::print(rt, &arguments, &summary)?;
    Ok(if summary.failure.is_some() { 1 } else { 0 })
}

// Makes one run of the search, by a script.
fn replay(search: &mut Search, script: Vec<usize>) {
    search.policy = Policy::Replay;
    search.runs = 1;
    search.script = script;
}

fn search<R: Threads + Wait + Copy + Send + Sync + 'static>(
    rt: &R,
    alloc: Global,
    arguments: &Arguments<'_>,
) -> Result<Summary, AllocError> {
    let version = arguments.version;
    let runs = &arguments.search;
    match arguments.program {
        "forks" => explore(rt, alloc, runs, move |rt: &R, director: &Arc<Director>| {
            forks(rt, alloc, director, version)
        }),
        "queue" => explore(rt, alloc, runs, move |rt: &R, director: &Arc<Director>| {
            queue(rt, alloc, director, version)
        }),
        "readers" => explore(rt, alloc, runs, move |rt: &R, director: &Arc<Director>| {
            readers(rt, alloc, director, version)
        }),
        "lazy" => explore(rt, alloc, runs, move |rt: &R, director: &Arc<Director>| {
            lazy(rt, alloc, director, version)
        }),
        "counter" => explore(rt, alloc, runs, move |rt: &R, director: &Arc<Director>| {
            counter(rt, alloc, director, version)
        }),
        _ => try_out(rt, alloc, arguments),
    }
}

// Runs one of the programs that try the search itself.
fn try_out<R: Threads + Wait + Copy + Send + Sync + 'static>(
    rt: &R,
    alloc: Global,
    arguments: &Arguments<'_>,
) -> Result<Summary, AllocError> {
    let version = arguments.version;
    let runs = &arguments.search;
    match arguments.program {
        "permits" => explore(rt, alloc, runs, move |rt: &R, director: &Arc<Director>| {
            permits(rt, alloc, director, version)
        }),
        "timed" => explore(rt, alloc, runs, move |rt: &R, director: &Arc<Director>| {
            timed(rt, alloc, director, version)
        }),
        "spin" => explore(rt, alloc, runs, move |rt: &R, director: &Arc<Director>| {
            spin(rt, alloc, director, version)
        }),
        "sorts" => explore(rt, alloc, runs, move |rt: &R, director: &Arc<Director>| {
            sorts(rt, alloc, director, version)
        }),
        "meeting" => explore(rt, alloc, runs, move |rt: &R, director: &Arc<Director>| {
            meeting(rt, alloc, director, version)
        }),
        _ => explore(rt, alloc, runs, move |rt: &R, director: &Arc<Director>| {
            calls(rt, alloc, director, version)
        }),
    }
}
