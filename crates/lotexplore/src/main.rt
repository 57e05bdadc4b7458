//! A program of lock calls; what a search of all its schedules finds, on standard output.
#![tactic(auto)]

mod by_orders;
mod endings;
mod explaining;
mod first;
mod picture;
mod printing;
mod report;
mod searches;
mod settling;
mod splitting;
mod status;
mod warnings;
mod watch;

use crate::explaining::explain_schedule;
use crate::report::report;
use lot_arguments::{Arguments, Job, job_from};
use lot_program_text::{TextError, parse};
use std::io::ErrorKind;
use std::process::ExitCode;
use std::thread::Threads;
use std::{env, fs, io, thread};

fn main(rt: HostRuntime) -> ExitCode {
    match run(&rt, &rt) {
        Ok(status) => ExitCode::from(status),
        Err(error) => {
            eprintln!(rt; "lotexplore: {error}").unwrap_or(());
            ExitCode::from(status::BROKEN)
        }
    }
}

fn run<T: Threads + Sync>(threads: &T, rt: &HostRuntime) -> io::Result<u8> {
    let words = match env::args(rt) {
        Ok(args) => args.collect::<Vec<String>>(rt.alloc())?,
        Err(e) if e.kind() == ErrorKind::InvalidData => {
            eprintln!(rt; "an argument is not text")?;
            return Ok(status::MALFORMED);
        }
        Err(e) => return Err(e),
    };
    match job_from(rt.alloc(), words.as_slice()) {
        Ok(Job::Search(arguments)) => match arguments.fault() {
            None => search_program(threads, rt, with_jobs(threads, arguments)),
            Some(fault) => {
                eprintln!(rt; "error: {fault}\n\nFor more information, try '--help'.")?;
                Ok(status::MALFORMED)
            }
        },
        Ok(Job::Explain { schedule }) => explain_schedule(rt, schedule),
        Err(error) => {
            error.print(rt)?;
            Ok(error.exit_code() as u8)
        }
    }
}

// Counts the processors where no number of threads is asked for.
fn with_jobs<'a>(threads: &impl Threads, mut asked: Arguments<'a>) -> Arguments<'a> {
    if asked.jobs == 0 {
        asked.jobs = match thread::available_parallelism(threads) {
            Ok(number) => number.get(),
            Err(_) => 1,
        };
    }
    asked
}

// Reads the program, and prints what a search of it finds.
fn search_program<T: Threads + Sync>(
    threads: &T,
    rt: &HostRuntime,
    arguments: Arguments<'_>,
) -> io::Result<u8> {
    let text = match read_program(rt, arguments) {
        Ok(text) => text,
        Err(e) if e.kind() == ErrorKind::InvalidData => {
            println!(rt; "the program is not text")?;
            return Ok(status::MALFORMED);
        }
        Err(e) => {
            let from = arguments.program.unwrap_or("standard input");
            eprintln!(rt; "lotexplore: {from}: {e}")?;
            return Ok(status::BROKEN);
        }
    };
    match parse(rt.alloc(), text.as_str()) {
        Ok(mut parsed) => report(threads, rt, &mut parsed, text.as_str(), arguments),
        Err(TextError::NoMemory) => {
            println!(rt; "no memory")?;
            Ok(status::NOT_ALL)
        }
        Err(error) => {
            println!(rt; "{error}")?;
            Ok(status::MALFORMED)
        }
    }
}

// Reads the program from its file, else from standard input.
fn read_program(rt: &HostRuntime, arguments: Arguments<'_>) -> io::Result<String> {
    match arguments.program {
        Some(path) => fs::read_to_string(rt, path),
        None => io::read_to_string(rt.alloc(), rt.reader()),
    }
}
