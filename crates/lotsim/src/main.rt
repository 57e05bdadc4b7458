//! Any number of threads over named locks, by a list of lines; or real threads on one lot.
#![tactic(auto)]

mod live;

use crate::live::live;
use core_queues::BucketQueues;
use lot_replay::start::start;
use lot_replay::status;
use std::io::{BufReader, ErrorKind};
use std::process::ExitCode;
use std::{env, io};

fn main(rt: HostRuntime) -> ExitCode {
    if asks_for_threads(&rt) {
        return ExitCode::from(live(&rt, rt.alloc(), &mut io::writer(&rt)));
    }
    match run(&rt) {
        Ok(status) => ExitCode::from(status),
        Err(_) => match println!(rt; "line 0 no memory") {
            Ok(()) => ExitCode::from(status::NO_MEMORY),
            Err(_) => ExitCode::from(status::BROKEN),
        },
    }
}

// Returns whether the one argument is `live`.
fn asks_for_threads(rt: &HostRuntime) -> bool {
    let Ok(args) = env::args(rt) else {
        return false;
    };
    let mut words = args.skip(1);
    match (words.next(), words.next()) {
        (Some(word), None) => word.as_str() == "live",
        _ => false,
    }
}

fn run(rt: &HostRuntime) -> io::Result<u8> {
    let args = match env::args(rt) {
        Ok(args) => args.skip(1).collect(rt.alloc())?,
        // An argument that is no text names no job.
        Err(e) if e.kind() == ErrorKind::InvalidData => Vec::<String>::new(rt.alloc()),
        Err(e) => return Err(e),
    };
    let words = args
        .iter()
        .map(|arg| arg.as_str())
        .collect::<Vec<&str>>(rt.alloc())?;
    let mut reader = BufReader::new(rt.alloc(), rt.reader())?;
    Ok(start::<BucketQueues, _, _, _>(
        rt.alloc(),
        words.as_slice(),
        &mut reader,
        &mut io::writer(rt),
        &mut rt.stderr(),
    ))
}
