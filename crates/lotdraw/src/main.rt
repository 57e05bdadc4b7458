//! A schedule on standard input, its picture as SVG or its page as HTML on standard output.
#![tactic(auto)]

mod options;
mod start;
mod values;

use crate::options::{Options, Refused, options_from};
use crate::start::start;
use core_queues::BucketQueues;
use lot_replay::status;
use std::io::{BufReader, BufWriter, ErrorKind};
use std::process::ExitCode;
use std::{env, io};

fn main(rt: HostRuntime) -> ExitCode {
    match run(&rt) {
        Ok(status) => ExitCode::from(status),
        Err(_) => match eprintln!(rt; "line 0 no memory") {
            Ok(()) => ExitCode::from(status::NO_MEMORY),
            Err(_) => ExitCode::from(status::BROKEN),
        },
    }
}

fn run(rt: &HostRuntime) -> io::Result<u8> {
    let asked = asked_for(rt)?;
    let mut reader = BufReader::new(rt.alloc(), rt.reader())?;
    let mut writer = BufWriter::new(rt.alloc(), io::writer(rt))?;
    Ok(start::<BucketQueues, _, _, _>(
        rt.alloc(),
        asked,
        &mut reader,
        &mut writer,
        &mut rt.stderr(),
    ))
}

// Returns what the arguments of the process ask for.
fn asked_for(rt: &HostRuntime) -> io::Result<Result<Options, Refused>> {
    let words = match env::args(rt) {
        Ok(args) => args.collect::<Vec<String>>(rt.alloc())?,
        Err(e) if e.kind() == ErrorKind::InvalidData => {
            let said = String::from_str(rt.alloc(), "an argument is not text\n")?;
            return Ok(Err(Refused::Wrong(said)));
        }
        Err(e) => return Err(e),
    };
    Ok(options_from(rt.alloc(), words.as_slice()))
}
