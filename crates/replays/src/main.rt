//! Replays the transcripts of a folder, each an input of `lotsim replay` beside what that prints, and disturbs
//! each in every way.
#![tactic(auto)]

mod transcripts;

use crate::transcripts::{Transcript, check};
use std::process::ExitCode;
use std::{env, fs, io};
use test_hostile::disturbed::Figures;

// A transcript is not what a replay prints, or does not keep its rules.
const WRONG: u8 = 1;

// The list is of another form.
const MALFORMED: u8 = 2;

// A read or a write failed.
const BROKEN: u8 = 4;

const USAGE: &str = "usage: replays LIST, where each line of the list is `NAME: what happens`";

fn main(rt: HostRuntime) -> ExitCode {
    match run(&rt) {
        Ok(status) => ExitCode::from(status),
        Err(error) => {
            eprintln!(rt; "replays: {error}").unwrap_or(());
            ExitCode::from(BROKEN)
        }
    }
}

fn run(rt: &HostRuntime) -> io::Result<u8> {
    let args = env::args(rt)?.skip(1).collect::<Vec<String>>(rt.alloc())?;
    let [path] = args.as_slice() else {
        eprintln!(rt; "{USAGE}")?;
        return Ok(MALFORMED);
    };
    let list = fs::read_to_string(rt, path.as_str())?;
    let mut figures = Figures::NONE;
    let mut count = 0usize;
    for line in list.lines() {
        let Some((name, _)) = line.split_once(": ") else {
            eprintln!(rt; "replays: `{line}`: expected `NAME: what happens`")?;
            return Ok(MALFORMED);
        };
        let transcript = read(rt, name)?;
        match check(rt.alloc(), &transcript) {
            Ok(more) => figures = figures.and(more),
            Err(failure) => {
                println!(rt; "{name}: {failure}")?;
                return Ok(WRONG);
            }
        }
        count = count.wrapping_add(1);
    }
    println!(rt;
        "{count} transcripts, {} disturbed runs of {} steps",
        figures.runs, figures.steps
    )?;
    Ok(0)
}

// Reads the input and the answers of a transcript.
fn read(rt: &HostRuntime, name: &str) -> io::Result<Transcript> {
    let mut path = String::from_str(rt.alloc(), name)?;
    path.push_str(".lot")?;
    let input = fs::read(rt, path.as_str())?;
    let mut path = String::from_str(rt.alloc(), name)?;
    path.push_str(".out")?;
    let told = fs::read_to_string(rt, path.as_str())?;
    Ok(Transcript { input, told })
}
