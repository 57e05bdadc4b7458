//! A schedule, replayed in words.
use crate::status;
use core_queues::BucketQueues;
use lot_explain::{Failure, explain};
use std::io::{BufRead, BufReader, BufWriter, ErrorKind, Write};
use std::{fs, io};

/// Replays a schedule, of a file or else of standard input, and prints each line's answer with what it
/// changed, or why it was refused. Returns the status of the replay.
///
/// # Errors
///
/// The errors of the devices.
pub fn explain_schedule(rt: &HostRuntime, path: Option<&str>) -> io::Result<u8> {
    match path {
        Some(path) => match fs::read(rt, path) {
            Ok(text) => explain_lines(rt, &mut text.as_slice()),
            Err(e) => {
                eprintln!(rt; "lotexplore: {path}: {e}")?;
                Ok(status::BROKEN)
            }
        },
        None => {
            let mut reader = BufReader::new(rt.alloc(), rt.reader())?;
            explain_lines(rt, &mut reader)
        }
    }
}

// Replays the lines of a reader.
fn explain_lines<R: BufRead>(rt: &HostRuntime, reader: &mut R) -> io::Result<u8> {
    match explain::<BucketQueues, R>(rt.alloc(), reader) {
        Ok(told) => {
            let mut out = BufWriter::new(rt.alloc(), io::writer(rt))?;
            told.write(&mut out)?;
            out.flush()?;
            Ok(told.status)
        }
        Err(Failure::NoMemory) => {
            println!(rt; "no memory")?;
            Ok(status::NOT_ALL)
        }
        Err(Failure::Unread) => Ok(status::BROKEN),
    }
}
