//! The turns that come first.
use crate::status;
use lot_arguments::Arguments;
use lot_findings::Source;
use lot_prompt::{AlongError, moves_along};
use std::io::ErrorKind;
use std::{fs, io};

/// Returns the turns of the schedule that comes first, none where none is asked for. What is wrong with it is
/// printed, and the status returned.
///
/// # Errors
///
/// The errors of standard output and standard error.
pub fn first_moves(
    rt: &HostRuntime,
    source: Source<'_>,
    asked: Arguments<'_>,
) -> io::Result<Result<Vec<usize>, u8>> {
    let Some(path) = asked.from else {
        return Ok(Ok(Vec::new(rt.alloc())));
    };
    let schedule = match fs::read_to_string(rt, path) {
        Ok(schedule) => schedule,
        Err(e) if e.kind() == ErrorKind::InvalidData => {
            println!(rt; "{path}: the schedule is not text")?;
            return Ok(Err(status::MALFORMED));
        }
        Err(e) => {
            eprintln!(rt; "lotexplore: {path}: {e}")?;
            return Ok(Err(status::BROKEN));
        }
    };
    match moves_along(rt.alloc(), source, schedule.as_str()) {
        Ok(moves) => Ok(Ok(moves)),
        Err(AlongError::NoMemory) => {
            println!(rt; "no memory")?;
            Ok(Err(status::NOT_ALL))
        }
        Err(error) => {
            println!(rt; "{path}: {error}")?;
            Ok(Err(status::MALFORMED))
        }
    }
}
