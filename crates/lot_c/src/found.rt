//! What was found, as `lotexplore` prints it.
use crate::status::FOUND;
use lot_findings::{Finding, GrainName, Headline, write_schedule};
use lot_story::write_story;
use state_search::NoRoom;
use std::alloc::Global;
use std::io;
use std::io::Write;

/// Prints the schedule of turns of a grain that was found, or that there is no memory for it. Returns the
/// status.
///
/// # Errors
///
/// `OutOfMemory`.
pub fn print_found(
    alloc: Global,
    out: &mut Vec<u8>,
    found: Result<Finding<'_>, NoRoom>,
    turns: usize,
    grain: GrainName,
) -> io::Result<u8> {
    match found {
        Ok(finding) => {
            let headline = Headline::Wrong {
                word: finding.word(),
                turns,
                grain,
                seed: None,
            };
            print_finding(alloc, out, headline, &finding)
        }
        Err(NoRoom) => print_no_schedule(out, turns),
    }
}

/// Prints a headline, which property is broken, where each thread is, and the schedule. Returns the status.
///
/// # Errors
///
/// `OutOfMemory`.
pub fn print_finding(
    alloc: Global,
    out: &mut Vec<u8>,
    headline: Headline<'_>,
    finding: &Finding<'_>,
) -> io::Result<u8> {
    writeln!(out, "{headline}")?;
    write_story(alloc, out, finding)?;
    write_schedule(out, finding.source, finding.steps.as_slice())?;
    Ok(FOUND)
}

/// Prints that there is no memory for a schedule of so many turns. Returns the status.
///
/// # Errors
///
/// `OutOfMemory`.
pub fn print_no_schedule(out: &mut Vec<u8>, turns: usize) -> io::Result<u8> {
    let headline = Headline::NoSchedule { turns };
    writeln!(out, "{headline}")?;
    Ok(FOUND)
}
