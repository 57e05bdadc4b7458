//! Threads that are said to come to their end.
use crate::found::{print_finding, print_no_schedule};
use crate::status::{NOT_ALL, NOTHING};
use core_base::ListQueues;
use lot_explore::Walk;
use lot_findings::{GrainName, Headline, Source, walk_by};
use lot_loops::FairLoop;
use lot_program_text::Ending;
use lot_story::{Coverage, Ended, Look, Remarks, by_single_steps, finding_of_loop, look_for_loops};
use state_search::{Limits, NoRoom, Unobserved};
use std::alloc::Global;
use std::io;
use std::io::{ErrorKind, Write};

/// Looks for loops after a search that found nothing, by single steps. Prints the first loop, or what the
/// search has found, how far each look went, and what no schedule has come to. Returns the status.
///
/// # Errors
///
/// `OutOfMemory`.
pub fn look_on(
    alloc: Global,
    out: &mut Vec<u8>,
    source: Source<'_>,
    walk: &Walk<'_, ListQueues>,
    headline: Headline<'_>,
    limits: Limits,
) -> io::Result<u8> {
    if source.parsed.endings.is_empty() {
        return tell(alloc, out, source, walk, headline, limits, Vec::new(alloc));
    }
    let refused = |_| io::Error::from(ErrorKind::OutOfMemory);
    let program = by_single_steps(alloc, source, walk).map_err(refused)?;
    let by_steps = Source {
        parsed: &program.parsed,
        ..source
    };
    let stepped = walk_by(alloc, by_steps, program.moves.as_slice()).map_err(refused)?;
    match look_for_loops(alloc, by_steps, &stepped, limits, &mut Unobserved)? {
        Ended::Endless { ending, found } => {
            print_loop(alloc, out, by_steps, &stepped, ending, &found)
        }
        Ended::Without { looks } => tell(alloc, out, source, walk, headline, limits, looks),
    }
}

// Prints what a search has found, how far looks went, and what no schedule has come to.
fn tell(
    alloc: Global,
    out: &mut Vec<u8>,
    source: Source<'_>,
    walk: &Walk<'_, ListQueues>,
    headline: Headline<'_>,
    limits: Limits,
    looks: Vec<Look>,
) -> io::Result<u8> {
    let coverage = match Coverage::is_due(walk, headline, false) {
        Ok(()) => Coverage::of(alloc, source, walk, limits, &mut Unobserved),
        Err(none) => none,
    };
    let remarks = Remarks {
        looks,
        coverage,
        stopped: "",
    };
    writeln!(out, "{headline}")?;
    remarks.write(out, source)?;
    Ok(match headline {
        Headline::Nothing { .. } if remarks.looks.iter().all(|look| look.cut.is_none()) => NOTHING,
        _ => NOT_ALL,
    })
}

// Prints the turns to a loop and those of one lap.
fn print_loop(
    alloc: Global,
    out: &mut Vec<u8>,
    source: Source<'_>,
    walk: &Walk<'_, ListQueues>,
    ending: Ending,
    found: &FairLoop,
) -> io::Result<u8> {
    let turns = found.way.len();
    match finding_of_loop(alloc, source, walk, ending.line, found) {
        Ok(finding) => {
            let headline = Headline::Endless {
                turns,
                lap: found.lap.len(),
                grain: GrainName::Step,
            };
            print_finding(alloc, out, headline, &finding)
        }
        Err(NoRoom) => print_no_schedule(out, turns),
    }
}
