//! Threads that go on till they rest.
use crate::printing::print_finding;
use crate::status;
use lot_arguments::Arguments;
use lot_findings::{Finding, Headline, Source};
use lot_prompt::settle;
use lot_story::Telling;
use std::io;
use std::io::ErrorKind;

/// Lets threads in calls go on after some moves, till none of them can, and prints where they are then.
///
/// # Errors
///
/// The errors of the output and the files.
pub fn settle_threads(
    rt: &HostRuntime,
    source: Source<'_>,
    asked: Arguments<'_>,
    first: &[usize],
) -> io::Result<u8> {
    match settled(rt, source, first) {
        Ok(finding) => {
            let headline = Headline::Rests {
                turns: finding.walk.moves().len(),
                grain: asked.turns.grain,
            };
            print_finding(rt, asked, &headline, &finding)?;
            Ok(status::NOTHING)
        }
        Err(e) if e.kind() == ErrorKind::OutOfMemory => {
            println!(rt; "no memory")?;
            Ok(status::NOT_ALL)
        }
        Err(e) => Err(e),
    }
}

fn settled<'a>(rt: &HostRuntime, source: Source<'a>, first: &[usize]) -> io::Result<Finding<'a>> {
    let refused = |_| io::Error::from(ErrorKind::OutOfMemory);
    let mut telling = Telling::after(rt.alloc(), source, first).map_err(refused)?;
    settle(rt.alloc(), &mut io::sink(), &mut telling)?;
    Finding::new(rt.alloc(), source, telling.into_walk()).map_err(refused)
}
