//! What was found, in words.
use crate::telling::write_turns;
use lot_explore::Wrong;
use lot_findings::{Finding, Lap, Source, waitings, write_readings, write_waitings};
use std::alloc::Global;
use std::io;
use std::io::Write;

/// Writes which property is broken, which lines are left out, which turns come again, where each thread is,
/// and a line for each turn.
///
/// # Errors
///
/// The errors of the output.
pub fn write_story<W: Write>(alloc: Global, out: &mut W, finding: &Finding<'_>) -> io::Result<()> {
    let source = finding.source;
    if let Some(line) = finding.property_line() {
        write!(out, "line {line}: {}", source.line(line))?;
        write_property(alloc, out, finding)?;
    }
    write_left_out(out, source)?;
    if let Some(lap) = finding.lap {
        write_lap(out, finding.walk.moves().len(), lap)?;
    }
    match waitings(alloc, &finding.walk, &finding.world) {
        Ok(waitings) => {
            let numbers = finding.walk.scene().variables();
            write_waitings(out, source, numbers, waitings.as_slice())?;
        }
        Err(_) => writeln!(out, "no memory to tell what the threads wait for")?,
    }
    write_turns(alloc, out, finding)
}

// Writes what the variables of a broken property have.
fn write_property<W: Write>(alloc: Global, out: &mut W, finding: &Finding<'_>) -> io::Result<()> {
    if let Some(Wrong::Broken { property }) = finding.wrong {
        let numbers = finding.walk.scene().variables();
        if let Ok(readings) = finding
            .source
            .readings_of_property(alloc, property, numbers)
        {
            write_readings(out, " is ", readings.as_slice())?;
        }
    }
    writeln!(out)
}

// Writes which lines are left out, if any are, and the program without them.
fn write_left_out<W: Write>(out: &mut W, source: Source<'_>) -> io::Result<()> {
    let Some((first, others)) = source.left_out.split_first() else {
        return Ok(());
    };
    write!(out, "left out: line {first}")?;
    for line in others {
        write!(out, ", line {line}")?;
    }
    writeln!(out, "; the program without them:")?;
    for line in source.text.lines() {
        writeln!(out, "    {line}")?;
    }
    Ok(())
}

// Writes which turns come again and again.
fn write_lap<W: Write>(out: &mut W, last: usize, lap: Lap) -> io::Result<()> {
    let first = last.saturating_sub(lap.turns).saturating_add(1);
    write!(out, "turns {first} to {last} come again and again, ")?;
    match lap.steps {
        0 => writeln!(out, "without a line of the schedule"),
        1 => writeln!(out, "the last line of the schedule"),
        steps => writeln!(out, "the last {steps} lines of the schedule"),
    }
}
