//! What was found, as it is asked for.
use crate::picture::{draw_steps, draw_turns};
use lot_arguments::{Arguments, Form};
use lot_findings::{Finding, Headline, Source, write_schedule};
use lot_output::{write_headline, write_json, write_remarked};
use lot_story::{Remarks, write_story};
use std::io::{BufWriter, Write};
use std::{fs, io};

/// Prints what was found, in the form that is asked for, and writes the files.
///
/// # Errors
///
/// The errors of the output and the files.
pub fn print_finding(
    rt: &HostRuntime,
    asked: Arguments<'_>,
    headline: &Headline<'_>,
    finding: &Finding<'_>,
) -> io::Result<()> {
    let mut out = BufWriter::new(rt.alloc(), io::writer(rt))?;
    match asked.schedule {
        Some("-") => {
            eprintln!(rt; "{headline}")?;
            write_schedule(&mut out, finding.source, finding.steps.as_slice())?;
        }
        _ => print_form(rt, &mut out, asked, headline, finding)?,
    }
    out.flush()?;
    write_files(rt, asked, Some(headline), finding)
}

fn print_form<W: Write>(
    rt: &HostRuntime,
    out: &mut W,
    asked: Arguments<'_>,
    headline: &Headline<'_>,
    finding: &Finding<'_>,
) -> io::Result<()> {
    match asked.form {
        Form::Json | Form::JsonLines => write_json(rt.alloc(), out, headline, finding),
        Form::Words => {
            writeln!(out, "{headline}")?;
            write_story(rt.alloc(), out, finding)
        }
    }
}

/// Writes the schedule and its pictures to the files that are asked for. The pictures have the headline as
/// their title, if there is one.
///
/// # Errors
///
/// The errors of the files.
pub fn write_files(
    rt: &HostRuntime,
    asked: Arguments<'_>,
    headline: Option<&Headline<'_>>,
    finding: &Finding<'_>,
) -> io::Result<()> {
    let mut schedule = Vec::new(rt.alloc());
    write_schedule(&mut schedule, finding.source, finding.steps.as_slice())?;
    if let Some(path) = asked.schedule.filter(|path| *path != "-") {
        named(rt, path, fs::write(rt, path, schedule.as_slice()))?;
    }
    let title = match headline {
        Some(headline) => Some(format!(in rt.alloc(); "{headline}")?),
        None => None,
    };
    let title = title.as_ref().map(|title| title.as_str());
    if let Some(path) = asked.picture {
        named(rt, path, draw_turns(rt, path, finding, title))?;
    }
    match asked.steps_picture {
        Some(path) => named(rt, path, draw_steps(rt, path, schedule.as_slice(), title)),
        None => Ok(()),
    }
}

// Names the file that a write failed at.
fn named(rt: &HostRuntime, path: &str, written: io::Result<()>) -> io::Result<()> {
    if written.is_err() {
        eprintln!(rt; "lotexplore: {path}: not written")?;
    }
    written
}

/// Prints the first line, as JSON where that is asked for.
///
/// # Errors
///
/// The errors of the output.
pub fn say(rt: &HostRuntime, asked: Arguments<'_>, headline: &Headline<'_>) -> io::Result<()> {
    match asked.form {
        Form::Json | Form::JsonLines => {
            let mut out = io::writer(rt);
            write_headline(rt.alloc(), &mut out, headline)
        }
        Form::Words if asked.schedule == Some("-") => { eprintln!(rt; "{headline}") }
        Form::Words => println!(rt; "{headline}"),
    }
}

/// Prints the first line and the remarks after it, as JSON where that is asked for.
///
/// # Errors
///
/// The errors of the output, and `OutOfMemory`.
pub fn say_with(
    rt: &HostRuntime,
    source: Source<'_>,
    asked: Arguments<'_>,
    headline: &Headline<'_>,
    remarks: &Remarks<'_>,
) -> io::Result<()> {
    match asked.form {
        Form::Json | Form::JsonLines => {
            let mut out = io::writer(rt);
            write_remarked(rt.alloc(), &mut out, source, headline, remarks)
        }
        Form::Words => {
            say(rt, asked, headline)?;
            let mut text = Vec::new(rt.alloc());
            remarks.write(&mut text, source)?;
            let text = std::str::from_utf8(text.as_slice()).unwrap_or("");
            if asked.schedule == Some("-") {
                return eprint!(rt; "{text}");
            }
            print!(rt; "{text}")
        }
    }
}
