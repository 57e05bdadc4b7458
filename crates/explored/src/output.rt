//! What is printed and drawn.
use crate::arguments::Arguments;
use core_queues::BucketQueues;
use lock_explore::{Failure, Policy, Summary, Tally, json};
use lot_picture::{Span, record_schedule};
use picture_html::draw_page;
use picture_svg::{Drawing, draw};
use std::io::{BufWriter, ErrorKind, Write};
use std::{fs, io};

// Says how many runs had an ending, and which was the first of those that went wrong.
fn print_tally(
    rt: &HostRuntime,
    arguments: &Arguments<'_>,
    ending: &str,
    tally: Tally,
) -> io::Result<()> {
    let Some(first) = tally.first else {
        return Ok(());
    };
    match arguments.search.policy {
        _ if ending == "fine" => print!(rt; ", {ending} {}", tally.runs),
        Policy::Random | Policy::Priorities { .. } => {
            print!(rt; ", {ending} {} (first by seed {first})", tally.runs)
        }
        _ => print!(rt;
            ", {ending} {} (first in run {})",
            tally.runs,
            first.saturating_add(1)
        ),
    }
}

fn print_summary(rt: &HostRuntime, arguments: &Arguments<'_>, summary: &Summary) -> io::Result<()> {
    print!(rt; "runs {}", summary.runs)?;
    for (ending, tally) in summary.tallies() {
        print_tally(rt, arguments, ending, tally)?;
    }
    println!(rt; "; turns {}, at most {}", summary.turns, summary.longest)?;
    if summary.turns == 0 {
        println!(rt;
            "no thread has asked for a turn: a team takes turns that is made by Team::directed"
        )?;
    }
    for thread in &summary.silent {
        println!(rt; "thread {thread} has made no call in a turn: its calls are not directed")?;
    }
    match arguments.search.policy {
        Policy::Exhaustive { preemptions } if summary.is_complete => {
            println!(rt; "these are all schedules with at most {preemptions} preemptions")
        }
        Policy::Exhaustive { .. } => println!(rt; "there are more schedules"),
        _ => Ok(()),
    }
}

fn print_failure(rt: &HostRuntime, failure: &Failure) -> io::Result<()> {
    let alloc = rt.alloc();
    println!(rt; "{}", failure.verdict(alloc)?)?;
    for line in failure.waits(alloc)? {
        println!(rt; "{line}")?;
    }
    println!(rt; "again by: {}", failure.arguments(alloc)?)?;
    println!(rt; "or by: --replay {}", failure.script(alloc)?)?;
    match (failure.schedule(alloc)?, failure.is_taken(alloc)?) {
        (None, _) => println!(rt; "no schedule of calls says this run"),
        (Some(_), false) => println!(rt; "the simulator does not take its schedule"),
        (Some(_), true) => Ok(()),
    }
}

// The lines of a schedule as one text.
fn text_of(rt: &HostRuntime, failure: &Failure) -> io::Result<Option<String>> {
    let Some(lines) = failure.schedule(rt.alloc())? else {
        return Ok(None);
    };
    let mut text = String::new(rt.alloc());
    for line in lines {
        text.push_str(line.as_str())?;
        text.push('\n')?;
    }
    Ok(Some(text))
}

fn draw_into(rt: &HostRuntime, path: &str, schedule: &str) -> io::Result<()> {
    let mut reader = schedule.as_bytes();
    let Ok(recording) = record_schedule::<BucketQueues, _>(rt.alloc(), &mut reader, Span::ALL)
    else {
        return Err(io::Error::from(ErrorKind::OutOfMemory));
    };
    let is_for_page = path.ends_with(".html");
    let drawing = Drawing {
        title: None,
        marks: &[],
        width: None,
        is_for_page,
    };
    let mut out = BufWriter::new(rt.alloc(), fs::create(rt, path)?)?;
    if is_for_page {
        draw_page(rt.alloc(), &mut out, &recording, drawing)?;
    } else {
        draw(rt.alloc(), &mut out, &recording, drawing)?;
    }
    out.flush()
}

// Writes the schedule and its picture, where they are asked for.
fn write_files(rt: &HostRuntime, arguments: &Arguments<'_>, failure: &Failure) -> io::Result<()> {
    let Some(text) = text_of(rt, failure)? else {
        return Ok(());
    };
    match arguments.schedule {
        Some("-") => print!(rt; "{text}")?,
        Some(path) => fs::write(rt, path, text.as_bytes())?,
        None => {}
    }
    match arguments.picture {
        Some(path) => draw_into(rt, path, text.as_str()),
        None => Ok(()),
    }
}

/// Prints what came of the runs, and writes the files that are asked for.
///
/// # Errors
///
/// The errors of the devices, and where memory was refused.
pub fn print(rt: &HostRuntime, arguments: &Arguments<'_>, summary: &Summary) -> io::Result<()> {
    if arguments.json {
        println!(rt; "{}", json(rt.alloc(), summary)?)?;
    } else if arguments.schedule != Some("-") {
        if let Some(failure) = &summary.failure {
            print_failure(rt, failure)?;
        }
        print_summary(rt, arguments, summary)?;
    }
    match &summary.failure {
        Some(failure) => write_files(rt, arguments, failure),
        None => Ok(()),
    }
}
