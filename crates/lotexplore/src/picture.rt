//! Pictures of what was found, in files: pages, if their names end in `.html`, else SVG.
use core_queues::BucketQueues;
use lot_findings::Finding;
use lot_output::record_turns;
use lot_picture::{Recording, Span, record_schedule};
use picture_html::draw_page;
use picture_svg::{Drawing, draw};
use std::io::{BufWriter, ErrorKind, Write};
use std::{fs, io};

/// Draws the turns of a finding into a file, a column for each.
///
/// # Errors
///
/// The errors of the file, and `OutOfMemory`.
pub fn draw_turns(
    rt: &HostRuntime,
    path: &str,
    finding: &Finding<'_>,
    title: Option<&str>,
) -> io::Result<()> {
    match record_turns(rt.alloc(), finding) {
        Ok(recording) => draw_recording(rt, path, &recording, title),
        Err(_) => Err(io::Error::from(ErrorKind::OutOfMemory)),
    }
}

/// Draws a schedule into a file, a column for each step.
///
/// # Errors
///
/// The errors of the file, and `OutOfMemory`.
pub fn draw_steps(
    rt: &HostRuntime,
    path: &str,
    schedule: &[u8],
    title: Option<&str>,
) -> io::Result<()> {
    let mut reader = schedule;
    match record_schedule::<BucketQueues, _>(rt.alloc(), &mut reader, Span::ALL) {
        Ok(recording) => draw_recording(rt, path, &recording, title),
        Err(_) => Err(io::Error::from(ErrorKind::OutOfMemory)),
    }
}

fn draw_recording(
    rt: &HostRuntime,
    path: &str,
    recording: &Recording,
    title: Option<&str>,
) -> io::Result<()> {
    let is_for_page = path.ends_with(".html");
    let drawing = Drawing {
        title,
        marks: &[],
        width: None,
        is_for_page,
    };
    let mut out = BufWriter::new(rt.alloc(), fs::create(rt, path)?)?;
    if is_for_page {
        draw_page(rt.alloc(), &mut out, recording, drawing)?;
    } else {
        draw(rt.alloc(), &mut out, recording, drawing)?;
    }
    out.flush()
}
