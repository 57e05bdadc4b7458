//! A walk by orders, which are lines of standard input.
use crate::printing::write_files;
use crate::status;
use crate::watch::Watch;
use lot_arguments::Arguments;
use lot_findings::{Source, finding_by};
use lot_prompt::{Order, Prompt, order_of};
use state_search::NoRoom;
use std::io;
use std::io::{BufWriter, ErrorKind, Write};

/// Obeys the orders of standard input, up to its end or `quit`, and writes the files that are asked for. The
/// status is that of malformed input where some line was no order.
///
/// # Errors
///
/// The errors of the input, the output and the files.
pub fn walk_by_orders(
    rt: &HostRuntime,
    source: Source<'_>,
    asked: Arguments<'_>,
    moves: Vec<usize>,
) -> io::Result<u8> {
    let mut prompt = Prompt {
        source,
        grain: asked.turns.grain,
        limits: asked.limits,
        moves,
    };
    let mut status = status::NOTHING;
    ask(rt, &prompt)?;
    for (at, line) in rt.lines(rt.alloc()).enumerate() {
        let line = line?;
        match order_of(line.as_str(), source.parsed.program.threads()) {
            Ok(Order::Quit) => break,
            Ok(order) => obey(rt, asked, &mut prompt, order)?,
            Err(error) => {
                println!(rt; "line {}: {error}", at.saturating_add(1))?;
                status = status::MALFORMED;
            }
        }
        ask(rt, &prompt)?;
    }
    println!(rt)?;
    write_walk(rt, source, asked, prompt.moves.as_slice())?;
    Ok(status)
}

// Prints what may be done, and asks for an order.
fn ask(rt: &HostRuntime, prompt: &Prompt<'_>) -> io::Result<()> {
    let mut out = BufWriter::new(rt.alloc(), io::writer(rt))?;
    match prompt.write_choices(rt.alloc(), &mut out) {
        Err(e) if e.kind() == ErrorKind::OutOfMemory => writeln!(out, "no memory")?,
        told => told?,
    }
    write!(out, "> ")?;
    out.flush()
}

fn obey(
    rt: &HostRuntime,
    asked: Arguments<'_>,
    prompt: &mut Prompt<'_>,
    order: Order,
) -> io::Result<()> {
    let mut watch = Watch::new(rt, asked)?;
    let mut out = BufWriter::new(rt.alloc(), io::writer(rt))?;
    match prompt.obey(rt.alloc(), &mut out, order, &mut watch) {
        Err(e) if e.kind() == ErrorKind::OutOfMemory => writeln!(out, "no memory")?,
        told => told?,
    }
    out.flush()
}

// Writes the schedule of some turns and its picture to the files that are asked for.
fn write_walk(
    rt: &HostRuntime,
    source: Source<'_>,
    asked: Arguments<'_>,
    moves: &[usize],
) -> io::Result<()> {
    match finding_by(rt.alloc(), source, moves) {
        Ok(finding) => write_files(rt, asked, None, &finding),
        Err(NoRoom) => Err(io::Error::from(ErrorKind::OutOfMemory)),
    }
}
