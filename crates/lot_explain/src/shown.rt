//! The lines that `show` prints, and which of them have changed.
use core_base::{Fault, Queues};
use lot_replay::show::show_locks;
use lot_text::{Name, Page};
use lot_world::{MOST_LOCKS, World};
use std::alloc::Global;
use std::io;
use std::io::Write;

/// Returns the lines that `show` prints of a world: none, where its locks are others than those named.
///
/// # Errors
///
/// `NoMemory`.
pub fn lock_lines<Q: Queues + Drop>(
    alloc: Global,
    names: &[Name],
    world: &World<Q>,
) -> Result<Vec<u8>, Fault> {
    let mut lines = Vec::new(alloc);
    if names.len() != world.locks() || names.len() > MOST_LOCKS {
        return Ok(lines);
    }
    let mut page = Page::new();
    show_locks(&mut page, &mut lines, names, world);
    page.finish(&mut lines);
    if page.is_lost() {
        return Err(Fault::NoMemory);
    }
    Ok(lines)
}

/// Writes the lines that are others than before, with four spaces before each.
///
/// # Errors
///
/// The errors of the writer.
pub fn write_changes<W: Write>(out: &mut W, before: &[u8], now: &[u8]) -> io::Result<()> {
    let before = std::str::from_utf8(before).unwrap_or("");
    let now = std::str::from_utf8(now).unwrap_or("");
    for (old, new) in before.lines().zip(now.lines()) {
        if old != new {
            writeln!(out, "    {new}")?;
        }
    }
    Ok(())
}
