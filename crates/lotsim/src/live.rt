//! Real threads on one lot: readers that meet, a value that is written and then read, and a count
//! of many.
//!
//! All three trials run, also where the readers did not meet: the status says so. `main` takes `live`
//! up before `start`, since the trials need the process's threads, which a replay is not given.
mod lines;
mod runs;

ghost use Rattle.lotsim.specs.Lines.{Lives};

use lines::{Told, print_refused, print_told, status_of};
use lot_text::Page;
use runs::tried;
use std::alloc::Global;
use std::io::Write;
use std::sync::Wait;
use std::thread::Threads;

/// The readers met.
pub const DONE: u8 = 0;

/// The threads did not agree.
pub const NOT_MET: u8 = 1;

/// Memory or a thread was refused.
pub const NO_MEMORY: u8 = 3;

/// A write failed.
pub const BROKEN: u8 = 4;

/// Runs the threads, writes what came of them in three lines, and gives the status of the process.
pub fn live<R: Threads + Wait + Sync, W: Write>(rt: &R, alloc: Global, writer: &mut W) -> u8
    ensures { Lives (W.contents writer.old) (W.contents writer.new) result }
{
    match tried(rt, alloc) {
        Ok(told) => tell(writer, told),
        Err(_) => refuse(writer),
    }
}

fn tell<W: Write>(writer: &mut W, told: Told) -> u8
    ensures { Lives (W.contents writer.old) (W.contents writer.new) result }
{
    let mut page = Page::new();
    print_told(&mut page, writer, told);
    page.finish(writer);
    if page.is_lost() {
        return BROKEN;
    }
    status_of(told)
}

fn refuse<W: Write>(writer: &mut W) -> u8
    ensures { Lives (W.contents writer.old) (W.contents writer.new) result }
{
    let mut page = Page::new();
    print_refused(&mut page, writer);
    page.finish(writer);
    if page.is_lost() {
        return BROKEN;
    }
    NO_MEMORY
}
