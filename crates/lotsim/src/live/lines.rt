//! The lines that tell what came of the threads.
ghost use Rattle.std.specs.Prelude.{◌≡◌};
ghost use Rattle.lot_text.specs.Sent.{Puts};
ghost use Rattle.lotsim.specs.Lines.{met_line, refused_line, status_for, told_lines};

use super::{DONE, NOT_MET};
use lot_text::Page;
use std::io::Write;

/// The end of the threads' work.
#[derive(Clone, Copy)]
pub(crate) struct Told {
    /// Whether each of two readers saw the other while it read.
    pub(crate) met: bool,
    /// The value that was read after a write.
    pub(crate) read: u64,
    /// To what several threads counted.
    pub(crate) count: u64,
}

fn print_met<W: Write>(page: &mut Page, writer: &mut W, met: bool)
    ensures { Puts (W.contents writer.old) (W.contents writer.new) page.old page.new
        (met_line met) }
{
    if met {
        page.put(writer, b"readers met\n");
    } else {
        page.put(writer, b"readers did not meet\n");
    }
}

pub(crate) fn print_told<W: Write>(page: &mut Page, writer: &mut W, told: Told)
    ensures { Puts (W.contents writer.old) (W.contents writer.new) page.old page.new
        (told_lines told) }
{
    print_met(page, writer, told.met);
    page.put(writer, b"read ");
    page.put_number(writer, told.read);
    page.put(writer, b"\ncount ");
    page.put_number(writer, told.count);
    page.put(writer, b"\n");
}

pub(crate) fn print_refused<W: Write>(page: &mut Page, writer: &mut W)
    ensures { Puts (W.contents writer.old) (W.contents writer.new) page.old page.new refused_line }
{
    page.put(writer, b"no memory\n");
}

pub(crate) fn status_of(told: Told) -> u8
    ensures { result ≡ status_for told }
{
    if told.met { DONE } else { NOT_MET }
}
