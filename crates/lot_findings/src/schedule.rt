//! The schedule of a walk.
use crate::source::Source;
use lot_text::{Page, print_step};
use lot_world::Step;
use std::io;
use std::io::{ErrorKind, Write};

/// Writes the schedule of some steps, which `lotsim replay` and `lotdraw` take as it is.
///
/// # Errors
///
/// `WriteZero`, where a write failed.
pub fn write_schedule<W: Write>(out: &mut W, source: Source<'_>, steps: &[Step]) -> io::Result<()> {
    let mut page = Page::new();
    page.put(out, source.parsed.header.as_bytes());
    for step in steps {
        print_step(&mut page, out, source.parsed.locks.as_slice(), *step);
        page.put(out, b"\n");
    }
    page.put(out, b"show\n");
    page.finish(out);
    if page.is_lost() {
        return Err(io::Error::from(ErrorKind::WriteZero));
    }
    Ok(())
}
