//! A schedule in, its picture out.
ghost use Rattle.std.specs.Prelude.{◌≡◌, ◌≢◌, IfErr, true};
ghost use Rattle.std.specs.Io.KnownBytes.{Keeps};
ghost use Rattle.lotdraw.specs.Endings.{is_malformed, is_silent};

use crate::options::{Form, Options, Refused};
use core_base::Queues;
use lot_picture::{Failure, Recording, Span, record_schedule};
use lot_replay::status::{BROKEN, DONE, MALFORMED, NO_MEMORY};
use lot_text::{Page, print_malformed, print_no_memory, send_all};
use picture_html::draw_page;
use picture_svg::{Drawing, draw};
use std::alloc::{AllocError, Global};
use std::io;
use std::io::{BufRead, ErrorKind, Write};

/// Why there is no picture, though the arguments were right.
#[derive(Drop)]
pub enum Unfit {
    Failed(Failure),
    /// The schedule lacks what was asked for, and this says what.
    Lacks(String),
}

impl From<Failure> for Unfit {
    ghost use Rattle.lotdraw.specs.declared.start.Unfit.TheVariants as unfit;

    ghost from_gives = { λ failure e. e ≡ unfit.Failed failure };

    fn from(failure: Failure) -> Unfit {
        Unfit::Failed(failure)
    }
}

/// Draws the schedule that a reader has as it was asked for, and gives the status of the process.
/// Where there is no picture, a line on `errors` says why.
pub fn start<Q: Queues + Drop, R: BufRead, W: Write, E: Write>(
    alloc: Global,
    asked: Result<Options, Refused>,
    reader: &mut R,
    writer: &mut W,
    errors: &mut E,
) -> u8
    ensures refused_reads_nothing { IfErr asked
        (λ _. Keeps (R.remaining reader.old) (R.remaining reader.new)) }
    ensures malformed_writes_nothing { result ≡ 2
        → Keeps (W.contents writer.old) (W.contents writer.new) }
{
    match asked {
        Ok(options) => match picture::<Q, R, W>(alloc, &options, reader, writer) {
            Ok(()) => DONE,
            Err(unfit) => complain(errors, unfit),
        },
        Err(Refused::Help(text)) => tell(writer, text.as_bytes(), DONE),
        Err(Refused::Wrong(text)) => tell(errors, text.as_bytes(), MALFORMED),
        Err(Refused::NoMemory) => tell(errors, b"no memory\n", NO_MEMORY),
    }
}

fn picture<Q: Queues + Drop, R: BufRead, W: Write>(
    alloc: Global,
    options: &Options,
    reader: &mut R,
    writer: &mut W,
) -> Result<(), Unfit>
    ensures { IfErr result (λ unfit. is_silent unfit ≡ true
        → Keeps (W.contents writer.old) (W.contents writer.new)) }
{
    let mut recording = record_schedule::<Q, R>(alloc, reader, options.span)?;
    choose(alloc, &mut recording, options)?;
    let drawn = match write_picture(alloc, writer, &recording, options) {
        Ok(()) => writer.flush(),
        Err(e) => Err(e),
    };
    match drawn {
        Ok(()) => Ok(()),
        Err(e) if e.kind() == ErrorKind::OutOfMemory => Err(Unfit::Failed(Failure::Undrawn)),
        Err(_) => Err(Unfit::Failed(Failure::Unwritten)),
    }
}

fn write_picture<W: Write>(
    alloc: Global,
    writer: &mut W,
    recording: &Recording,
    options: &Options,
) -> io::Result<()> {
    let title = match &options.title {
        Some(title) => Some(title.as_str()),
        None => None,
    };
    let drawing = Drawing {
        title,
        marks: options.marks.as_slice(),
        width: options.width,
        is_for_page: options.form == Form::Page,
    };
    match options.form {
        Form::Svg => draw(alloc, writer, recording, drawing),
        Form::Page => draw_page(alloc, writer, recording, drawing),
    }
}

/// Leaves out of a recording what isn't to be shown.
fn choose(alloc: Global, recording: &mut Recording, options: &Options) -> Result<(), Unfit> {
    check_lines(alloc, recording, options)?;
    if let Some(threads) = &options.threads {
        check_threads(alloc, recording, threads.as_slice())?;
        recording.keep_threads(threads.as_slice());
    }
    if let Some(names) = &options.locks {
        let locks = locks_named(alloc, recording, names.as_slice())?;
        recording.keep_locks(locks.as_slice());
    }
    Ok(())
}

/// Checks that the schedule has the lines that arguments name.
fn check_lines(alloc: Global, recording: &Recording, options: &Options) -> Result<(), Unfit> {
    let lines = recording.lines;
    for mark in options.marks.iter() {
        if *mark > lines {
            return Err(lacks_line(alloc, "mark", *mark, lines));
        }
    }
    if options.span.from > lines.max(1) {
        return Err(lacks_line(alloc, "from", options.span.from, lines));
    }
    let Span { from, to } = options.span;
    if from > to {
        return Err(lacks(format!(in alloc; "--to {to}: not a line from {from} on\n")));
    }
    Ok(())
}

fn lacks_line(alloc: Global, name: &str, number: u64, lines: u64) -> Unfit {
    lacks(format!(in alloc;
        "--{name} {number}: not a line of the picture, as {lines} lines take steps\n"
    ))
}

fn lacks(said: Result<String, AllocError>) -> Unfit {
    match said {
        Ok(said) => Unfit::Lacks(said),
        Err(_) => Unfit::Failed(Failure::Undrawn),
    }
}

/// Checks that the schedule has these threads.
fn check_threads(alloc: Global, recording: &Recording, threads: &[usize]) -> Result<(), Unfit> {
    for thread in threads {
        if *thread >= recording.threads {
            let all = recording.threads;
            return Err(lacks(format!(in alloc;
                "--threads {thread}: not a thread of the schedule, which has {all}\n"
            )));
        }
    }
    Ok(())
}

/// Returns the numbers of the locks of these names.
fn locks_named(
    alloc: Global,
    recording: &Recording,
    names: &[String],
) -> Result<Vec<usize>, Unfit> {
    let mut locks = Vec::new(alloc);
    for name in names {
        let Some(lock) = lock_named(recording, name.as_str()) else {
            let name = name.as_str();
            return Err(lacks(format!(in alloc;
                "--locks {name}: not the name of a lock of the schedule\n"
            )));
        };
        if locks.push(lock).is_err() {
            return Err(Unfit::Failed(Failure::Undrawn));
        }
    }
    Ok(locks)
}

fn lock_named(recording: &Recording, name: &str) -> Option<usize> {
    recording
        .names
        .iter()
        .position(|other| other.text() == name.as_bytes())
}

/// Says why there is no picture, and gives the status.
fn complain<E: Write>(errors: &mut E, unfit: Unfit) -> u8
    ensures { result ≡ 2 → is_silent unfit ≡ true }
{
    match unfit {
        Unfit::Failed(failure) => report(errors, failure),
        Unfit::Lacks(said) => tell(errors, said.as_bytes(), MALFORMED),
    }
}

fn report<E: Write>(errors: &mut E, failure: Failure) -> u8
    ensures { result ≡ 2 → is_malformed failure ≡ true }
{
    let mut page = Page::new();
    let status = match failure {
        Failure::Malformed(number) => {
            print_malformed(&mut page, errors, number);
            MALFORMED
        }
        Failure::NoMemory(number) => {
            print_no_memory(&mut page, errors, number);
            NO_MEMORY
        }
        Failure::Unread => return tell(errors, b"the schedule can't be read\n", BROKEN),
        Failure::Undrawn => return tell(errors, b"no memory for the picture\n", NO_MEMORY),
        Failure::Unwritten => return tell(errors, b"the picture can't be written\n", BROKEN),
    };
    page.finish(errors);
    if page.is_lost() { BROKEN } else { status }
}

/// Writes a text, and gives the status, or where a write fails `BROKEN`.
fn tell<E: Write>(errors: &mut E, text: &[u8], status: u8) -> u8
    ensures { result ≢ 4 → result ≡ status }
{
    if send_all(errors, text) {
        status
    } else {
        BROKEN
    }
}
