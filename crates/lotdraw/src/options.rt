//! What the program's arguments ask for.
//!
//! An argument that names a line, a thread or a lock that isn't there is refused in status 2, with what
//! was expected. A `--to` before `--from` is refused too, and one past the last line is not.

use crate::values::{line_number, line_numbers, thread_numbers, width_in, words_in};
use clap::error::{Error, ErrorKind};
use clap::{Arg, ArgAction, ArgMatches, Command};
use lot_picture::Span;
use picture_layout::Length;
use std::alloc::{AllocError, Global};

/// In what form a picture is written.
#[derive(Clone, Copy, Debug, PartialEq, Eq)]
pub enum Form {
    Svg,
    /// A page with the picture, to be stepped through.
    Page,
}

/// What is drawn, and how.
#[derive(Drop)]
pub struct Options {
    pub form: Form,
    pub span: Span,
    /// The threads that are shown, where not all are.
    pub threads: Option<Vec<usize>>,
    /// The names of the locks that are shown, where not all are.
    pub locks: Option<Vec<String>>,
    pub title: Option<String>,
    /// The numbers of lines whose columns are framed.
    pub marks: Vec<u64>,
    pub width: Option<Length>,
}

/// Why nothing is drawn.
#[derive(Drop)]
pub enum Refused {
    /// Help was asked for, and this is it.
    Help(String),
    /// An argument is wrong, and this says why.
    Wrong(String),
    NoMemory,
}

impl From<AllocError> for Refused {
    fn from(_refused: AllocError) -> Refused {
        Refused::NoMemory
    }
}

/// Returns what the words of a command line ask for.
///
/// # Errors
///
/// Help, if it is asked for; else why an argument is wrong, or that there is no memory.
pub fn options_from(alloc: Global, words: &[String]) -> Result<Options, Refused> {
    match matches_from(alloc, words) {
        Ok(matches) => options_in(alloc, &matches),
        Err(error) => Err(refused_by(alloc, &error)),
    }
}

fn matches_from<'a>(alloc: Global, words: &'a [String]) -> Result<ArgMatches<'a>, Error> {
    command(alloc)?.try_get_matches_from(words)
}

fn refused_by(alloc: Global, error: &Error) -> Refused {
    if error.kind() == ErrorKind::OutOfMemory {
        return Refused::NoMemory;
    }
    match format!(in alloc; "{error}") {
        Ok(text) if error.exit_code() == 0 => Refused::Help(text),
        Ok(text) => Refused::Wrong(text),
        Err(_) => Refused::NoMemory,
    }
}

fn options_in(alloc: Global, matches: &ArgMatches<'_>) -> Result<Options, Refused> {
    let span = Span {
        from: line_number(alloc, matches, "from")?.unwrap_or(Span::ALL.from),
        to: line_number(alloc, matches, "to")?.unwrap_or(Span::ALL.to),
    };
    Ok(Options {
        form: if matches.get_flag("html") {
            Form::Page
        } else {
            Form::Svg
        },
        span,
        threads: thread_numbers(alloc, matches, "threads")?,
        locks: words_in(alloc, matches, "locks")?,
        title: match matches.get_str("title") {
            Some(title) => Some(String::from_str(alloc, title)?),
            None => None,
        },
        marks: line_numbers(alloc, matches, "mark")?,
        width: width_in(alloc, matches, "width")?,
    })
}

fn command<'a>(alloc: Global) -> Result<Command<'a>, Error> {
    let command = Command::new(alloc, "lotdraw")
        .about("Draws the schedule on standard input, as SVG on standard output")
        .arg(
            Arg::new(alloc, "html")
                .long("html")
                .action(ArgAction::SetTrue)
                .help("Writes a page with the picture, to be stepped through"),
        )?
        .arg(value(
            alloc,
            "from",
            "LINE",
            "Draws from this line that takes steps on",
        ))?
        .arg(value(alloc, "to", "LINE", "Draws up to this line"))?
        .arg(value(
            alloc,
            "threads",
            "LIST",
            "Draws these threads alone, as 0,2",
        ))?
        .arg(value(alloc, "locks", "LIST", "Draws these locks alone, as m,c"))?
        .arg(value(
            alloc,
            "title",
            "TEXT",
            "Gives the picture a title of its own",
        ))?
        .arg(value(
            alloc,
            "mark",
            "LIST",
            "Frames the columns of these lines, as 7,12",
        ))?
        .arg(value(
            alloc,
            "width",
            "LENGTH",
            "Makes the picture so wide, as 84mm, 17cm, 3.25in, 240pt or 600px",
        ))?;
    Ok(command)
}

fn value<'a>(alloc: Global, name: &'a str, what: &'a str, help: &'a str) -> Arg<'a> {
    Arg::new(alloc, name).long(name).value_name(what).help(help)
}
