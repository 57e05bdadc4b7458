//! What a search has found, as one JSON object on a line.
use lot_findings::{
    Finding, GrainName, Headline, Reading, Scope, Source, waitings, write_schedule,
};
use lot_story::{Coverage, Remarks, Telling, TurnTold};
use serde::Serialize;
use std::alloc::Global;
use std::io;
use std::io::{ErrorKind, Write};

/// What a search has found. What was not asked or is not known is `null`.
#[derive(Drop, Serialize)]
struct Report<'h, 'f, 's> {
    verdict: &'h str,
    grain: Option<&'h str>,
    /// Whether all states were searched.
    complete: bool,
    /// Why they were not.
    why: Option<&'h str>,
    states: Option<usize>,
    /// How many states a search by calls has seen before, where it found nothing.
    states_by_calls: Option<usize>,
    depth: Option<usize>,
    walks: Option<u64>,
    turns: Option<usize>,
    lap: Option<usize>,
    seed: Option<u64>,
    /// The line that is broken: of an assertion, a property or an ending.
    line: Option<u32>,
    /// The thread whose assertion fails, or whose call is refused.
    thread: Option<usize>,
    threads: Vec<ThreadReport<'f>>,
    variables: Vec<Reading<'f>>,
    /// A turn after another.
    story: Vec<TurnReport<'f>>,
    schedule: Vec<&'s str>,
    /// The lines of the program that it doesn't need, where they were left out.
    left_out: Vec<u32>,
    /// The program without them.
    program: Vec<&'s str>,
    looks: Vec<LookReport<'h>>,
    /// The lines that no schedule reaches.
    unreached: Option<Vec<u32>>,
    /// The threads that have a right at their end.
    kept: Option<Vec<KeptReport<'f>>>,
    /// What the threads are called, where they have names.
    names: Vec<String>,
}

/// A thread that has a right at its end, in some schedule.
#[derive(Drop, Serialize)]
struct KeptReport<'f> {
    thread: usize,
    has: Vec<&'f str>,
}

/// How far a look for a loop went that found none.
#[derive(Drop, Serialize)]
struct LookReport<'h> {
    line: u32,
    thread: usize,
    states: usize,
    grain: &'h str,
    /// Whether it saw all states.
    complete: bool,
    /// Why it did not.
    why: Option<&'h str>,
}

/// A turn.
#[derive(Drop, Serialize)]
struct TurnReport<'a> {
    thread: usize,
    line: u32,
    text: &'a str,
    /// What the thread does but go on: it looks once more, or its time is up.
    does: Option<&'a str>,
    /// What became of it: the answer of its call, whether its test holds, or how it goes on.
    end: Option<&'a str>,
    /// Why its call was refused.
    cause: Option<String>,
    /// What its test read.
    read: Vec<Reading<'a>>,
    /// What it wrote.
    written: Vec<Reading<'a>>,
    /// The lines that `show` prints of the locks that it changed.
    locks: Vec<String>,
}

/// A thread that is not through.
#[derive(Drop, Serialize)]
struct ThreadReport<'a> {
    thread: usize,
    line: u32,
    has: Vec<&'a str>,
    pending: Vec<&'a str>,
    waits_for: Option<&'a str>,
    holders: Vec<usize>,
}

/// Writes what the first line says, as one object on a line.
///
/// # Errors
///
/// The errors of the writer, and `OutOfMemory`.
pub fn write_headline<W: Write>(
    alloc: Global,
    out: &mut W,
    headline: &Headline<'_>,
) -> io::Result<()> {
    let report = report_of(alloc, headline);
    write_report(alloc, out, &report)
}

/// Writes what the first line says and the remarks after it, as one object on a line.
///
/// # Errors
///
/// The errors of the writer, and `OutOfMemory`.
pub fn write_remarked<'h, W: Write>(
    alloc: Global,
    out: &mut W,
    source: Source<'_>,
    headline: &Headline<'h>,
    remarks: &Remarks<'h>,
) -> io::Result<()> {
    let mut report = report_of(alloc, headline);
    for look in remarks.looks.iter() {
        let why = look.why(remarks.stopped);
        report.complete = report.complete && why.is_none();
        report.looks.push(LookReport {
            line: look.ending.line,
            thread: look.ending.thread,
            states: look.states,
            grain: GrainName::Step.word(),
            complete: why.is_none(),
            why,
        })?;
    }
    if let Coverage::Known { unreached, kept } = &remarks.coverage {
        report.unreached = Some(Vec::from_slice(alloc, unreached.as_slice())?);
        let mut threads = Vec::new(alloc);
        for kept in kept.iter() {
            threads.push(KeptReport {
                thread: kept.thread,
                has: names_of(alloc, source, kept.locks.as_slice())?,
            })?;
        }
        report.kept = Some(threads);
    }
    report.names = names_of_threads(alloc, source)?;
    write_report(alloc, out, &report)
}

/// Writes what was found, as one object on a line.
///
/// # Errors
///
/// The errors of the writer, and `OutOfMemory`.
pub fn write_json<W: Write>(
    alloc: Global,
    out: &mut W,
    headline: &Headline<'_>,
    finding: &Finding<'_>,
) -> io::Result<()> {
    let source = finding.source;
    let mut schedule = Vec::new(alloc);
    write_schedule(&mut schedule, source, finding.steps.as_slice())?;
    write_found(alloc, out, headline, finding, schedule.as_slice())
}

fn write_found<W: Write>(
    alloc: Global,
    out: &mut W,
    headline: &Headline<'_>,
    finding: &Finding<'_>,
    schedule: &[u8],
) -> io::Result<()> {
    let threads = threads_of(alloc, finding)?;
    let variables = variables_of(alloc, finding)?;
    let lines = lines_in(alloc, schedule)?;
    let mut report = report_of(alloc, headline);
    report.line = finding.broken_line();
    report.thread = finding.faulty_thread();
    report.story = story_of(alloc, finding)?;
    report.threads = threads;
    report.variables = variables;
    report.schedule = lines;
    report.names = names_of_threads(alloc, finding.source)?;
    report.left_out = Vec::from_slice(alloc, finding.source.left_out)?;
    if !finding.source.left_out.is_empty() {
        report.program = lines_in(alloc, finding.source.text.as_bytes())?;
    }
    write_report(alloc, out, &report)
}

fn write_report<W: Write>(
    alloc: Global,
    out: &mut W,
    report: &Report<'_, '_, '_>,
) -> io::Result<()> {
    match serde_json::to_string(alloc, report) {
        Ok(text) => writeln!(out, "{text}"),
        Err(_) => Err(io::Error::from(ErrorKind::OutOfMemory)),
    }
}

impl Report<'_, '_, '_> {
    fn put_scope(&mut self, scope: Scope) {
        self.grain = Some(scope.grain.word());
        self.states_by_calls = scope.calls;
    }
}

// Returns what the first line says.
fn report_of<'h, 'f, 's>(alloc: Global, headline: &Headline<'h>) -> Report<'h, 'f, 's> {
    let mut report = Report {
        verdict: "nothing",
        grain: None,
        complete: false,
        why: None,
        states: None,
        states_by_calls: None,
        depth: None,
        walks: None,
        turns: None,
        lap: None,
        seed: None,
        line: None,
        thread: None,
        threads: Vec::new(alloc),
        variables: Vec::new(alloc),
        story: Vec::new(alloc),
        schedule: Vec::new(alloc),
        left_out: Vec::new(alloc),
        program: Vec::new(alloc),
        looks: Vec::new(alloc),
        unreached: None,
        kept: None,
        names: Vec::new(alloc),
    };
    match *headline {
        Headline::Nothing { states, scope } => {
            report.complete = true;
            report.states = Some(states);
            report.put_scope(scope);
        }
        Headline::NotAll {
            states,
            depth,
            scope,
            why,
        } => {
            report.states = Some(states);
            report.depth = Some(depth);
            report.why = Some(why);
            report.put_scope(scope);
        }
        Headline::Walked {
            walks,
            turns,
            seed,
            grain,
        } => {
            report.walks = Some(walks);
            report.turns = Some(turns);
            report.seed = Some(seed);
            report.grain = Some(grain.word());
        }
        Headline::Wrong {
            word,
            turns,
            grain,
            seed,
        } => {
            report.verdict = word;
            report.turns = Some(turns);
            report.grain = Some(grain.word());
            report.seed = seed;
        }
        Headline::Endless { turns, lap, grain } => {
            report.verdict = "endless";
            report.turns = Some(turns);
            report.lap = Some(lap);
            report.grain = Some(grain.word());
        }
        Headline::NoSchedule { turns } => {
            report.verdict = "wrong";
            report.turns = Some(turns);
        }
        Headline::Rests { turns, grain } => {
            report.verdict = "rest";
            report.turns = Some(turns);
            report.grain = Some(grain.word());
        }
    }
    report
}

// Returns what the threads are called that have names.
fn names_of_threads(alloc: Global, source: Source<'_>) -> io::Result<Vec<String>> {
    let mut names = Vec::new(alloc);
    for thread in 0..source.parsed.threads.len() {
        names.push(format!(in alloc; "{}", source.thread_name(thread))?)?;
    }
    Ok(names)
}

fn threads_of<'a>(alloc: Global, finding: &Finding<'a>) -> io::Result<Vec<ThreadReport<'a>>> {
    let mut threads = Vec::new(alloc);
    for waiting in waitings(alloc, &finding.walk, &finding.world)? {
        let source = finding.source;
        let has = names_of(alloc, source, waiting.has.as_slice())?;
        let pending = names_of(alloc, source, waiting.pending.as_slice())?;
        threads.push(ThreadReport {
            thread: waiting.thread,
            line: waiting.line,
            has,
            pending,
            waits_for: waiting.waits_for.map(|lock| source.lock_name(lock)),
            holders: waiting.holders,
        })?;
    }
    Ok(threads)
}

// Returns the names of some locks.
fn names_of<'a>(alloc: Global, source: Source<'a>, locks: &[usize]) -> io::Result<Vec<&'a str>> {
    let mut names = Vec::new(alloc);
    for lock in locks {
        names.push(source.lock_name(*lock))?;
    }
    Ok(names)
}

fn variables_of<'a>(alloc: Global, finding: &Finding<'a>) -> io::Result<Vec<Reading<'a>>> {
    let mut variables = Vec::new(alloc);
    let numbers = finding.walk.scene().variables();
    for variable in 0..numbers.len() {
        variables.push(finding.source.reading(variable, numbers))?;
    }
    Ok(variables)
}

// Returns what is told of each turn.
fn story_of<'a>(alloc: Global, finding: &Finding<'a>) -> io::Result<Vec<TurnReport<'a>>> {
    let refused = |_| io::Error::from(ErrorKind::OutOfMemory);
    let mut telling = Telling::new(alloc, finding.source).map_err(refused)?;
    let mut story = Vec::new(alloc);
    for by in finding.walk.moves() {
        let told = telling.tell(alloc, *by).map_err(refused)?;
        story.push(turn_report(alloc, told)?)?;
    }
    Ok(story)
}

fn turn_report<'a>(alloc: Global, told: TurnTold<'a>) -> io::Result<TurnReport<'a>> {
    let cause = match told.cause {
        Some(cause) => Some(format!(in alloc; "{cause}")?),
        None => None,
    };
    let mut locks = Vec::new(alloc);
    for line in std::str::from_utf8(told.locks.as_slice())
        .unwrap_or("")
        .lines()
    {
        locks.push(String::from_str(alloc, line)?)?;
    }
    Ok(TurnReport {
        thread: told.thread,
        line: told.line,
        text: told.text,
        does: (!told.sort.is_empty()).then_some(told.sort),
        end: (!told.end.is_empty()).then_some(told.end),
        cause,
        read: told.read,
        written: told.written,
        locks,
    })
}

fn lines_in(alloc: Global, text: &[u8]) -> io::Result<Vec<&str>> {
    let mut lines = Vec::new(alloc);
    for line in std::str::from_utf8(text).unwrap_or("").lines() {
        lines.push(line)?;
    }
    Ok(lines)
}
