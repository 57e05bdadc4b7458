//! What the program's arguments ask for.
use crate::programs::Version;
use clap::error::Error;
use clap::{Arg, ArgAction, ArgMatches, Command, value_parser};
use lock_explore::{Grain, Policy, Search};
use std::alloc::Global;
use std::time::Duration;

/// The programs that there are.
pub static PROGRAMS: [&str; 11] = [
    "forks", "queue", "readers", "lazy", "counter", "permits", "timed", "spin", "meeting", "calls",
    "sorts",
];

static POLICIES: [&str; 4] = ["random", "pct", "round", "all"];

static GRAINS: [&str; 2] = ["call", "step"];

/// The arguments that have no effect beside `--replay`.
static NOT_WITH_REPLAY: [&str; 8] = [
    "policy",
    "depth",
    "length",
    "preemptions",
    "seed",
    "runs",
    "go-on",
    "turns",
];

/// What is searched, and what is printed of it.
#[derive(Drop)]
pub struct Arguments<'a> {
    pub program: &'a str,
    pub version: Version,
    pub search: Search,
    /// The threads that have the turns of one run, as text.
    pub replay: Option<&'a str>,
    pub json: bool,
    /// The file that the schedule goes to, `-` for standard output.
    pub schedule: Option<&'a str>,
    /// The file that the picture goes to.
    pub picture: Option<&'a str>,
}

fn number<'a>(alloc: Global, name: &'a str, default: &'a str, help: &'a str) -> Arg<'a> {
    Arg::new(alloc, name)
        .long(name)
        .value_name("N")
        .value_parser(value_parser!(u64))
        .default_value(default)
        .help(help)
}

fn flag<'a>(alloc: Global, name: &'a str, help: &'a str) -> Arg<'a> {
    Arg::new(alloc, name)
        .long(name)
        .action(ArgAction::SetTrue)
        .help(help)
}

fn file<'a>(alloc: Global, name: &'a str, help: &'a str) -> Arg<'a> {
    Arg::new(alloc, name)
        .long(name)
        .value_name("FILE")
        .help(help)
}

fn command<'a>(alloc: Global) -> Result<Command<'a>, Error> {
    let command = Command::new(alloc, "explored")
        .version("1.0")
        .about("Runs a program of threads and locks by many schedules")
        .arg(
            Arg::new(alloc, "program")
                .value_name("PROGRAM")
                .value_parser(PROGRAMS.as_slice())
                .required(true)
                .help("The program"),
        )?
        .arg(flag(alloc, "cured", "Runs the program without its bug"))?
        .arg(flag(alloc, "go-on", "Goes on after a run that went wrong"))?
        .arg(flag(alloc, "json", "Prints one JSON object"))?
        .arg(file(
            alloc,
            "schedule",
            "Writes the run that went wrong as a schedule, - to standard output",
        ))?
        .arg(file(
            alloc,
            "draw",
            "Draws it: a page where the name ends in .html, else SVG",
        ))?;
    with_choices(alloc, command)
}

// Refuses an argument beside each of others.
fn without<'a>(arg: Arg<'a>, others: &'static [&'static str]) -> Result<Arg<'a>, Error> {
    let mut arg = arg;
    for other in others {
        arg = arg.conflicts_with(*other)?;
    }
    Ok(arg)
}

// The arguments that say how threads are chosen.
fn with_choices<'a>(alloc: Global, command: Command<'a>) -> Result<Command<'a>, Error> {
    let replay = Arg::new(alloc, "replay")
        .long("replay")
        .value_name("THREADS")
        .help("Runs one schedule: the threads that have the turns, as 0:3,1,0:2");
    let command = command
        .arg(
            Arg::new(alloc, "policy")
                .long("policy")
                .value_name("POLICY")
                .value_parser(POLICIES.as_slice())
                .default_value("random")
                .help("Chooses the next thread at random, by priorities, in turn, or in all ways"),
        )?
        .arg(
            Arg::new(alloc, "grain")
                .long("grain")
                .value_name("GRAIN")
                .value_parser(GRAINS.as_slice())
                .default_value("call")
                .help("Chooses before each call, or before each step"),
        )?
        .arg(without(replay, NOT_WITH_REPLAY.as_slice())?)?;
    with_numbers(alloc, command)
}

// The arguments that are numbers.
fn with_numbers<'a>(alloc: Global, command: Command<'a>) -> Result<Command<'a>, Error> {
    let length = "Of pct: the turns of a run; 0: of the longest so far";
    let preemptions = "Of all: interrupts threads at most N times a run";
    let command = command
        .arg(number(alloc, "depth", "3", "Of pct: lowers a priority N - 1 times"))?
        .arg(number(alloc, "length", "0", length))?
        .arg(number(alloc, "preemptions", "2", preemptions))?
        .arg(number(alloc, "seed", "0", "The seed of the first run"))?
        .arg(number(alloc, "runs", "1000", "Runs the program at most N times"))?
        .arg(number(alloc, "turns", "10000", "Ends a run after N turns"))?
        .arg(number(
            alloc,
            "patience",
            "10",
            "Ends a run that has stood still for N seconds",
        ))?;
    Ok(command)
}

fn number_in(matches: &ArgMatches<'_>, name: &str) -> u64 {
    matches.get_one::<u64>(name).unwrap_or(0)
}

fn policy_in(matches: &ArgMatches<'_>) -> Policy {
    match matches.get_str("policy").unwrap_or("") {
        "pct" => Policy::Priorities {
            depth: number_in(matches, "depth"),
        },
        "round" => Policy::RoundRobin { turns: 1 },
        "all" => Policy::Exhaustive {
            preemptions: number_in(matches, "preemptions"),
        },
        _ => Policy::Random,
    }
}

fn search_in(alloc: Global, matches: &ArgMatches<'_>) -> Result<Search, Error> {
    let mut search = Search::new(alloc);
    search.policy = policy_in(matches);
    search.grain = match matches.get_str("grain") {
        Some("step") => Grain::Step,
        _ => Grain::Call,
    };
    search.seed = number_in(matches, "seed");
    search.runs = number_in(matches, "runs");
    search.most_turns = number_in(matches, "turns");
    search.length = number_in(matches, "length");
    search.patience = Duration::from_secs(number_in(matches, "patience").max(1));
    search.goes_on = matches.get_flag("go-on");
    // One thread after the other makes one schedule alone.
    if let Policy::RoundRobin { .. } = search.policy {
        search.runs = search.runs.min(1);
    }
    Ok(search)
}

/// Returns what the arguments ask for.
///
/// # Errors
///
/// An argument that is unknown or malformed, a request for help, and where memory was refused.
pub fn arguments_from<'a>(alloc: Global, words: &'a [String]) -> Result<Arguments<'a>, Error> {
    let matches = command(alloc)?.try_get_matches_from(words)?;
    Ok(Arguments {
        program: matches.get_str("program").unwrap_or(""),
        version: if matches.get_flag("cured") {
            Version::Cured
        } else {
            Version::Wrong
        },
        search: search_in(alloc, &matches)?,
        replay: matches.get_str("replay"),
        json: matches.get_flag("json"),
        schedule: matches.get_str("schedule"),
        picture: matches.get_str("draw"),
    })
}
