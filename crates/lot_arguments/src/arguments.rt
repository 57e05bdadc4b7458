//! What the program's arguments ask for.
use clap::error::Error;
use clap::{Arg, ArgAction, ArgMatches, Command, value_parser};
use lot_findings::{GrainName, Scope, Start, Turns};
use lot_program::Deadlines;
use state_search::Limits;
use std::alloc::Global;

/// The version that `--version` prints.
const VERSION: &str = "1.0";

/// The most states where no argument says otherwise.
const MOST_STATES: &str = "2000000";

/// The most turns of a walk where no argument says otherwise.
pub const MOST_TURNS: u32 = 10000;

/// The words for each grain.
static GRAINS: [&str; 3] = ["call", "turns", "step"];

/// The arguments that have no effect beside `--all`, or none of its own.
static NOT_WITH_ALL: [&str; 4] = ["random", "settle", "step", "shrink"];

/// The arguments that have no effect beside `--shrink`, or none of its own.
static NOT_WITH_SHRINK: [&str; 2] = ["settle", "step"];

/// The arguments that have no effect beside `--unreached`, or none of its own.
static NOT_WITH_UNREACHED: [&str; 5] = ["random", "settle", "step", "split", "from"];

/// The arguments that have no effect beside `--random`, or none of its own.
static NOT_WITH_RANDOM: [&str; 8] = [
    "from",
    "settle",
    "step",
    "states",
    "bytes",
    "jobs",
    "progress",
    "json-lines",
];

/// The arguments that have no effect beside `--split`, or none of its own.
static NOT_WITH_SPLIT: [&str; 5] = ["random", "from", "settle", "step", "all"];

/// The arguments that have no effect beside `--settle`, or none of its own.
static NOT_WITH_SETTLE: [&str; 8] = [
    "step",
    "states",
    "bytes",
    "depth",
    "seconds",
    "jobs",
    "progress",
    "json-lines",
];

/// The arguments that have no effect beside `--step`, or none of its own.
static NOT_WITH_STEP: [&str; 3] = ["jobs", "json", "json-lines"];

/// In what form is printed what was found.
#[derive(Clone, Copy, Debug, PartialEq, Eq)]
pub enum Form {
    Words,
    Json,
    /// With an object for each second, too.
    JsonLines,
}

/// What is done.
#[derive(Clone, Copy, Drop)]
pub enum Job<'a> {
    Search(Arguments<'a>),
    /// A schedule is replayed in words: that of the file, if it is not on standard input.
    Explain { schedule: Option<&'a str> },
}

/// Which schedules are tried.
#[derive(Clone, Copy, Debug, PartialEq, Eq)]
pub enum Way {
    /// All, breadth first.
    All,
    /// Walks at random: how many, and from which seed on.
    Random { walks: u64, seed: u64 },
    /// One, in which threads in calls go on till none of them can.
    Settled,
    /// One, by orders.
    ByOrders,
}

/// By which grains a program is searched.
#[derive(Clone, Copy, Debug, PartialEq, Eq)]
pub enum Grains {
    /// By one.
    One,
    /// By calls, and where nothing is found by turns.
    CallsThenTurns,
    /// By turns, after calls have found nothing in so many states.
    TurnsAfterCalls(usize),
}

/// What is searched, and what is printed of it.
#[derive(Clone, Copy, Drop)]
pub struct Arguments<'a> {
    /// The file of the program, if it is not on standard input.
    pub program: Option<&'a str>,
    /// The file of the schedule that comes first.
    pub from: Option<&'a str>,
    pub way: Way,
    /// The part of the search that is asked for, as `2/8`.
    pub split: Option<&'a str>,
    pub limits: Limits,
    /// How many threads share a search; 0 are as many as there are processors.
    pub jobs: usize,
    pub depth: Option<u32>,
    pub seconds: Option<u64>,
    /// The turns of the search that is on.
    pub turns: Turns,
    pub grains: Grains,
    pub form: Form,
    /// Whether it goes on after a finding, without the line that is broken.
    pub goes_on: bool,
    /// Whether the program that goes wrong gets smaller.
    pub shrinks: bool,
    /// Whether lines that no schedule reaches are looked for, however many states there are.
    pub covers: bool,
    /// Whether standard error is told how far the search is.
    pub tells: bool,
    /// The file that the schedule alone goes to, `-` for standard output.
    pub schedule: Option<&'a str>,
    /// The file that its picture goes to, a column a turn.
    pub picture: Option<&'a str>,
    /// The file that its picture by single steps goes to.
    pub steps_picture: Option<&'a str>,
}

impl Arguments<'_> {
    /// Returns what is wrong with arguments that are fine one by one.
    pub fn fault(&self) -> Option<&'static str> {
        if self.schedule == Some("-") && self.form != Form::Words {
            return Some(
                "--schedule - prints the schedule alone: it goes with no --json or --json-lines",
            );
        }
        match (self.picture, self.steps_picture) {
            (Some(path), _) if !is_drawn(path) => {
                Some("--draw: expected a file whose name ends in .svg or .html")
            }
            (_, Some(path)) if !is_drawn(path) => {
                Some("--draw-steps: expected a file whose name ends in .svg or .html")
            }
            _ => None,
        }
    }

    /// Returns which schedules the search that is on tries, after some moves.
    pub fn scope(&self, first: &[usize]) -> Scope {
        Scope {
            grain: self.turns.grain,
            start: Start::of_moves(first),
            calls: match self.grains {
                Grains::TurnsAfterCalls(states) => Some(states),
                Grains::One | Grains::CallsThenTurns => None,
            },
        }
    }

    /// Returns what is asked for where calls have found nothing in so many states: a search by turns.
    pub fn after_calls(self, states: usize) -> Self {
        let turns = Turns {
            grain: GrainName::Turns,
            deadlines: self.turns.deadlines,
        };
        Arguments {
            turns,
            grains: Grains::TurnsAfterCalls(states),
            ..self
        }
    }
}

// Answers whether the name of a file ends as that of a picture does, or has no ending.
fn is_drawn(path: &str) -> bool {
    let name = match path.rsplit_once('/') {
        Some((_, name)) => name,
        None => path,
    };
    match name.rsplit_once('.') {
        Some((_, ending)) => ending == "svg" || ending == "html",
        None => true,
    }
}

/// Returns what the words of a command line ask for.
///
/// # Errors
///
/// Clap's, also where help is asked for.
pub fn job_from<'a>(alloc: Global, words: &'a [String]) -> Result<Job<'a>, Error> {
    let matches = command(alloc)?.try_get_matches_from(words)?;
    Ok(match matches.subcommand_matches("explain") {
        Some(explaining) => Job::Explain {
            schedule: explaining.get_str("schedule"),
        },
        None => Job::Search(arguments_in(&matches)),
    })
}

fn arguments_in<'a>(matches: &ArgMatches<'a>) -> Arguments<'a> {
    let (grain, grains) = grains_in(matches);
    Arguments {
        program: matches.get_str("program"),
        from: matches.get_str("from"),
        way: way_in(matches),
        split: matches.get_str("split"),
        limits: Limits {
            states: matches.get_one::<u32>("states").unwrap_or(0),
            bytes: matches.get_one::<u64>("bytes"),
        },
        jobs: matches.get_one::<u32>("jobs").unwrap_or(0) as usize,
        depth: matches.get_one::<u32>("depth"),
        seconds: matches.get_one::<u64>("seconds"),
        turns: Turns {
            grain,
            deadlines: if matches.get_flag("no-late") {
                Deadlines::Never
            } else {
                Deadlines::Pass
            },
        },
        grains,
        form: form_in(matches),
        goes_on: matches.get_flag("all"),
        shrinks: matches.get_flag("shrink"),
        covers: matches.get_flag("unreached"),
        tells: matches.get_flag("progress"),
        schedule: matches.get_str("schedule"),
        picture: matches.get_str("draw"),
        steps_picture: matches.get_str("draw-steps"),
    }
}

// Returns the grain of the first search, and whether another comes after it. Where no grain is asked for, a
// search of all schedules is by calls, which find most bugs soon and give a short story, and then by turns,
// which miss nothing. A walk by hand is by calls, and all else by turns.
fn grains_in(matches: &ArgMatches<'_>) -> (GrainName, Grains) {
    if let Some(grain) = GrainName::of_word(matches.get_str("grain").unwrap_or("")) {
        return (grain, Grains::One);
    }
    let has_part = matches.get_str("from").is_some() || matches.get_str("split").is_some();
    match way_in(matches) {
        Way::All if !has_part => (GrainName::Call, Grains::CallsThenTurns),
        Way::ByOrders | Way::Settled => (GrainName::Call, Grains::One),
        _ => (GrainName::Turns, Grains::One),
    }
}

fn way_in(matches: &ArgMatches<'_>) -> Way {
    if matches.get_flag("step") {
        return Way::ByOrders;
    }
    if matches.get_flag("settle") {
        return Way::Settled;
    }
    match matches.get_one::<u64>("random") {
        Some(walks) => Way::Random {
            walks,
            seed: matches.get_one::<u64>("seed").unwrap_or(0),
        },
        None => Way::All,
    }
}

fn form_in(matches: &ArgMatches<'_>) -> Form {
    if matches.get_flag("json-lines") {
        Form::JsonLines
    } else if matches.get_flag("json") {
        Form::Json
    } else {
        Form::Words
    }
}

fn command<'a>(alloc: Global) -> Result<Command<'a>, Error> {
    let command = Command::new(alloc, "lotexplore")
        .version(VERSION)
        .about("Searches all schedules of a program of lock calls")
        .args_conflicts_with_subcommands(true)
        .arg(
            Arg::new(alloc, "program").value_name("PROGRAM").help(
                "The file of the program, else it is read from standard input",
            ),
        )?
        .subcommand(explaining(alloc)?)?;
    let command = with_walks(alloc, with_limits(alloc, command)?)?;
    with_forms(alloc, with_ways(alloc, command)?)
}

// The command that replays a schedule in words.
fn explaining<'a>(alloc: Global) -> Result<Command<'a>, Error> {
    let command = Command::new(alloc, "explain")
        .about("Replays a schedule, and says of each line what it changed or why it was refused")
        .arg(
            Arg::new(alloc, "schedule").value_name("SCHEDULE").help(
                "The file of the schedule, else it is read from standard input",
            ),
        )?;
    Ok(command)
}

// The arguments that say how a search of all schedules goes.
fn with_ways<'a>(alloc: Global, command: Command<'a>) -> Result<Command<'a>, Error> {
    let shrink = flag(
        alloc,
        "shrink",
        "Leaves out threads and lines of the program that what was found doesn't need",
    );
    let all = flag(
        alloc,
        "all",
        "After a broken assertion or property, searches the program without that line",
    );
    let unreached = flag(
        alloc,
        "unreached",
        "Looks for lines that no schedule reaches, also after more than 300,000 states",
    );
    let command = command
        .arg(
            Arg::new(alloc, "grain")
                .long("grain")
                .value_name("GRAIN")
                .value_parser(GRAINS.as_slice())
                .help(
                    "Ends a turn with the call, or with what others can't see, or after each step",
                ),
        )?
        .arg(flag(alloc, "no-late", "Lets no timed sleep end by its deadline"))?
        .arg(without(all, NOT_WITH_ALL.as_slice())?)?
        .arg(without(shrink, NOT_WITH_SHRINK.as_slice())?)?
        .arg(without(unreached, NOT_WITH_UNREACHED.as_slice())?)?;
    Ok(command)
}

// The arguments that say which walks are taken in place of a search, and where it begins.
fn with_walks<'a>(alloc: Global, command: Command<'a>) -> Result<Command<'a>, Error> {
    let random = number(
        alloc,
        "random",
        "Takes N walks at random in place of a search",
    );
    let seed = number(
        alloc,
        "seed",
        "The seed of the first walk, 0 if nothing is said",
    );
    let settle = flag(
        alloc,
        "settle",
        "Lets threads in calls go on till none of them can, in place of a search",
    );
    let step = flag(alloc, "step", "Takes turns by orders, in place of a search");
    let split = Arg::new(alloc, "split")
        .long("split")
        .value_name("K/N")
        .help("Searches the K-th of N parts, which are parted by the first turns");
    let command = command
        .arg(without(random, NOT_WITH_RANDOM.as_slice())?)?
        .arg(seed.requires_arg("random")?)?
        .arg(file(
            alloc,
            "from",
            "Begins after the steps of a schedule, which is a file",
        ))?
        .arg(without(split, NOT_WITH_SPLIT.as_slice())?)?
        .arg(without(settle, NOT_WITH_SETTLE.as_slice())?)?
        .arg(without(step, NOT_WITH_STEP.as_slice())?.requires_arg("program")?)?;
    Ok(command)
}

// The arguments that say how much is tried.
fn with_limits<'a>(alloc: Global, command: Command<'a>) -> Result<Command<'a>, Error> {
    let jobs = Arg::new(alloc, "jobs")
        .long("jobs")
        .value_name("N")
        .value_parser(value_parser!(u32).range(1..))
        .help("Shares the search among threads for N processors, all of them if nothing is said");
    let command = command
        .arg(
            Arg::new(alloc, "states")
                .long("states")
                .value_name("N")
                .value_parser(value_parser!(u32))
                .default_value(MOST_STATES)
                .help("Keeps at most N states"),
        )?
        .arg(number(
            alloc,
            "bytes",
            "Keeps as many states as N bytes have room for",
        ))?
        .arg(
            Arg::new(alloc, "depth")
                .long("depth")
                .value_name("N")
                .value_parser(value_parser!(u32))
                .help("Searches up to N turns; a walk ends after N, 10,000 if nothing is said"),
        )?
        .arg(number(alloc, "seconds", "Ends after N seconds"))?
        .arg(jobs)?;
    Ok(command)
}

// The arguments that say what is printed.
fn with_forms<'a>(alloc: Global, command: Command<'a>) -> Result<Command<'a>, Error> {
    let json = flag(alloc, "json", "Prints one object in place of words");
    let json_lines = flag(
        alloc,
        "json-lines",
        "Prints an object for each second of the search, too",
    );
    let command = command
        .arg(json.conflicts_with("json-lines")?)?
        .arg(json_lines.conflicts_with("progress")?)?
        .arg(flag(
            alloc,
            "progress",
            "Tells each second on standard error: states, depth, states a second",
        ))?
        .arg(file(
            alloc,
            "schedule",
            "Writes the schedule alone into a file, - for standard output",
        ))?
        .arg(file(
            alloc,
            "draw",
            "Draws the turns into a file: a page if its name ends in .html, else SVG",
        ))?
        .arg(file(alloc, "draw-steps", "Draws each step of the schedule so"))?;
    Ok(command)
}

// Refuses an argument beside each of others.
fn without<'a>(arg: Arg<'a>, others: &'static [&'static str]) -> Result<Arg<'a>, Error> {
    let mut arg = arg;
    for other in others {
        arg = arg.conflicts_with(*other)?;
    }
    Ok(arg)
}

fn flag<'a>(alloc: Global, name: &'a str, help: &'a str) -> Arg<'a> {
    Arg::new(alloc, name)
        .long(name)
        .action(ArgAction::SetTrue)
        .help(help)
}

fn number<'a>(alloc: Global, name: &'a str, help: &'a str) -> Arg<'a> {
    Arg::new(alloc, name)
        .long(name)
        .value_name("N")
        .value_parser(value_parser!(u64))
        .help(help)
}

fn file<'a>(alloc: Global, name: &'a str, help: &'a str) -> Arg<'a> {
    Arg::new(alloc, name)
        .long(name)
        .value_name("FILE")
        .help(help)
}
