//! Orders, each a line.
//!
//! Orders are lines of standard input, so that a list of orders is repeated by a file.
use core_base::ListQueues;
use lot_explore::Walk;
use lot_program_text::Shown;
use thiserror::Error;

/// The turn of a thread.
#[derive(Clone, Copy, Debug, PartialEq, Eq)]
pub enum TurnSort {
    /// The thread goes on.
    Go,
    /// The thread takes the other branch of its line.
    Or,
    /// The thread looks at the word once more.
    Look,
    /// The thread gives up a timed sleep.
    Late,
}

/// An order.
#[derive(Clone, Copy, Debug, PartialEq, Eq)]
pub enum Order {
    /// A thread takes a turn.
    Turn { thread: usize, sort: TurnSort },
    /// The last turns are taken back.
    Back { turns: usize },
    /// The locks and the variables are shown.
    Show,
    /// The user asks which thread has what, and waits for what.
    Waits,
    /// All schedules from here on are searched.
    Search,
    /// Threads in calls go on till none of them can.
    Settle,
    /// The schedule of the turns is printed.
    Schedule,
    Help,
    Quit,
    /// The line is empty.
    Nothing,
}

/// A line that is no order.
#[derive(Debug, Drop, Error)]
pub enum OrderError<'a> {
    #[error("`{word}`: an order: the number of a thread, or one of {ORDERS}")]
    Unknown { word: Shown<'a> },
    #[error("`{word}`, at its end: the number of a thread, as in `{word} 0`")]
    NoThread { word: Shown<'a> },
    #[error("`{word}`: the number of a thread, less than {threads}")]
    NotThread { word: Shown<'a>, threads: usize },
    #[error("`{word}`: how many turns, as in `back 2`")]
    NotTurns { word: Shown<'a> },
    #[error("`{word}`: nothing comes after this order")]
    More { word: Shown<'a> },
}

/// The orders but for a thread's number.
const ORDERS: &str = "or, look, late, back, show, waits, search, settle, schedule, help, quit";

/// What each order does, a line for each.
pub const HELP: &str = "\
N          thread N goes on
or N       thread N takes the other branch of its line
look N     thread N looks at the word once more
late N     thread N gives up its timed sleep
back [K]   takes the last K turns back, 1 if nothing is said
show       shows the locks and the variables
waits      tells which thread has what, and waits for what
search     searches all schedules from here on
settle     lets threads in calls go on till none of them can
schedule   prints the schedule up to here
quit       ends
";

impl TurnSort {
    /// Returns the number of a thread's move of this sort, or the greatest number, which is no move.
    pub fn number(self, thread: usize) -> usize {
        let sort = match self {
            TurnSort::Go => 0,
            TurnSort::Or | TurnSort::Look => 1,
            TurnSort::Late => 2,
        };
        thread.saturating_mul(3).saturating_add(sort)
    }

    /// Returns the sort of a move that comes next in a walk.
    pub fn of_move(walk: &Walk<'_, ListQueues>, by: usize) -> TurnSort {
        match by % 3 {
            0 => TurnSort::Go,
            1 if walk.scene().is_own(by / 3) => TurnSort::Or,
            1 => TurnSort::Look,
            _ => TurnSort::Late,
        }
    }

    /// Returns what comes before a thread's number in the order.
    pub fn word(self) -> &'static str {
        match self {
            TurnSort::Go => "",
            TurnSort::Or => "or ",
            TurnSort::Look => "look ",
            TurnSort::Late => "late ",
        }
    }
}

/// Returns the order of a line, for a program of so many threads.
///
/// # Errors
///
/// `OrderError`, which names the word and what was expected.
pub fn order_of(line: &str, threads: usize) -> Result<Order, OrderError<'_>> {
    let (word, rest) = match line.trim().split_once(' ') {
        Some((word, rest)) => (word, rest.trim()),
        None => (line.trim(), ""),
    };
    match word {
        "or" => turn_of(word, rest, threads, TurnSort::Or),
        "look" => turn_of(word, rest, threads, TurnSort::Look),
        "late" => turn_of(word, rest, threads, TurnSort::Late),
        "back" if rest.is_empty() => Ok(Order::Back { turns: 1 }),
        "back" => match rest.parse::<usize>() {
            Ok(turns) => Ok(Order::Back { turns }),
            Err(_) => Err(OrderError::NotTurns { word: Shown(rest) }),
        },
        _ if !rest.is_empty() => Err(OrderError::More { word: Shown(rest) }),
        _ => order_of_word(word, threads),
    }
}

fn order_of_word(word: &str, threads: usize) -> Result<Order, OrderError<'_>> {
    match word {
        "" => Ok(Order::Nothing),
        "show" => Ok(Order::Show),
        "waits" => Ok(Order::Waits),
        "search" => Ok(Order::Search),
        "settle" => Ok(Order::Settle),
        "schedule" => Ok(Order::Schedule),
        "help" => Ok(Order::Help),
        "quit" => Ok(Order::Quit),
        _ => match word.parse::<usize>() {
            Ok(_) => turn_of("", word, threads, TurnSort::Go),
            Err(_) => Err(OrderError::Unknown { word: Shown(word) }),
        },
    }
}

fn turn_of<'a>(
    order: &'a str,
    number: &'a str,
    threads: usize,
    sort: TurnSort,
) -> Result<Order, OrderError<'a>> {
    if number.is_empty() {
        return Err(OrderError::NoThread { word: Shown(order) });
    }
    match number.parse::<usize>() {
        Ok(thread) if thread < threads => Ok(Order::Turn { thread, sort }),
        _ => Err(OrderError::NotThread {
            word: Shown(number),
            threads,
        }),
    }
}
