//! A run as a schedule of the simulator.

use crate::failure::Failure;
use core_director::{CallName, Deed, Grain, Log, Sort, Turn};
use std::alloc::{AllocError, Global};

// The sort of a word: as it was declared last.
fn sort_of(log: &Log, number: usize) -> Option<Sort> {
    let mut sort = None;
    for word in &log.words {
        if word.number == number {
            sort = Some(word.sort);
        }
    }
    sort
}

// The readers of a lock without a limit of its own.
const MOST_READERS: u64 = 1152921504606846974;

// What a schedule declares a lock to be, if it can.
fn sort_name(alloc: Global, sort: Sort) -> Result<Option<String>, AllocError> {
    let name = match sort {
        Sort::Mutex => "mutex",
        Sort::FairMutex => "fair",
        Sort::Condvar => "condvar",
        Sort::Once => "once",
        Sort::Semaphore { permits } => return Ok(Some(format!(in alloc; "semaphore {permits}")?)),
        Sort::RwLock { recursive, readers } => {
            let name = if recursive { "recursive" } else { "rwlock" };
            match readers {
                Some(limit) if limit != MOST_READERS => {
                    return Ok(Some(format!(in alloc; "{name} {limit}")?));
                }
                _ => name,
            }
        }
        Sort::Count | Sort::DoneOnce => return Ok(None),
    };
    Ok(Some(String::from_str(alloc, name)?))
}

// Adds the lines of a turn.
fn add_turn(alloc: Global, lines: &mut Vec<String>, turn: Turn) -> Result<(), AllocError> {
    let Turn {
        thread,
        deed,
        word,
        beside,
    } = turn;
    let name = match deed {
        Deed::Call(call) => call.as_str(),
        _ => "",
    };
    match deed {
        Deed::Call(CallName::Ok | CallName::Err) => {
            lines.push(format!(in alloc; "{thread} {name}")?)?;
        }
        Deed::Call(CallName::OkWaking | CallName::ErrWaking) => {
            lines.push(format!(in alloc; "{thread} {name}")?)?;
            lines.push(format!(in alloc; "{thread} solo")?)?;
        }
        Deed::Call(_) if beside != word => {
            lines.push(format!(in alloc; "{thread} do {name} w{word} w{beside}")?)?;
        }
        Deed::Call(_) => lines.push(format!(in alloc; "{thread} do {name} w{word}")?)?,
        Deed::Wake => lines.push(format!(in alloc; "{thread} solo")?)?,
        Deed::Late | Deed::LateAtOnce => {
            lines.push(format!(in alloc; "{thread} late")?)?;
            lines.push(format!(in alloc; "{thread} solo")?)?;
        }
        Deed::Begin | Deed::Look | Deed::Step | Deed::Draw | Deed::Enter | Deed::Nap | Deed::End =>
            {}
    }
    Ok(())
}

// The last declaration of each word, in order. None where a schedule has no such lock. The count of a
// reentrant mutex is left out.
fn declarations(alloc: Global, log: &Log) -> Result<Option<Vec<String>>, AllocError> {
    let mut lines = Vec::new(alloc);
    let mut before = None;
    for word in &log.words {
        if before == Some(word.number) {
            continue;
        }
        before = Some(word.number);
        let sort = sort_of(log, word.number).unwrap_or(word.sort);
        if sort == Sort::DoneOnce {
            return Ok(None);
        }
        if let Some(name) = sort_name(alloc, sort)? {
            lines.push(format!(in alloc; "lock w{} {name}", word.number)?)?;
        }
    }
    Ok(Some(lines))
}

/// Returns the lines of a schedule, up to where the run ended.
pub(crate) fn schedule_lines(
    alloc: Global,
    failure: &Failure,
) -> Result<Option<Vec<String>>, AllocError> {
    if failure.course.grain != Grain::Call {
        return Ok(None);
    }
    let Some(declared) = declarations(alloc, &failure.log)? else {
        return Ok(None);
    };
    let mut lines = Vec::new(alloc);
    lines.push(format!(in alloc; "threads {}", failure.members.len())?)?;
    for line in declared {
        lines.push(line)?;
    }
    let mut before = None;
    for turn in &failure.log.turns {
        // A thread that was moved to the queue of its mutex gives up there at once: that is one line.
        let gives_up_again = turn.deed == Deed::LateAtOnce && before == Some(Deed::Late);
        if !gives_up_again {
            add_turn(alloc, &mut lines, *turn)?;
        }
        before = Some(turn.deed);
    }
    lines.push(String::from_str(alloc, "show")?)?;
    Ok(Some(lines))
}
