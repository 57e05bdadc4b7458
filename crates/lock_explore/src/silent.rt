//! Threads that have made no call in a turn.
//!
//! No clause says that a thread asks for its turns. Where one doesn't, its calls are not directed, and a
//! search that finds nothing says nothing of them.

use core_director::{Deed, Director, Log, Status};
use std::alloc::{AllocError, Global};

// Whether a thread asks for such a turn itself. For the others its lot asks.
fn is_own(deed: Deed) -> bool {
    match deed {
        Deed::Call(_) | Deed::Look | Deed::Step | Deed::Draw => true,
        Deed::Begin
        | Deed::Enter
        | Deed::Wake
        | Deed::Nap
        | Deed::Late
        | Deed::LateAtOnce
        | Deed::End => false,
    }
}

fn made_a_call(log: &Log, thread: usize) -> bool {
    log.turns
        .iter()
        .any(|turn| turn.thread == thread && is_own(turn.deed))
}

/// Returns the threads of a run that came to their ends, and made no call in a turn.
pub(crate) fn silent_threads(alloc: Global, director: &Director) -> Result<Vec<usize>, AllocError> {
    let log = director.log()?;
    let members = director.members()?;
    let mut silent = Vec::new(alloc);
    for (thread, member) in members.iter().enumerate() {
        if member.status == Status::Gone && !made_a_call(&log, thread) {
            silent.push(thread)?;
        }
    }
    Ok(silent)
}
