//! What the simulator says of a run.

use core_base::ListQueues;
use lot_replay::state::State;
use lot_text::{LINE_LEN, Page};
use lot_world::{Kind, Owner, World};
use std::alloc::{AllocError, Global};

/// What a lock of the simulator came to.
pub(crate) struct LockEnd {
    /// The word of the lock in the lot.
    pub(crate) word: usize,
    /// The threads that have a right to it, each once.
    pub(crate) owners: Vec<usize>,
    /// The threads in its queue.
    pub(crate) waiters: Vec<usize>,
    pub(crate) is_condvar: bool,
}

// The drop is written, and not derived, so that it is proved here alone.
impl Drop for LockEnd {
    fn drop(self) {
        let LockEnd {
            word: _word,
            owners: _owners,
            waiters: _waiters,
            is_condvar: _is_condvar,
        } = self;
    }
}

// The number of a lock whose name is `w` with a number.
fn number_in(name: &[u8]) -> Option<usize> {
    let mut number = 0usize;
    for byte in name.iter().skip(1) {
        let digit = byte.wrapping_sub(b'0') as usize;
        number = number.checked_mul(10)?.checked_add(digit)?;
    }
    Some(number)
}

fn owners_of(
    alloc: Global,
    world: &World<ListQueues>,
    lock: usize,
) -> Result<Vec<usize>, AllocError> {
    let mut owners = Vec::new(alloc);
    if lock >= world.locks() {
        return Ok(owners);
    }
    for (sort, thread) in world.owners(lock) {
        if sort != Owner::Pending && !owners.contains(&thread) {
            owners.push(thread)?;
        }
    }
    Ok(owners)
}

fn waiters_of(
    alloc: Global,
    world: &World<ListQueues>,
    lock: usize,
) -> Result<Vec<usize>, AllocError> {
    let mut waiters = Vec::new(alloc);
    if lock >= world.locks() {
        return Ok(waiters);
    }
    for waiter in world.queue(lock) {
        waiters.push(waiter.thread)?;
    }
    Ok(waiters)
}

fn lock_ends(alloc: Global, state: &State<ListQueues>) -> Result<Option<Vec<LockEnd>>, AllocError> {
    let Some((world, names)) = state.scene() else {
        return Ok(None);
    };
    let mut ends = Vec::new(alloc);
    for (lock, name) in names.iter().enumerate() {
        let Some(word) = number_in(name.text()) else {
            return Ok(None);
        };
        ends.push(LockEnd {
            word,
            owners: owners_of(alloc, world, lock)?,
            waiters: waiters_of(alloc, world, lock)?,
            is_condvar: lock < world.locks() && world.kind(lock) == Kind::Condvar,
        })?;
    }
    Ok(Some(ends))
}

// Whether the simulator takes a line, and what it answers is no refusal.
fn takes(alloc: Global, state: &mut State<ListQueues>, line: &str) -> Result<bool, AllocError> {
    let mut page = Page::new();
    let mut answer = Vec::new(alloc);
    if line.len() > LINE_LEN
        || state
            .answer(alloc, &mut page, &mut answer, line.as_bytes())
            .is_err()
    {
        return Ok(false);
    }
    page.finish(&mut answer);
    Ok(!page.is_lost() && !answer.as_slice().ends_with(b" not now\n"))
}

/// Replays a schedule, and returns what the locks came to. None where the simulator refuses a line.
pub(crate) fn judge(alloc: Global, lines: &[String]) -> Result<Option<Vec<LockEnd>>, AllocError> {
    let mut state = State::new();
    for line in lines {
        if !takes(alloc, &mut state, line.as_str())? {
            return Ok(None);
        }
    }
    lock_ends(alloc, &state)
}
