//! What a thread is to a lock, column by column.
//!
//! A thread has a lane for each lock that its lines name, since it may own one lock while it waits for
//! another. A notifier has one for the mutex, too, once it is inside the mutex's section.
ghost use Rattle.std.specs.Prelude.{◌≡◌, ◌<◌, ◌++◌, ◌∷◌, [], IfOk, length};
ghost use Rattle.lot_picture.specs.Cells.{cell_at};

use crate::cells::{Cell, cell_of};
use core_base::Queues;
use lot_world::{MOST_LOCKS, World};
use std::alloc::{AllocError, Global};

/// Tells what a thread is to a lock, after each column.
#[derive(Drop)]
pub struct Lane {
    pub thread: usize,
    pub lock: usize,
    /// What it is now, also where no column shows it.
    pub last: Cell,
    pub cells: Vec<Cell>,
}

impl Lane {
    /// Returns the lane of a thread that was nothing to a lock in this many columns.
    pub fn new(
        alloc: Global,
        thread: usize,
        lock: usize,
        columns: usize,
    ) -> Result<Lane, AllocError> {
        Ok(Lane {
            thread,
            lock,
            last: Cell::NOTHING,
            cells: Vec::from_elem(alloc, Cell::NOTHING, columns)?,
        })
    }

    /// Looks what the thread is to the lock in this world, and returns what it was before. A thread
    /// or a lock that isn't there is nothing to the other.
    pub fn look<Q: Queues + Drop>(&mut self, world: &World<Q>) -> Cell
        ensures before { result ≡ self.old.last }
        ensures cell { self.old.thread < length world.now.places
            → self.old.lock < length world.now.locks → self.old.lock < MOST_LOCKS
            → self.new.last ≡ cell_at world.now self.old.thread self.old.lock }
        ensures thread { self.new.thread ≡ self.old.thread }
        ensures lock { self.new.lock ≡ self.old.lock }
        ensures cells { self.new.cells ≡ self.old.cells }
    {
        let before = self.last;
        let (thread, lock) = (self.thread, self.lock);
        let is_there = thread < world.threads() && lock < world.locks() && lock < MOST_LOCKS;
        self.last = if is_there {
            cell_of(world, thread, lock)
        } else {
            Cell::NOTHING
        };
        before
    }

    /// Adds what the thread is to the lock in this world, in a column of its own.
    pub fn add<Q: Queues + Drop>(&mut self, world: &World<Q>) -> Result<Cell, AllocError>
        ensures cell { self.old.thread < length world.now.places
            → self.old.lock < length world.now.locks → self.old.lock < MOST_LOCKS
            → IfOk result (λ _. self.new.cells.items
            ≡ self.old.cells.items ++ cell_at world.now self.old.thread self.old.lock ∷ []) }
        ensures before { IfOk result (λ before. before ≡ self.old.last) }
        ensures thread { self.new.thread ≡ self.old.thread }
        ensures lock { self.new.lock ≡ self.old.lock }
    {
        let before = self.look(world);
        let now = self.last;
        self.cells.push(now)?;
        Ok(before)
    }
}
