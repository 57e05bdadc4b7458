//! The words and the queues of locks, and the numbers of variables, column by column.
ghost use Rattle.std.specs.Prelude.{◌≡◌, ◌<◌, ◌++◌, ◌∷◌, [], IfOk, length, map};
ghost use Rattle.lot_machine.specs.Machine.{word_at};
ghost use Rattle.lot_machine.specs.Views.{queue_of};

use core_base::{Queues, Waiter};
use lot_text::Name;
use lot_world::{Kind, World};
use std::alloc::{AllocError, Global};

/// A lock that lines name, with its word and its waiters after each column.
#[derive(Drop)]
pub struct LockRow {
    pub lock: usize,
    pub name: Name,
    pub kind: Kind,
    pub words: Vec<u64>,
    /// The main queue from the front, then the waiter aside.
    pub queues: Vec<Vec<Waiter>>,
}

/// A variable of a program, with its number after each column.
#[derive(Drop)]
pub struct VariableRow {
    pub name: Name,
    /// The thread whose own it is, or none where all threads share it.
    pub owner: Option<usize>,
    pub numbers: Vec<u32>,
}

impl LockRow {
    /// Returns the row of a lock that no line has named: in this many columns its word was what it is
    /// now, and nobody waited for it.
    pub fn new<Q: Queues + Drop>(
        alloc: Global,
        world: &World<Q>,
        lock: usize,
        name: Name,
        columns: usize,
    ) -> Result<LockRow, AllocError>
        requires { lock < length world.now.locks }
    {
        let mut queues = Vec::with_capacity(alloc, columns)?;
        for _ in 0..columns {
            queues.push(Vec::new(alloc))?;
        }
        Ok(LockRow {
            lock,
            name,
            kind: world.kind(lock),
            words: Vec::from_elem(alloc, world.word(lock), columns)?,
            queues,
        })
    }

    /// Adds the word and the waiters of the lock in this world.
    pub fn add<Q: Queues + Drop>(
        &mut self,
        alloc: Global,
        world: &World<Q>,
    ) -> Result<(), AllocError>
        ensures lock { self.new.lock ≡ self.old.lock }
    {
        self.add_word(world)?;
        self.add_queue(alloc, world)
    }

    /// Adds the word of the lock in this world, or 0 where the lock isn't there.
    fn add_word<Q: Queues + Drop>(&mut self, world: &World<Q>) -> Result<(), AllocError>
        ensures word { self.old.lock < length world.now.locks
            → IfOk result (λ _. self.new.words.items
            ≡ self.old.words.items ++ word_at world.now self.old.lock ∷ []) }
        ensures lock { self.new.lock ≡ self.old.lock }
    {
        let word = if self.lock < world.locks() {
            world.word(self.lock)
        } else {
            0
        };
        self.words.push(word)?;
        Ok(())
    }

    /// Adds the waiters of the lock in this world, or none where the lock isn't there.
    fn add_queue<Q: Queues + Drop>(
        &mut self,
        alloc: Global,
        world: &World<Q>,
    ) -> Result<(), AllocError>
        ensures queue { self.old.lock < length world.now.locks
            → IfOk result (λ _. map (λ queue. queue.items) self.new.queues.items
            ≡ map (λ queue. queue.items) self.old.queues.items
            ++ queue_of world.now self.old.lock ∷ []) }
        ensures lock { self.new.lock ≡ self.old.lock }
    {
        let queue = if self.lock < world.locks() {
            waiters_of(alloc, world, self.lock)?
        } else {
            Vec::new(alloc)
        };
        self.queues.push(queue)?;
        Ok(())
    }
}

/// Returns the waiters of a lock: its main queue from the front, then the waiter aside.
pub fn waiters_of<Q: Queues + Drop>(
    alloc: Global,
    world: &World<Q>,
    lock: usize,
) -> Result<Vec<Waiter>, AllocError>
    requires { lock < length world.now.locks }
    ensures { IfOk result (λ waiters. waiters.items ≡ queue_of world.now lock) }
{
    world.queue(lock).collect::<Vec<Waiter>>(alloc)
}
