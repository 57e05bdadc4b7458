//! The knowledge of a lot's seat. No value of it is made.
//!
//! A view has the list of its steps, its owners and its draws. The owners in all views are counted by
//! weights: `named place weight views` adds up any weight of owners, so that one equation serves every
//! sort of owner. The rule says that a word on which no thread has stepped is 0; a word comes from a
//! draw, or from a look at a condition variable that shows it.
ghost use Rattle.std.specs.Prelude.{ℕ, List};
ghost use Rattle.std.specs.Borrow.{ftrue};
ghost use Rattle.core_words.specs.declared.owners.Ownership.{Ownership};
ghost use Rattle.core_words.specs.declared.views.WordStep.{WordStep};
ghost use Rattle.core_words.specs.declared.views.Drawn.{Drawn};
ghost use Rattle.core_words.specs.declared.views.Counting.{Counting};
ghost use Rattle.core_words.specs.declared.views.Naming.{Naming};

use crate::words::WordKind;
use core_base::Op;
use std::marker::Model;

/// A step that a seat took: at which index, by which operation, and the value before.
pub struct WordStep {
    pub at: usize,
    pub op: Op,
    pub seen: u64,
}

/// A word that a seat drew.
pub struct Drawn {
    pub number: usize,
    pub kind: WordKind,
}

/// The numbers of threads that a seat has: none, that of one thread, or this one and all above it.
pub enum Naming {
    Nobody,
    Thread { number: usize },
    From { number: usize },
}

/// One of the times that a mutex is locked: at which index the count stands, and the number of the
/// thread that it names.
pub struct Counting {
    pub at: usize,
    pub thread: usize,
}

/// A seat's view: what the seat has done, what it owns, and what it saw.
pub struct View {
    // The steps of the seat, the first at the front.
    pub ghost steps: { List WordStep },
    pub ghost owns: { List Ownership },
    // The words that it drew, the last at the front.
    pub ghost drawn: { List Drawn },
    // The greatest count of drawn words that it saw.
    pub ghost saw: { ℕ },
    // The index of the mutex whose permit is out with it. It owns that mutex, and there is one at
    // most.
    pub ghost out: { List ℕ },
    // The numbers of threads that it has. No two views have one.
    pub ghost naming: { Naming },
    // The times that mutexes are locked of which it has the shares.
    pub ghost shares: { List Counting },
}

impl Model for View {
    ghost also_owns = { λ _. ftrue };
}
