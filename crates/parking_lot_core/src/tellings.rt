//! The tellings of a thread: what its acts on the queues found there, in their order. They have no
//! bytes.
//!
//! `tell` and `pass_on` add to the list, by proofs written by hand, and each public call that uses them
//! says in its clause what the queues have, too. A reading is told by `tell_count`, so that `count`
//! needs no section that may change.
ghost use Rattle.std.specs.Borrow.{ftrue};
ghost use Rattle.std.specs.Prelude.{◌≡◌, ◌++◌, ◌∷◌, [], List, length};
ghost use Rattle.parking_lot_core.specs.declared.tellings.Telling.{Telling};
ghost use Rattle.parking_lot_core.specs.declared.tellings.Telling.TheVariants.{Took};

use crate::step_counts::StepCount;
use crate::tokens::Did;
use core_base::{Key, Keys, Note, Want};
use core_queues::SectionQueues;
use std::marker::Model;

/// An act of a thread on the queues, with what it found or did there; a visit of a section; or a sleep.
#[derive(Drop)]
pub enum Telling {
    /// The thread stood after the last under the key.
    Stood {
        key: Key,
        thread: usize,
        want: Want,
    },
    /// A section took so many waiters, and moved so many.
    Took {
        did: Did,
        taken: usize,
        moved: usize,
    },
    /// How many stood under the key.
    Counted {
        key: Key,
        number: usize,
    },
    /// The thread left the queue where it stood.
    Left {
        thread: usize,
    },
    /// The thread was inside the section of these keys, and had taken `from` steps on words as it entered
    /// and `to` as it left. What the section told stands before. The waiters that it took got this note.
    Visited {
        keys: Keys,
        from: StepCount,
        to: StepCount,
        note: Note,
    },
    /// The thread slept, after so many steps on words, and its sleep ended.
    Slept {
        after: StepCount,
    },
}

/// The tellings of a thread, or of a section that it is inside. Nothing else than sections and
/// sleeps adds to them.
pub struct Tellings {
    pub ghost list: { List Telling },
}

impl Model for Tellings {
    ghost also_owns = { λ _. ftrue };
}

// The drop is written, and not derived, so that it is proved here and not in each program.
impl Drop for Tellings {
    fn drop(self) {
        let Self {} = self;
    }
}

impl Telling {
    /// Adds it to others.
    #[inline]
    pub(crate) fn tell(&self, told: &mut Tellings)
        ensures { told.new.list ≡ told.old.list ++ self.now ∷ [] }
    {}
}

impl Tellings {
    /// Nothing was told yet.
    #[inline]
    pub(crate) fn new() -> Tellings
        ensures { result.list ≡ [] }
    {
        Tellings {}
    }

    /// Adds all of them to others.
    #[inline]
    pub(crate) fn pass_on(&self, told: &mut Tellings)
        ensures { told.new.list ≡ told.old.list ++ self.now.list }
    {}
}

/// Tells what a section did by its first bucket.
#[inline]
pub(crate) fn tell_taken(
    section_queues: &SectionQueues,
    did: Did,
    moved: usize,
    told: &mut Tellings,
)
    ensures { told.new.list
        ≡ told.old.list ++ Took did (length section_queues.now.taken.items) moved ∷ [] }
{
    let telling = Telling::Took {
        did,
        taken: section_queues.taken().len(),
        moved,
    };
    telling.tell(told);
}
