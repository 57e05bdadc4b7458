//! The threads that step in the lot.
ghost use Rattle.std.specs.Prelude.{◌≡◌, ◌==◌, not, None};

use crate::expected::Expected;
use crate::step_counts::StepCount;
use crate::tellings::Tellings;
use core_base::{Key, Requeue, Want};
use core_names::Name;
use core_words::Seat;
use crossbeam_utils::sync::Parker;
use std::marker::PhantomData;

/// The waiters that a section took or moved.
#[derive(Clone, Copy, Debug, PartialEq, Eq)]
pub enum Did {
    Nothing,
    TakeFirst(Key),
    TakeAll(Key),
    /// The waiters that are picked of a reader-writer lock's queue by a thread that keeps this
    /// right of its own.
    TakePicked {
        key: Key,
        start: Option<Want>,
        recursive: bool,
    },
    Requeue {
        from: Key,
        to: Key,
        op: Requeue,
    },
}

/// The record of a section that a thread has left.
#[derive(Clone, Copy, Debug, PartialEq, Eq)]
pub struct SectionRecord {
    /// The section's key, of two keys the first.
    pub key: Key,
    pub did: Did,
    /// How many threads it took or moved.
    pub number: usize,
}

const NOTHING: SectionRecord = SectionRecord {
    key: 0,
    did: Did::Nothing,
    number: 0,
};

/// The place of a thread in a lot. It may go to another thread.
pub struct Ticket {
    pub(crate) seat: Seat,
    pub(crate) name: Name,
    pub(crate) number: usize,
    // Whether a director says when its thread runs.
    pub(crate) directed: bool,
    pub(crate) parker: Parker,
}

// The drop is written, and not derived, so that it is proved here and not in each program.
impl Drop for Ticket {
    fn drop(self) {
        let Ticket {
            seat: _seat,
            name: _name,
            number: _number,
            directed: _directed,
            parker: _parker,
        } = self;
    }
}

/// A thread in the lot. It stays in its thread, and goes with each call that steps.
pub struct Token {
    pub(crate) seat: Seat,
    // By it the thread finds the mutexes that it has counted.
    pub(crate) name: Name,
    pub(crate) number: usize,
    pub(crate) parker: Parker,
    // The record of the section that it left last, if it has taken no step since.
    pub(crate) record: SectionRecord,
    pub(crate) expected: Expected,
    // What its sections and sleeps told it.
    pub(crate) told: Tellings,
    here: PhantomData<*const ()>,
}

// The drop is written, and not derived, so that it is proved here and not in each program.
impl Drop for Token {
    fn drop(self) {
        let Token {
            seat: _seat,
            name: _name,
            number: _number,
            parker: _parker,
            record: _record,
            expected: _expected,
            told: _told,
            here: _here,
        } = self;
    }
}

impl Ticket {
    pub(crate) fn new(
        seat: Seat,
        name: Name,
        number: usize,
        directed: bool,
        parker: Parker,
    ) -> Ticket
        ensures { (result.seat ≡ seat) × (result.name ≡ name) × (result.number ≡ number) }
    {
        Ticket {
            seat,
            name,
            number,
            directed,
            parker,
        }
    }

    /// The thread goes into the lot.
    pub fn enter(self) -> Token
        ensures { (result.seat ≡ self.seat) × (result.number ≡ self.number)
            × (result.name ≡ self.name) }
    {
        let Ticket {
            seat,
            name,
            number,
            directed,
            parker,
        } = self;
        Token {
            seat,
            name,
            number,
            parker,
            record: NOTHING,
            expected: Expected::at_rest(directed),
            told: Tellings::new(),
            here: PhantomData,
        }
    }
}

impl Token {
    ghost use Rattle.parking_lot_core.specs.Tokens.{count_of, last_of, told_of};

    /// Takes the thread out of the lot. All that it owns stays with its ticket.
    pub fn leave(self) -> Ticket
        ensures { (result.seat ≡ self.seat) × (result.number ≡ self.number)
            × (result.name ≡ self.name) }
    {
        let Token {
            seat,
            name,
            number,
            parker,
            record: _,
            expected,
            told: _,
            here: _,
        } = self;
        Ticket {
            seat,
            name,
            number,
            directed: expected.directed,
            parker,
        }
    }

    /// Returns the thread's number in the lot, from 0.
    #[inline]
    pub fn number(&self) -> usize
        ensures { result ≡ self.now.number }
    {
        self.number
    }

    /// Counts the steps on words that the thread has taken, for proofs alone.
    #[inline]
    pub(crate) fn step_count(&self) -> StepCount
        ensures { result ≡ count_of self.now }
    {
        StepCount {}
    }

    // Whether the thread has nothing to do before it steps.
    #[inline]
    pub(crate) fn is_armed(&self) -> bool
        ensures { result ≡ (self.now.expected.unlocked == 0) }
    {
        self.expected.unlocked == 0
    }

    #[inline]
    pub(crate) fn is_recorded(&self) -> bool
        ensures { result ≡ self.now.expected.recorded }
    {
        self.expected.recorded
    }

    // Forgets the last section. It writes only where one is told: a locked instruction waits until
    // every write before it is done.
    #[inline]
    pub(crate) fn forget(&mut self)
        ensures same { (self.new.seat ≡ self.old.seat) × (self.new.name ≡ self.old.name)
            × (self.new.number ≡ self.old.number) }
        ensures forgotten { last_of self.new ≡ None }
        ensures untold { told_of self.new ≡ told_of self.old }
    {
        if !self.is_armed() {
            self.clear_record();
        }
    }

    // Out of the way, so that a step which has nothing to forget takes no jump.
    #[cold]
    #[inline(never)]
    pub(crate) fn clear_record(&mut self)
        ensures same { (self.new.seat ≡ self.old.seat) × (self.new.name ≡ self.old.name)
            × (self.new.number ≡ self.old.number) }
        ensures forgotten { last_of self.new ≡ None }
        ensures untold { told_of self.new ≡ told_of self.old }
    {
        self.expected = Expected::at_rest(self.expected.directed);
    }

    // Clears the record. Returns whether the thread may step then: a directed one waits for its turn
    // first.
    #[cold]
    #[inline(never)]
    pub(crate) fn may_step(&mut self) -> bool
        ensures same { (self.new.seat ≡ self.old.seat) × (self.new.name ≡ self.old.name)
            × (self.new.number ≡ self.old.number) }
        ensures forgotten { last_of self.new ≡ None }
        ensures untold { told_of self.new ≡ told_of self.old }
    {
        self.expected = Expected::at_rest(self.expected.directed);
        !self.expected.directed
    }

    /// Returns the record of the section that the thread left last. None once it has stepped on a
    /// word since.
    #[inline]
    pub fn last_section(&self) -> Option<SectionRecord>
        ensures { result ≡ last_of self.now }
    {
        if self.is_recorded() {
            Some(self.record)
        } else {
            None
        }
    }
}
