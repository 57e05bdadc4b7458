//! The steps of a reader-writer lock. The module `bits` says what the bits of its word mean.
ghost use Rattle.std.specs.Prelude.{ℕ, ◌≡◌, ◌<◌, ◌^◌};
ghost use Rattle.steps_base.specs.Acts.{outcome_of};
ghost use Rattle.spec_locks.specs.Codes as codes;
ghost use Rattle.steps_rwlock.specs.RwLockSteps.{wanted, goes, rwlock_act, rwlock_next};
ghost use Rattle.core_base.specs.Keys.{key_of};
ghost use Rattle.steps_rwlock.specs.RwLockProfiles.{rwlock_taker, rwlock_wants, rwlock_respin};
ghost use Rattle.steps_rwlock.specs.RwLockProfiles.{rwlock_late_line, rwlock_owes};

use crate::enter::{Decision, decided_act, looked, next_decided, next_first};
use crate::park::{ParkAt, next_park, park_act};
use crate::pend::{count_act, counted, next_count, rolled_back};
use crate::purposes::{RwLockPurpose, wanted};
use crate::release::{WakeAt, gave_way, next_wake, wake_act};
use core_base::{Keys, Line, Op, Want};
use spec_locks::{Access, Outcome, Patience};
use steps_base::bits::{has_aside, is_blocked};
use steps_base::{Act, Next, Reply};

pub const PARKED: u64 = 1;

pub const WRITER_PARKED: u64 = 2;

pub const UPGRADABLE: u64 = 4;

pub const WRITER: u64 = 8;

/// Each that shares counts so much.
pub const READER: u64 = 16;

/// All bits but `PARKED`.
pub const NOT_PARKED: u64 = 18446744073709551614;

/// All bits but `WRITER_PARKED`.
pub const NOT_WRITER_PARKED: u64 = 18446744073709551613;

/// The settings of a reader-writer lock.
#[derive(Clone, Copy, PartialEq, Eq)]
pub struct Admission {
    /// Whether readers may read again beside a waiting writer.
    pub recursive: bool,
    /// How many may share.
    pub limit: u64,
}

/// Where a thread stands in a call of a reader-writer lock.
#[derive(Clone, Copy, PartialEq, Eq)]
pub enum RwLockAt {
    /// Tries a word that is 0.
    First,
    Load,
    /// Decides by the value that it saw last.
    Decide(u64),
    /// On its way into the main queue, or out of it.
    Park(ParkAt),
    /// A pending writer that looks whether readers are left.
    Look,
    /// A pending writer that saw readers, and decides by that value.
    Count(u64),
    /// A pending writer that has set `WRITER_PARKED`, and sleeps unless the readers are gone.
    Marked,
    /// A pending writer on its way into the second queue, or out of it.
    Aside(ParkAt),
    /// A pending writer that gives up.
    RollBack,
    /// Gives its right up.
    GiveWay,
    /// On its way to wake others.
    Wake { line: Line, at: WakeAt },
}

/// Where a thread stands, and what its call remembers.
#[derive(Clone, Copy, PartialEq, Eq)]
pub struct RwLockPlace {
    pub purpose: RwLockPurpose,
    /// From a wake note on, until the thread stands in a queue again, owns, or its call ends.
    pub retries: bool,
    pub at: RwLockAt,
}

impl Admission {
    /// Returns whether a word keeps a thread out that wants this right.
    #[inline(always)]
    pub fn blocks(self, access: Access, word: u64) -> bool
        ensures { result ≡ codes.is_blocked self.recursive (wanted access) word }
    {
        is_blocked(self.recursive, wanted(access), word)
    }
}

impl RwLockPlace {
    /// Goes on in the same call.
    pub(super) fn goes(self, at: RwLockAt, retries: bool) -> Next<RwLockPlace>
        ensures { result ≡ goes self at retries }
    {
        Next::At(RwLockPlace {
            at,
            retries,
            ..self
        })
    }

    /// Returns the outcome that a thread is told when it comes here.
    pub fn outcome(self, admission: Admission) -> Outcome
        ensures { (l : ℕ) → result ≡ outcome_of (rwlock_act l admission self) }
    {
        match self.at {
            RwLockAt::Park(at) | RwLockAt::Aside(at) => at.outcome(),
            RwLockAt::Decide(seen) => match admission.decided(self.purpose, seen) {
                Decision::Refuse(answer) => Outcome::End(answer),
                _ => Outcome::Step,
            },
            _ => Outcome::Step,
        }
    }

    /// Returns the thread's next act.
    pub fn act(self, lock: usize, admission: Admission) -> Act
        requires { lock < 2 ^ 63 }
        ensures { result ≡ rwlock_act lock admission self }
    {
        let access = self.purpose.access();
        match self.at {
            RwLockAt::First => Act::Word {
                lock,
                op: Op::Exchange {
                    from: 0,
                    to: WRITER,
                },
            },
            RwLockAt::Load | RwLockAt::Look => Act::Word { lock, op: Op::Load },
            RwLockAt::Decide(seen) => {
                let purpose = self.purpose;
                decided_act(lock, admission.decided(purpose, seen), purpose, seen)
            }
            RwLockAt::Park(at) => park_act(lock, admission, access, Line::Main, at),
            RwLockAt::Count(seen) => count_act(lock, seen),
            RwLockAt::Marked => Act::Enter(Keys::One(Line::Second.key(lock))),
            RwLockAt::Aside(at) => park_act(lock, admission, access, Line::Second, at),
            RwLockAt::RollBack => Act::Word {
                lock,
                op: self.purpose.rollback_op(),
            },
            RwLockAt::GiveWay => Act::Word {
                lock,
                op: self.purpose.give_op(),
            },
            RwLockAt::Wake { line, at } => wake_act(lock, admission, self.purpose, line, at),
        }
    }

    /// Returns where the reply leads the thread.
    pub fn next(self, admission: Admission, reply: Reply) -> Next<RwLockPlace>
        ensures { result ≡ rwlock_next admission self reply }
    {
        match (self.at, reply) {
            (RwLockAt::First, Reply::Value(seen)) => next_first(self, seen),
            (RwLockAt::Load, Reply::Value(seen)) => looked(self, admission, seen),
            (RwLockAt::Decide(expected), reply) => next_decided(self, admission, expected, reply),
            (RwLockAt::Park(at), reply) => next_park(self, Line::Main, at, reply),
            (RwLockAt::Look, Reply::Value(seen)) => counted(self, seen),
            (RwLockAt::Count(expected), reply) => next_count(self, expected, reply),
            (RwLockAt::Marked, Reply::Done) => {
                self.goes(RwLockAt::Aside(ParkAt::Check), self.retries)
            }
            (RwLockAt::Aside(at), reply) => next_park(self, Line::Second, at, reply),
            (RwLockAt::RollBack, Reply::Value(seen)) => rolled_back(self, seen),
            (RwLockAt::GiveWay, Reply::Value(seen)) => gave_way(self, seen),
            (RwLockAt::Wake { line, at }, reply) => next_wake(self, line, at, reply),
            (at, _) => self.goes(at, self.retries),
        }
    }

    /// Returns the thread that took this one from a queue, and has not left its section yet.
    pub fn taker(self) -> Option<usize>
        ensures { result ≡ rwlock_taker self }
    {
        match self.at {
            RwLockAt::Park(ParkAt::Taken { by }) | RwLockAt::Aside(ParkAt::Taken { by }) => Some(
                by,
            ),
            _ => None,
        }
    }

    /// Returns what the thread wants, where it waits.
    pub fn wants(self) -> Option<Want>
        ensures { result ≡ rwlock_wants self }
    {
        match self.purpose {
            RwLockPurpose::Enter { .. } | RwLockPurpose::Upgrade(_) => {
                Some(wanted(self.purpose.access()))
            }
            RwLockPurpose::Release(_) | RwLockPurpose::Downgrade(_) => None,
        }
    }

    /// From where the thread looks at the word once more, in place of an act that leads to sleep.
    pub fn respins_from(self, admission: Admission) -> Option<RwLockPlace>
        ensures { result ≡ rwlock_respin admission self }
    {
        let at = match self.at {
            RwLockAt::Decide(seen)
                if admission.decided(self.purpose, seen) == Decision::Mark && !has_aside(seen) => {
                RwLockAt::Load
            }
            RwLockAt::Count(_) => RwLockAt::Look,
            _ => return None,
        };
        Some(RwLockPlace { at, ..self })
    }

    /// Returns the queue in which the thread sleeps, where it may give up.
    pub fn late_line(self) -> Option<Line>
        ensures { result ≡ rwlock_late_line self }
    {
        match (self.at, self.purpose.patience()) {
            (RwLockAt::Park(ParkAt::Asleep), Patience::Timed) => Some(Line::Main),
            (RwLockAt::Aside(ParkAt::Asleep), Patience::Timed) => Some(Line::Second),
            _ => None,
        }
    }

    /// Returns the queue on which the thread owes a wake.
    pub fn owes(self) -> Option<Line>
        ensures { result ≡ rwlock_owes self }
    {
        match self.at {
            RwLockAt::Park(at) if at.is_inside() => Some(Line::Main),
            RwLockAt::Aside(at) if at.is_inside() => Some(Line::Second),
            RwLockAt::Wake { line, .. } => Some(line),
            _ => None,
        }
    }
}
