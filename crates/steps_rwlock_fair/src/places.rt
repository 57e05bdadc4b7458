//! Where a thread stands in any call of a reader-writer lock.
//!
//! A bump looks whether anybody waits, releases its right fairly where somebody does, and enters
//! again.
ghost use Rattle.std.specs.Prelude.{ℕ, ◌≡◌, ◌<◌, ◌^◌};
ghost use Rattle.steps_base.specs.Acts.{outcome_of};
ghost use Rattle.steps_rwlock_fair.specs.FairSteps.{entering, enters_again, call_act, call_next, gives_way};
ghost use Rattle.steps_rwlock_fair.specs.FairSteps.{gives_up_at, glance_next, given, plain_next, bump_next};
ghost use Rattle.steps_rwlock_fair.specs.FairSteps.{call_owners, call_shares};
ghost use Rattle.steps_rwlock_fair.specs.FairProfiles.{call_taker, call_wants, call_respin, call_late_line};
ghost use Rattle.steps_rwlock_fair.specs.FairProfiles.{call_owes, call_retries};

use crate::hand_over::{HandOverAt, hand_over_act, hand_over_next};
use crate::handed::{HandedAt, handed_act, handed_next, handed_woken};
use core_base::{Line, Note, Op, Want};
use spec_locks::{Access, Answer, Outcome, Patience};
use steps_base::bits::{count_in, has_parked, has_writer};
use steps_base::{Act, Next, Owners, Reply};
use steps_rwlock::park::ParkAt;
use steps_rwlock::purposes::wanted;
use steps_rwlock::{Admission, RwLockAt, RwLockPlace, RwLockPurpose};

#[derive(Clone, Copy, PartialEq, Eq)]
pub enum RwLockCallPlace {
    /// In a call that neither hands the lock over nor bumps.
    Plain(RwLockPlace),
    /// A bump looks whether anybody waits for its right.
    PeekQueue(Access),
    /// An owner gives its right up, and hands the lock over.
    HandOver {
        access: Access,
        bumps: bool,
        at: HandOverAt,
    },
    /// A bump releases a shared right, or it has released and enters again.
    Bump(RwLockPlace),
    /// Was handed the lock in a call that enters.
    Handed {
        access: Access,
        patience: Patience,
        bumps: bool,
        at: HandedAt,
    },
}

/// Returns where a thread stands in a call that enters.
pub(super) fn entering(bumps: bool, place: RwLockPlace) -> RwLockCallPlace
    ensures { result ≡ entering bumps place }
{
    if bumps {
        RwLockCallPlace::Bump(place)
    } else {
        RwLockCallPlace::Plain(place)
    }
}

/// Returns where a bump enters again.
pub(super) fn enters_again(access: Access) -> RwLockCallPlace
    ensures { result ≡ enters_again access }
{
    RwLockCallPlace::Bump(RwLockPlace::first(RwLockPurpose::Enter {
        access,
        patience: Patience::Patient,
    }))
}

/// Returns where a thread of the main queue goes that was handed the lock.
fn given(bumps: bool, place: RwLockPlace, reply: Reply) -> Option<RwLockCallPlace>
    ensures { result ≡ given bumps place reply }
{
    let RwLockPurpose::Enter { access, patience } = place.purpose else {
        return None;
    };
    match (reply, place.at) {
        (Reply::HandedBy { by, alone }, RwLockAt::Park(ParkAt::Taken { .. })) => {
            Some(RwLockCallPlace::Handed {
                access,
                patience,
                bumps,
                at: HandedAt::Asleep { by, alone },
            })
        }
        (Reply::Woken(Note::HandOff), RwLockAt::Park(ParkAt::Asleep)) => {
            Some(handed_woken(access, patience, bumps, false))
        }
        _ => None,
    }
}

fn plain_next(next: Next<RwLockPlace>) -> Next<RwLockCallPlace>
    ensures { result ≡ plain_next next }
{
    match next {
        Next::At(place) => Next::At(RwLockCallPlace::Plain(place)),
        Next::End(answer) => Next::End(answer),
    }
}

/// A bump that has released enters again.
fn bump_next(purpose: RwLockPurpose, next: Next<RwLockPlace>) -> Next<RwLockCallPlace>
    ensures { result ≡ bump_next purpose next }
{
    match (next, purpose) {
        (Next::At(place), _) => Next::At(RwLockCallPlace::Bump(place)),
        (Next::End(_), RwLockPurpose::Release(access)) => Next::At(enters_again(access)),
        (Next::End(answer), _) => Next::End(answer),
    }
}

/// Returns whether a bump gives its right up that saw this: where that may let somebody in.
fn gives_way(admission: Admission, access: Access, seen: u64) -> bool
    ensures { result ≡ gives_way admission access seen }
{
    match access {
        Access::Shared => has_writer(seen) && (!admission.recursive || count_in(seen) == 1),
        _ => has_parked(seen),
    }
}

/// Returns where a bump gives its right up.
fn gives_up_at(access: Access) -> RwLockCallPlace
    ensures { result ≡ gives_up_at access }
{
    let hands_over = |at: HandOverAt| RwLockCallPlace::HandOver {
        access,
        bumps: true,
        at,
    };
    match access {
        Access::Shared => RwLockCallPlace::Bump(RwLockPlace::first(RwLockPurpose::Release(access))),
        Access::Upgradable => hands_over(HandOverAt::Load),
        Access::Exclusive => hands_over(HandOverAt::Enter),
    }
}

fn glance_next(admission: Admission, access: Access, seen: u64) -> Next<RwLockCallPlace>
    ensures { result ≡ glance_next admission access seen }
{
    if gives_way(admission, access, seen) {
        Next::At(gives_up_at(access))
    } else {
        Next::End(Answer::Ok)
    }
}

impl RwLockCallPlace {
    /// Returns the thread's next act.
    pub fn act(self, lock: usize, admission: Admission) -> Act
        requires { lock < 2 ^ 63 }
        ensures { result ≡ call_act lock admission self }
    {
        match self {
            RwLockCallPlace::Plain(place) | RwLockCallPlace::Bump(place) => {
                place.act(lock, admission)
            }
            RwLockCallPlace::PeekQueue(_) => Act::Word { lock, op: Op::Load },
            RwLockCallPlace::HandOver { access, at, .. } => {
                hand_over_act(lock, admission, access, at)
            }
            RwLockCallPlace::Handed { access, at, .. } => handed_act(lock, access, at),
        }
    }

    /// Returns the outcome that a thread is told when it comes here.
    pub fn outcome(self, admission: Admission) -> Outcome
        ensures { (l : ℕ) → result ≡ outcome_of (call_act l admission self) }
    {
        match self {
            RwLockCallPlace::Plain(place) | RwLockCallPlace::Bump(place) => {
                place.outcome(admission)
            }
            RwLockCallPlace::Handed {
                at: HandedAt::Asleep { .. },
                ..
            } => Outcome::Sleep,
            _ => Outcome::Step,
        }
    }

    /// Returns where the reply leads the thread.
    pub fn next(self, admission: Admission, reply: Reply) -> Next<RwLockCallPlace>
        ensures { result ≡ call_next admission self reply }
    {
        match self {
            RwLockCallPlace::Plain(place) => match given(false, place, reply) {
                Some(handed) => Next::At(handed),
                None => plain_next(place.next(admission, reply)),
            },
            RwLockCallPlace::Bump(place) => match given(true, place, reply) {
                Some(handed) => Next::At(handed),
                None => bump_next(place.purpose, place.next(admission, reply)),
            },
            RwLockCallPlace::PeekQueue(access) => match reply {
                Reply::Value(seen) => glance_next(admission, access, seen),
                _ => Next::At(self),
            },
            RwLockCallPlace::HandOver { access, bumps, at } => {
                hand_over_next(admission, access, bumps, at, reply)
            }
            RwLockCallPlace::Handed {
                access,
                patience,
                bumps,
                at,
            } => handed_next(access, patience, bumps, at, reply),
        }
    }

    /// Returns the owners of the lock after the thread's operation on the word, which saw this
    /// value. The threads to which it hands the lock are not among them yet, and the number of its
    /// shared rights stands apart.
    pub fn owners_after(
        self,
        admission: Admission,
        thread: usize,
        seen: u64,
        owners: Owners,
    ) -> Owners
        ensures { result ≡ call_owners admission self thread seen owners }
    {
        match self {
            RwLockCallPlace::Plain(place) | RwLockCallPlace::Bump(place) => {
                place.owners_after(admission, thread, seen, owners)
            }
            RwLockCallPlace::HandOver { access, at, .. } if at.gives_up(seen) => match access {
                Access::Shared => owners,
                Access::Upgradable => owners.with_upgradable(None),
                Access::Exclusive => owners.with_exclusive(None),
            },
            _ => owners,
        }
    }

    /// Returns how many shared rights the thread has then, where their number changes.
    pub fn shares_after(self, admission: Admission, seen: u64, shares: usize) -> Option<usize>
        ensures { result ≡ call_shares admission self seen shares }
    {
        match self {
            RwLockCallPlace::Plain(place) | RwLockCallPlace::Bump(place) => {
                place.shares_after(admission, seen, shares)
            }
            _ => None,
        }
    }

    /// Returns the thread that took this one from a queue, and has not left its section yet.
    pub fn taker(self) -> Option<usize>
        ensures { result ≡ call_taker self }
    {
        match self {
            RwLockCallPlace::Plain(place) | RwLockCallPlace::Bump(place) => place.taker(),
            RwLockCallPlace::Handed {
                at: HandedAt::Asleep { by, .. },
                ..
            } => Some(by),
            _ => None,
        }
    }

    /// Returns what the thread wants, where it waits.
    pub fn wants(self) -> Option<Want>
        ensures { result ≡ call_wants self }
    {
        match self {
            RwLockCallPlace::Plain(place) | RwLockCallPlace::Bump(place) => place.wants(),
            RwLockCallPlace::Handed { access, .. } => Some(wanted(access)),
            _ => None,
        }
    }

    /// From where the thread looks at the word once more, in place of an act that leads to sleep.
    pub fn respins_from(self, admission: Admission) -> Option<RwLockCallPlace>
        ensures { result ≡ call_respin admission self }
    {
        match self {
            RwLockCallPlace::Plain(place) => {
                let place = place.respins_from(admission)?;
                Some(RwLockCallPlace::Plain(place))
            }
            RwLockCallPlace::Bump(place) => {
                let place = place.respins_from(admission)?;
                Some(RwLockCallPlace::Bump(place))
            }
            _ => None,
        }
    }

    /// Returns the queue in which the thread sleeps, where it may give up.
    pub fn late_line(self) -> Option<Line>
        ensures { result ≡ call_late_line self }
    {
        match self {
            RwLockCallPlace::Plain(place) | RwLockCallPlace::Bump(place) => place.late_line(),
            _ => None,
        }
    }

    /// Returns the queue on which the thread owes a wake.
    pub fn owes(self) -> Option<Line>
        ensures { result ≡ call_owes self }
    {
        match self {
            RwLockCallPlace::Plain(place) | RwLockCallPlace::Bump(place) => place.owes(),
            RwLockCallPlace::HandOver { at, .. } if at.owes() => Some(Line::Main),
            _ => None,
        }
    }

    /// Returns whether the thread was woken, and tries again.
    pub fn retries(self) -> bool
        ensures { result ≡ call_retries self }
    {
        match self {
            RwLockCallPlace::Plain(place) | RwLockCallPlace::Bump(place) => place.retries,
            _ => false,
        }
    }
}
