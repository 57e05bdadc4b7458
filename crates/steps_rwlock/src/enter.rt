//! How a thread enters a reader-writer lock, until it owns, is pending, or parks.
//!
//! | place | does | then |
//! |---|---|---|
//! | `First` (of a writer) | exchanges 0 for `WRITER` | owns, or `Load`; a try ends |
//! | `Load` | loads | decides |
//! | `Decide(v)`, not blocked | exchanges `v` for `v` and its right | owns, and a writer is pending: `Look`; or decides again |
//! | `Decide(v)`, blocked, without `PARKED` | exchanges `v` for `v + PARKED`, or goes on from `Load` as it spins | decides |
//! | `Decide(v)`, blocked, with `PARKED` | enters the main section | `Park` |
//!
//! A try to upgrade decides the same way: it takes where nobody else shares, and else ends with
//! `No`. A try that is blocked ends with `No`. A thread that counts, and isn't blocked, ends with
//! `ReadersFull` where the count is at the limit.
ghost use Rattle.std.specs.Prelude.{◌≡◌, ◌<◌, ◌^◌};
ghost use Rattle.steps_rwlock.specs.RwLockSteps.{wanted, decision, decided_for, decided_act, exchange};
ghost use Rattle.steps_rwlock.specs.RwLockSteps.{first_next, looked, came_in, exchanged_next, decided_next};

use crate::park::ParkAt;
use crate::places::{Admission, PARKED, RwLockAt, RwLockPlace};
use crate::purposes::{RwLockPurpose, entered};
use core_base::{Keys, Op, main_key};
use spec_locks::{Access, Answer, Patience};
use steps_base::bits::{count_in, has_parked};
use steps_base::{Act, Next, Reply};

/// The decision of a thread that enters, about a word that it saw.
#[derive(Clone, Copy, PartialEq, Eq)]
pub enum Decision {
    Take,
    /// Sets `PARKED`.
    Mark,
    Park,
    Refuse(Answer),
}

impl Admission {
    pub fn decide(self, access: Access, patience: Patience, word: u64) -> Decision
        ensures { result ≡ decision self (wanted access) patience word }
    {
        if self.blocks(access, word) {
            return match patience {
                Patience::Try => Decision::Refuse(Answer::No),
                _ if has_parked(word) => Decision::Park,
                _ => Decision::Mark,
            };
        }
        match access {
            Access::Shared | Access::Upgradable if self.limit <= count_in(word) => {
                Decision::Refuse(Answer::ReadersFull)
            }
            _ => Decision::Take,
        }
    }
}

impl Admission {
    /// Returns the decision of a call about a word that it saw.
    pub fn decided(self, purpose: RwLockPurpose, word: u64) -> Decision
        ensures { result ≡ decided_for self purpose word }
    {
        match purpose {
            RwLockPurpose::Upgrade(_) if count_in(word) == 1 => Decision::Take,
            RwLockPurpose::Upgrade(_) => Decision::Refuse(Answer::No),
            _ => self.decide(purpose.access(), purpose.patience(), word),
        }
    }
}

/// One exchange on the word.
pub(super) fn exchange(lock: usize, from: u64, to: u64) -> Act
    ensures { result ≡ exchange lock from to }
{
    Act::Word {
        lock,
        op: Op::Exchange { from, to },
    }
}

/// Returns the act of a thread that has decided about a value that it saw.
pub(super) fn decided_act(lock: usize, decision: Decision, purpose: RwLockPurpose, seen: u64) -> Act
    requires { lock < 2 ^ 63 }
    ensures { result ≡ decided_act lock purpose seen decision }
{
    match decision {
        Decision::Take => exchange(lock, seen, purpose.taken(seen)),
        Decision::Mark => exchange(lock, seen, seen.wrapping_add(PARKED)),
        Decision::Park => Act::Enter(Keys::One(main_key(lock))),
        Decision::Refuse(answer) => Act::End(answer),
    }
}

/// Returns where a writer goes that tried a word that is 0.
pub(super) fn next_first(place: RwLockPlace, seen: u64) -> Next<RwLockPlace>
    ensures { result ≡ first_next place seen }
{
    match place.purpose.patience() {
        patience if seen == 0 => Next::End(entered(patience)),
        Patience::Try => Next::End(Answer::No),
        _ => place.goes(RwLockAt::Load, place.retries),
    }
}

/// Returns where a thread goes by a value that it saw.
pub(super) fn looked(place: RwLockPlace, admission: Admission, seen: u64) -> Next<RwLockPlace>
    ensures { result ≡ looked admission place seen }
{
    match admission.decided(place.purpose, seen) {
        Decision::Refuse(answer) => Next::End(answer),
        _ => place.goes(RwLockAt::Decide(seen), place.retries),
    }
}

/// Returns where a thread goes whose exchange succeeded: a writer is pending until it has looked
/// for readers.
fn came_in(place: RwLockPlace) -> Next<RwLockPlace>
    ensures { result ≡ came_in place }
{
    match place.purpose {
        RwLockPurpose::Enter {
            access: Access::Exclusive,
            ..
        } => place.goes(RwLockAt::Look, false),
        _ => Next::End(entered(place.purpose.patience())),
    }
}

/// Where a thread goes after its exchange, by the value that was there.
fn exchanged(
    place: RwLockPlace,
    admission: Admission,
    expected: u64,
    seen: u64,
    decision: Decision,
) -> Next<RwLockPlace>
    ensures { result ≡ exchanged_next admission place expected seen decision }
{
    match decision {
        Decision::Take if seen == expected => came_in(place),
        Decision::Mark if seen == expected => {
            place.goes(
                RwLockAt::Decide(expected.wrapping_add(PARKED)),
                place.retries,
            )
        }
        _ => looked(place, admission, seen),
    }
}

pub(super) fn next_decided(
    place: RwLockPlace,
    admission: Admission,
    expected: u64,
    reply: Reply,
) -> Next<RwLockPlace>
    ensures { result ≡ decided_next admission place expected reply }
{
    match reply {
        Reply::Value(seen) => {
            let decision = admission.decided(place.purpose, expected);
            exchanged(place, admission, expected, seen, decision)
        }
        Reply::Done => place.goes(RwLockAt::Park(ParkAt::Check), place.retries),
        _ => place.goes(RwLockAt::Decide(expected), place.retries),
    }
}
