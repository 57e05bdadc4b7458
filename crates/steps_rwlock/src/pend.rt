//! A pending writer: it keeps further readers out, and waits for those that are inside.
//!
//! | place | does | then |
//! |---|---|---|
//! | `Look` | loads | owns where nobody shares, else `Count` |
//! | `Count(v)`, without `WRITER_PARKED` | exchanges `v` for `v + WRITER_PARKED`, or goes on from `Look` as it spins | `Marked`, or decides again, or owns |
//! | `Count(v)`, with `WRITER_PARKED` | enters the second section, or goes on from `Look` as it spins | `Aside` |
//! | `Marked` | enters the second section; it spins no more | `Aside` |
//! | `RollBack` | subtracts `WRITER`; an upgrade has the upgradable right again | ends with `No`, or wakes those in the main queue first |
ghost use Rattle.std.specs.Prelude.{◌≡◌, ◌<◌, ◌^◌};
ghost use Rattle.steps_rwlock.specs.RwLockSteps.{count_act, after_count, count_next, rolled_back};

use crate::enter::exchange;
use crate::park::ParkAt;
use crate::places::{RwLockAt, RwLockPlace, WRITER_PARKED};
use crate::purposes::entered;
use crate::release::wakes;
use core_base::{Keys, Line};
use spec_locks::Answer;
use steps_base::bits::{count_in, has_aside, has_parked};
use steps_base::{Act, Next, Reply};

pub(super) fn count_act(lock: usize, seen: u64) -> Act
    requires { lock < 2 ^ 63 }
    ensures { result ≡ count_act lock seen }
{
    if has_aside(seen) {
        Act::Enter(Keys::One(Line::Second.key(lock)))
    } else {
        exchange(lock, seen, seen.wrapping_add(WRITER_PARKED))
    }
}

/// Returns where a pending writer goes by a value that it saw.
pub(super) fn counted(place: RwLockPlace, seen: u64) -> Next<RwLockPlace>
    ensures { result ≡ after_count place seen }
{
    if count_in(seen) == 0 {
        Next::End(entered(place.purpose.patience()))
    } else {
        place.goes(RwLockAt::Count(seen), place.retries)
    }
}

pub(super) fn next_count(place: RwLockPlace, expected: u64, reply: Reply) -> Next<RwLockPlace>
    ensures { result ≡ count_next place expected reply }
{
    match reply {
        Reply::Value(seen) if seen == expected => { place.goes(RwLockAt::Marked, place.retries) }
        Reply::Value(seen) => counted(place, seen),
        Reply::Done => place.goes(RwLockAt::Aside(ParkAt::Check), place.retries),
        _ => place.goes(RwLockAt::Count(expected), place.retries),
    }
}

/// Where a writer goes that gave up, and saw this.
pub(super) fn rolled_back(place: RwLockPlace, seen: u64) -> Next<RwLockPlace>
    ensures { result ≡ rolled_back place seen }
{
    if has_parked(seen) {
        place.goes(wakes(Line::Main), place.retries)
    } else {
        Next::End(Answer::No)
    }
}
