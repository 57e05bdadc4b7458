//! A thread that was handed the lock while it slept.
//!
//! | place | does | then |
//! |---|---|---|
//! | `Asleep` | sleeps, and owns already, or is pending | `Accept` at its wake; a pending writer looks whether readers are left |
//! | `Accept` | nothing, or an exclusive owner loads the word | ends |
ghost use Rattle.std.specs.Prelude.{◌≡◌};
ghost use Rattle.steps_rwlock_fair.specs.FairSteps.{accept_act, handed_act, handed_woken, handed_next};

use crate::places::{RwLockCallPlace, entering};
use core_base::{Note, Op};
use spec_locks::{Access, Patience};
use steps_base::{Act, Next, Reply};
use steps_rwlock::purposes::entered;
use steps_rwlock::{RwLockAt, RwLockPlace, RwLockPurpose};

#[derive(Clone, Copy, PartialEq, Eq)]
pub enum HandedAt {
    /// The thread that took it has handed it the lock, and has not left its section yet. Whether
    /// nobody shared the lock then.
    Asleep { by: usize, alone: bool },
    Accept,
}

pub(super) fn handed_act(lock: usize, access: Access, at: HandedAt) -> Act
    ensures { result ≡ handed_act lock access at }
{
    match (at, access) {
        (HandedAt::Asleep { .. }, _) => Act::Sleep,
        (HandedAt::Accept, Access::Exclusive) => Act::Word { lock, op: Op::Load },
        (HandedAt::Accept, _) => Act::Accept,
    }
}

/// Returns where a thread goes at its wake: a writer beside readers is pending.
pub(super) fn handed_woken(
    access: Access,
    patience: Patience,
    bumps: bool,
    alone: bool,
) -> RwLockCallPlace
    ensures { result ≡ handed_woken access patience bumps alone }
{
    match access {
        Access::Exclusive if !alone => entering(
            bumps,
            RwLockPlace {
                purpose: RwLockPurpose::Enter { access, patience },
                retries: false,
                at: RwLockAt::Look,
            },
        ),
        _ => RwLockCallPlace::Handed {
            access,
            patience,
            bumps,
            at: HandedAt::Accept,
        },
    }
}

pub(super) fn handed_next(
    access: Access,
    patience: Patience,
    bumps: bool,
    at: HandedAt,
    reply: Reply,
) -> Next<RwLockCallPlace>
    ensures { result ≡ handed_next access patience bumps at reply }
{
    match (at, reply) {
        (HandedAt::Asleep { alone, .. }, Reply::Woken(Note::HandOff)) => {
            Next::At(handed_woken(access, patience, bumps, alone))
        }
        (HandedAt::Accept, Reply::Done | Reply::Value(_)) => Next::End(entered(patience)),
        _ => Next::At(RwLockCallPlace::Handed {
            access,
            patience,
            bumps,
            at,
        }),
    }
}
