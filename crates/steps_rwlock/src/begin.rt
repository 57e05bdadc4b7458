//! Where a call of a reader-writer lock begins, and whether a thread has a right.
ghost use Rattle.std.specs.Prelude.{◌≡◌};
ghost use Rattle.steps_rwlock.specs.RwLockBegins.{first_at, rwlock_first, has_access, admission_of_kind};

use crate::places::{Admission, RwLockAt, RwLockPlace};
use crate::purposes::RwLockPurpose;
use spec_locks::{Access, Kind, Patience};
use steps_base::Owners;

impl Admission {
    /// Returns the settings of a lock of this kind. Where the kind is no reader-writer lock, nobody
    /// may share it.
    pub fn of(kind: Kind) -> Admission
        ensures { result ≡ admission_of_kind kind }
    {
        match kind {
            Kind::RwLock { limit } => Admission {
                recursive: false,
                limit,
            },
            Kind::Recursive { limit } => Admission {
                recursive: true,
                limit,
            },
            _ => Admission {
                recursive: false,
                limit: 0,
            },
        }
    }
}

impl RwLockPurpose {
    /// Where a call begins: a writer tries an unlocked word first, and a try to upgrade looks.
    fn first(self) -> RwLockAt
        ensures { result ≡ first_at self }
    {
        match self {
            RwLockPurpose::Enter {
                access: Access::Exclusive,
                ..
            } => RwLockAt::First,
            RwLockPurpose::Enter { .. } | RwLockPurpose::Upgrade(Patience::Try) => RwLockAt::Load,
            _ => RwLockAt::GiveWay,
        }
    }
}

impl RwLockPlace {
    /// Returns where a call begins.
    pub fn first(purpose: RwLockPurpose) -> RwLockPlace
        ensures { result ≡ rwlock_first purpose }
    {
        RwLockPlace {
            purpose,
            retries: false,
            at: purpose.first(),
        }
    }
}

/// Returns whether a thread has a right, where it shares so many times.
pub fn has_access(access: Access, thread: usize, owners: Owners, shares: usize) -> bool
    ensures { result ≡ has_access access thread owners shares }
{
    match access {
        Access::Shared => shares != 0,
        Access::Upgradable => owners.upgradable == Some(thread),
        Access::Exclusive => owners.exclusive == Some(thread),
    }
}
