//! The owners of a reader-writer lock after an operation on its word.
ghost use Rattle.std.specs.Prelude.{◌≡◌};
ghost use Rattle.steps_rwlock.specs.RwLockSteps.{came_change, settle_change, gives_change, rollback_change};
ghost use Rattle.steps_rwlock.specs.RwLockSteps.{change, owners_by, rwlock_owners, rwlock_shares};

use crate::enter::Decision;
use crate::places::{Admission, RwLockAt, RwLockPlace};
use crate::purposes::RwLockPurpose;
use spec_locks::{Access, Downgrade};
use steps_base::bits::count_in;
use steps_base::{Fallback, Owners, Pending};

/// The effect of an operation on the owners.
#[derive(Clone, Copy)]
pub enum Change {
    Nothing,
    Enter(Access),
    Pend,
    Settle,
    Leave(Access),
    Downgrade(Downgrade),
    /// The thread is the only reader, or others are left and it is pending.
    Upgrade { alone: bool },
    RollBack { upgradable: bool },
}

/// Returns the change by an exchange that succeeded.
fn came(purpose: RwLockPurpose, decision: Decision) -> Change
    ensures { result ≡ came_change purpose decision }
{
    match (decision, purpose) {
        (Decision::Take, RwLockPurpose::Upgrade(_)) => Change::Upgrade { alone: true },
        (Decision::Take, _) => match purpose.access() {
            Access::Exclusive => Change::Pend,
            access => Change::Enter(access),
        },
        _ => Change::Nothing,
    }
}

/// Returns the change by a pending writer that saw this word.
fn settles(seen: u64) -> Change
    ensures { result ≡ settle_change seen }
{
    if count_in(seen) == 0 {
        Change::Settle
    } else {
        Change::Nothing
    }
}

/// Returns the change by a thread that gave way and saw this word.
fn gives(purpose: RwLockPurpose, seen: u64) -> Change
    ensures { result ≡ gives_change purpose seen }
{
    match purpose {
        RwLockPurpose::Enter { access, .. } | RwLockPurpose::Release(access) => Change::Leave(
            access,
        ),
        RwLockPurpose::Downgrade(downgrade) => Change::Downgrade(downgrade),
        RwLockPurpose::Upgrade(_) => Change::Upgrade {
            alone: count_in(seen) == 1,
        },
    }
}

fn rolls_back(purpose: RwLockPurpose) -> Change
    ensures { result ≡ rollback_change purpose }
{
    Change::RollBack {
        upgradable: matches!(purpose, RwLockPurpose::Upgrade(_)),
    }
}

impl Change {
    fn of(place: RwLockPlace, admission: Admission, seen: u64) -> Change
        ensures { result ≡ change admission place seen }
    {
        match place.at {
            RwLockAt::First if seen == 0 => Change::Enter(Access::Exclusive),
            RwLockAt::Decide(expected) if seen == expected => {
                came(place.purpose, admission.decided(place.purpose, expected))
            }
            RwLockAt::Look => settles(seen),
            RwLockAt::Count(expected) if seen != expected => settles(seen),
            RwLockAt::RollBack => rolls_back(place.purpose),
            RwLockAt::GiveWay => gives(place.purpose, seen),
            _ => Change::Nothing,
        }
    }

    fn owners(self, thread: usize, owners: Owners) -> Owners
        ensures { result ≡ owners_by self thread owners }
    {
        let pending = |fallback: Fallback| Some(Pending { thread, fallback });
        match self {
            Change::Nothing | Change::Enter(Access::Shared) | Change::Leave(Access::Shared) =>
                owners,
            Change::Enter(Access::Upgradable) => owners.with_upgradable(Some(thread)),
            Change::Enter(Access::Exclusive) => owners.with_exclusive(Some(thread)),
            Change::Pend => owners.with_pending(pending(Fallback::Nothing)),
            Change::Settle => owners.with_pending(None).with_exclusive(Some(thread)),
            Change::Leave(Access::Upgradable) => owners.with_upgradable(None),
            Change::Leave(Access::Exclusive) => owners.with_exclusive(None),
            Change::Downgrade(Downgrade::ToShared) => owners.with_exclusive(None),
            Change::Downgrade(Downgrade::ToUpgradable) => {
                owners.with_exclusive(None).with_upgradable(Some(thread))
            }
            Change::Downgrade(Downgrade::UpgradableToShared) => owners.with_upgradable(None),
            Change::Upgrade { alone: true } => {
                owners.with_upgradable(None).with_exclusive(Some(thread))
            }
            Change::Upgrade { alone: false } => {
                owners
                    .with_upgradable(None)
                    .with_pending(pending(Fallback::Upgradable))
            }
            Change::RollBack { upgradable: false } => owners.with_pending(None),
            Change::RollBack { upgradable: true } => {
                owners.with_pending(None).with_upgradable(Some(thread))
            }
        }
    }
}

impl RwLockPlace {
    /// Returns the owners of the lock after the thread's operation on the word, which saw this
    /// value. The number of its shared rights stands apart.
    pub fn owners_after(
        self,
        admission: Admission,
        thread: usize,
        seen: u64,
        owners: Owners,
    ) -> Owners
        ensures { result ≡ rwlock_owners admission self thread seen owners }
    {
        Change::of(self, admission, seen).owners(thread, owners)
    }

    /// Returns how many shared rights the thread has then, where their number changes.
    pub fn shares_after(self, admission: Admission, seen: u64, shares: usize) -> Option<usize>
        ensures { result ≡ rwlock_shares admission self seen shares }
    {
        match Change::of(self, admission, seen) {
            Change::Enter(Access::Shared) => Some(shares.wrapping_add(1)),
            Change::Downgrade(Downgrade::ToShared | Downgrade::UpgradableToShared) => {
                Some(shares.wrapping_add(1))
            }
            Change::Leave(Access::Shared) => Some(shares.saturating_sub(1)),
            _ => None,
        }
    }
}
