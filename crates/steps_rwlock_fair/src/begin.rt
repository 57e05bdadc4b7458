//! Where each call of a reader-writer lock begins, and the right that it needs.
ghost use Rattle.std.specs.Prelude.{◌≡◌};
ghost use Rattle.steps_rwlock_fair.specs.FairBegins.{release_first, plain_first, call_first, call_right};

use crate::hand_over::HandOverAt;
use crate::places::RwLockCallPlace;
use spec_locks::{Access, Downgrade, RwLockCall};
use steps_base::Owners;
use steps_rwlock::places::WRITER;
use steps_rwlock::{RwLockPlace, RwLockPurpose, has_access};

/// Returns where a fair release begins.
fn release_first(access: Access) -> RwLockCallPlace
    ensures { result ≡ release_first access }
{
    let hands_over = |at: HandOverAt| RwLockCallPlace::HandOver {
        access,
        bumps: false,
        at,
    };
    match access {
        Access::Shared => RwLockCallPlace::begin(RwLockPurpose::Release(access)),
        Access::Upgradable => hands_over(HandOverAt::Load),
        Access::Exclusive => hands_over(HandOverAt::Free(WRITER)),
    }
}

impl RwLockCallPlace {
    /// Returns where a call begins that neither hands the lock over nor bumps.
    pub fn begin(purpose: RwLockPurpose) -> RwLockCallPlace
        ensures { result ≡ plain_first purpose }
    {
        RwLockCallPlace::Plain(RwLockPlace::first(purpose))
    }

    /// Returns where a call begins.
    pub fn first(call: RwLockCall) -> RwLockCallPlace
        ensures { result ≡ call_first call }
    {
        match call {
            RwLockCall::Enter { access, patience } => {
                RwLockCallPlace::begin(RwLockPurpose::Enter { access, patience })
            }
            RwLockCall::Release(access) => RwLockCallPlace::begin(RwLockPurpose::Release(access)),
            RwLockCall::Downgrade(downgrade) => {
                RwLockCallPlace::begin(RwLockPurpose::Downgrade(downgrade))
            }
            RwLockCall::Upgrade(patience) => {
                RwLockCallPlace::begin(RwLockPurpose::Upgrade(patience))
            }
            RwLockCall::ReleaseFair(access) => release_first(access),
            RwLockCall::Bump(access) => RwLockCallPlace::PeekQueue(access),
        }
    }
}

/// Returns whether a thread has the right that a call needs, of a lock with these owners, which it
/// shares so many times.
pub fn call_right(call: RwLockCall, thread: usize, owners: Owners, shares: usize) -> bool
    ensures { result ≡ call_right call thread owners shares }
{
    match call {
        RwLockCall::Enter { .. } => true,
        RwLockCall::Release(access) | RwLockCall::ReleaseFair(access) | RwLockCall::Bump(access) =>
            has_access(access, thread, owners, shares),
        RwLockCall::Downgrade(Downgrade::UpgradableToShared) | RwLockCall::Upgrade(_) => {
            has_access(Access::Upgradable, thread, owners, shares)
        }
        RwLockCall::Downgrade(_) => has_access(Access::Exclusive, thread, owners, shares),
    }
}
