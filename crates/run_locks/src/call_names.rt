//! What a schedule names the calls of a reader-writer lock.

use parking_lot_core::{CallName, Deed};
use spec_locks::{Access, Downgrade, Patience};
use steps_rwlock::RwLockPurpose;

#[inline(always)]
fn enter_name(access: Access, patience: Patience) -> &'static Deed {
    match (access, patience) {
        (Access::Shared, Patience::Patient) => &Deed::Call(CallName::Read),
        (Access::Shared, Patience::Timed) => &Deed::Call(CallName::ReadTimed),
        (Access::Shared, Patience::Try) => &Deed::Call(CallName::TryRead),
        (Access::Upgradable, Patience::Patient) => &Deed::Call(CallName::Upgradable),
        (Access::Upgradable, Patience::Timed) => &Deed::Call(CallName::UpgradableTimed),
        (Access::Upgradable, Patience::Try) => &Deed::Call(CallName::TryUpgradable),
        (Access::Exclusive, Patience::Patient) => &Deed::Call(CallName::Write),
        (Access::Exclusive, Patience::Timed) => &Deed::Call(CallName::WriteTimed),
        (Access::Exclusive, Patience::Try) => &Deed::Call(CallName::TryWrite),
    }
}

/// Returns the name of a call. Where the purpose is a constant, so is the name.
#[inline(always)]
pub(crate) fn call_name(purpose: RwLockPurpose) -> &'static Deed {
    match purpose {
        RwLockPurpose::Enter { access, patience } => enter_name(access, patience),
        RwLockPurpose::Release(Access::Shared) => &Deed::Call(CallName::UnlockShared),
        RwLockPurpose::Release(Access::Upgradable) => &Deed::Call(CallName::UnlockUpgradable),
        RwLockPurpose::Release(Access::Exclusive) => &Deed::Call(CallName::UnlockExclusive),
        RwLockPurpose::Downgrade(Downgrade::ToShared) => &Deed::Call(CallName::Downgrade),
        RwLockPurpose::Downgrade(Downgrade::ToUpgradable) => {
            &Deed::Call(CallName::DowngradeToUpgradable)
        }
        RwLockPurpose::Downgrade(Downgrade::UpgradableToShared) => {
            &Deed::Call(CallName::DowngradeUpgradable)
        }
        RwLockPurpose::Upgrade(Patience::Patient) => &Deed::Call(CallName::Upgrade),
        RwLockPurpose::Upgrade(Patience::Timed) => &Deed::Call(CallName::UpgradeTimed),
        RwLockPurpose::Upgrade(Patience::Try) => &Deed::Call(CallName::TryUpgrade),
    }
}
