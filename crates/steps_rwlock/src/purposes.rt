//! The purposes of the calls of a reader-writer lock.
//!
//! | call | first step on the word | then |
//! |---|---|---|
//! | enters | see `enter` | |
//! | releases | subtracts its right | ends, or wakes |
//! | downgrades | adds the lesser right, and subtracts the greater | ends, or wakes, keeping the lesser right |
//! | upgrades | subtracts 12: an upgradable reader less, a writer more | owns where it was the only one, else it is pending and waits for the readers |
//! | tries to upgrade | the same, by an exchange, where it is the only one | owns, or ends with `No` |
ghost use Rattle.std.specs.Prelude.{◌≡◌};
ghost use Rattle.steps_rwlock.specs.RwLockSteps.{wanted, token, from_of, to_of, access_of, patience_of};
ghost use Rattle.steps_rwlock.specs.RwLockSteps.{start_of, ends_with, entered, give_op, rollback_op};
ghost use Rattle.steps_rwlock.specs.RwLockSteps.{word_taken};

use crate::places::{READER, UPGRADABLE, WRITER};
use core_base::{Op, Want};
use spec_locks::{Access, Answer, Downgrade, Patience};

#[derive(Clone, Copy, PartialEq, Eq)]
pub enum RwLockPurpose {
    Enter { access: Access, patience: Patience },
    Release(Access),
    Downgrade(Downgrade),
    /// Turns the upgradable right into the exclusive one.
    Upgrade(Patience),
}

// An upgrade subtracts a reader with the upgradable right, and adds a writer.
const UPGRADED: u64 = READER + UPGRADABLE - WRITER;

/// Returns the number that a right adds to the word.
#[inline]
pub fn token(access: Access) -> u64
    ensures { result ≡ token (wanted access) }
{
    match access {
        Access::Shared => READER,
        Access::Upgradable => READER + UPGRADABLE,
        Access::Exclusive => WRITER,
    }
}

/// Returns the want of a thread that waits for a right.
#[inline]
pub fn wanted(access: Access) -> Want
    ensures { result ≡ wanted access }
{
    match access {
        Access::Shared => Want::Shared,
        Access::Upgradable => Want::Upgradable,
        Access::Exclusive => Want::Exclusive,
    }
}

/// Returns the greater right of a downgrade.
#[inline]
pub fn greater(downgrade: Downgrade) -> Access
    ensures { result ≡ from_of downgrade }
{
    match downgrade {
        Downgrade::ToShared | Downgrade::ToUpgradable => Access::Exclusive,
        Downgrade::UpgradableToShared => Access::Upgradable,
    }
}

/// Returns the lesser one, which its thread keeps.
#[inline]
pub fn lesser(downgrade: Downgrade) -> Access
    ensures { result ≡ to_of downgrade }
{
    match downgrade {
        Downgrade::ToShared | Downgrade::UpgradableToShared => Access::Shared,
        Downgrade::ToUpgradable => Access::Upgradable,
    }
}

/// Returns the answer of a call that has its right: `Ok` of one that waits for ever, and else
/// `Yes`.
#[inline]
pub fn entered(patience: Patience) -> Answer
    ensures { result ≡ entered patience }
{
    match patience {
        Patience::Patient => Answer::Ok,
        Patience::Timed | Patience::Try => Answer::Yes,
    }
}

impl RwLockPurpose {
    /// Returns the right that the call waits for, or gives up.
    #[inline]
    pub fn access(self) -> Access
        ensures { result ≡ access_of self }
    {
        match self {
            RwLockPurpose::Enter { access, .. } | RwLockPurpose::Release(access) => access,
            RwLockPurpose::Downgrade(downgrade) => greater(downgrade),
            RwLockPurpose::Upgrade(_) => Access::Exclusive,
        }
    }

    /// Returns how long the call waits.
    #[inline]
    pub fn patience(self) -> Patience
        ensures { result ≡ patience_of self }
    {
        match self {
            RwLockPurpose::Enter { patience, .. } | RwLockPurpose::Upgrade(patience) => patience,
            RwLockPurpose::Release(_) | RwLockPurpose::Downgrade(_) => Patience::Patient,
        }
    }

    /// Returns the right that the thread keeps while it wakes others.
    pub fn start(self) -> Option<Want>
        ensures { result ≡ start_of self }
    {
        match self {
            RwLockPurpose::Enter { .. } | RwLockPurpose::Release(_) => None,
            RwLockPurpose::Downgrade(downgrade) => Some(wanted(lesser(downgrade))),
            RwLockPurpose::Upgrade(_) => Some(Want::Upgradable),
        }
    }

    /// Returns the answer of the call after a wake. A call that was to enter or to upgrade has
    /// given up.
    pub(super) fn ends_with(self) -> Answer
        ensures { result ≡ ends_with self }
    {
        match self {
            RwLockPurpose::Enter { .. } | RwLockPurpose::Upgrade(_) => Answer::No,
            RwLockPurpose::Release(_) | RwLockPurpose::Downgrade(_) => Answer::Ok,
        }
    }

    /// Returns the operation with which the thread gives its right up, or turns it into another.
    #[inline]
    pub fn give_op(self) -> Op
        ensures { result ≡ give_op self }
    {
        match self {
            RwLockPurpose::Enter { access, .. } | RwLockPurpose::Release(access) => {
                Op::Sub(token(access))
            }
            RwLockPurpose::Downgrade(Downgrade::ToShared) => Op::Add(READER - WRITER),
            RwLockPurpose::Downgrade(Downgrade::ToUpgradable) => Op::Add(UPGRADED),
            RwLockPurpose::Downgrade(Downgrade::UpgradableToShared) => Op::Sub(UPGRADABLE),
            RwLockPurpose::Upgrade(_) => Op::Sub(UPGRADED),
        }
    }

    /// Returns the operation with which a pending writer falls back.
    pub(super) fn rollback_op(self) -> Op
        ensures { result ≡ rollback_op self }
    {
        match self {
            RwLockPurpose::Upgrade(_) => Op::Add(UPGRADED),
            _ => Op::Sub(WRITER),
        }
    }

    /// Returns the word with the right that a thread takes which saw this.
    #[inline]
    pub fn taken(self, seen: u64) -> u64
        ensures { result ≡ word_taken self seen }
    {
        match self {
            RwLockPurpose::Upgrade(_) => seen.wrapping_sub(UPGRADED),
            _ => seen.wrapping_add(token(self.access())),
        }
    }
}
