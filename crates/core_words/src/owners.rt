//! The ways in which a word can be owned.
//!
//! What an owner says of the count of a reentrant mutex is a field of the ownership, so that a step on
//! the mutex needs no knowledge of the count, and a step on the count none of other views. A mutex is
//! given up or handed over by an ownership that says 0, so a counted mutex is not.
ghost use Rattle.std.specs.Prelude.{◌≡◌, ◌↔◌, IsTrue};

use crate::words::WordKind;
use core_base::Want;

/// How a word is owned.
#[derive(Clone, Copy, Debug, PartialEq, Eq)]
pub enum Owner {
    /// A mutex or a reader-writer lock, alone.
    Exclusive,
    /// A reader-writer lock, alone once its last readers have left.
    Pending,
    /// Upgrades: it has its upgradable ownership again where it gives up.
    Upgrading,
    /// A reader-writer lock beside readers, with the right to become its writer.
    Upgradable,
    /// A reader-writer lock beside others.
    Shared,
    /// The run of a `Once`.
    Runner,
    /// The knowledge that a `Once` is done.
    Witness,
}

impl Owner {
    ghost use Rattle.core_words.specs.Rights.{MayHand, owner_for, owner_given, takes_permit, want_of};

    /// Returns how a thread that has what was wanted owns the word.
    #[inline]
    pub fn of_want(want: Want) -> Owner
        ensures { result ≡ owner_for want }
    {
        match want {
            Want::Exclusive => Owner::Exclusive,
            Want::Upgradable => Owner::Upgradable,
            Want::Shared => Owner::Shared,
            Want::Wait => Owner::Witness,
            Want::CallOnce => Owner::Runner,
        }
    }

    /// Returns how a thread that is handed a lock owns it, whose word is left at this value: a
    /// mutex alone, and a reader-writer lock by what it wants, where a writer waits for the readers
    /// that are left.
    pub fn given(kind: WordKind, left: u64, want: Want) -> Owner
        ensures { result ≡ owner_given kind left want }
    {
        match (kind, want) {
            (WordKind::Mutex, _) => Owner::Exclusive,
            (WordKind::RwLock, Want::Shared) => Owner::Shared,
            (WordKind::RwLock, Want::Upgradable) => Owner::Upgradable,
            (WordKind::RwLock, _) if left / 16 == 0 => Owner::Exclusive,
            (WordKind::RwLock, _) => Owner::Pending,
            _ => Owner::of_want(want),
        }
    }

    /// Returns the want of such an owner.
    #[inline]
    pub fn want(self) -> Want
        ensures { result ≡ want_of self }
    {
        match self {
            Owner::Exclusive | Owner::Pending | Owner::Upgrading => Want::Exclusive,
            Owner::Upgradable => Want::Upgradable,
            Owner::Shared => Want::Shared,
            Owner::Runner => Want::CallOnce,
            Owner::Witness => Want::Wait,
        }
    }

    /// Returns whether the permit of a value goes along where a word of this kind is owned so.
    #[inline]
    pub(crate) fn takes_permit(self, kind: WordKind) -> bool
        ensures { result ≡ takes_permit kind self }
    {
        match (kind, self) {
            (WordKind::Mutex, Owner::Exclusive) => true,
            _ => false,
        }
    }

    /// Returns whether a thread that waits for a word of this kind may be handed it so.
    pub fn suits(self, kind: WordKind, want: Want) -> bool
        ensures { IsTrue result ↔ MayHand kind want self }
    {
        if self == Owner::of_want(want) {
            return true;
        }
        match (kind, want, self) {
            (WordKind::RwLock, Want::Exclusive, Owner::Pending) => true,
            _ => false,
        }
    }
}

/// One ownership of the word at an index. No value of it is made: it stands in views.
pub struct Ownership {
    pub at: usize,
    pub owner: Owner,
    /// The value of the count word of a reentrant mutex that is owned so. 0 for every other word.
    pub count: u64,
}
