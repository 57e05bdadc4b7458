//! The right to open a place.
ghost use Rattle.std.specs.Prelude.{◌≡◌, ◌≢◌, ◌+◌, ℕ, [], ◌∷◌};
ghost use types.Keyed.{tickets_from};
ghost use Rattle.core_parts.specs.PermitIds.{PermitId, permit_id_coded, permit_owns};

use crate::place::{Open, Place};
use crate::slot::PermitSlot;
use std::marker::{Model, PhantomData};

/// Where permits come from. It has no bytes.
pub struct Permits {
    /// A number that no other value of this type has.
    pub ghost family: { ℕ },
    /// The number of the next permit.
    pub ghost next: { ℕ },
}

impl Model for Permits {
    ghost also_owns = { λ p. tickets_from p.family p.next };
}

impl Permits {
    /// No permit has been drawn.
    #[inline]
    pub fn new() -> Permits
        ensures { result.next ≡ 0 }
    {
        Permits {}
    }

    /// Returns the next permit. No other has its number.
    #[inline]
    pub fn draw(&mut self) -> Permit
        ensures permits { (self.new.family ≡ self.old.family)
            × (self.new.next ≡ self.old.next + 1) }
        ensures permit { result.id ≡ record { family = self.old.family; number = self.old.next } }
    {
        Permit {}
    }
}

impl Drop for Permits {
    fn drop(self) {
        let Self {} = self;
    }
}

unsafe impl Send for Permits {}

unsafe impl Sync for Permits {}

/// The right to open the places with this permit's id. It has no bytes, and no other permit has its
/// id.
pub struct Permit {
    pub ghost id: { PermitId } by { permit_id_coded },
}

impl Model for Permit {
    ghost also_owns = { λ p. permit_owns p.id };
}

impl Permit {
    /// Returns a slot in which this permit lies.
    #[inline]
    pub fn into_slot(self) -> PermitSlot
        ensures { result.holds ≡ self.id ∷ [] }
    {
        let Permit {} = self;
        PermitSlot {}
    }

    /// Keeps two permits, which never have one id. So things of which each has its permit out at once
    /// are two.
    #[inline]
    pub fn beside(self, other: Permit) -> (Permit, Permit)
        ensures { (result.0 ≡ self) × (result.1 ≡ other) × (self.id ≢ other.id) }
    {
        (self, other)
    }

    #[inline]
    pub(crate) fn into_open<T>(self, place: &Place<T>) -> Open<'_, T>
        requires { self.id ≡ place.now }
        ensures { result.id ≡ place.now }
    {
        let Permit {} = self;
        Open {
            place,
            here: PhantomData,
        }
    }
}

impl Drop for Permit {
    fn drop(self) {
        let Self {} = self;
    }
}

unsafe impl Send for Permit {}

/// Names the permit that opens the places that are made of it.
pub trait NamesPermit {
    ghost permit: { Self → PermitId };
}
