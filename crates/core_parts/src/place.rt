//! A value in the open, and the threads that may touch it.
ghost use Rattle.std.specs.Prelude.{◌≡◌};
ghost use Rattle.core_parts.specs.Ownership.{place_shares, place_owns, open_owns, open_shares};
ghost use Rattle.core_parts.specs.PermitIds.{PermitId, permit_id_coded};

use crate::permit::{NamesPermit, Permit};
use std::marker::{Model, Move, Owns, PhantomData};

/// A value that is touched by a thread that has the permit, or the place itself. In a clause it is
/// the id of its permit.
pub struct Place<T> {
    pub(crate) value: T,
}

impl<T> Owns for Place<T> {
    ghost Value = { PermitId };

    ghost coded = { permit_id_coded };

    ghost shr_at = { λ id p κ. place_shares T.row id p κ };
}

impl<T> Move for Place<T> {
    ghost own_val = { λ _ vs. place_owns T.row (λ x. Fields.own_val (record { value = x }) vs) };
}

/// A place that is open. In a clause `value` is what stands there. It stays in its thread, by its type.
pub struct Open<'a, T> {
    pub(crate) place: &'a Place<T>,
    pub(crate) here: PhantomData<*const ()>,
    pub ghost id: { PermitId } by { permit_id_coded },
    pub ghost value: { T },
}

impl<'a, T> Model for Open<'a, T> {
    ghost also_owns = { λ o. open_owns 'a T.row o.id o.place.ref_ptr o.value };

    ghost also_shares = { λ o _ κ. open_shares 'a T.row o.place.ref_ptr o.value κ };
}

impl<T> Place<T> {
    /// Makes a place that the permit opens which `of` names.
    #[inline]
    pub fn new<N: NamesPermit>(value: T, of: &N) -> Place<T>
        ensures { result ≡ N.permit of.now }
    {
        let _ = of;
        Place { value }
    }

    /// Takes the value out, whatever thread has the permit.
    #[inline]
    pub fn into_inner(self) -> T {
        let Self { value } = self;
        value
    }

    /// Opens the place for a thread that has its permit.
    #[inline]
    pub fn open(&self, permit: Permit) -> Open<'_, T>
        requires { permit.id ≡ self.now }
        ensures { result.id ≡ self.now }
    {
        permit.into_open(self)
    }
}

impl<T> Open<'_, T> {
    /// Shuts the place, and gives the permit back.
    #[inline]
    pub fn close(self) -> Permit
        ensures { result.id ≡ self.entry.id }
    {
        let Open { place: _, here: _ } = self;
        Permit {}
    }
}

impl<T: Drop> Drop for Place<T> {
    fn drop(self) {
        drop(self.into_inner());
    }
}

unsafe impl<T: Send> Send for Place<T> {}

unsafe impl<T: Send> Sync for Place<T> {}
