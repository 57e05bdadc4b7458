//! A value under a lock that is taken, of whatever sort.
//!
//! `Guarded` keeps the fact that the value is open by the permit of the lock that is taken, whatever is
//! written (`stays_open` of `Shows`).
ghost use Rattle.std.specs.Prelude.{◌≡◌};

use crate::shows::{Keeps, Shows, ShowsMut};
use std::ops::{Deref, DerefMut};

/// A value that may be used: its lock is taken, and it is open by the permit of that lock.
pub struct Guarded<K: Keeps, V: Shows> {
    pub(crate) taken: K,
    pub(crate) value: V,
    ghost tied: { V.opened_by value ≡ K.permit taken },
}

impl<K: Keeps, V: Shows> Deref for Guarded<K, V> {
    type Target = V::Value;

    ghost deref_gives = { λ guard value. value ≡ V.shown guard.value };

    #[inline]
    fn deref(&self) -> &V::Value {
        self.value.show()
    }
}

impl<K: Keeps, V: ShowsMut> DerefMut for Guarded<K, V> {
    ghost use Rattle.std.specs.Prelude.{◌≡◌};
    ghost use Rattle.std.proofs.Common.{◌∙◌};
    ghost use Rattle.std.specs.Borrow.{Lends, sem};
    ghost use Rattle.lock_api.specs.contracts.guarded.Guarded.{the_row};

    ghost deref_mut_gives = { λ guard value. value ≡ V.shown guard.value };

    #[inline]
    fn deref_mut(&mut self) -> &mut V::Value
        ensures* writes_back { sem 𝓛
            (Lends (the_row K.row V.row V.Value.row K.Keeps V.Shows) V.Value.row self.entry result
            (λ value. record self.old {
              value = V.written self.old.value value;
              tied = V.stays_open self.old.value value ∙ self.old.tied;
            })) }
        ensures shows { result.now ≡ V.shown self.old.value }
    {
        self.value.show_mut()
    }
}
