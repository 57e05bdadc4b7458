//! A value whose reader-writer lock is held, in whatever right.
ghost use Rattle.std.specs.Prelude.{◌≡◌};

use crate::shows::{Holds, Shows, ShowsMut};
use std::ops::{Deref, DerefMut};

/// A value that may be used: its lock is held, and its place is open by the right of a thread that
/// holds the lock.
pub struct Held<K: Holds, V: Shows> {
    pub(crate) right: K,
    pub(crate) value: V,
    ghost placed: { V.opened value ≡ K.place right },
    ghost seated: { V.opened_by value ≡ K.right_view right },
}

impl<K: Holds, V: Shows> Deref for Held<K, V> {
    type Target = V::Value;

    ghost deref_gives = { λ guard value. value ≡ V.shown guard.value };

    #[inline]
    fn deref(&self) -> &V::Value {
        self.value.show()
    }
}

impl<K: Holds, V: ShowsMut> DerefMut for Held<K, V> {
    ghost use Rattle.std.specs.Prelude.{◌≡◌};
    ghost use Rattle.std.proofs.Common.{◌∙◌};
    ghost use Rattle.std.specs.Borrow.{Lends, sem};
    ghost use Rattle.lock_api_rw.specs.contracts.held.Held.{the_row};

    ghost deref_mut_gives = { λ guard value. value ≡ V.shown guard.value };

    #[inline]
    fn deref_mut(&mut self) -> &mut V::Value
        ensures* writes_back { sem 𝓛
            (Lends (the_row K.row V.row V.Value.row K.Holds V.Shows) V.Value.row self.entry result
            (λ value. record self.old {
              value = V.written self.old.value value;
              placed = V.stays_opened self.old.value value ∙ self.old.placed;
              seated = V.stays_opened_by self.old.value value ∙ self.old.seated;
            })) }
        ensures shows { result.now ≡ V.shown self.old.value }
    {
        self.value.show_mut()
    }
}
