//! The value that an open place shows, and the right of its lock that lies there, as guards see them.
ghost use Rattle.std.specs.Prelude.{◌≡◌, refl};
ghost use Rattle.std.specs.Borrow.{Lends, sem};
ghost use Rattle.lock_values.specs.Ownership.{PlaceId};
ghost use Rattle.lock_values.specs.Written.{with_value};
ghost use Rattle.core_words.specs.declared.views.View.{View};
ghost use Rattle.lock_api_rw.specs.Written.{seen_with_value};

use lock_values::{Open, Seen};
use std::ops::{Deref, DerefMut};

/// A lock that is held, whose right lies in the place of its value.
pub trait Holds {
    // The place.
    ghost place: { Self → PlaceId };
    // The view of the right.
    ghost right_view: { Self → View };
}

/// A value whose place is open, and which can be read.
pub trait Shows {
    type Value;

    // The place.
    ghost opened: { Self → PlaceId };
    // The view of the right that lies there.
    ghost opened_by: { Self → View };
    // The value that it shows.
    ghost shown: { Self → Self.Value };
    // The opened value with another in it, whose place is open by the same right.
    ghost written: { Self → Self.Value → Self };

    ghost stays_opened: { (lent : Self) (value : Self.Value)
        → opened (written lent value) ≡ opened lent };

    ghost stays_opened_by: { (lent : Self) (value : Self.Value)
        → opened_by (written lent value) ≡ opened_by lent };
    // A value that was written is shown.
    ghost shows_written: { (lent : Self) (value : Self.Value)
        → shown (written lent value) ≡ value };

    fn show(&self) -> &Self::Value
        ensures { result.now ≡ shown self.now };
}

/// One that may be written through.
pub trait ShowsMut: Shows {
    fn show_mut(&mut self) -> &mut Self::Value
        ensures* writes_back { sem 𝓛
            (Lends Self.row Self.Value.row self.entry result (Self.written self.old)) }
        ensures shows { result.now ≡ Self.shown self.old };
}

impl<T> Shows for Seen<'_, T> {
    type Value = T;

    ghost opened = { λ seen. seen.of };

    ghost opened_by = { λ seen. seen.view };

    ghost shown = { λ seen. seen.value };

    ghost written = { seen_with_value };

    ghost stays_opened = { λ _ _. refl };

    ghost stays_opened_by = { λ _ _. refl };

    ghost shows_written = { λ _ _. refl };

    #[inline]
    fn show(&self) -> &T {
        self.deref()
    }
}

impl<T> Shows for Open<'_, T> {
    type Value = T;

    ghost opened = { λ lent. lent.of };

    ghost opened_by = { λ lent. lent.view };

    ghost shown = { λ lent. lent.value };

    ghost written = { with_value };

    ghost stays_opened = { λ _ _. refl };

    ghost stays_opened_by = { λ _ _. refl };

    ghost shows_written = { λ _ _. refl };

    #[inline]
    fn show(&self) -> &T {
        self.deref()
    }
}

impl<T> ShowsMut for Open<'_, T> {
    #[inline]
    fn show_mut(&mut self) -> &mut T {
        self.deref_mut()
    }
}
