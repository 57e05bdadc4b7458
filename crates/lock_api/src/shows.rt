//! Open values, and the permits that taken locks have out for them, as guards see them.
ghost use Rattle.std.specs.Prelude.{◌≡◌, refl};
ghost use Rattle.std.specs.Borrow.{Lends, sem};
ghost use Rattle.core_parts.specs.PermitIds.{PermitId};
ghost use Rattle.core_parts.specs.Written.{with_value};

use core_parts::Open;
use std::ops::{Deref, DerefMut};

/// A lock that is taken, and has a permit out.
pub trait Keeps {
    ghost permit: { Self → PermitId };
}

/// A value that is open by a permit, and can be read.
pub trait Shows {
    type Value;

    // By which permit.
    ghost opened_by: { Self → PermitId };
    // The value that it shows.
    ghost shown: { Self → Self.Value };
    // The opened value once this was written. It is open by the same permit.
    ghost written: { Self → Self.Value → Self };

    ghost stays_open: { (place : Self) (value : Self.Value)
        → opened_by (written place value) ≡ opened_by place };
    // A value that was written is shown.
    ghost shows_written: { (place : Self) (value : Self.Value)
        → shown (written place value) ≡ value };

    fn show(&self) -> &Self::Value
        ensures { result.now ≡ shown self.now };
}

/// One that may be written through.
pub trait ShowsMut: Shows {
    fn show_mut(&mut self) -> &mut Self::Value
        ensures* writes_back { sem 𝓛
            (Lends Self.row Self.Value.row self.entry result (Self.written self.old)) }
        ensures shows { result.now ≡ Self.shown self.old };
}

impl<T> Shows for Open<'_, T> {
    type Value = T;

    ghost opened_by = { λ place. place.id };

    ghost shown = { λ place. place.value };

    ghost written = { with_value };

    ghost stays_open = { λ _ _. refl };

    ghost shows_written = { λ _ _. refl };

    #[inline]
    fn show(&self) -> &T {
        self.deref()
    }
}

impl<T> ShowsMut for Open<'_, T> {
    #[inline]
    fn show_mut(&mut self) -> &mut T {
        self.deref_mut()
    }
}
