// Lends the value. It stands apart from the file that declares the place, since the clauses read
// its row.
ghost use Rattle.std.specs.Prelude.{◌≡◌, []};
ghost use mir.Syntax.{named};
ghost use types.Logic.{sem};
ghost use denote.Follow.{follows};
ghost use Rattle.lock_values.specs.contracts.place.Open.{the_row};
ghost use Rattle.lock_values.specs.contracts.place.Place.{the_row as place_row};
ghost use Rattle.lock_values.specs.Written.{with_value};

use crate::place::{Open, Place, Seen};
use std::ops::{Deref, DerefMut};

impl<T> Deref for Open<'_, T> {
    type Target = T;

    ghost deref_gives = { λ o x. x ≡ o.value };

    #[inline]
    fn deref(&self) -> &T
        ensures { result.now ≡ self.now.value }
    {
        &self.place.value
    }
}

impl<T> DerefMut for Open<'_, T> {
    ghost deref_mut_gives = { λ o x. x ≡ o.value };

    #[inline]
    fn deref_mut(&mut self) -> &mut T
        ensures* writes_back { sem 𝓛
            (follows (the_row (record { mir = named 1; lft = [] }) T.row) T.row
            self.entry.ghost_name result.ghost_name (with_value self.old)) }
        ensures value { result.now ≡ self.old.value }
    {
        unsafe { &mut *(&raw const self.place.value as *mut T) }
    }
}

impl<T> Deref for Seen<'_, T> {
    type Target = T;

    ghost deref_gives = { λ o x. x ≡ o.value };

    #[inline]
    fn deref(&self) -> &T
        ensures { result.now ≡ self.now.value }
    {
        &self.place.value
    }
}

impl<T> Place<T> {
    /// Returns the value, of a place that nobody else can open meanwhile. The same permit opens it
    /// afterwards.
    #[inline]
    pub fn get_mut(&mut self) -> &mut T
        ensures* same { sem 𝓛
            (follows (place_row T.row) T.row self.entry.ghost_name result.ghost_name
            (λ _. self.old)) }
    {
        &mut self.value
    }
}
