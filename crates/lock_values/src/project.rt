//! Projections: how a part of a value is found.
//!
//! A closure's contract can't say what a write to the part makes of the whole, so a part is found by a
//! type. `get_mut` takes the value first, so that the borrow checker sees whose loan it gives. A map of
//! std can't be projected, since its `get_mut` promises a relation and no value.
ghost use Rattle.std.specs.Prelude.{◌≡◌, Result, Ok, IsOk};
ghost use Rattle.std.specs.Borrow.{Lends, sem};
ghost use Rattle.lock_values.specs.Finds.{checked};

/// Finds a part of a value, which may not be there, and lends it to read or to write. A look after
/// a write finds the part as it was written.
pub trait Project<T>: Copy {
    type Target;

    type Error;

    // The result of its look at a value.
    ghost finds: { Self → T → Result Self.Target Self.Error };
    // A value once this was written to the part that was found.
    ghost written: { Self → T → Self.Target → T };

    // A look after a write finds what was written.
    ghost finds_written: { (by : Self) (value : T) (found next : Self.Target)
        → finds by value ≡ Ok found → finds by (written by value next) ≡ Ok next };

    /// Checks whether the part is there.
    ///
    /// # Errors
    ///
    /// Why the part is not there.
    fn check(self, value: &T) -> Result<(), Self::Error>
        ensures { result ≡ checked (finds self value.now) };

    /// Lends the part to read.
    fn get<'v>(self, value: &'v T) -> &'v Self::Target
    where
        Self: 'v,
        requires { IsOk (finds self value.now) }
        ensures { finds self value.now ≡ Ok result.now };

    /// Lends the part to write. The lender stands first, so that the borrow checker sees whose loan it
    /// is.
    fn get_mut<'v>(value: &'v mut T, by: Self) -> &'v mut Self::Target
    where
        Self: 'v,
        requires { IsOk (finds by value.old) }
        ensures* writes_back { sem 𝓛
            (Lends T.row Self.Target.row value.entry result (written by value.old)) }
        ensures found { finds by value.old ≡ Ok result.now };
}
