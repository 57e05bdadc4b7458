//! Guards, as a map sees them.
ghost use Rattle.std.specs.Prelude.{◌≡◌};
ghost use Rattle.std.specs.Borrow.{Lends, sem};

/// Shows a value, as a guard does.
pub trait Shows {
    type Value;

    // The value that the guard shows.
    ghost shown: { Self → Self.Value };
    // The opened value once this was written.
    ghost written: { Self → Self.Value → Self };

    // After a write the guard shows what was written.
    ghost shows_written: { (guard : Self) (value : Self.Value)
        → shown (written guard value) ≡ value };

    /// Returns the value that the guard shows.
    fn show(&self) -> &Self::Value
        ensures { result.now ≡ shown self.now };
}

/// Shows a value that may be written through it.
pub trait ShowsMut: Shows {
    /// Returns the value that the guard shows, to write it.
    fn show_mut(&mut self) -> &mut Self::Value
        ensures* writes_back { sem 𝓛
            (Lends Self.row Self.Value.row self.entry result (Self.written self.old)) }
        ensures shows { result.now ≡ Self.shown self.old };
}
