//! A `Once` that is shown.
ghost use Rattle.std.specs.Prelude.{◌≡◌, ℕ};
ghost use Rattle.parking_lot_core.specs.Tokens.{IsTokenOf};

use crate::once::Once;
use parking_lot_core::Token;
use spec_locks::OnceState;
use std::fmt;
use std::fmt::{Debug, Formatter, Write};

/// Prints how far a `Once` had come as it was shown, as `Once { state: New }`. It holds no guard, and
/// is dropped like any value.
#[derive(Clone, Copy, Drop)]
pub struct OnceShown {
    state: OnceState,
}

impl Debug for OnceShown {
    fn fmt<W: Write>(&self, f: &mut Formatter<W>) -> fmt::Result {
        f.write_str("Once { state: ")?;
        self.state.fmt(f)?;
        f.write_str(" }")
    }
}

impl Once {
    ghost use Rattle.run_once_and_semaphores.specs.Ran.{Loaded, StaysKnowing, state_of};
    ghost use Rattle.run_once_and_semaphores.specs.OnceUsers.{lot_of, number_of};

    /// Shows how far it has come, by one load.
    pub fn show(&self, token: &mut Token) -> OnceShown
        requires { IsTokenOf (lot_of self.now) token.old }
        ensures token { IsTokenOf (lot_of self.now) token.new
            × StaysKnowing (number_of self.now) token.old token.new }
        ensures seen { (seen : ℕ) × Loaded (number_of self.now) seen token.old token.new
            × (result.state ≡ state_of seen) }
    {
        OnceShown {
            state: self.state(token),
        }
    }
}
