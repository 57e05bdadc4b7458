//! Guards that are spent to unlock.
ghost use Rattle.std.specs.Prelude.{◌≡◌};

use std::sync::Wait;

/// Is spent to unlock, as a guard is.
pub trait Unlocks {
    /// Names a thread of the lot.
    type Token;

    // The thread of this token may spend the guard.
    ghost may_unlock: { Self → Self.Token → Type 0 };
    // The effect on the thread that spends the guard.
    ghost unlocked: { Self → Self.Token → Self.Token → Type 0 };

    /// Spends the guard, and unlocks.
    fn unlock<W: Wait>(self, rt: &W, token: &mut Self::Token)
        requires { may_unlock self token.old }
        ensures { unlocked self token.old token.new };
}

/// Is spent to unlock fairly too.
pub trait UnlocksFair: Unlocks {
    ghost unlocked_fair: { Self → Self.Token → Self.Token → Type 0 };

    /// Spends the guard, and unlocks fairly.
    fn unlock_fair<W: Wait>(self, rt: &W, token: &mut Self::Token)
        requires { Self.may_unlock self token.old }
        ensures { unlocked_fair self token.old token.new };
}
