//! Pickers, which choose the waiters that are taken of a queue.
//!
//! A picker is a value with two ghost functions: its answer to a want, and the picker that it is from
//! then on. `take_by` thereby has one exact clause for all pickers, which a closure with a changing
//! state could not have.
ghost use Rattle.std.specs.Prelude.{◌≡◌};
ghost use Rattle.core_base.specs.declared.wants.Want.{Want};
ghost use Rattle.core_base.specs.declared.picks.Pick.{Pick};

use crate::wants::Want;

/// A picker's answer to the want of a waiter.
#[derive(Clone, Copy)]
pub enum Pick {
    /// The waiter is taken.
    Unpark,
    /// The waiter stays, and the next is asked for.
    Skip,
    /// The waiter stays, and so do all after it.
    Stop,
}

/// Picks the waiters of a line that are taken. It is asked for each want from the front, and may
/// remember what it answered.
pub trait Picker {
    /// The answer to a want.
    ghost answer: { Self → Want → Pick };

    /// The picker after it answered this want.
    ghost next: { Self → Want → Self };

    fn pick(&mut self, want: Want) -> Pick
        ensures answer { result ≡ answer self.old want }
        ensures next { self.new ≡ next self.old want };
}
