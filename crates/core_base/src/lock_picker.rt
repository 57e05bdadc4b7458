//! The picker of a reader-writer lock's main queue.
ghost use Rattle.std.specs.Prelude.{◌≡◌};
ghost use Rattle.core_base.specs.Picks.{lock_picker, lock_answer, next_picker};

use crate::picks::{Pick, Picker};
use crate::wants::Want;

/// Picks the threads that are woken by a thread that gives up a right to a reader-writer lock.
#[derive(Clone, Copy)]
pub enum LockPicker {
    /// Every waiter that wants to share, and the first that wants more.
    Anyone { recursive: bool },
    /// Every waiter that wants to share.
    Readers,
    /// Nobody: a writer was picked, and none may pass it.
    Nobody,
}

impl LockPicker {
    /// Makes the picker of a thread that keeps a right of its own, or none. A thread that keeps the
    /// upgradable or the exclusive right wakes readers alone.
    pub fn new(start: Option<Want>, recursive: bool) -> LockPicker
        ensures { result ≡ lock_picker start recursive }
    {
        match start {
            Some(Want::Exclusive | Want::Upgradable) => LockPicker::Readers,
            _ => LockPicker::Anyone { recursive },
        }
    }
}

impl Picker for LockPicker {
    ghost answer = { lock_answer };

    ghost next = { next_picker };

    fn pick(&mut self, want: Want) -> Pick {
        match (*self, want) {
            (LockPicker::Nobody, _) => Pick::Stop,
            (_, Want::Shared) => Pick::Unpark,
            (LockPicker::Readers, _) => Pick::Skip,
            (LockPicker::Anyone { recursive: false }, Want::Exclusive) => {
                *self = LockPicker::Nobody;
                Pick::Unpark
            }
            (LockPicker::Anyone { recursive: _ }, _) => {
                *self = LockPicker::Readers;
                Pick::Unpark
            }
        }
    }
}
