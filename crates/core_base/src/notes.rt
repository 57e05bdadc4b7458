//! How a waiter is woken.

/// The wake note of a waiter that was taken from its queue.
#[derive(Clone, Copy, Debug, PartialEq, Eq)]
pub enum Note {
    /// The thread that is woken tries again.
    Normal,
    /// The thread that is woken owns already what it waited for.
    HandOff,
}
