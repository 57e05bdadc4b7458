//! How waiters are moved from one queue to another.
//!
//! A requeue says that it moved no more threads than the capacity, so that a section adds the taken and
//! the moved without a test.

/// The waiters that are moved after the last of another queue.
#[derive(Clone, Copy, Debug, PartialEq, Eq)]
pub enum Requeue {
    /// The first.
    One,
    /// All, in their order.
    All,
    /// All but the first, in their order. The first is taken.
    TakeOneMoveRest,
}
