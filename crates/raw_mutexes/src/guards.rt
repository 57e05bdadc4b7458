//! The guards of raw mutexes.
//!
//! A raw guard has the permit, whatever the mutex guards, and neither has bytes: to open a value is to
//! take its guard apart, at no cost. There is one form of each call, for mutexes with a value and
//! without.
use parking_lot_core::{OpenHeld, Permit};

/// The ownership of a raw mutex, with the permit of the value that this guards, which its releases
/// spend. It borrows nothing and can't be dropped, and nobody else gets at what it stands for. It
/// has no bytes: which mutex it is of, is known where it is proved.
pub struct RawGuard {
    pub(crate) opened: OpenHeld,
    pub(crate) permit: Permit,
}

/// A guard without the permit.
pub struct OpenGuard {
    pub(crate) opened: OpenHeld,
}
