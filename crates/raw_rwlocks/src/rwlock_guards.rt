//! The guards of raw reader-writer locks. Each is spent by what gives its right up or turns it into
//! another; it borrows nothing, and can't be dropped.
use parking_lot_core::Held;

/// The right to read.
pub struct RawSharedGuard {
    pub(crate) right: Held,
}

/// The right to read, and to own alone later.
pub struct RawUpgradableGuard {
    pub(crate) right: Held,
}

/// The right of a thread that owns the lock alone.
pub struct RawExclusiveGuard {
    pub(crate) right: Held,
}
