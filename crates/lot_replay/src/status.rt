//! How the process ends.

/// All lines were answered.
pub const DONE: u8 = 0;

/// The arguments or a line are of another form.
pub const MALFORMED: u8 = 2;

/// Memory was refused.
pub const NO_MEMORY: u8 = 3;

/// A read or a write failed.
pub const BROKEN: u8 = 4;
