//! How the program ends.

/// All schedules were searched, and nothing was found.
pub const NOTHING: u8 = 0;

/// A schedule goes wrong.
pub const FOUND: u8 = 1;

/// The program or the arguments are malformed.
pub const MALFORMED: u8 = 2;

/// A limit was reached, or memory was refused.
pub const NOT_ALL: u8 = 3;

/// A device failed.
pub const BROKEN: u8 = 4;
