//! How a call ends.
//!
//! Status 5 is the library's own; 4 is for memory that was refused for the text, as for a device that
//! failed there.

/// All schedules were searched, and nothing was found.
pub const NOTHING: u8 = 0;

/// A schedule goes wrong.
pub const FOUND: u8 = 1;

/// The program is malformed.
pub const MALFORMED: u8 = 2;

/// A limit was reached, or memory was refused.
pub const NOT_ALL: u8 = 3;

/// Memory was refused for the text.
pub const BROKEN: u8 = 4;

/// The caller's buffer is too short for the text.
pub const NO_ROOM: u32 = 5;
