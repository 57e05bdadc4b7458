//! Why there is no explanation.
use std::io;

/// Why there is no explanation.
#[derive(Clone, Copy, Debug, PartialEq, Eq)]
pub enum Failure {
    /// Memory was refused.
    NoMemory,
    /// The schedule can't be read.
    Unread,
}

/// A text in memory is refused where memory is.
impl From<io::Error> for Failure {
    fn from(_refused: io::Error) -> Failure {
        Failure::NoMemory
    }
}
