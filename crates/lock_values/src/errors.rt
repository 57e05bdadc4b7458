//! Why one projection after another finds nothing.

/// Tells which of the two found nothing, with its reason.
#[derive(Clone, Copy, Debug, PartialEq, Eq)]
pub enum ThenError<E, F> {
    First(E),
    Second(F),
}
