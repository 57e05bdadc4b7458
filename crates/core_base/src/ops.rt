//! One operation on one word.
ghost use Rattle.std.specs.Prelude.{◌≡◌};
ghost use Rattle.core_base.specs.Words.{apply};

/// One operation on one word. It answers the value before.
#[derive(Clone, Copy, Debug, PartialEq, Eq)]
pub enum Op {
    Load,
    Store(u64),
    Swap(u64),
    Add(u64),
    Sub(u64),
    Or(u64),
    And(u64),
    /// Stores `to` where the word is `from`.
    Exchange { from: u64, to: u64 },
}

impl Op {
    /// Applies the operation to a word's value, and returns the value after it. Sums and
    /// differences wrap, as those of an atomic word do.
    #[inline]
    pub fn apply(self, seen: u64) -> u64
        ensures { result ≡ apply self seen }
    {
        match self {
            Op::Load => seen,
            Op::Store(value) | Op::Swap(value) => value,
            Op::Add(by) => seen.wrapping_add(by),
            Op::Sub(by) => seen.wrapping_sub(by),
            Op::Or(bits) => seen | bits,
            Op::And(bits) => seen & bits,
            Op::Exchange { from, to } => if seen == from { to } else { seen },
        }
    }
}
