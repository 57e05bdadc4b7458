//! The words of a lot, by number and kind.
//!
//! The counter is at place 0 of the table, and the word of number `n` and kind `k` at
//! `8 * (n + 1) + k`: a seat's permission to step rests on its own view alone, and can't rest on the
//! thread that drew a word. The eight places of a number are 64 bytes, so that the words of two locks
//! don't share a cache line. A `Word` keeps its index, so that no step computes it.
//!
//! Words have no `==`: an equality of words of two lots would make the prover take the lots for one.
//! `Word::is_same` compares number and kind, which within one lot are the word.
ghost use Rattle.std.specs.Prelude.{IsTrue, ◌≡◌, ◌<◌, ◌↔◌};
ghost use Rattle.core_words.specs.Indices.{rank, word_index, most_words};

/// The use of a word, which is fixed as the word is drawn.
#[derive(Clone, Copy, Debug, PartialEq, Eq)]
pub enum WordKind {
    Mutex,
    RwLock,
    Condvar,
    Once,
    /// How often a reentrant mutex is locked, and by which thread. It is drawn with the word of its
    /// mutex.
    Count,
    /// A semaphore of so many permits, which the thread that draws the word holds.
    Semaphore { permits: u64 },
}

impl WordKind {
    // Returns which of the eight indices of a number the word has.
    #[inline]
    pub(crate) fn rank(self) -> usize
        ensures { result ≡ rank self }
    {
        match self {
            WordKind::Mutex => 0,
            WordKind::RwLock => 1,
            WordKind::Condvar => 2,
            WordKind::Once => 3,
            WordKind::Count => 4,
            WordKind::Semaphore { .. } => 5,
        }
    }
}

/// A word of a lot: its number there, what it is for, and where it stands. Numbers begin at 0 and
/// are given once.
///
/// Only the lot that drew a word is known to have it: a step with a word of another lot meets no
/// condition. So words are not compared by `==`, which would tell that two lots have one tag.
#[derive(Clone, Copy, Debug)]
pub struct Word {
    number: usize,
    kind: WordKind,
    // The tag of its lot.
    tag: u32,
    // The index in the table, kept so that no step computes it.
    at: usize,
    ghost indexed: { at ≡ word_index number kind },
}

impl Word {
    ghost use Rattle.core_words.specs.RightsOf.{IsSame};

    // Each number has eight indices, so that no two locks share a cache line.
    #[inline]
    pub(crate) fn new(number: usize, kind: WordKind, tag: u32) -> Word
        requires { number < most_words }
        ensures { (result.number ≡ number) × (result.kind ≡ kind) × (result.tag ≡ tag) }
    {
        Word {
            number,
            kind,
            tag,
            at: 8 * (number + 1) + kind.rank(),
        }
    }

    #[inline]
    pub fn number(self) -> usize
        ensures { result ≡ self.number }
    {
        self.number
    }

    #[inline]
    pub fn kind(self) -> WordKind
        ensures { result ≡ self.kind }
    {
        self.kind
    }

    /// Tells whether this word has the number and the kind of another. In one lot they are the same
    /// word then.
    #[inline]
    pub fn is_same(self, other: Word) -> bool
        ensures { IsTrue result ↔ IsSame self other }
    {
        self.number == other.number && self.kind == other.kind
    }

    /// Returns the word's index in the table.
    #[inline]
    pub fn index(self) -> usize
        ensures { result ≡ word_index self.number self.kind }
    {
        self.at
    }
}
