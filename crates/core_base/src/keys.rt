//! The keys under which threads wait.
//!
//! A key is a number that the numbers of words fix. `main_key` and `second_key` are the only ways by
//! which this repository makes one.
ghost use Rattle.std.specs.Prelude.{◌≡◌, ◌+◌, ◌*◌, ◌<◌, ◌^◌};
ghost use Rattle.core_base.specs.Keys.{key_of};

/// A queue's number. The word `w` has the keys `2 * w` and `2 * w + 1`.
pub type Key = usize;

/// The keys whose sections an act enters or leaves together. Two keys differ.
#[derive(Clone, Copy, Debug, PartialEq, Eq)]
pub enum Keys {
    One(Key),
    Two(Key, Key),
}

/// The two queues of a word.
#[derive(Clone, Copy, Debug, PartialEq, Eq)]
pub enum Line {
    Main,
    /// The queue of the writer that waits for the last readers.
    Second,
}

impl Line {
    /// Returns the key of this queue of a word.
    pub fn key(self, word: usize) -> Key
        requires { 2 * word + 1 < 2 ^ 64 }
        ensures { result ≡ key_of word self }
    {
        match self {
            Line::Main => main_key(word),
            Line::Second => second_key(word),
        }
    }
}

/// Returns the key of a word's main queue.
pub fn main_key(word: usize) -> Key
    requires { 2 * word + 1 < 2 ^ 64 }
    ensures { result ≡ 2 * word }
{
    word * 2
}

/// Returns the key of the queue of the writer that waits for the last readers.
pub fn second_key(word: usize) -> Key
    requires { 2 * word + 1 < 2 ^ 64 }
    ensures { result ≡ 2 * word + 1 }
{
    main_key(word) + 1
}
