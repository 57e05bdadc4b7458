//! The words on which a call steps.
ghost use Rattle.std.specs.Prelude.{◌≡◌};
ghost use Rattle.run_base.specs.Words.{single_word, word_pair, word_among};

use parking_lot_core::Word;

/// The word of a lock, and where a call steps on the word of a second lock, that one too.
#[derive(Clone, Copy)]
pub struct Words {
    one: Word,
    other: Option<Word>,
}

impl Words {
    /// Returns the words of a call that steps on one word, which stands for any lock's.
    pub fn alone(word: Word) -> Words
        ensures { result ≡ single_word word }
    {
        Words {
            one: word,
            other: None,
        }
    }

    /// Returns the words of a call that steps on two: the second where its own lock's number is
    /// asked for, and else the first.
    pub fn both(word: Word, other: Word) -> Words
        ensures { result ≡ word_pair word other }
    {
        Words {
            one: word,
            other: Some(other),
        }
    }

    /// Returns the word of the lock of this number.
    pub(crate) fn of(self, lock: usize) -> Word
        ensures { result ≡ word_among self lock }
    {
        match self.other {
            Some(other) if other.number() == lock => other,
            _ => self.one,
        }
    }
}
