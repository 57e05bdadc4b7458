//! Why a text is no program.
use lot_program_flow::Answers;
use std::alloc::{AllocError, AllocFailed, Global};
use std::fmt;
use std::fmt::Write;
use thiserror::Error;

/// Why a text is no program.
#[derive(Debug, Drop, Error)]
pub enum TextError {
    /// A line is wrong at a word. It says what is expected there.
    #[error("line {line}: `{word}`: {expected}")]
    Malformed {
        line: u32,
        word: String,
        expected: &'static str,
    },
    /// A line ends where something is expected.
    #[error("line {line}, at its end: {expected}")]
    Short {
        line: u32,
        expected: &'static str,
    },
    /// A line tests whether the last call has answered so, which it never does.
    #[error("line {line}: `{answer}`: {can}")]
    Unanswered {
        line: u32,
        answer: &'static str,
        /// What it can answer.
        can: Answers,
    },
    #[error("line {line}: `{thread}`: this thread has its lines from line {first} on")]
    Twice {
        line: u32,
        thread: usize,
        /// The line of its other block.
        first: u32,
    },
    #[error("no memory")]
    NoMemory,
}

impl From<AllocError> for TextError {
    fn from(_refused: AllocError) -> TextError {
        TextError::NoMemory
    }
}

impl<T: Drop> From<AllocFailed<T>> for TextError {
    fn from(_refused: AllocFailed<T>) -> TextError {
        TextError::NoMemory
    }
}

/// The most bytes of a word that an error shows.
const MOST_SHOWN: usize = 40;

/// A word or a line as an error shows it: with escapes in place of control characters, and without what comes
/// after its first 40 bytes.
#[derive(Clone, Copy, Debug, Drop)]
pub struct Shown<'a>(pub &'a str);

impl fmt::Display for Shown<'_> {
    fn fmt<W: fmt::Write>(&self, f: &mut fmt::Formatter<W>) -> fmt::Result {
        for (at, letter) in self.0.char_indices() {
            if at >= MOST_SHOWN {
                return f.write_str("..");
            }
            if letter.is_control() {
                for escaped in letter.escape_default() {
                    f.write_char(escaped)?;
                }
            } else {
                f.write_char(letter)?;
            }
        }
        Ok(())
    }
}

/// Returns what is wrong with a line at a word, or at its end where the word is empty.
pub fn malformed(alloc: Global, line: u32, word: &str, expected: &'static str) -> TextError {
    if word.is_empty() {
        return TextError::Short { line, expected };
    }
    match format!(in alloc; "{}", Shown(word)) {
        Ok(word) => TextError::Malformed {
            line,
            word,
            expected,
        },
        Err(_) => TextError::NoMemory,
    }
}
