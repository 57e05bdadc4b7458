//! The words of a line, and the numbers, tests and answers that they spell.
ghost use Rattle.std.specs.Prelude.{◌≤◌, IfSome};

use lot_program::{Comparison, Told};
use std::alloc::{AllocError, Global};

/// The greatest number that a text has.
pub const MOST_NUMBER: u64 = 4294967295;

/// The most words that a line of a call or a lock has, its leading words included.
const MOST_WORDS: usize = 5;

/// Returns a line without its comment.
pub fn without_comment(line: &str) -> &str {
    match line.split_once('#') {
        Some((before, _)) => before,
        None => line,
    }
}

/// Returns the words of a line, or the empty list of one that has only a comment.
pub fn words_of(alloc: Global, line: &str) -> Result<Vec<&str>, AllocError> {
    without_comment(line).split_whitespace().collect(alloc)
}

/// Returns the word at a place, or the empty word past the last.
pub fn word_at<'w>(words: &[&'w str], at: usize) -> &'w str {
    match words.get(at) {
        Some(word) => word,
        None => "",
    }
}

/// Returns the number that a word spells as it would be printed, up to a greatest one.
pub fn number(word: &str, most: u64) -> Option<u64>
    ensures { IfSome result (λ number. number ≤ most) }
{
    let plain = word == "0" || !word.starts_with('0');
    if !plain || word.starts_with('+') {
        return None;
    }
    match word.parse::<u64>() {
        Ok(number) if number <= most => Some(number),
        _ => None,
    }
}

/// Returns the comparison that a word names.
pub fn comparison(word: &str) -> Option<Comparison> {
    match word {
        "=" => Some(Comparison::Equal),
        "/=" => Some(Comparison::Unequal),
        "<" => Some(Comparison::Less),
        "<=" => Some(Comparison::AtMost),
        ">" => Some(Comparison::Greater),
        ">=" => Some(Comparison::AtLeast),
        _ => None,
    }
}

/// Returns what a call has told, by one word or two.
pub fn told(first: &str, second: &str) -> Option<Told> {
    match (first, second) {
        ("ok", "") => Some(Told::Ok),
        ("yes", "") => Some(Told::Yes),
        ("no", "") => Some(Told::No),
        ("readers", "full") => Some(Told::ReadersFull),
        ("notified", "") => Some(Told::Notified),
        ("timed", "out") => Some(Told::TimedOut),
        ("two", "mutexes") => Some(Told::TwoMutexes),
        ("poisoned", "") => Some(Told::Poisoned),
        ("failed", "") => Some(Told::Failed),
        _ => None,
    }
}

/// Returns some words as a line of a schedule has them: a beginning, and then each word after one
/// space.
pub fn line_of(alloc: Global, beginning: &str, words: &[&str]) -> Result<String, AllocError> {
    let mut line = String::from_str(alloc, beginning)?;
    for word in words.iter().take(MOST_WORDS) {
        if !line.is_empty() {
            line.push(' ')?;
        }
        line.push_str(word)?;
    }
    Ok(line)
}
