//! Why a line has no meaning.
//!
//! Whether a word is good is asked of `meaning`, in a short line that has it: there is no table of
//! words here.
use arrayvec::ArrayVec;
use lot_text::{LINE_LEN, Name, meaning};
use std::fmt;

/// Why a line has no meaning.
#[derive(Clone, Copy, Debug, PartialEq, Eq)]
pub enum FormCause {
    /// The line has more bytes than a line may have.
    TooLong,
    /// The bytes of the line are no text.
    NotText,
    /// The line is empty, or two spaces are together, or one begins or ends it.
    Spaces,
    /// No line begins with this word.
    FirstWord,
    /// A word is no number.
    Number,
    /// The line ends where a word is wanted.
    Short,
    /// The line goes on after its last word.
    TooMany,
    /// A word is no name.
    Name,
    /// No lock has this kind.
    Kind,
    /// A semaphore says no permits.
    NoPermits,
    /// A lock that has no limit and no permits says a number.
    NoLimit,
    /// No thread takes such a turn.
    Turn,
    /// A turn that begins no call names something.
    TurnAlone,
    /// No lock has such a call.
    Call,
    /// A call that is no wait names a mutex after its lock.
    SecondName,
}

/// Why a line has no meaning, and at which word: the empty one at its end.
#[derive(Clone, Copy, Debug, PartialEq, Eq)]
pub struct FormFlaw<'a> {
    pub cause: FormCause,
    pub word: &'a str,
}

impl FormCause {
    /// Says what is expected.
    pub fn expected(self) -> &'static str {
        match self {
            FormCause::TooLong => "a line has at most 128 bytes",
            FormCause::NotText => "a line is text",
            FormCause::Spaces => "a line has words, and one space between two of them",
            FormCause::FirstWord => {
                "a line begins with threads, lock, show, drain or a thread's number"
            }
            FormCause::Number => "a number has 1 to 19 digits, and no 0 before others",
            FormCause::Short => {
                "the line ends too soon: it is like `threads 3`, `lock m mutex`, `0 go` or \
                 `0 do lock m`"
            }
            FormCause::TooMany => "the end of the line is expected",
            FormCause::Name => "a name is a lower-case letter and up to 15 letters or digits",
            FormCause::Kind => {
                "a kind is mutex, fair, condvar, once, rwlock [READERS], recursive [READERS] or \
                 semaphore PERMITS"
            }
            FormCause::NoPermits => "a semaphore says its permits, as in `lock s semaphore 2`",
            FormCause::NoLimit => "only rwlock, recursive and semaphore have a number",
            FormCause::Turn => "a turn is begin, do, go, solo, spin, late, ok or err",
            FormCause::TurnAlone => "after go, solo, spin, late, ok and err the line ends",
            FormCause::Call => "no lock has such a call",
            FormCause::SecondName => "only wait and wait_timed name a mutex after the lock",
        }
    }
}

impl fmt::Display for FormFlaw<'_> {
    fn fmt<W: fmt::Write>(&self, f: &mut fmt::Formatter<W>) -> fmt::Result {
        let expected = self.cause.expected();
        if self.word.is_empty() {
            write!(f, "{expected}")
        } else {
            write!(f, "`{}`: {expected}", self.word)
        }
    }
}

/// Returns why a line that has no meaning has none.
pub fn form_flaw(line: &[u8]) -> FormFlaw<'_> {
    if line.len() > LINE_LEN {
        return flaw("", FormCause::TooLong);
    }
    let Ok(text) = std::str::from_utf8(line) else {
        return flaw("", FormCause::NotText);
    };
    if text.split(' ').any(|word| word.is_empty()) {
        return flaw("", FormCause::Spaces);
    }
    let first = word_at(text, 0);
    match first {
        "show" | "drain" => flaw(word_at(text, 1), FormCause::TooMany),
        "threads" => count_flaw(text),
        "lock" => lock_flaw(text),
        _ if is_number(first) => turn_flaw(text),
        _ => flaw(first, FormCause::FirstWord),
    }
}

fn flaw(word: &str, cause: FormCause) -> FormFlaw<'_> {
    FormFlaw { cause, word }
}

/// Returns a word by its number, or the empty one past the last.
fn word_at(text: &str, at: usize) -> &str {
    text.split(' ').nth(at).unwrap_or("")
}

// Returns whether a line of these words has a meaning.
fn has_meaning(words: &[&str]) -> bool {
    let mut line = ArrayVec::<u8, LINE_LEN>::new();
    for word in words {
        let space = if line.is_empty() { "" } else { " " };
        if line.try_extend_from_slice(space.as_bytes()).is_err()
            || line.try_extend_from_slice(word.as_bytes()).is_err()
        {
            return false;
        }
    }
    meaning(line.as_slice()).is_some()
}

fn is_number(word: &str) -> bool {
    has_meaning(&["threads", word])
}

fn is_name(word: &str) -> bool {
    Name::from_word(word.as_bytes()).is_some()
}

// Returns what is wrong with a line that begins with `threads`.
fn count_flaw(text: &str) -> FormFlaw<'_> {
    let (count, more) = (word_at(text, 1), word_at(text, 2));
    if count.is_empty() {
        flaw("", FormCause::Short)
    } else if is_number(count) {
        flaw(more, FormCause::TooMany)
    } else {
        flaw(count, FormCause::Number)
    }
}

// Returns what is wrong with a line that begins with `lock`.
fn lock_flaw(text: &str) -> FormFlaw<'_> {
    let (name, kind) = (word_at(text, 1), word_at(text, 2));
    let (limit, more) = (word_at(text, 3), word_at(text, 4));
    if name.is_empty() || (kind.is_empty() && is_name(name)) {
        return flaw("", FormCause::Short);
    }
    if !is_name(name) {
        return flaw(name, FormCause::Name);
    }
    let is_limited = has_meaning(&["lock", "m", kind, "1"]);
    if !is_limited && !has_meaning(&["lock", "m", kind]) {
        return flaw(kind, FormCause::Kind);
    }
    if limit.is_empty() {
        return flaw("", FormCause::NoPermits);
    }
    if !is_limited {
        return flaw(limit, FormCause::NoLimit);
    }
    if is_number(limit) {
        flaw(more, FormCause::TooMany)
    } else {
        flaw(limit, FormCause::Number)
    }
}

// Returns what is wrong with a line that begins with a number.
fn turn_flaw(text: &str) -> FormFlaw<'_> {
    let (turn, call) = (word_at(text, 1), word_at(text, 2));
    if turn == "begin" || turn == "do" {
        return call_flaw(text);
    }
    if turn.is_empty() {
        flaw("", FormCause::Short)
    } else if has_meaning(&["0", turn]) {
        flaw(call, FormCause::TurnAlone)
    } else {
        flaw(turn, FormCause::Turn)
    }
}

// Returns what is wrong with a line of a call.
fn call_flaw(text: &str) -> FormFlaw<'_> {
    let (call, name) = (word_at(text, 2), word_at(text, 3));
    let (mutex, more) = (word_at(text, 4), word_at(text, 5));
    if call.is_empty() {
        return flaw("", FormCause::Short);
    }
    if !has_meaning(&["0", "begin", call, "m"]) {
        return flaw(call, FormCause::Call);
    }
    if name.is_empty() {
        return flaw("", FormCause::Short);
    }
    if !is_name(name) {
        return flaw(name, FormCause::Name);
    }
    if !has_meaning(&["0", "begin", call, "m", "m"]) {
        return flaw(mutex, FormCause::SecondName);
    }
    if is_name(mutex) {
        flaw(more, FormCause::TooMany)
    } else {
        flaw(mutex, FormCause::Name)
    }
}
