//! Lines of a program's text, and what each is to those beside it.

/// A line, with its number in the whole text.
#[derive(Clone, Copy, Debug, PartialEq, Eq)]
pub(crate) struct Line<'t> {
    pub number: u32,
    /// The line without its comment, with the spaces before it.
    pub text: &'t str,
    pub sort: LineSort,
}

/// What a line is, as far as that matters to what is left out.
#[derive(Clone, Copy, Debug, PartialEq, Eq)]
pub(crate) enum LineSort {
    /// `threads N`.
    First,
    /// A lock, a variable or a constant.
    Declared,
    /// `thread T ..`: a bit for each thread.
    Threads { runners: u8 },
    /// `thread NAME ..`.
    Named,
    Property,
    /// A property that names lines, which stay.
    Never,
    /// The first line of a block, but for `repeat`.
    Opens,
    Repeats { times: u32 },
    /// `else`, or `or`.
    Parts,
    /// The last line of a block.
    Closes,
    Acquires,
    /// The call turns a right into another, or gives it up for a while.
    Converts,
    Releases,
    Asserts,
    /// The line changes a variable, waits or notifies.
    Acts,
}

impl<'t> Line<'t> {
    /// Returns a line of a text, or none where it has only a comment.
    pub fn new(number: u32, line: &'t str) -> Option<Line<'t>> {
        let text = match line.split_once('#') {
            Some((before, _)) => before.trim_end(),
            None => line.trim_end(),
        };
        let word = text.split_whitespace().next()?;
        Some(Line {
            number,
            text,
            sort: sort_of(word, text),
        })
    }

    /// Returns a word of the line, or the empty word past the last.
    pub fn word(&self, at: usize) -> &'t str {
        self.text.split_whitespace().nth(at).unwrap_or("")
    }

    /// Answers whether the line begins a block.
    pub fn opens(&self) -> bool {
        matches!(self.sort, LineSort::Opens | LineSort::Repeats { .. })
    }

    /// Answers whether the line is none of a thread's instructions.
    pub fn ends_section(&self) -> bool {
        matches!(
            self.sort,
            LineSort::Threads { .. } | LineSort::Named | LineSort::Property | LineSort::Never
        )
    }

    /// Answers whether the line begins a block that runs by the answer of the call before it.
    pub fn tests_answer(&self) -> bool {
        self.word(0) == "if" && !matches!(self.word(2), "=" | "/=" | "<" | "<=" | ">" | ">=")
    }
}

// Returns what a line is that begins with a word.
fn sort_of(word: &str, text: &str) -> LineSort {
    match word {
        "threads" => LineSort::First,
        "lock" if is_declared(text) => LineSort::Declared,
        "var" | "const" | "own" => LineSort::Declared,
        "thread" => match runners_in(text) {
            0 => LineSort::Named,
            runners => LineSort::Threads { runners },
        },
        "always" | "finally" | "ends" => LineSort::Property,
        "never" => LineSort::Never,
        "while" | "if" | "loop" | "either" | "call_once" | "call_once_force" => LineSort::Opens,
        "repeat" => LineSort::Repeats {
            times: number_in(text, 1),
        },
        "else" | "or" => LineSort::Parts,
        "end" | "ok" | "err" => LineSort::Closes,
        "assert" => LineSort::Asserts,
        _ => call_sort(word),
    }
}

// Answers whether a line that begins with `lock` declares one: such a line has a kind, too.
fn is_declared(text: &str) -> bool {
    text.split_whitespace().nth(2).is_some()
}

fn call_sort(word: &str) -> LineSort {
    let is_one_of = |begins: &[&str]| begins.iter().any(|begin| word.starts_with(*begin));
    if is_one_of(&["downgrade", "upgrade", "try_upgrade", "bump"])
        && !word.starts_with("upgradable")
    {
        LineSort::Converts
    } else if is_one_of(&["unlock", "release"]) {
        LineSort::Releases
    } else if is_one_of(&["lock", "try_", "read", "upgradable", "write", "acquire"]) {
        LineSort::Acquires
    } else {
        LineSort::Acts
    }
}

// Returns the threads of a line `thread T ..`, or none where they have a name.
fn runners_in(text: &str) -> u8 {
    let mut runners: u8 = 0;
    for word in text.split_whitespace().skip(1) {
        if word.starts_with(char::is_alphabetic) {
            return 0;
        }
        runners |= match word.parse::<u32>() {
            Ok(thread) => bit_of(thread),
            Err(_) => 0,
        };
    }
    runners
}

/// Returns the bit of a thread. There are eight threads at most.
pub(crate) fn bit_of(thread: u32) -> u8 {
    1u8.wrapping_shl(thread & 7)
}

fn number_in(text: &str, at: usize) -> u32 {
    let word = text.split_whitespace().nth(at).unwrap_or("");
    word.parse::<u32>().unwrap_or(0)
}
