//! What a program's states are said to be: `always`, `finally` and `never`.
use lot_program::{Property, Station};
use lot_program_lines::malformed::malformed;
use lot_program_lines::words::{MOST_NUMBER, number, word_at};
use lot_program_lines::{Scope, TextError, Threads};

/// The threads, and the lines of the instructions of each.
#[derive(Clone, Copy, Drop)]
pub(crate) struct Stations<'a> {
    pub scope: Scope<'a>,
    pub threads: &'a Threads,
    pub lines: &'a [Vec<u32>],
}

/// A station, and the place of the word after it.
struct StationWords {
    station: Station,
    after: usize,
}

impl Stations<'_> {
    fn wrong(&self, word: &str, expected: &'static str) -> TextError {
        malformed(self.scope.alloc, self.scope.line, word, expected)
    }

    /// Returns the property that a line spells.
    pub(crate) fn property(&self, words: &[&str]) -> Result<Property, TextError> {
        match word_at(words, 0) {
            "always" => Ok(Property::Always(self.scope.condition(words)?)),
            "finally" => Ok(Property::Finally(self.scope.condition(words)?)),
            _ => self.never(words),
        }
    }

    // Returns the property of a line `never T at LINE U at LINE`.
    fn never(&self, words: &[&str]) -> Result<Property, TextError> {
        let StationWords {
            station: first,
            after: middle,
        } = self.station(words, 1)?;
        let StationWords {
            station: second,
            after,
        } = self.station(words, middle)?;
        if first.thread == second.thread {
            let expected = "another thread, as in `never 0 at 7 1 at 7`";
            return Err(self.wrong(word_at(words, middle), expected));
        }
        if words.len() > after {
            return Err(self.wrong(word_at(words, after), "the end of the line"));
        }
        Ok(Property::Never { first, second })
    }

    // The station of some words `T at LINE`, of which this is the place of the first.
    fn station(&self, words: &[&str], first: usize) -> Result<StationWords, TextError> {
        let Some(named) = self.threads.find(words, first) else {
            let expected = "a thread, as in `never 0 at 7 1 at 7` or `never a at 7 b 2 at 9`";
            return Err(self.wrong(word_at(words, first), expected));
        };
        let (at, label) = (
            word_at(words, named.after),
            word_at(words, named.after.wrapping_add(1)),
        );
        if at != "at" {
            return Err(self.wrong(at, "`at`, as in `never 0 at 7 1 at 7`"));
        }
        let after = named.after.wrapping_add(2);
        match self.station_at(named.thread, label) {
            Some(station) => Ok(StationWords { station, after }),
            None => {
                let expected = "a line of one of the thread's instructions";
                Err(self.wrong(label, expected))
            }
        }
    }

    // The station of a thread at the line that a word spells, if an instruction of its own is of that line.
    fn station_at(&self, thread: usize, label: &str) -> Option<Station> {
        let line = number(label, MOST_NUMBER)? as u32;
        let lines = self.lines.get(thread)?;
        lines.contains(&line).then_some(Station { thread, line })
    }
}
