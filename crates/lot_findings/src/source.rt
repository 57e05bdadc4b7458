//! A program with its text.
use lot_explore::Wrong;
use lot_program::Property;
use lot_program_text::{ProgramText, ThreadName};
use lot_text::Name;

/// A program with its text.
#[derive(Clone, Copy, Drop)]
pub struct Source<'a> {
    pub parsed: &'a ProgramText,
    pub text: &'a str,
    /// The lines of the text that this one was made from, and hasn't got, by their numbers there.
    pub left_out: &'a [u32],
}

impl<'a> Source<'a> {
    /// Returns a line of the text, from 1 on, without spaces and comment.
    pub fn line(&self, number: u32) -> &'a str {
        let line = self
            .text
            .split('\n')
            .nth((number as usize).saturating_sub(1))
            .unwrap_or("");
        match line.split_once('#') {
            Some((before, _)) => before.trim(),
            None => line.trim(),
        }
    }

    /// Returns the name of a lock.
    pub fn lock_name(&self, lock: usize) -> &'a str {
        text_of(self.parsed.locks.as_slice(), lock)
    }

    /// Returns a word for what is wrong.
    pub fn word(&self, wrong: Option<Wrong>) -> &'static str {
        match wrong {
            None => "nothing",
            Some(Wrong::Deadlock) => "deadlock",
            Some(Wrong::Refused { .. }) => "refused",
            Some(Wrong::Failed { .. }) => "assert",
            Some(Wrong::Broken { property }) => {
                match self.parsed.program.properties.get(property) {
                    Some(Property::Always(_)) => "always",
                    Some(Property::Finally(_)) => "finally",
                    Some(Property::Never { .. }) | None => "never",
                }
            }
        }
    }

    /// Returns the name of a variable. Those of single threads may have one name.
    pub fn variable_name(&self, variable: usize) -> &'a str {
        match self.parsed.variables.get(variable) {
            Some(variable) => std::str::from_utf8(variable.name.text()).unwrap_or(""),
            None => "",
        }
    }

    /// Returns the thread whose own a variable is, if it is not shared.
    pub fn owner(&self, variable: usize) -> Option<usize> {
        self.parsed.variables.get(variable)?.owner
    }

    /// Returns what a thread is called.
    pub fn thread_name(&self, thread: usize) -> ThreadName<'a> {
        self.parsed.thread_name(thread)
    }
}

fn text_of(names: &[Name], number: usize) -> &str {
    match names.get(number) {
        Some(name) => std::str::from_utf8(name.text()).unwrap_or(""),
        None => "",
    }
}
