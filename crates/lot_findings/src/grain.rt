//! How long a turn of a thread goes on.
use lot_program::{Deadlines, Grain, Program};
use std::fmt;

/// How long a turn of a thread goes on.
#[derive(Clone, Copy, Debug, PartialEq, Eq)]
pub enum GrainName {
    Step,
    Turns,
    Call,
}

/// How threads take turns: how long one goes on, and whether deadlines pass.
#[derive(Clone, Copy, Debug, PartialEq, Eq)]
pub struct Turns {
    pub grain: GrainName,
    pub deadlines: Deadlines,
}

impl GrainName {
    /// Returns the word that asks for it.
    pub fn word(self) -> &'static str {
        match self {
            GrainName::Step => "step",
            GrainName::Turns => "turns",
            GrainName::Call => "call",
        }
    }

    /// Returns the grain that a word asks for, or none.
    pub fn of_word(word: &str) -> Option<GrainName> {
        match word {
            "step" => Some(GrainName::Step),
            "turns" => Some(GrainName::Turns),
            "call" => Some(GrainName::Call),
            _ => None,
        }
    }

    /// Returns what its turns are.
    pub fn plural(self) -> &'static str {
        match self {
            GrainName::Step => "steps",
            GrainName::Turns => "turns",
            GrainName::Call => "calls",
        }
    }

    /// Returns of which turns a search by this grain speaks: whole turns miss nothing that single steps
    /// lead to.
    pub fn reach(self) -> &'static str {
        match self {
            GrainName::Step | GrainName::Turns => "single steps",
            GrainName::Call => "whole calls",
        }
    }
}

impl Turns {
    /// Lets the threads of a program take their turns so.
    pub fn set(self, program: &mut Program) {
        program.deadlines = self.deadlines;
        program.grain = match self.grain {
            GrainName::Step => Grain::Steps,
            GrainName::Turns => Grain::Turns,
            GrainName::Call => Grain::Calls,
        };
    }
}

impl fmt::Display for GrainName {
    fn fmt<W: fmt::Write>(&self, f: &mut fmt::Formatter<W>) -> fmt::Result {
        f.write_str(self.word())
    }
}
