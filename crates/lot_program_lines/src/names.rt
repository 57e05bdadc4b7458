//! What names stand for: constants, variables and threads.
ghost use Rattle.std.specs.Prelude.{◌≤◌, IfSome};

use crate::words::{number, word_at};
use lot_text::Name;
use std::alloc::{AllocError, Global};
use std::fmt;

/// Numbers, by their names.
#[derive(Drop)]
pub struct Constants {
    names: Vec<Name>,
    numbers: Vec<u64>,
}

impl Constants {
    pub fn new(alloc: Global) -> Constants {
        Constants {
            names: Vec::new(alloc),
            numbers: Vec::new(alloc),
        }
    }

    /// Adds a number with its name.
    pub fn push(&mut self, name: Name, number: u64) -> Result<(), AllocError> {
        self.names.push(name)?;
        self.numbers.push(number)?;
        Ok(())
    }

    /// Returns the number that a word names.
    pub fn find(&self, word: &str) -> Option<u64> {
        let name = Name::from_word(word.as_bytes())?;
        let at = self.names.iter().position(|own| *own == name)?;
        self.numbers.get(at).copied()
    }

    /// Returns the number that a word spells or names, up to a greatest one.
    pub fn number(&self, word: &str, most: u64) -> Option<u64>
        ensures { IfSome result (λ number. number ≤ most) }
    {
        if let Some(spelled) = number(word, most) {
            return Some(spelled);
        }
        match self.find(word) {
            Some(named) if named <= most => Some(named),
            _ => None,
        }
    }
}

/// A variable.
#[derive(Clone, Copy)]
pub struct Variable {
    pub name: Name,
    /// The thread whose own it is, or none where all threads share it.
    pub owner: Option<usize>,
}

/// The variables of a program. Those of a block have a variable for each of its threads, one after another.
#[derive(Drop)]
pub struct Variables {
    pub all: Vec<Variable>,
    pub firsts: Vec<u32>,
    /// How many there were before the block that is read.
    before: usize,
}

impl Variables {
    pub fn new(alloc: Global) -> Variables {
        Variables {
            all: Vec::new(alloc),
            firsts: Vec::new(alloc),
            before: 0,
        }
    }

    /// Adds a variable with its first number.
    pub fn push(&mut self, variable: Variable, first: u32) -> Result<(), AllocError> {
        self.all.push(variable)?;
        self.firsts.push(first)?;
        Ok(())
    }

    /// Returns the variables, and the first number of each.
    pub fn into_parts(self) -> (Vec<Variable>, Vec<u32>) {
        let Variables { all, firsts, .. } = self;
        (all, firsts)
    }

    /// Begins a block, which has none of its own yet.
    pub fn begin_block(&mut self) {
        self.before = self.all.len();
    }

    /// Finds a variable that all threads share, or that of the first thread of the block.
    pub fn find(&self, name: Name) -> Option<usize> {
        self.all.iter().enumerate().position(|(at, variable)| {
            variable.name == name && (variable.owner.is_none() || at >= self.before)
        })
    }

    /// Returns the variable that is for another thread of a block what one is for its first. Threads count from 0.
    pub fn of_runner(&self, variable: usize, runner: usize) -> usize {
        match self.all.get(variable) {
            Some(Variable { owner: Some(_), .. }) => variable.wrapping_add(runner),
            _ => variable,
        }
    }
}

/// A thread that has a name: that of its block, and its number among the threads of the block, from 1 on.
#[derive(Clone, Copy)]
pub struct NamedThread {
    pub block: Name,
    pub number: usize,
    /// How many threads the block has.
    pub of: usize,
}

/// What a thread is called in words.
#[derive(Clone, Copy, Debug, PartialEq, Eq)]
pub enum ThreadName<'a> {
    /// By its number, as in `thread 0`.
    Numbered(usize),
    /// By its block, as in `writer`, or `reader 2`.
    Named {
        block: &'a str,
        number: usize,
        of: usize,
    },
}

impl fmt::Display for ThreadName<'_> {
    fn fmt<W: fmt::Write>(&self, f: &mut fmt::Formatter<W>) -> fmt::Result {
        match *self {
            ThreadName::Numbered(thread) => write!(f, "thread {thread}"),
            ThreadName::Named {
                block,
                number: _,
                of: 1,
            } => write!(f, "{block}"),
            ThreadName::Named {
                block,
                number,
                of: _,
            } => write!(f, "{block} {number}"),
        }
    }
}

/// The threads of a program.
#[derive(Drop)]
pub struct Threads {
    /// How many the first line says that there are. They have numbers then, and else names.
    pub numbered: Option<usize>,
    pub named: Vec<NamedThread>,
}

/// A thread that some words of a line name.
#[derive(Clone, Copy)]
pub struct ThreadWords {
    pub thread: usize,
    /// The place of the next word.
    pub after: usize,
}

impl Threads {
    pub fn new(alloc: Global) -> Threads {
        Threads {
            numbered: None,
            named: Vec::new(alloc),
        }
    }

    /// Returns how many there are so far.
    pub fn len(&self) -> usize {
        self.numbered.unwrap_or(self.named.len())
    }

    /// Answers whether a block has a name.
    pub fn has_block(&self, name: Name) -> bool {
        self.named.iter().any(|thread| thread.block == name)
    }

    /// Returns the thread that the words from a place on name.
    pub fn find(&self, words: &[&str], at: usize) -> Option<ThreadWords> {
        let word = word_at(words, at);
        if let Some(threads) = self.numbered {
            let thread = number(word, 7)? as usize;
            let after = at.wrapping_add(1);
            return (thread < threads).then_some(ThreadWords { thread, after });
        }
        let name = Name::from_word(word.as_bytes())?;
        let first = self.named.iter().position(|thread| thread.block == name)?;
        if self.named.get(first)?.of == 1 {
            let after = at.wrapping_add(1);
            return Some(ThreadWords {
                thread: first,
                after,
            });
        }
        let number = number(word_at(words, at.wrapping_add(1)), 8)? as usize;
        let thread = self
            .named
            .iter()
            .position(|thread| thread.block == name && thread.number == number)?;
        let after = at.wrapping_add(2);
        Some(ThreadWords { thread, after })
    }
}
