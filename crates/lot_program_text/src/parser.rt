//! A program's text, line by line.
ghost use Rattle.std.specs.Prelude.{◌≡◌, None, IfOk};
ghost use Rattle.lot_text.specs.LockNames.{lock_named};

use crate::properties::Stations;
use lot_program::{Deadlines, Grain, Instruction, Program, Property};
use lot_program_flow::{answer_words, unanswered_in};
use lot_program_lines::malformed::malformed;
use lot_program_lines::words::{MOST_NUMBER, line_of, number, told, word_at, words_of};
use lot_program_lines::{
    Block, BlockSort, Constants, Failing, Locks, MOST_CODE, NamedThread, Scope, Section, TextError,
    ThreadName, Threads, Variable, Variables, call, declared, of_runner,
};
use lot_text::{Name, Names};
use spec_locks::{Call, Kind, OnceCall};
use std::alloc::{AllocError, Global};

/// The most threads of a program: as many as a search knows.
pub const MOST_THREADS: u64 = 8;

/// The most locks of a program.
const MOST_LOCKS: usize = 64;

/// The most variables of a program.
const MOST_VARIABLES: usize = 64;

/// The greatest number that a constant is: as many permits as a semaphore may have.
const MOST_CONSTANT: u64 = 1 << 62;

/// A thread of which a line says that it comes to its end.
#[derive(Clone, Copy, Debug, PartialEq, Eq)]
pub struct Ending {
    pub thread: usize,
    pub line: u32,
}

/// A program with the names and lines of its text.
pub struct ProgramText {
    pub program: Program,
    pub locks: Names,
    pub variables: Vec<Variable>,
    /// The threads, where they have names.
    pub threads: Vec<NamedThread>,
    /// The lines of the threads and the locks, as a schedule has them.
    pub header: String,
    /// The line of each property.
    pub property_lines: Vec<u32>,
    pub endings: Vec<Ending>,
    /// The lines that are set aside.
    pub aside: Vec<u32>,
}

// By hand: a derived drop is written out at each exit of each function that owns one.
impl Drop for ProgramText {
    fn drop(self) {
        let ProgramText {
            program: _,
            locks: _,
            variables: _,
            threads: _,
            header: _,
            property_lines: _,
            endings: _,
            aside: _,
        } = self;
    }
}

impl ProgramText {
    /// Returns what a thread is called in words.
    pub fn thread_name(&self, thread: usize) -> ThreadName<'_> {
        match self.threads.get(thread) {
            Some(NamedThread { block, number, of }) => ThreadName::Named {
                block: std::str::from_utf8(block.text()).unwrap_or(""),
                number: *number,
                of: *of,
            },
            None => ThreadName::Numbered(thread),
        }
    }

    /// Leaves out the assertion and the property of a line: the assertion becomes a step that tests nothing.
    ///
    /// # Errors
    ///
    /// `AllocError`, where memory was refused. The program is as before.
    pub fn set_aside(&mut self, line: u32) -> Result<(), AllocError> {
        self.aside.push(line)?;
        self.drop_property(line);
        self.endings.retain(|ending| ending.line != line);
        let Program { code, lines, .. } = &mut self.program;
        for (thread, own) in lines.iter().enumerate() {
            if let Some(code) = code.get_mut(thread) {
                drop_assertion(code.as_mut_slice(), own.as_slice(), line);
            }
        }
        Ok(())
    }

    fn drop_property(&mut self, line: u32) {
        let Some(property) = self.property_lines.iter().position(|own| *own == line) else {
            return;
        };
        if property < self.program.properties.len() && property < self.property_lines.len() {
            self.program.properties.remove(property);
            self.property_lines.remove(property);
        }
    }
}

// Lets the assertions of a line test nothing.
fn drop_assertion(code: &mut [Instruction], lines: &[u32], line: u32) {
    for (at, own) in lines.iter().enumerate() {
        if let Some(instruction) = code.get_mut(at) {
            if *own == line && matches!(*instruction, Instruction::Assert(_)) {
                let target = at.wrapping_add(1);
                *instruction = Instruction::Jump { target };
            }
        }
    }
}

// A text that is read up to a line.
struct Parser {
    alloc: Global,
    // Whether a line was read.
    is_begun: bool,
    threads: Threads,
    locks: Locks,
    lock_lines: Vec<u32>,
    variables: Variables,
    constants: Constants,
    // The lines of the locks, as a schedule has them.
    header: String,
    // The threads that run the section, none before the first `thread` line.
    runners: Vec<usize>,
    // The line of the block of each thread, 0 before it.
    blocks: Vec<u32>,
    section: Section,
    code: Vec<Vec<Instruction>>,
    lines: Vec<Vec<u32>>,
    properties: Vec<Property>,
    property_lines: Vec<u32>,
    endings: Vec<Ending>,
}

// By hand: a derived drop is written out at each exit of each function that owns one.
impl Drop for Parser {
    fn drop(self) {
        let Parser {
            alloc: _,
            is_begun: _,
            threads: _,
            locks: _,
            lock_lines: _,
            variables: _,
            constants: _,
            header: _,
            runners: _,
            blocks: _,
            section: _,
            code: _,
            lines: _,
            properties: _,
            property_lines: _,
            endings: _,
        } = self;
    }
}

/// Reads a program.
///
/// # Errors
///
/// `Malformed`, which names the first line that is wrong, a word of it, and what is expected.
/// `NoMemory`, where memory was refused.
pub fn parse(alloc: Global, text: &str) -> Result<ProgramText, TextError> {
    let mut parser = Parser::new(alloc);
    let mut last = 1u32;
    for line in text.split('\n') {
        let words = words_of(alloc, line)?;
        parser.line(last, words.as_slice())?;
        last = last.wrapping_add(1);
    }
    parser.end(last.wrapping_sub(1))
}

impl Parser {
    fn new(alloc: Global) -> Parser {
        Parser {
            alloc,
            is_begun: false,
            threads: Threads::new(alloc),
            locks: Locks::new(alloc),
            lock_lines: Vec::new(alloc),
            variables: Variables::new(alloc),
            constants: Constants::new(alloc),
            header: String::new(alloc),
            runners: Vec::new(alloc),
            blocks: Vec::new(alloc),
            section: Section::new(alloc),
            code: Vec::new(alloc),
            lines: Vec::new(alloc),
            properties: Vec::new(alloc),
            property_lines: Vec::new(alloc),
            endings: Vec::new(alloc),
        }
    }

    fn wrong(&self, line: u32, word: &str, expected: &'static str) -> TextError {
        malformed(self.alloc, line, word, expected)
    }

    // What the words of a line can name.
    fn scope(&self, line: u32) -> Scope<'_> {
        Scope {
            alloc: self.alloc,
            line,
            variables: &self.variables,
            constants: &self.constants,
        }
    }

    fn line(&mut self, line: u32, words: &[&str]) -> Result<(), TextError> {
        let first = word_at(words, 0);
        if first.is_empty() {
            return Ok(());
        }
        let is_first = !self.is_begun;
        self.is_begun = true;
        match first {
            "threads" if is_first => self.first_line(line, words),
            "always" | "finally" | "never" => self.add_property(line, words),
            "ends" => self.add_ending(line, words),
            _ if !self.properties.is_empty() || !self.endings.is_empty() => {
                let expected = "`always`, `finally`, `never` or `ends`, which end a program";
                Err(self.wrong(line, first, expected))
            }
            "thread" => self.begin_section(line, words),
            _ if self.runners.is_empty() => self.declare(line, first, words),
            "own" => self.declare_own(line, words),
            _ => self.instruction(line, first, words),
        }
    }

    // Reads a line that comes before all threads.
    fn declare(&mut self, line: u32, first: &str, words: &[&str]) -> Result<(), TextError> {
        match first {
            "lock" => self.declare_lock(line, words),
            "var" => self.declare_variable(line, words),
            "const" => self.declare_constant(line, words),
            _ => {
                let expected =
                    "`threads N` on the first line, `lock NAME KIND`, `var NAME NUMBER`, \
                                `const NAME NUMBER`, or `thread`, which comes before instructions";
                Err(self.wrong(line, first, expected))
            }
        }
    }

    fn first_line(&mut self, line: u32, words: &[&str]) -> Result<(), TextError> {
        if words.len() > 2 {
            return Err(self.wrong(line, word_at(words, 2), "the end of the line"));
        }
        match number(word_at(words, 1), MOST_THREADS) {
            Some(threads) if threads != 0 => {
                let threads = threads as usize;
                for _ in 0..threads {
                    self.code.push(Vec::new(self.alloc))?;
                    self.lines.push(Vec::new(self.alloc))?;
                    self.blocks.push(0)?;
                }
                self.threads.numbered = Some(threads);
                Ok(())
            }
            _ => Err(self.wrong(line, word_at(words, 1), "a number of threads, 1 to 8")),
        }
    }

    fn declare_lock(&mut self, line: u32, words: &[&str]) -> Result<(), TextError> {
        match self.constants.find(word_at(words, 3)) {
            Some(number) if words.len() == 4 => {
                let (name, kind) = (word_at(words, 1), word_at(words, 2));
                let text = format!(in self.alloc; "lock {name} {kind} {number}")?;
                let words = words_of(self.alloc, text.as_str())?;
                self.add_lock(line, words.as_slice())
            }
            _ => self.add_lock(line, words),
        }
    }

    fn add_lock(&mut self, line: u32, words: &[&str]) -> Result<(), TextError> {
        let kind = declared(self.alloc, line, words)?;
        let name = self.new_name(line, word_at(words, 1))?;
        if let Some(threads) = self.threads.numbered {
            self.check_kind(line, word_at(words, 3), kind, threads)?;
        }
        if self.locks.kinds.len() >= MOST_LOCKS {
            return Err(self.wrong(line, word_at(words, 1), "at most 64 locks"));
        }
        self.locks.kinds.push(kind)?;
        self.locks.names.push(self.alloc, name)?;
        self.lock_lines.push(line)?;
        let line = line_of(self.alloc, "", words)?;
        self.header.push_str(line.as_str())?;
        self.header.push('\n')?;
        Ok(())
    }

    // Looks at whether a lock of this kind is one for so many threads.
    fn check_kind(
        &self,
        line: u32,
        word: &str,
        kind: Kind,
        threads: usize,
    ) -> Result<(), TextError> {
        if kind.fits(threads) {
            return Ok(());
        }
        let expected = "a reader limit is at least the number of threads, at most 2^60 - 2; \
                        permits are 1 to 2^62";
        Err(self.wrong(line, word, expected))
    }

    // Returns the name that a word spells, which nothing has yet.
    fn new_name(&self, line: u32, word: &str) -> Result<Name, TextError>
        ensures { IfOk result (λ name. lock_named self.now.locks.names name ≡ None) }
    {
        let Some(name) = Name::from_word(word.as_bytes()) else {
            let expected = "a name, which is a lower-case letter and up to 15 letters or digits";
            return Err(self.wrong(line, word, expected));
        };
        let is_number = self.constants.find(word).is_some();
        let is_taken = is_number || self.variables.find(name).is_some();
        if self.locks.names.find(name).is_some() || is_taken || self.threads.has_block(name) {
            let expected = "a name that no lock, variable, constant or thread has yet";
            return Err(self.wrong(line, word, expected));
        }
        Ok(name)
    }

    fn declare_variable(&mut self, line: u32, words: &[&str]) -> Result<(), TextError> {
        let name = self.new_name(line, word_at(words, 1))?;
        let first = self.first_number(line, words)?;
        self.check_room(line, words, 1)?;
        self.variables.push(Variable { name, owner: None }, first)?;
        Ok(())
    }

    // Adds a variable for each thread of the block.
    fn declare_own(&mut self, line: u32, words: &[&str]) -> Result<(), TextError> {
        if !self.section.code.is_empty() {
            let expected = "it comes before all instructions of its threads";
            return Err(self.wrong(line, "own", expected));
        }
        let name = self.new_name(line, word_at(words, 1))?;
        let first = self.first_number(line, words)?;
        self.check_room(line, words, self.runners.len())?;
        for thread in self.runners.iter() {
            let owner = Some(*thread);
            self.variables.push(Variable { name, owner }, first)?;
        }
        Ok(())
    }

    // The first number of the variable of a line.
    fn first_number(&self, line: u32, words: &[&str]) -> Result<u32, TextError> {
        match self.constants.number(word_at(words, 2), MOST_NUMBER) {
            Some(first) if words.len() == 3 => Ok(first as u32),
            _ => {
                let expected = "its first number, 0 to 4294967295, as in `var ready 0`";
                Err(self.wrong(line, word_at(words, 2), expected))
            }
        }
    }

    // Looks at whether so many variables more are allowed.
    fn check_room(&self, line: u32, words: &[&str], more: usize) -> Result<(), TextError> {
        if self.variables.all.len().wrapping_add(more) <= MOST_VARIABLES {
            return Ok(());
        }
        let expected = "at most 64 variables, with those of each thread";
        Err(self.wrong(line, word_at(words, 1), expected))
    }

    fn declare_constant(&mut self, line: u32, words: &[&str]) -> Result<(), TextError> {
        let name = self.new_name(line, word_at(words, 1))?;
        match self.constants.number(word_at(words, 2), MOST_CONSTANT) {
            Some(number) if words.len() == 3 => {
                self.constants.push(name, number)?;
                Ok(())
            }
            _ => {
                let expected = "its number, as in `const most 3`";
                Err(self.wrong(line, word_at(words, 2), expected))
            }
        }
    }

    fn begin_section(&mut self, line: u32, words: &[&str]) -> Result<(), TextError> {
        self.end_section()?;
        match self.threads.numbered {
            Some(threads) => self.begin_numbered(line, words, threads),
            None => self.begin_named(line, words),
        }
    }

    fn begin_numbered(
        &mut self,
        line: u32,
        words: &[&str],
        threads: usize,
    ) -> Result<(), TextError> {
        if words.len() < 2 {
            return Err(self.wrong(line, "", "a thread's number, as in `thread 0`"));
        }
        for word in words.iter().skip(1) {
            match number(word, MOST_THREADS) {
                Some(thread) if (thread as usize) < threads => {
                    self.begin_block(line, thread as usize)?;
                }
                _ => {
                    let expected =
                        "a thread's number, which counts from 0; threads have names where \
                                    no line says `threads N`";
                    return Err(self.wrong(line, word, expected));
                }
            }
        }
        Ok(())
    }

    // Begins the block of some new threads that have its name.
    fn begin_named(&mut self, line: u32, words: &[&str]) -> Result<(), TextError> {
        if Name::from_word(word_at(words, 1).as_bytes()).is_none() {
            let expected = "a name, as in `thread reader 2`; threads have numbers where the first \
                            line is `threads N`";
            return Err(self.wrong(line, word_at(words, 1), expected));
        }
        let block = self.new_name(line, word_at(words, 1))?;
        if words.len() > 3 {
            return Err(self.wrong(line, word_at(words, 3), "the end of the line"));
        }
        let of = match self.constants.number(word_at(words, 2), MOST_THREADS) {
            Some(of) if of != 0 => of as usize,
            None if words.len() == 2 => 1,
            _ => return Err(self.wrong(line, word_at(words, 2), "how many threads, 1 to 8")),
        };
        if self.threads.len().wrapping_add(of) as u64 > MOST_THREADS {
            return Err(self.wrong(line, word_at(words, 1), "at most 8 threads"));
        }
        for number in 0..of {
            let number = number.wrapping_add(1);
            self.runners.push(self.threads.len())?;
            self.threads.named.push(NamedThread { block, number, of })?;
            self.code.push(Vec::new(self.alloc))?;
            self.lines.push(Vec::new(self.alloc))?;
        }
        Ok(())
    }

    // Lets a thread run the section that a line begins.
    fn begin_block(&mut self, line: u32, thread: usize) -> Result<(), TextError> {
        match self.blocks.get_mut(thread) {
            Some(block) if *block == 0 => *block = line,
            Some(block) => {
                let first = *block;
                return Err(TextError::Twice {
                    line,
                    thread,
                    first,
                });
            }
            None => {}
        }
        self.runners.push(thread)?;
        Ok(())
    }

    // Gives the section's instructions to the threads that run it.
    fn end_section(&mut self) -> Result<(), TextError> {
        if let Some(line) = self.section.first_open() {
            return Err(self.wrong(line, "", "the block that begins here has no `end`"));
        }
        let section = std::mem::replace(&mut self.section, Section::new(self.alloc));
        let runners = std::mem::replace(&mut self.runners, Vec::new(self.alloc));
        for (runner, thread) in runners.iter().enumerate() {
            let (Some(code), Some(lines)) = (
                self.code.get_mut(*thread),
                self.lines.get_mut(*thread),
            ) else {
                continue;
            };
            for (instruction, line) in section.code.iter().zip(section.lines.iter()) {
                code.push(of_runner(&self.variables, *instruction, runner))?;
                lines.push(*line)?;
            }
        }
        self.variables.begin_block();
        Ok(())
    }

    // Adds a property, before which the last section ends.
    fn add_property(&mut self, line: u32, words: &[&str]) -> Result<(), TextError> {
        self.end_section()?;
        let stations = Stations {
            scope: self.scope(line),
            threads: &self.threads,
            lines: self.lines.as_slice(),
        };
        let property = stations.property(words)?;
        self.properties.push(property)?;
        self.property_lines.push(line)?;
        Ok(())
    }

    // Adds a thread that is said to come to its end.
    fn add_ending(&mut self, line: u32, words: &[&str]) -> Result<(), TextError> {
        self.end_section()?;
        let Some(named) = self.threads.find(words, 1) else {
            let expected = "a thread, as in `ends 0` or `ends reader 1`";
            return Err(self.wrong(line, word_at(words, 1), expected));
        };
        if words.len() > named.after {
            return Err(self.wrong(line, word_at(words, named.after), "the end of the line"));
        }
        let thread = named.thread;
        self.endings.push(Ending { thread, line })?;
        Ok(())
    }

    // Looks at what can be told only once all is read.
    fn check(&self, last: u32) -> Result<(), TextError> {
        let threads = self.threads.len();
        if threads == 0 {
            let expected = "`threads N` on the first line, as in `threads 3`, or a thread with a \
                            name, as in `thread reader 2`";
            return Err(self.wrong(last, "", expected));
        }
        let names = self.locks.names.as_slice().iter();
        let lines = self.lock_lines.iter().copied();
        for ((kind, name), line) in self.locks.kinds.iter().zip(names).zip(lines) {
            let name = std::str::from_utf8(name.text()).unwrap_or("");
            self.check_kind(line, name, *kind, threads)?;
        }
        for (code, lines) in self.code.iter().zip(self.lines.iter()) {
            let found = unanswered_in(self.alloc, code.as_slice(), lines.as_slice(), last)?;
            if let Some(found) = found {
                return Err(TextError::Unanswered {
                    line: found.line,
                    answer: answer_words(found.told),
                    can: found.can,
                });
            }
        }
        Ok(())
    }

    fn end(mut self, last: u32) -> Result<ProgramText, TextError> {
        self.end_section()?;
        self.check(last)?;
        let header = format!(in self.alloc; "threads {}\n{}", self.threads.len(), self.header)?;
        let Parser {
            alloc,
            is_begun: _,
            threads: Threads { numbered: _, named },
            locks: Locks { names, kinds },
            lock_lines: _,
            variables,
            constants: _,
            header: _,
            runners: _,
            blocks: _,
            section: _,
            code,
            lines,
            properties,
            property_lines,
            endings,
        } = self;
        let (variables, firsts) = variables.into_parts();
        Ok(ProgramText {
            program: Program {
                kinds,
                variables: firsts,
                code,
                lines,
                properties,
                grain: Grain::Steps,
                deadlines: Deadlines::Pass,
            },
            locks: names,
            variables,
            threads: named,
            header,
            property_lines,
            endings,
            aside: Vec::new(alloc),
        })
    }

    fn instruction(&mut self, line: u32, first: &str, words: &[&str]) -> Result<(), TextError> {
        match first {
            "set" => self.set(line, words),
            "add" => self.add(line, words),
            "assert" => self.assert(line, words),
            "while" => self.begin_while(line, words),
            "if" => self.begin_if(line, words),
            "else" => self.begin_else(line, words),
            "either" => self.begin_either(line, words),
            "or" => self.begin_branch(line, words),
            "repeat" => self.begin_repeat(line, words),
            "loop" => self.begin_loop(line, words),
            "break" => self.leave_loop(line, words),
            "end" => self.end_block(line, words),
            "ok" => self.end_closure(line, words, true),
            "err" => self.end_closure(line, words, false),
            _ => self.call(line, words),
        }
    }

    fn set(&mut self, line: u32, words: &[&str]) -> Result<(), TextError> {
        let variable = self.scope(line).variable(word_at(words, 1))?;
        let value = self.scope(line).value(word_at(words, 2))?;
        if words.len() > 3 {
            return Err(self.wrong(line, word_at(words, 3), "the end of the line"));
        }
        self.section
            .push(self.alloc, line, Instruction::Set { variable, value })
    }

    fn add(&mut self, line: u32, words: &[&str]) -> Result<(), TextError> {
        let variable = self.scope(line).variable(word_at(words, 1))?;
        match self.constants.number(word_at(words, 2), MOST_NUMBER) {
            Some(number) if words.len() == 3 => {
                let number = number as u32;
                self.section
                    .push(self.alloc, line, Instruction::Add { variable, number })
            }
            _ => Err(self.wrong(line, word_at(words, 2), "a number, 0 to 4294967295")),
        }
    }

    fn begin_while(&mut self, line: u32, words: &[&str]) -> Result<(), TextError> {
        let condition = self.scope(line).condition(words)?;
        let start = self.section.here();
        self.section.open(line, BlockSort::While { start })?;
        self.section
            .push_tests(self.alloc, line, &condition, Failing::Leaves)
    }

    // Adds a jump past the end of the block that was opened last.
    fn leave_by(&mut self, line: u32, jump: Instruction) -> Result<(), TextError> {
        let at = self.section.here();
        self.section.push(self.alloc, line, jump)?;
        self.section.leave(at)
    }

    fn begin_if(&mut self, line: u32, words: &[&str]) -> Result<(), TextError> {
        if words.len() > 3 {
            let condition = self.scope(line).condition(words)?;
            self.section.open(line, BlockSort::If)?;
            return self
                .section
                .push_tests(self.alloc, line, &condition, Failing::Leaves);
        }
        match told(word_at(words, 1), word_at(words, 2)) {
            Some(told) => {
                self.section.open(line, BlockSort::If)?;
                self.leave_by(line, Instruction::JumpUnlessTold { told, target: 0 })
            }
            None => {
                let expected = "a test as in `full = 1`, or an answer: ok, yes, no, notified, \
                                timed out, readers full, two mutexes, poisoned, failed";
                Err(self.wrong(line, word_at(words, 1), expected))
            }
        }
    }

    fn begin_else(&mut self, line: u32, words: &[&str]) -> Result<(), TextError> {
        let block = self.section.close();
        match block {
            Some(
                Block {
                    line: first,
                    sort: BlockSort::If,
                },
            ) if words.len() == 1 => {
                let jump = self.section.here();
                self.section
                    .push(self.alloc, line, Instruction::Jump { target: 0 })?;
                self.section.aim_exits();
                self.section.open(first, BlockSort::Else)?;
                self.section.leave(jump)
            }
            _ => Err(self.wrong(
                line,
                "else",
                "it is alone on its line, in a block that `if` began",
            )),
        }
    }

    fn begin_either(&mut self, line: u32, words: &[&str]) -> Result<(), TextError> {
        if words.len() > 1 {
            return Err(self.wrong(line, word_at(words, 1), "the end of the line"));
        }
        let choice = self.section.here();
        self.section
            .push(self.alloc, line, Instruction::Either { other: 0 })?;
        let branches = 1;
        self.section
            .open(line, BlockSort::Either { choice, branches })
    }

    fn begin_branch(&mut self, line: u32, words: &[&str]) -> Result<(), TextError> {
        match self.section.close() {
            Some(
                Block {
                    line: first,
                    sort: BlockSort::Either { choice, branches },
                },
            ) if words.len() == 1 => {
                let jump = self.section.here();
                self.section
                    .push(self.alloc, line, Instruction::Jump { target: 0 })?;
                self.section.branch(self.alloc, line, choice, branches)?;
                let branches = branches.wrapping_add(1);
                self.section
                    .open(first, BlockSort::Either { choice, branches })?;
                self.section.leave(jump)
            }
            _ => Err(self.wrong(
                line,
                "or",
                "it is alone on its line, in a block that `either` began",
            )),
        }
    }

    fn begin_repeat(&mut self, line: u32, words: &[&str]) -> Result<(), TextError> {
        match self.constants.number(word_at(words, 1), MOST_CODE as u64) {
            Some(times) if words.len() == 2 => {
                let start = self.section.here();
                let times = times as u32;
                self.section.open(line, BlockSort::Repeat { start, times })
            }
            _ => Err(self.wrong(line, word_at(words, 1), "how often, 0 to 65536")),
        }
    }

    fn begin_loop(&mut self, line: u32, words: &[&str]) -> Result<(), TextError> {
        if words.len() > 1 {
            return Err(self.wrong(line, word_at(words, 1), "the end of the line"));
        }
        let start = self.section.here();
        self.section.open(line, BlockSort::Loop { start })
    }

    fn leave_loop(&mut self, line: u32, words: &[&str]) -> Result<(), TextError> {
        if words.len() > 1 {
            return Err(self.wrong(line, word_at(words, 1), "the end of the line"));
        }
        if self.section.break_out(self.alloc, line)? {
            return Ok(());
        }
        let expected =
            "it is in a block that `while`, `loop` or `repeat` began, and in no closure there";
        Err(self.wrong(line, "break", expected))
    }

    // An assertion of a condition.
    fn assert(&mut self, line: u32, words: &[&str]) -> Result<(), TextError> {
        let condition = self.scope(line).condition(words)?;
        self.section
            .push_tests(self.alloc, line, &condition, Failing::Asserts)
    }

    fn end_block(&mut self, line: u32, words: &[&str]) -> Result<(), TextError> {
        if words.len() > 1 {
            return Err(self.wrong(line, word_at(words, 1), "the end of the line"));
        }
        let Some(Block { line: _, sort }) = self.section.close() else {
            return Err(self.wrong(line, "end", "no block is open here"));
        };
        match sort {
            BlockSort::While { start } | BlockSort::Loop { start } => {
                self.section
                    .push(self.alloc, line, Instruction::Jump { target: start })?;
            }
            BlockSort::Repeat { start, times } => {
                self.section.repeat(self.alloc, start, times)?;
            }
            BlockSort::Closure => {
                return Err(self.wrong(line, "end", "a closure ends by `ok` or `err`"));
            }
            BlockSort::Either {
                choice: _,
                branches: 1,
            } => {
                let expected = "`or` and another branch, which `either` has before its `end`";
                return Err(self.wrong(line, "end", expected));
            }
            BlockSort::If | BlockSort::Else | BlockSort::Either { .. } => {}
        }
        self.section.aim_exits();
        Ok(())
    }

    fn call(&mut self, line: u32, words: &[&str]) -> Result<(), TextError> {
        let call = call(self.alloc, line, words, &self.locks)?;
        self.section
            .push(self.alloc, line, Instruction::Call(call))?;
        if matches!(
            call,
            Call::Once {
                lock: _,
                call: OnceCall::CallOnce { forced: _ }
            }
        ) {
            self.section.open(line, BlockSort::Closure)?;
            self.leave_by(line, Instruction::JumpUnlessRunning { target: 0 })?;
        }
        Ok(())
    }

    fn end_closure(&mut self, line: u32, words: &[&str], succeeded: bool) -> Result<(), TextError> {
        let block = self.section.close();
        match block {
            Some(
                Block {
                    line: _,
                    sort: BlockSort::Closure,
                },
            ) if words.len() == 1 => {
                self.section
                    .push(self.alloc, line, Instruction::Close { succeeded })?;
                self.section.aim_exits();
                Ok(())
            }
            _ => {
                let expected = "it is alone on its line, and ends the closure of a `call_once`";
                Err(self.wrong(line, word_at(words, 0), expected))
            }
        }
    }
}
