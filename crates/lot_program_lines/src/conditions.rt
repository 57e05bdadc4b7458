//! Variables, values, and conditions of them.
use crate::malformed::{TextError, malformed};
use crate::names::{Constants, Variables};
use crate::words::{MOST_NUMBER, comparison, word_at};
use lot_program::{Condition, Test, Value};
use lot_text::Name;
use std::alloc::Global;

/// What the words of a line can name.
#[derive(Clone, Copy, Drop)]
pub struct Scope<'a> {
    pub alloc: Global,
    pub line: u32,
    pub variables: &'a Variables,
    pub constants: &'a Constants,
}

impl Scope<'_> {
    fn wrong(&self, word: &str, expected: &'static str) -> TextError {
        malformed(self.alloc, self.line, word, expected)
    }

    /// Returns the number of the variable that a word names.
    pub fn variable(&self, word: &str) -> Result<usize, TextError> {
        let name = Name::from_word(word.as_bytes());
        match name.and_then(|name| self.variables.find(name)) {
            Some(variable) => Ok(variable),
            None if word.is_empty() => Err(self.wrong(word, "a variable")),
            None => Err(self.wrong(word, "no variable has this name")),
        }
    }

    /// Returns the value that a word spells: a number, or what a variable has.
    pub fn value(&self, word: &str) -> Result<Value, TextError> {
        if let Some(number) = self.constants.number(word, MOST_NUMBER) {
            return Ok(Value::Number(number as u32));
        }
        let name = Name::from_word(word.as_bytes());
        match name.and_then(|name| self.variables.find(name)) {
            Some(variable) => Ok(Value::Variable(variable)),
            None => Err(self.wrong(word, "a number, 0 to 4294967295, or a variable")),
        }
    }

    /// Returns the test that three words from a place on spell.
    fn test(&self, words: &[&str], at: usize) -> Result<Test, TextError> {
        let variable = self.variable(word_at(words, at))?;
        let word = word_at(words, at.wrapping_add(1));
        let Some(comparison) = comparison(word) else {
            return Err(self.wrong(word, "one of = /= < <= > >=, as in `while full = 1`"));
        };
        let value = self.value(word_at(words, at.wrapping_add(2)))?;
        Ok(Test {
            variable,
            comparison,
            value,
        })
    }

    /// Returns the condition that the words after the first spell: tests with `and` and `or` between.
    pub fn condition(&self, words: &[&str]) -> Result<Condition, TextError> {
        let mut alternatives = Vec::new(self.alloc);
        let mut tests = Vec::new(self.alloc);
        let mut at: usize = 1;
        for _ in 0..words.len() {
            tests.push(self.test(words, at)?)?;
            match word_at(words, at.wrapping_add(3)) {
                "" => break,
                "and" => {}
                "or" => {
                    alternatives.push(tests)?;
                    tests = Vec::new(self.alloc);
                }
                word => return Err(self.wrong(word, "`and`, `or`, or the end of the line")),
            }
            at = at.wrapping_add(4);
        }
        alternatives.push(tests)?;
        Ok(Condition { alternatives })
    }
}
