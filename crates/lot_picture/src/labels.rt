//! What the threads of a picture are called.
use std::fmt;

/// The name of a thread, or its number.
#[derive(Clone, Copy, Drop)]
pub struct ThreadLabel<'a> {
    pub name: Option<&'a str>,
    pub thread: usize,
}

impl fmt::Display for ThreadLabel<'_> {
    fn fmt<W: fmt::Write>(&self, f: &mut fmt::Formatter<W>) -> fmt::Result {
        match self.name {
            Some(name) => f.write_str(name),
            None => write!(f, "thread {}", self.thread),
        }
    }
}
