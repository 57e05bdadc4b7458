//! The value of a lock, in print.
//!
//! A lock that as many read as may, or that a thread writes, is shown as `<locked>`, and so is a
//! reentrant mutex whose count is at its limit: `show` returns no fault.
ghost use Rattle.std.specs.Prelude.{◌≡◌, MatchOption};
ghost use Rattle.lock_values.specs.Shown.{Closed, MayClose};

use crate::shows::Shows;
use crate::unlocks::Unlocks;
use std::fmt;
use std::fmt::{Debug, Formatter, Write};
use std::sync::Wait;

/// Names a lock in what is printed of it.
#[derive(Clone, Copy)]
pub enum LockName {
    Mutex,
    RwLock,
    ReentrantMutex,
}

/// Prints a lock's value through the guard that a try got, or `<locked>` where the try failed. It is
/// spent by `close`.
pub struct Shown<G> {
    name: LockName,
    guard: Option<G>,
}

impl<G> Shown<G> {
    /// Makes a value to print, of a guard or of a try that failed.
    pub fn new(name: LockName, guard: Option<G>) -> Shown<G>
        ensures { result.guard ≡ guard }
    {
        Shown { name, guard }
    }
}

impl<G: Unlocks> Shown<G> {
    /// Unlocks, where the try got a guard.
    pub fn close<W: Wait>(self, rt: &W, token: &mut G::Token)
        requires { MayClose self.guard G.may_unlock token.old }
        ensures { Closed self.guard G.unlocked token.old token.new }
    {
        let Shown { name: _, guard } = self;
        if let Some(guard) = guard {
            guard.unlock(rt, token);
        }
    }
}

impl<G: Shows> Debug for Shown<G>
where
    G::Value: Debug,
{
    fn fmt<W: Write>(&self, f: &mut Formatter<W>) -> fmt::Result {
        let name = match self.name {
            LockName::Mutex => "Mutex",
            LockName::RwLock => "RwLock",
            LockName::ReentrantMutex => "ReentrantMutex",
        };
        f.write_str(name)?;
        f.write_str(" { data: ")?;
        match &self.guard {
            Some(guard) => guard.show().fmt(f)?,
            None => f.write_str("<locked>")?,
        }
        f.write_str(" }")
    }
}
