//! Calls that copy a mutex's value or put another in its place.
//!
//! `get`, `set` and `replace` can be done by `with` too. They read better at the call, and prove as
//! fast.
ghost use Rattle.lock_api.specs.Visits.{CameAndWent};
ghost use Rattle.spec_locks.specs.declared.calls.MutexCall.TheVariants.{Lock, Unlock};
ghost use Rattle.spec_locks.specs.declared.outcomes.Answer.TheVariants as answers;

use crate::mutex::Mutex;
use lock_raw::RawMutex;
use std::mem;
use std::sync::Wait;

impl<R: RawMutex, T> Mutex<R, T> {
    /// Locks the mutex, copies the value, and unlocks.
    pub fn get<W: Wait>(&self, rt: &W, token: &mut R::Token) -> T
    where
        T: Copy,
        requires { R.is_token_of (R.lot_of self.now) token.old }
        ensures token { R.is_token_of (R.lot_of self.now) token.new × R.keeps_rights token.old token.new }
        ensures path { CameAndWent (R.took_steps self.now) (R.released self.now)
            Lock answers.Ok Unlock token.old token.new }
    {
        let guard = self.lock(rt, token);
        let value = *guard;
        guard.unlock(rt, token);
        value
    }

    /// Locks the mutex, puts a value in the place of the one that it finds, which it returns, and
    /// unlocks.
    pub fn replace<W: Wait>(&self, rt: &W, token: &mut R::Token, value: T) -> T
        requires { R.is_token_of (R.lot_of self.now) token.old }
        ensures token { R.is_token_of (R.lot_of self.now) token.new × R.keeps_rights token.old token.new }
        ensures path { CameAndWent (R.took_steps self.now) (R.released self.now)
            Lock answers.Ok Unlock token.old token.new }
    {
        let mut guard = self.lock(rt, token);
        let found = mem::replace(&mut *guard, value);
        guard.unlock(rt, token);
        found
    }

    /// Locks the mutex, sets the value, and unlocks. The value that it finds is dropped after that.
    pub fn set<W: Wait>(&self, rt: &W, token: &mut R::Token, value: T)
    where
        T: Drop,
        requires { R.is_token_of (R.lot_of self.now) token.old }
        ensures token { R.is_token_of (R.lot_of self.now) token.new × R.keeps_rights token.old token.new }
        ensures path { CameAndWent (R.took_steps self.now) (R.released self.now)
            Lock answers.Ok Unlock token.old token.new }
    {
        drop(self.replace(rt, token, value));
    }
}
