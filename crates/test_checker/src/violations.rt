//! Names for what no world may show.
//!
//! The meaning of a violation is in its comment, and a test prints its name: a text for each variant of
//! a large enum is dear to prove.

use std::fmt;
use std::fmt::{Debug, Formatter, Write};

/// Names what no world may show, with the lock or the thread where it stands.
#[derive(Clone, Copy, PartialEq, Eq)]
pub enum Violation {
    // In one state.
    /// The owners of the lock don't exclude each other.
    OwnersClash(usize),
    /// The lock has an owner or a waiter of a sort that its kind lacks.
    WrongSort(usize),
    /// More readers share the lock than its limit allows, or more threads hold its permits.
    TooMany(usize),
    /// The word of the lock isn't the code of its owners.
    WrongWord(usize),
    /// The word of the lock doesn't tell that a thread waits.
    UnmarkedWaiter(usize),
    /// A thread waits aside of the lock and isn't its pending writer.
    WrongAside(usize),
    /// A thread waits for the lock, whose way nobody bars, and nobody owes a wake or retries.
    Forgotten(usize),
    /// The thread stands in two places.
    StandsTwice(usize),
    /// The thread sleeps in no queue and in nobody's hand.
    SleepsNowhere(usize),
    /// The thread waits and is in no call.
    WaitsIdle(usize),
    // Between two neighbours.
    /// There is another number of threads or locks, or the lock is of another kind.
    OtherWorld(usize),
    /// A step that isn't possible changed something.
    ChangedByNothing,
    /// A turn that isn't an act changed the lock.
    TouchedWithoutAct(usize),
    /// The step changed two words, the lock's among them.
    TwoWords(usize),
    /// The step changed the word and the queue of the lock.
    WordAndQueue(usize),
    /// The thread moved in another thread's step.
    MovedToo(usize),
    /// The thread woke up by itself.
    WokeByItself(usize),
    /// The waiters of the lock changed their order.
    OutOfOrder(usize),
    /// The thread left a queue and was neither taken, nor moved, nor late.
    Vanished(usize),
    /// The thread came into a queue by another thread's step, and not from a condition variable.
    JoinedByOther(usize),
    /// A waiter of the lock was passed by a later one.
    OutOfTurn(usize),
    /// The waiters taken from the lock are not those that the waking thread lets in.
    WrongPicks(usize),
    /// The thread got a right in another thread's step, and nobody handed it over.
    RightFromNobody(usize),
    /// The thread lost a right in another thread's step.
    RightTaken(usize),
    /// The thread was in the hand of the owner, which handed the lock to others alone.
    HandedToSome(usize),
    /// A reader of the lock passed a pending writer.
    ReaderPassed(usize),
    /// The debts of the thread on a lock changed by another thread's step.
    DebtMoved(usize),
    /// The `Once` was done and is so no more.
    Undone(usize),
    /// The condition variable shows another mutex while it has waiters.
    ShowsAnother(usize),
    // In the answers of calls.
    /// The thread was told what its call never tells.
    StrangeAnswer(usize),
    /// The thread was told so and doesn't own what this means.
    ToldWrong(usize),
    /// The thread was told that its time is up, and it never was.
    NeverLate(usize),
    /// The thread was told of a notification that never was, or of a time-out in spite of one.
    NeverNotified(usize),
    /// The thread was told of another number of waiters than it moved.
    WrongNumber(usize),
    /// The thread was refused a free lock.
    RefusedFree(usize),
}

impl Violation {
    /// Returns its name, and the lock or the thread where it stands.
    fn told(self) -> (&'static str, Option<usize>) {
        let (name, place) = match self {
            Violation::ChangedByNothing => return ("ChangedByNothing", None),
            Violation::OwnersClash(at) => ("OwnersClash", at),
            Violation::WrongSort(at) => ("WrongSort", at),
            Violation::TooMany(at) => ("TooMany", at),
            Violation::WrongWord(at) => ("WrongWord", at),
            Violation::UnmarkedWaiter(at) => ("UnmarkedWaiter", at),
            Violation::WrongAside(at) => ("WrongAside", at),
            Violation::Forgotten(at) => ("Forgotten", at),
            Violation::StandsTwice(at) => ("StandsTwice", at),
            Violation::SleepsNowhere(at) => ("SleepsNowhere", at),
            Violation::WaitsIdle(at) => ("WaitsIdle", at),
            Violation::OtherWorld(at) => ("OtherWorld", at),
            Violation::TouchedWithoutAct(at) => ("TouchedWithoutAct", at),
            Violation::TwoWords(at) => ("TwoWords", at),
            Violation::WordAndQueue(at) => ("WordAndQueue", at),
            Violation::MovedToo(at) => ("MovedToo", at),
            Violation::WokeByItself(at) => ("WokeByItself", at),
            Violation::OutOfOrder(at) => ("OutOfOrder", at),
            Violation::Vanished(at) => ("Vanished", at),
            Violation::JoinedByOther(at) => ("JoinedByOther", at),
            Violation::OutOfTurn(at) => ("OutOfTurn", at),
            Violation::WrongPicks(at) => ("WrongPicks", at),
            Violation::RightFromNobody(at) => ("RightFromNobody", at),
            Violation::RightTaken(at) => ("RightTaken", at),
            Violation::HandedToSome(at) => ("HandedToSome", at),
            Violation::ReaderPassed(at) => ("ReaderPassed", at),
            Violation::DebtMoved(at) => ("DebtMoved", at),
            Violation::Undone(at) => ("Undone", at),
            Violation::ShowsAnother(at) => ("ShowsAnother", at),
            Violation::StrangeAnswer(at) => ("StrangeAnswer", at),
            Violation::ToldWrong(at) => ("ToldWrong", at),
            Violation::NeverLate(at) => ("NeverLate", at),
            Violation::NeverNotified(at) => ("NeverNotified", at),
            Violation::WrongNumber(at) => ("WrongNumber", at),
            Violation::RefusedFree(at) => ("RefusedFree", at),
        };
        (name, Some(place))
    }
}

/// Prints a name and a place, as `WrongWord(0)`. By hand: a derived `Debug` is proved variant by variant.
impl Debug for Violation {
    fn fmt<W: Write>(&self, f: &mut Formatter<W>) -> fmt::Result {
        match self.told() {
            (name, Some(place)) => write!(f, "{name}({place})"),
            (name, None) => f.write_str(name),
        }
    }
}
