//! The calls of a condition variable.
//!
//! A notification's first load is inlined, and the rest is out of line: mostly no thread waits.
ghost use Rattle.std.specs.Prelude.{◌≡◌, ◌≢◌, Bool, None};
ghost use Rattle.core_clocks.specs.Clocks.{TimeIsUp};
ghost use Rattle.parking_lot_core.specs.Tokens.{IsSameThread, last_of};
ghost use Rattle.parking_lot_core.specs.declared.tokens.Token.{Token};
ghost use Rattle.steps_condvar.specs.CondvarSteps.{notified};
ghost use Rattle.run_base.specs.CondvarFitting.{IsNotifyOver, IsWaitOver, OwnsIt};
ghost use Rattle.run_base.specs.Stages.{stage_of};
ghost use Rattle.run_base.specs.Telling.{owns_of};
ghost use Rattle.run_base.specs.Words.{word_pair};
ghost use Rattle.run_locks.specs.CondvarCalls.{HasLooked, HasNotified, HasWaited, MeetBeside, MeetsCondvar};
ghost use Rattle.run_locks.specs.CondvarCalls.{NotifiesBy, TellsMoved};

use crate::condvar_courses::Pair;
use crate::notify_courses::notify_through;
use crate::wait_courses::wait_course;
use parking_lot_core::{CallName, Clock, Deed, ParkingLot, Token, Word};
use run_base::words::Words;
use spec_locks::Answer;
use std::sync::Wait;

fn pair_of(condvar: Word, mutex: Word) -> Pair
    ensures { result ≡ record
        { words = word_pair condvar mutex; condvar = condvar.number; mutex = mutex.number } }
{
    Pair {
        words: Words::both(condvar, mutex),
        condvar: condvar.number(),
        mutex: mutex.number(),
    }
}

// Returns what a schedule names a wait.
fn wait_name(timed: bool) -> &'static Deed {
    if timed {
        &Deed::Call(CallName::WaitTimed)
    } else {
        &Deed::Call(CallName::Wait)
    }
}

/// Returns what a schedule names a notification.
pub fn notify_name(all: bool) -> &'static Deed {
    if all {
        &Deed::Call(CallName::NotifyAll)
    } else {
        &Deed::Call(CallName::NotifyOne)
    }
}

/// Releases a mutex, which the thread owns, and locks it again once the thread is notified, or
/// where its time is up in a timed wait. It answers with the mutex: that another one is shown, and
/// this one was not released; that the thread was notified; or that its time was up before.
#[cold]
#[inline(never)]
pub fn wait<R: Wait, C: Clock>(
    rt: &R,
    lot: &ParkingLot,
    token: &mut Token,
    condvar: Word,
    mutex: Word,
    limit: Option<(&C, u64)>,
    timed: bool,
) -> Answer
    requires own { MeetBeside lot.now token.old condvar mutex }
    requires owned { OwnsIt mutex.number (owns_of token.old) }
    ensures own { IsSameThread lot.now token.old token.new }
    ensures path { HasWaited condvar.number mutex.number timed result token.old token.new }
    ensures over { IsWaitOver (TimeIsUp C.tells limit.entry) mutex.number timed
        (owns_of token.old) result
        (stage_of token.new None) }
{
    lot.turn_to_wait(rt, token, wait_name(timed), condvar, mutex);
    wait_course(rt, lot, token, pair_of(condvar, mutex), limit, timed)
}

// Does the rest of a notification whose first step saw this mutex: it wakes the first that waits
// with it, or all, or moves them to its queue.
#[cold]
#[inline(never)]
fn notify_shown<R: Wait>(
    rt: &R,
    lot: &ParkingLot,
    token: &mut Token,
    condvar: Word,
    mutex: Word,
    all: bool,
) -> Answer
    requires own { MeetBeside lot.now token.old condvar mutex }
    ensures own { IsSameThread lot.now token.old token.new }
    ensures path { HasNotified condvar.number mutex.number all result token.old token.new }
    ensures over { IsNotifyOver condvar.number mutex.number all (owns_of token.old) result
        (stage_of token.new None) }
{
    notify_through(rt, lot, token, pair_of(condvar, mutex), all)
}

/// Takes the step with which each notification begins, as all callers make it themselves, of a thread
/// that has forgotten its last section. Returns what it sees of the condition variable: where that is 0
/// nobody waits, and the notification is over.
#[inline]
pub fn notify_fast(lot: &ParkingLot, token: &mut Token, condvar: Word) -> u64
    requires own { MeetsCondvar lot.now token.old condvar }
    requires forgotten { last_of token.old ≡ None }
    ensures own { IsSameThread lot.now token.old token.new }
    ensures looked { HasLooked lot.now.words.count condvar.number result token.old token.new }
    ensures nobody { result ≡ 0 → (all : Bool)
        → NotifiesBy condvar.number all (notified all 0) token.old token.new }
{
    lot.look_shown(token, condvar)
}

/// Does the rest of a notification whose first step saw that a mutex is shown. It wakes the first
/// that waits, or all: those whose mutex somebody owns it moves to the queue of that, but for the
/// first where nobody owns it. Returns how many it took and moved, of the first whether there was
/// one.
#[cold]
#[inline(never)]
pub fn notify_slow<R: Wait>(
    rt: &R,
    lot: &ParkingLot,
    token: &mut Token,
    condvar: Word,
    all: bool,
    seen: u64,
) -> Answer
    requires own { MeetsCondvar lot.now token.old condvar }
    requires looked { (before : Token)
        × HasLooked lot.now.words.count condvar.number seen before token.old }
    requires some { seen ≢ 0 }
    ensures own { IsSameThread lot.now token.old token.new }
    ensures path { (before : Token)
        → HasLooked lot.now.words.count condvar.number seen before token.old
        → NotifiesBy condvar.number all result before token.new }
    ensures owns { owns_of token.new ≡ owns_of token.old }
    ensures record { TellsMoved condvar.number all seen result token.old token.new }
{
    let mutex = lot.mutex_shown(token, condvar, seen);
    notify_shown(rt, lot, token, condvar, mutex, all)
}
