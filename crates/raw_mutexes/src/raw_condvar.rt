//! The condition variable, with whose guards of raw mutexes threads wait.
//!
//! `notify_one` asks its section's record before it returns yes, since the lot's rule doesn't tie the
//! word of a condition variable to its queue. A thread that found nobody would stay there.
ghost use Rattle.std.specs.Prelude.{◌≡◌, ◌≢◌, ◌<◌, ◌*◌};
ghost use Rattle.std.specs.Arc.{arc_value};
ghost use Rattle.core_clocks.specs.Clocks.{TimeIsUp};
ghost use Rattle.spec_locks.specs.declared.outcomes.Answer.{Answer};
ghost use Rattle.core_words.specs.Lots.{IsWordOf};
ghost use Rattle.core_words.specs.declared.words.WordKind.TheVariants.{Condvar};
ghost use Rattle.parking_lot_core.specs.Tokens.{IsTokenOf};
ghost use Rattle.parking_lot_core.specs.declared.tokens.Token.{Token};
ghost use Rattle.run_base.specs.Drawing.{Drew};
ghost use Rattle.run_locks.specs.CondvarCalls.{AnswersWait, HasLooked, NotifiesBy, TellsMoved, WaitsBy};
ghost use Rattle.run_locks.specs.CondvarCalls as answers;
ghost use Rattle.raw_mutexes.specs.Moved.{HasMoved, RecordsMoved};
ghost use Rattle.raw_mutexes.specs.MutexGuards.{IsGuardOf, StaysAs};
ghost use Rattle.raw_mutexes.specs.Words as mutexes;

use crate::guards::RawGuard;
use crate::raw_mutex::RawMutex;
use core_base::main_key;
use parking_lot_core::{Clock, Fault, Key, ParkingLot, Token, Word, WordKind};
use run_base::driver::NO_LIMIT;
use run_base::limits::limit_in;
use run_locks::condvar_calls::{notify_fast, notify_name, notify_slow, wait};
use spec_locks::Answer;
use std::sync::{Arc, Wait};
use std::time::Duration;

/// A condition variable of a lot. Its word is 0 where nobody waits, and else shows the mutex with
/// which threads wait.
pub struct RawCondvar {
    lot: Arc<ParkingLot>,
    word: Word,
    ghost drawn: { IsWordOf (arc_value lot).words word × (word.kind ≡ Condvar)
        × (word.number < 9223372036854775808) },
}

// The drop is written, and not derived, so that it is proved here and not in each program.
impl Drop for RawCondvar {
    fn drop(self) {
        let RawCondvar {
            lot: _lot,
            word: _word,
        } = self;
    }
}

fn given_back(answer: Answer, guard: RawGuard) -> Result<RawGuard, (Fault, RawGuard)>
    ensures { result ≡ answers.given_back answer guard }
{
    match answer {
        Answer::TwoMutexes => Err((Fault::TwoMutexes, guard)),
        _ => Ok(guard),
    }
}

fn ended(answer: Answer, guard: RawGuard) -> Result<(RawGuard, bool), (Fault, RawGuard)>
    ensures { result ≡ answers.timed_given_back answer guard }
{
    match answer {
        Answer::TwoMutexes => Err((Fault::TwoMutexes, guard)),
        Answer::TimedOut => Ok((guard, true)),
        _ => Ok((guard, false)),
    }
}

// Goes on where the record of the last section says that it took or moved one. In no state of the
// world a mutex is shown and nobody waits. A thread that met such a state would stay here.
fn go_on_where_one_moved<R: Wait>(rt: &R, token: &Token)
    ensures { RecordsMoved 1 token.now }
{
    for _ in rt.forever() {
        if let Some(section) = token.last_section() {
            if section.number == 1 {
                return;
            }
        }
    }
    unreachable!()
}

impl RawCondvar {
    ghost use Rattle.raw_mutexes.specs.CondvarWords.{lot_of, word_of};

    /// Returns the key of its queue.
    pub fn key(&self) -> Key
        ensures { result ≡ 2 * (word_of self.now).number }
    {
        main_key(self.word.number())
    }

    // Waits up to a deadline, or without one. Returns whether the time was up, with the guard.
    fn wait_with<R: Wait, C: Clock>(
        &self,
        rt: &R,
        token: &mut Token,
        mutex: &RawMutex,
        guard: RawGuard,
        limit: Option<(&C, u64)>,
        timed: bool,
    ) -> (Answer, RawGuard)
        requires token { IsTokenOf (lot_of self.now) token.old }
        requires lot { mutexes.lot_of mutex.now ≡ lot_of self.now }
        requires guard { IsGuardOf (lot_of self.now) (mutexes.word_of mutex.now) guard }
        ensures token { IsTokenOf (lot_of self.now) token.new × StaysAs token.old token.new }
        ensures guard { IsGuardOf (lot_of self.now) (mutexes.word_of mutex.now) result.1 }
        ensures path { WaitsBy (word_of self.now).number
            (mutexes.word_of mutex.now).number timed result.0 token.old token.new }
        ensures told { AnswersWait timed result.0 }
        ensures late { result.0 ≡ Answer.TimedOut → TimeIsUp C.tells limit.entry }
    {
        if self.word.number() == mutex.word.number() {
            return (Answer::TwoMutexes, guard);
        }
        let lot: &ParkingLot = &self.lot;
        mutex.join(lot, token, guard);
        let answer = wait(rt, lot, token, self.word, mutex.word, limit, timed);
        (answer, mutex.split(lot, token))
    }

    // Does the rest of a notification of the first, or of all, whose first step saw this.
    #[cold]
    #[inline(never)]
    fn notify_rest<R: Wait>(&self, rt: &R, token: &mut Token, all: bool, seen: u64) -> Answer
        requires token { IsTokenOf (lot_of self.now) token.old }
        requires looked { (before : Token)
            × HasLooked (lot_of self.now).words.count
            (word_of self.now).number seen before token.old }
        requires some { seen ≢ 0 }
        ensures token { IsTokenOf (lot_of self.now) token.new × StaysAs token.old token.new }
        ensures path { (before : Token)
            → HasLooked (lot_of self.now).words.count
            (word_of self.now).number seen before token.old
            → NotifiesBy (word_of self.now).number all result before token.new }
        ensures record { TellsMoved (word_of self.now).number all seen result token.old token.new }
    {
        notify_slow(rt, &self.lot, token, self.word, all, seen)
    }
}

impl lock_raw::RawCondvar for RawCondvar {
    type RawMutex = RawMutex;

    ghost lot_of = { λ condvar. arc_value condvar.lot };

    ghost drew = { λ condvar old new. Drew Condvar (arc_value condvar.lot) condvar.word old new };

    ghost waited = { λ condvar mutex timed answer old new.
        WaitsBy condvar.word.number mutex.word.number timed answer old new };

    ghost notified = { λ condvar all answer old new.
        NotifiesBy condvar.word.number all answer old new };

    ghost looked = { λ condvar seen old new. HasLooked
        (arc_value condvar.lot).words.count condvar.word.number seen old new };

    ghost moved = { λ condvar all number old new. HasMoved condvar.word.number all number old new };

    fn new(lot: &Arc<ParkingLot>, token: &mut Token) -> Result<RawCondvar, Fault> {
        let Ok(lot) = Arc::try_clone(lot) else {
            return Err(Fault::NoMemory);
        };
        let word = lot.new_word(token, WordKind::Condvar)?;
        Ok(RawCondvar { lot, word })
    }

    fn wait<R: Wait>(
        &self,
        rt: &R,
        token: &mut Token,
        mutex: &RawMutex,
        guard: RawGuard,
    ) -> Result<RawGuard, (Fault, RawGuard)> {
        let (answer, guard) = self.wait_with(rt, token, mutex, guard, NO_LIMIT, false);
        given_back(answer, guard)
    }

    #[inline]
    fn notify_fast<R: Wait>(&self, rt: &R, token: &mut Token, all: bool) -> u64 {
        let lot: &ParkingLot = &self.lot;
        if !lot.may_begin(token) {
            lot.turn_to_begin(rt, token, notify_name(all), &self.word);
        }
        notify_fast(lot, token, self.word)
    }

    fn notify_one_slow<R: Wait>(&self, rt: &R, token: &mut Token, seen: u64) -> bool {
        match self.notify_rest(rt, token, false, seen) {
            Answer::Yes => {
                go_on_where_one_moved(rt, token);
                true
            }
            _ => false,
        }
    }

    fn notify_all_slow<R: Wait>(&self, rt: &R, token: &mut Token, seen: u64) -> usize {
        match self.notify_rest(rt, token, true, seen) {
            Answer::Number(number) => number,
            // A notification of all answers a number.
            _ => unreachable!(),
        }
    }
}

impl lock_raw::RawCondvarTimed for RawCondvar {
    fn wait_for<R: Wait, C: Clock>(
        &self,
        rt: &R,
        token: &mut Token,
        mutex: &RawMutex,
        guard: RawGuard,
        clock: &C,
        timeout: Duration,
    ) -> Result<(RawGuard, bool), (Fault, RawGuard)> {
        let limit = limit_in(clock, timeout);
        let (answer, guard) = self.wait_with(rt, token, mutex, guard, limit, true);
        ended(answer, guard)
    }

    fn wait_until<R: Wait, C: Clock>(
        &self,
        rt: &R,
        token: &mut Token,
        mutex: &RawMutex,
        guard: RawGuard,
        clock: &C,
        deadline: u64,
    ) -> Result<(RawGuard, bool), (Fault, RawGuard)> {
        let (answer, guard) = self.wait_with(
            rt,
            token,
            mutex,
            guard,
            Some((clock, deadline)),
            true,
        );
        ended(answer, guard)
    }
}
