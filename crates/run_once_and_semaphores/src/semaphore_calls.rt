//! The steps of which the calls of a semaphore are made, and what each call leaves to the driver.
ghost use Rattle.std.specs.Prelude.{ℕ, ◌≡◌, ◌≢◌, ◌≤◌, ◌++◌, ◌∷◌, ◌-◌, ◌*◌, ◌^◌, List, None, true, false};
ghost use Rattle.std.specs.Prelude.{IsFalse};
ghost use Rattle.spec_locks.specs.Codes.{has_parked};
ghost use Rattle.core_clocks.specs.Clocks.{TimeIsUp};
ghost use Rattle.core_base.specs.declared.ops.Op.TheVariants.{Add, Exchange};
ghost use Rattle.steps_semaphore.specs.SemaphoreSteps.{is_free};
ghost use Rattle.core_words.specs.Steps.{has, holding, without};
ghost use Rattle.core_words.specs.declared.owners.Ownership.{Ownership};
ghost use Rattle.core_words.specs.declared.views.WordStep.{WordStep};
ghost use Rattle.parking_lot_core.specs.Tokens.{IsSameThread, IsTokenOf, last_of};
ghost use Rattle.run_base.specs.Fitting.{AreWordsFor, Fits, IsOver, call_purpose};
ghost use Rattle.run_base.specs.Paths.{semaphore_at, step};
ghost use Rattle.run_base.specs.SemaphoreFitting.{FitsSemaphore, IsSemaphoreOver, to_acquire, permit};
ghost use Rattle.run_base.specs.SemaphoreFitting.{semaphore_purpose_at, to_release, to_try};
ghost use Rattle.lot_steps.specs.declared.places.Place.TheVariants.{Semaphore};
ghost use Rattle.run_base.specs.Queued.{is_queued};
ghost use Rattle.run_base.specs.Stages.{stage_of};
ghost use Rattle.run_base.specs.Telling.{owns_of, steps_of};
ghost use Rattle.run_base.specs.Words.{single_word, at_in, kind_in};
ghost use Rattle.run_once_and_semaphores.specs.SemaphoreCalls.{HasAdded, HasFound, HasGone, HasLooked, MeetsSemaphore};
ghost use Rattle.run_once_and_semaphores.specs.SemaphoreCalls.{deciding, try_place, waking};

use core_words::laws::{semaphore_may_step, semaphore_trades};
use lot_steps::Place;
use parking_lot_core::{CallName, Clock, Deed, Op, ParkingLot, Token, Word};
use run_base::driver::{NO_LIMIT, Stop, first_step_in_turn, run};
use run_base::words::Words;
use spec_locks::Answer;
use std::sync::Wait;
use steps_semaphore::{AcquireAt, ReleaseAt, SemaphorePlace, TryAt};

/// Returns what a schedule names a call that waits for a permit.
pub(crate) fn acquire_name(timed: bool) -> &'static Deed {
    if timed {
        &Deed::Call(CallName::AcquireTimed)
    } else {
        &Deed::Call(CallName::Acquire)
    }
}

/// Takes one load of the word, with which each call begins that wants a permit.
#[inline(always)]
pub(crate) fn look(lot: &ParkingLot, token: &mut Token, word: Word) -> u64
    requires own { MeetsSemaphore lot.now token.old word }
    requires forgotten { last_of token.old ≡ None }
    ensures own { IsSameThread lot.now token.old token.new }
    ensures looked { HasLooked word.number result token.old token.new }
{
    semaphore_may_step();
    lot.step_word_unrecorded(token, word, Op::Load)
}

/// Takes that load once the thread has its turn for it.
#[cold]
#[inline(never)]
pub(crate) fn look_in_turn<R: Wait>(
    rt: &R,
    lot: &ParkingLot,
    token: &mut Token,
    deed: &'static Deed,
    word: &Word,
) -> u64
    requires own { MeetsSemaphore lot.now token.old word.now }
    requires forgotten { last_of token.old ≡ None }
    ensures own { IsSameThread lot.now token.old token.new }
    ensures looked { HasLooked word.now.number result token.old token.new }
{
    semaphore_may_step();
    first_step_in_turn(rt, lot, token, deed, *word, Op::Load)
}

/// Makes the exchange that takes a permit, after a look that saw one free. Returns what it found:
/// it took one only where that is what the look saw.
#[inline(always)]
pub(crate) fn take(lot: &ParkingLot, token: &mut Token, word: Word, seen: u64) -> u64
    requires own { MeetsSemaphore lot.now token.old word }
    requires free { is_free seen ≡ true }
    requires forgotten { last_of token.old ≡ None }
    ensures own { IsSameThread lot.now token.old token.new }
    ensures found { HasFound word.number seen result token.old token.new }
    ensures took { result ≡ seen
        → owns_of token.new ≡ permit word.number ∷ owns_of token.old }
    ensures missed { result ≢ seen → owns_of token.new ≡ owns_of token.old }
{
    semaphore_may_step();
    semaphore_trades();
    let op = Op::Exchange {
        from: seen,
        to: seen - 2,
    };
    lot.step_word_unrecorded(token, word, op)
}

/// Makes the addition that gives a permit back. Returns the value before.
#[inline(always)]
pub(crate) fn give(lot: &ParkingLot, token: &mut Token, word: Word) -> u64
    requires own { MeetsSemaphore lot.now token.old word }
    requires forgotten { last_of token.old ≡ None }
    requires held { has (permit word.number) (owns_of token.old) ≡ true }
    ensures own { IsSameThread lot.now token.old token.new × (last_of token.new ≡ None) }
    ensures added { HasAdded word.number result token.old token.new }
    ensures gave { owns_of token.new ≡ without (permit word.number) (owns_of token.old) }
{
    semaphore_may_step();
    semaphore_trades();
    lot.step_word_unrecorded(token, word, Op::Add(2))
}

/// The addition that gives all permits of a new semaphore, which its thread holds.
pub(crate) fn give_all(lot: &ParkingLot, token: &mut Token, word: Word, permits: u64)
    requires own { MeetsSemaphore lot.now token.old word }
    requires few { permits ≤ 2 ^ 62 }
    requires held { (rest : List Ownership)
        × (owns_of token.old ≡ holding (semaphore_at word.number) permits ++ rest) }
    ensures own { IsSameThread lot.now token.old token.new }
    ensures added { (seen : ℕ) × (steps_of token.new
        ≡ steps_of token.old ++ step (semaphore_at word.number) (Add (2 * permits)) seen) }
    ensures gave { (rest : List Ownership)
        → owns_of token.old ≡ holding (semaphore_at word.number) permits ++ rest
        → owns_of token.new ≡ rest }
{
    lot.step_word(token, word, Op::Add(2 * permits));
}

// Runs a call of a semaphore from a place to its answer.
fn run_out<R: Wait, C: Clock>(
    rt: &R,
    lot: &ParkingLot,
    token: &mut Token,
    word: Word,
    limit: Option<(&C, u64)>,
    start: SemaphorePlace,
) -> Answer
    requires own { MeetsSemaphore lot.now token.old word }
    requires unqueued { IsFalse (is_queued (Semaphore word.number start)) }
    requires fits { FitsSemaphore (TimeIsUp C.tells limit) word.number (owns_of token.old) start
        (stage_of token.old None) }
    ensures own { IsSameThread lot.now token.old token.new }
    ensures path { HasGone word.number (Semaphore word.number start) result token.old token.new }
    ensures over { IsSemaphoreOver (TimeIsUp C.tells limit.entry) word.number (owns_of token.old)
        (semaphore_purpose_at start) result (stage_of token.new None) }
{
    let start = Place::Semaphore {
        lock: word.number(),
        at: start,
    };
    match run(rt, lot, token, Words::alone(word), limit, start) {
        Stop::Ended(answer) => answer,
        // No call of a semaphore runs a closure.
        Stop::Paused { .. } => unreachable!(),
    }
}

/// Runs the rest of a call that waits for a permit and whose last step saw this.
#[cold]
#[inline(never)]
pub(crate) fn acquire_slow<R: Wait, C: Clock>(
    rt: &R,
    lot: &ParkingLot,
    token: &mut Token,
    word: Word,
    limit: Option<(&C, u64)>,
    timed: bool,
    seen: u64,
) -> Answer
    requires own { MeetsSemaphore lot.now token.old word }
    ensures own { IsSameThread lot.now token.old token.new }
    ensures path { HasGone word.number (deciding word.number timed seen) result
        token.old token.new }
    ensures over { IsSemaphoreOver (TimeIsUp C.tells limit.entry) word.number (owns_of token.old)
        (to_acquire timed) result (stage_of token.new None) }
{
    let start = SemaphorePlace::Acquire {
        timed,
        retries: false,
        at: AcquireAt::Decide(seen),
    };
    run_out(rt, lot, token, word, limit, start)
}

/// Runs the rest of a call that tries to take a permit and whose last step saw one free.
#[cold]
#[inline(never)]
pub(crate) fn try_slow<R: Wait>(
    rt: &R,
    lot: &ParkingLot,
    token: &mut Token,
    word: Word,
    seen: u64,
) -> Answer
    requires own { MeetsSemaphore lot.now token.old word }
    requires free { is_free seen ≡ true }
    ensures own { IsSameThread lot.now token.old token.new }
    ensures path { HasGone word.number (try_place word.number seen) result token.old token.new }
    ensures over { IsSemaphoreOver ⊥ word.number (owns_of token.old) to_try result
        (stage_of token.new None) }
{
    let start = SemaphorePlace::Try(TryAt::Decide(seen));
    run_out(rt, lot, token, word, NO_LIMIT, start)
}

/// Wakes up the first waiter, after an addition that saw that a thread may be parked.
#[cold]
#[inline(never)]
pub(crate) fn wake_first<R: Wait>(rt: &R, lot: &ParkingLot, token: &mut Token, word: Word) -> Answer
    requires own { MeetsSemaphore lot.now token.old word }
    ensures own { IsSameThread lot.now token.old token.new }
    ensures path { HasGone word.number (waking word.number) result token.old token.new }
    ensures over { IsSemaphoreOver ⊥ word.number (owns_of token.old) to_release result
        (stage_of token.new None) }
{
    let start = SemaphorePlace::Release(ReleaseAt::Enter);
    run_out(rt, lot, token, word, NO_LIMIT, start)
}
