//! The calls of a `Once`: up to its closure, and from after that to its end.
ghost use Rattle.std.specs.Prelude.{◌≡◌, List, None, true};
ghost use Rattle.core_clocks.specs.Clocks.{TimeIsUp};
ghost use Rattle.steps_once.specs.OnceSteps.{word_after};
ghost use Rattle.steps_once.specs.declared.places.OncePlace.TheVariants.{Run};
ghost use Rattle.steps_once.specs.declared.run.RunAt.TheVariants.{Enter};
ghost use Rattle.lot_steps.specs.declared.places.Place.TheVariants.{Once};
ghost use Rattle.core_words.specs.Steps.{has, without};
ghost use Rattle.core_words.specs.Views.{owning};
ghost use Rattle.core_words.specs.declared.owners.Owner.TheVariants.{Runner};
ghost use Rattle.core_words.specs.declared.owners.Ownership.{Ownership};
ghost use Rattle.parking_lot_core.specs.Tokens.{IsSameThread, last_of};
ghost use Rattle.parking_lot_core.specs.declared.tokens.Token.{Token};
ghost use Rattle.run_base.specs.OnceFitting.{IsRunOver, OwnsAfter};
ghost use Rattle.run_base.specs.Courses.{Courses, trail_of};
ghost use Rattle.run_base.specs.Paths.{at_once, once_at};
ghost use Rattle.run_base.specs.Stages.{stage_of};
ghost use Rattle.run_base.specs.Telling.{owns_of, steps_of};
ghost use Rattle.run_once_and_semaphores.specs.OnceCalls.{EndedAndWoke, EndsRun, HasLookedFirst, LookOwns, LooksBy};
ghost use Rattle.run_once_and_semaphores.specs.OnceCalls.{MeetsOnce};

use lot_steps::{Place, Reply, advance};
use parking_lot_core::{CallName, Clock, Deed, Op, ParkingLot, Token, Word};
use run_base::driver::{NO_LIMIT, Stop, answer_of, first_step_with, run};
use run_base::words::Words;
use spec_locks::{Answer, OnceCall, OnceState};
use std::sync::Wait;
use steps_base::bits::is_marked;
use steps_once::{DONE, OncePlace, POISONED, RunAt};

/// Returns what a schedule names a call.
pub(crate) fn call_name(call: OnceCall) -> &'static Deed {
    match call {
        OnceCall::CallOnce { forced: false } => &Deed::Call(CallName::CallOnce),
        OnceCall::CallOnce { forced: true } => &Deed::Call(CallName::CallOnceForce),
        OnceCall::Wait { forced: false } => &Deed::Call(CallName::Wait),
        OnceCall::Wait { forced: true } => &Deed::Call(CallName::WaitForce),
        OnceCall::WaitTimed => &Deed::Call(CallName::WaitTimed),
    }
}

// Returns what a schedule names the end of a run.
#[inline(always)]
fn end_name(succeeded: bool) -> &'static Deed {
    if succeeded {
        &Deed::Call(CallName::Ok)
    } else {
        &Deed::Call(CallName::Err)
    }
}

// Returns the name of the end of a run for which others wait: a schedule has two lines for it.
fn waking_end_name(succeeded: bool) -> &'static Deed {
    if succeeded {
        &Deed::Call(CallName::OkWaking)
    } else {
        &Deed::Call(CallName::ErrWaking)
    }
}

/// The end of a call of a `Once`, or its closure.
pub(crate) enum Look {
    /// The call is over, and ran nothing.
    Ended(Answer),
    /// The closure is to run, with this state, and [`close`] ends its run.
    Runs(OnceState),
}

/// Takes the step with which each call begins, as all callers make it themselves, of a thread that has
/// forgotten its last section: where it sees DONE the call is over.
#[inline]
pub(crate) fn begin(lot: &ParkingLot, token: &mut Token, word: Word) -> u64
    requires own { MeetsOnce lot.now token.old word }
    requires forgotten { last_of token.old ≡ None }
    ensures own { IsSameThread lot.now token.old token.new }
    ensures seen { HasLookedFirst word.number result token.old token.new }
{
    lot.step_word_unrecorded(token, word, Op::Load)
}

/// Runs the rest of a call whose first step saw this, up to its closure, or up to a deadline where
/// the call has one: any other pays no heed to it.
#[cold]
#[inline(never)]
pub(crate) fn begin_slow<R: Wait, C: Clock>(
    rt: &R,
    lot: &ParkingLot,
    token: &mut Token,
    word: Word,
    limit: Option<(&C, u64)>,
    call: OnceCall,
    seen: u64,
) -> Look
    requires own { MeetsOnce lot.now token.old word }
    requires seen { (before : Token) × HasLookedFirst word.number seen before token.old }
    ensures own { IsSameThread lot.now token.old token.new }
    ensures path { (before : Token) → HasLookedFirst word.number seen before token.old
        → LooksBy word.number call result before token.new }
    ensures over { (before : Token) → HasLookedFirst word.number seen before token.old
        → LookOwns (TimeIsUp C.tells limit.entry) word.number call result (owns_of before)
        (owns_of token.new) (last_of token.new) }
{
    let first = Place::Once {
        lock: word.number(),
        at: OncePlace::first(call),
    };
    let (next, act) = advance(first, Reply::Value(seen));
    if let Some(answer) = answer_of(act) {
        return Look::Ended(answer);
    }
    match run(rt, lot, token, Words::alone(word), limit, next) {
        Stop::Ended(answer) => Look::Ended(answer),
        Stop::Paused { state, .. } => Look::Runs(state),
    }
}

// A run that has ended wakes all that wait.
#[cold]
#[inline(never)]
fn wake<R: Wait>(
    rt: &R,
    lot: &ParkingLot,
    token: &mut Token,
    word: Word,
    forced: bool,
    succeeded: bool,
) -> Answer
    requires own { MeetsOnce lot.now token.old word }
    requires owns { (base : List Ownership)
        × OwnsAfter word.number succeeded base (owns_of token.old) }
    ensures own { IsSameThread lot.now token.old token.new }
    ensures path { Courses (at_once word.number) token.old.number
        (Once word.number (Run forced (Enter succeeded)))
        (trail_of token.old None) (trail_of token.new None) result }
    ensures over { (base : List Ownership)
        → OwnsAfter word.number succeeded base (owns_of token.old)
        → IsRunOver word.number succeeded base result (stage_of token.new None) }
{
    lot.renames(token, waking_end_name(succeeded));
    let start = Place::Once {
        lock: word.number(),
        at: OncePlace::Run {
            forced,
            at: RunAt::Enter { succeeded },
        },
    };
    match run(rt, lot, token, Words::alone(word), NO_LIMIT, start) {
        Stop::Ended(answer) => answer,
        // The closure has run.
        Stop::Paused { .. } => unreachable!(),
    }
}

fn word_after(succeeded: bool) -> u64
    ensures { result ≡ word_after succeeded }
{
    if succeeded { DONE } else { POISONED }
}

/// Ends the run of a `Once` whose closure succeeded, or failed, and wakes all that wait.
pub(crate) fn close<R: Wait>(
    rt: &R,
    lot: &ParkingLot,
    token: &mut Token,
    word: Word,
    forced: bool,
    succeeded: bool,
)
    requires own { MeetsOnce lot.now token.old word }
    requires runs { has (owning (once_at word.number) Runner) (owns_of token.old) ≡ true }
    ensures own { IsSameThread lot.now token.old token.new }
    ensures path { EndsRun word.number token.old.number forced succeeded
        (trail_of token.old None) (trail_of token.new None) }
    ensures closed { EndedAndWoke word.number succeeded (steps_of token.old) (steps_of token.new)
        (last_of token.new) }
    ensures owns { OwnsAfter word.number succeeded
        (without (owning (once_at word.number) Runner) (owns_of token.old))
        (owns_of token.new) }
{
    let op = Op::Swap(word_after(succeeded));
    let seen = first_step_with(rt, lot, token, end_name(succeeded), word, op);
    if is_marked(seen) {
        wake(rt, lot, token, word, forced, succeeded);
    }
}
