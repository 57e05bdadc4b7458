//! The straight course of an unlock that saw a waiter: it takes the first that waits, and wakes it.
ghost use Rattle.std.specs.Prelude.{◌≡◌, ◌<◌, ◌++◌, None, List};
ghost use Rattle.core_clocks.specs.Clocks.{TimeIsUp};
ghost use Rattle.spec_locks.specs.declared.calls.MutexCall.TheVariants.{Unlock};
ghost use Rattle.spec_locks.specs.declared.outcomes.Answer.TheVariants.{Ok as ok};
ghost use Rattle.run_base.specs.Calls.{MeetAt, WalksAfter};
ghost use Rattle.run_base.specs.MutexFitting.{IsMutexOver, to_release};
ghost use Rattle.run_base.specs.Stages.{stage_of};
ghost use Rattle.run_base.specs.Telling.{owns_of, steps_of};
ghost use Rattle.run_base.specs.Turns.{HasEnded, IsAtPlace};
ghost use Rattle.steps_mutex.specs.declared.unlock.UnlockAt.TheVariants as unlock;
ghost use Rattle.core_words.specs.declared.views.WordStep.{WordStep};
ghost use Rattle.parking_lot_core.specs.Tokens.{IsSameThread};
ghost use Rattle.run_base.specs.MutexCourses.{locked_and_parked, taken_on, unlocks_at};

use core_base::main_key;
use lot_steps::Wakes;
use parking_lot_core::{Keys, Note, Op, ParkingLot, Section, Token, Word};
use run_base::driver::NO_LIMIT;
use run_base::turns::{end, turn_enter, turn_leave, turn_take_first, turn_word};
use run_base::words::Words;
use std::sync::Wait;
use steps_mutex::PARKED;

// Leaves the section, and wakes the one that it took there, if any.
fn leave_and_wake<'a, R: Wait>(
    rt: &R,
    lot: &'a ParkingLot,
    token: &mut Token,
    words: Words,
    mutex: usize,
    section: Option<Section<'a>>,
    any: bool,
)
    requires { IsAtPlace ⊥ lot.now words (unlocks_at mutex (unlock.Leave any)) token.old section }
    ensures { HasEnded ⊥ lot.now words
        (unlocks_at mutex (unlock.Leave any)) ok token.old section.entry token.new }
{
    let mut section = section;
    let keys = Keys::One(main_key(mutex));
    let wakes = Wakes::taken(any, Note::Normal);
    turn_leave(rt, lot, token, words, NO_LIMIT, &mut section, keys, wakes);
    end(section);
}

// Goes on from its take: where none is left, nobody waits any more.
fn clear_and_wake<'a, R: Wait>(
    rt: &R,
    lot: &'a ParkingLot,
    token: &mut Token,
    words: Words,
    mutex: usize,
    section: Option<Section<'a>>,
    any: bool,
    none_left: bool,
)
    requires { IsAtPlace ⊥ lot.now words (unlocks_at mutex (taken_on any none_left)) token.old section }
    ensures { HasEnded ⊥ lot.now words
        (unlocks_at mutex (taken_on any none_left)) ok token.old section.entry token.new }
{
    if none_left {
        let op = Op::And(!PARKED);
        turn_word(lot, token, words, NO_LIMIT, &section, mutex, op);
        return leave_and_wake(rt, lot, token, words, mutex, section, any);
    }
    leave_and_wake(rt, lot, token, words, mutex, section, any);
}

// An unlock, from where it has seen a waiter to its end.
fn unlock_through<R: Wait>(rt: &R, lot: &ParkingLot, token: &mut Token, words: Words, mutex: usize)
    requires { IsAtPlace ⊥ lot.now words (unlocks_at mutex unlock.Enter) token.old None }
    ensures { HasEnded ⊥ lot.now words (unlocks_at mutex unlock.Enter) ok token.old None token.new }
{
    let mut section = None;
    let key = main_key(mutex);
    turn_enter(
        rt,
        lot,
        token,
        words,
        NO_LIMIT,
        &mut section,
        Keys::One(key),
    );
    let (any, none_left) = turn_take_first(lot, token, words, NO_LIMIT, &mut section, key);
    clear_and_wake(rt, lot, token, words, mutex, section, any, none_left);
}

/// The rest of an unlock whose first step saw a waiter.
pub fn unlock_slow<R: Wait>(rt: &R, lot: &ParkingLot, token: &mut Token, word: Word)
    requires own { MeetAt lot.now token.old word }
    ensures own { IsSameThread lot.now token.old token.new }
    ensures path { WalksAfter word.number Unlock locked_and_parked token.old token.new ok }
    ensures rest { (more : List WordStep) × (steps_of token.new ≡ steps_of token.old ++ more) }
    ensures over { IsMutexOver ⊥ word.number (owns_of token.old) to_release ok
        (stage_of token.new None) }
{
    unlock_through(rt, lot, token, Words::alone(word), word.number());
}
