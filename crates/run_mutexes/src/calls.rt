//! The slow half of a call of a mutex.
ghost use Rattle.std.specs.Prelude.{◌≡◌, ◌++◌, List, None, true};
ghost use Rattle.core_clocks.specs.Clocks.{TimeIsUp};
ghost use Rattle.core_words.specs.Steps.{has};
ghost use Rattle.core_words.specs.declared.views.WordStep.{WordStep};
ghost use Rattle.parking_lot_core.specs.Tokens.{IsSameThread, view_of};
ghost use Rattle.spec_locks.specs.declared.calls.MutexCall.TheVariants.{Lock, LockTimed, UnlockFair};
ghost use Rattle.run_base.specs.Calls.{IsUnfinished, MeetAt, WalksAfter, purpose_in};
ghost use Rattle.run_base.specs.MutexCourses.{locked_and_parked};
ghost use Rattle.run_base.specs.MutexFitting.{IsMutexOver, mutex_ownership};
ghost use Rattle.run_base.specs.Stages.{stage_of};
ghost use Rattle.run_base.specs.Telling.{owns_of, steps_of};

use crate::hand_off_courses::hand_over_through;
use crate::lock_courses::lock_course;
use parking_lot_core::{Clock, ParkingLot, Token, Word};
use run_base::driver;
use run_base::words::Words;
use spec_locks::{Answer, MutexCall};
use std::sync::Wait;
use steps_mutex::{Entry, LOCKED, PARKED};

// Does the rest of a lock whose first step saw that others wait.
fn lock_after_others<R: Wait, C: Clock>(
    rt: &R,
    lot: &ParkingLot,
    token: &mut Token,
    word: Word,
    limit: Option<(&C, u64)>,
) -> Answer
    requires own { MeetAt lot.now token.old word }
    ensures own { IsSameThread lot.now token.old token.new }
    ensures path { WalksAfter word.number Lock locked_and_parked token.old token.new result }
    ensures rest { (more : List WordStep) × (steps_of token.new ≡ steps_of token.old ++ more) }
    ensures over { IsMutexOver (TimeIsUp C.tells limit.entry) word.number (owns_of token.old)
        (purpose_in Lock) result (stage_of token.new None) }
{
    let words = Words::alone(word);
    let mutex = word.number();
    lock_course(rt, lot, token, words, limit, mutex, Entry::Lock)
}

// Does the rest of a timed lock whose first step saw that others wait.
fn lock_timed_after_others<R: Wait, C: Clock>(
    rt: &R,
    lot: &ParkingLot,
    token: &mut Token,
    word: Word,
    limit: Option<(&C, u64)>,
) -> Answer
    requires own { MeetAt lot.now token.old word }
    ensures own { IsSameThread lot.now token.old token.new }
    ensures path { WalksAfter word.number LockTimed locked_and_parked token.old token.new result }
    ensures rest { (more : List WordStep) × (steps_of token.new ≡ steps_of token.old ++ more) }
    ensures over { IsMutexOver (TimeIsUp C.tells limit.entry) word.number (owns_of token.old)
        (purpose_in LockTimed) result (stage_of token.new None) }
{
    let words = Words::alone(word);
    let mutex = word.number();
    lock_course(rt, lot, token, words, limit, mutex, Entry::LockTimed)
}

// Does the rest of a fair unlock whose first step saw that others wait.
fn hand_over_to_first<R: Wait, C: Clock>(
    rt: &R,
    lot: &ParkingLot,
    token: &mut Token,
    word: Word,
    limit: Option<(&C, u64)>,
) -> Answer
    requires own { MeetAt lot.now token.old word }
    requires owned { has (mutex_ownership word.number) (owns_of token.old) ≡ true }
    ensures own { IsSameThread lot.now token.old token.new }
    ensures path { WalksAfter word.number UnlockFair locked_and_parked token.old token.new result }
    ensures rest { (more : List WordStep) × (steps_of token.new ≡ steps_of token.old ++ more) }
    ensures over { IsMutexOver (TimeIsUp C.tells limit.entry) word.number (owns_of token.old)
        (purpose_in UnlockFair) result (stage_of token.new None) }
{
    let words = Words::alone(word);
    let mutex = word.number();
    hand_over_through(rt, lot, token, words, limit, mutex)
}

/// Does the rest of a call whose first step saw this. Where others wait already, a lock and a fair
/// unlock go by courses of their own.
pub fn call_slow<R: Wait, C: Clock>(
    rt: &R,
    lot: &ParkingLot,
    token: &mut Token,
    word: Word,
    limit: Option<(&C, u64)>,
    call: MutexCall,
    seen: u64,
) -> Answer
    requires own { MeetAt lot.now token.old word }
    requires goes_on { IsUnfinished word.number call seen (view_of token.old).owns }
    ensures own { IsSameThread lot.now token.old token.new }
    ensures path { WalksAfter word.number call seen token.old token.new result }
    ensures rest { (more : List WordStep) × (steps_of token.new ≡ steps_of token.old ++ more) }
    ensures over { IsMutexOver (TimeIsUp C.tells limit.entry) word.number (owns_of token.old)
        (purpose_in call) result (stage_of token.new None) }
{
    if seen != LOCKED + PARKED {
        return driver::call_slow(rt, lot, token, word, limit, call, seen);
    }
    match call {
        MutexCall::Lock => lock_after_others(rt, lot, token, word, limit),
        MutexCall::LockTimed => lock_timed_after_others(rt, lot, token, word, limit),
        MutexCall::UnlockFair => hand_over_to_first(rt, lot, token, word, limit),
        _ => driver::call_slow(rt, lot, token, word, limit, call, seen),
    }
}
