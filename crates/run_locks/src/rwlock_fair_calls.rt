//! Fair releases and bumps of a reader-writer lock.
ghost use Rattle.std.specs.Prelude.{◌≡◌, List, None, IsFalse};
ghost use Rattle.core_base.specs.declared.ops.Op.TheVariants.{Exchange};
ghost use Rattle.spec_locks.specs.declared.calls.Access.TheVariants.{Exclusive, Upgradable};
ghost use Rattle.spec_locks.specs.declared.calls.Patience.TheVariants.{Patient};
ghost use Rattle.spec_locks.specs.declared.calls.RwLockCall.TheVariants as calls;
ghost use Rattle.spec_locks.specs.declared.outcomes.Answer.TheVariants.{Ok as ok};
ghost use Rattle.steps_rwlock.specs.RwLockSteps.{wanted};
ghost use Rattle.steps_rwlock.specs.declared.purposes.RwLockPurpose.TheVariants.{Enter};
ghost use Rattle.lot_steps.specs.declared.places.Place.TheVariants.{RwLock};
ghost use Rattle.core_words.specs.declared.owners.Ownership.{Ownership};
ghost use Rattle.parking_lot_core.specs.Tokens.{IsSameThread};
ghost use Rattle.run_base.specs.Fitting.{Fits, IsOver, call_purpose};
ghost use Rattle.run_base.specs.Courses.{Courses, trail_of};
ghost use Rattle.run_base.specs.Paths.{at_rwlock};
ghost use Rattle.run_base.specs.RwLockCalls.{HasWalkedCall, MeetsAt, ReleasesFairly};
ghost use Rattle.run_base.specs.RwLockFitting.{Answers, IsBeside, OwnsRight};
ghost use Rattle.run_base.specs.Queued.{is_queued};
ghost use Rattle.run_base.specs.Stages.{stage_of};
ghost use Rattle.run_base.specs.Telling.{owns_of};

use crate::rwlock_calls::run_out;
use lot_steps::{Next, Place, Reply};
use parking_lot_core::{CallName, Deed, Op, ParkingLot, Token, Word};
use run_base::driver::{NO_LIMIT, first_step_with};
use spec_locks::{Access, Answer};
use std::sync::Wait;
use steps_rwlock::Admission;
use steps_rwlock::places::WRITER;
use steps_rwlock_fair::{HandOverAt, RwLockCallPlace};

// Leaves a word that tells of nobody but the exclusive owner.
const LEAVE_ALONE: Op = Op::Exchange {
    from: WRITER,
    to: 0,
};

// Where an exclusive owner goes on that may have to hand the lock over.
const HAND_OVER: &RwLockCallPlace = &RwLockCallPlace::HandOver {
    access: Access::Exclusive,
    bumps: false,
    at: HandOverAt::Enter,
};

#[inline(always)]
fn bump_name(access: Access) -> &'static Deed {
    match access {
        Access::Shared => &Deed::Call(CallName::BumpShared),
        Access::Upgradable => &Deed::Call(CallName::BumpUpgradable),
        Access::Exclusive => &Deed::Call(CallName::BumpExclusive),
    }
}

// Does the rest of a call, from a place.
#[cold]
#[inline(never)]
fn finish_by_driver<R: Wait>(
    rt: &R,
    lot: &ParkingLot,
    token: &mut Token,
    word: &Word,
    admission: &Admission,
    at: &RwLockCallPlace,
) -> Answer
    requires own { MeetsAt lot.now token.old word.now admission.now }
    requires unqueued { IsFalse (is_queued (RwLock word.now.number admission.now at.now)) }
    requires fits { (base : List Ownership)
        × Fits ⊥ base (RwLock word.now.number admission.now at.now) (stage_of token.old None) }
    ensures own { IsSameThread lot.now token.old token.new }
    ensures path { Courses (at_rwlock word.now.number) token.old.number
        (RwLock word.now.number admission.now at.now)
        (trail_of token.old None) (trail_of token.new None) result }
    ensures over { (base : List Ownership)
        → Fits ⊥ base (RwLock word.now.number admission.now at.now) (stage_of token.old None)
        → IsOver ⊥ base (call_purpose (RwLock word.now.number admission.now at.now)) result
        (stage_of token.new None) }
{
    let start = Place::RwLock {
        lock: word.number(),
        admission: *admission,
        at: *at,
    };
    run_out(rt, lot, token, *word, NO_LIMIT, start)
}

/// An exclusive owner gives its right up, and hands the lock over to those that wait. Where nobody
/// does, that is one step.
#[inline(always)]
pub fn release_exclusive<R: Wait>(
    rt: &R,
    lot: &ParkingLot,
    token: &mut Token,
    word: &Word,
    admission: &Admission,
)
    requires own { MeetsAt lot.now token.old word.now admission.now }
    requires right { (base : List Ownership)
        × OwnsRight word.now.number (wanted Exclusive) base (owns_of token.old) }
    ensures own { IsSameThread lot.now token.old token.new }
    ensures path { HasWalkedCall word.now.number admission.now
        (calls.ReleaseFair Exclusive) ok token.old token.new }
    ensures over { (base : List Ownership)
        → OwnsRight word.now.number (wanted Exclusive) base (owns_of token.old)
        → IsBeside word.now.number base (owns_of token.new) }
    ensures record { ReleasesFairly word.now.number admission.now Exclusive token.old token.new }
{
    let name = &Deed::Call(CallName::UnlockExclusiveFair);
    let seen = first_step_with(rt, lot, token, name, *word, LEAVE_ALONE);
    if seen != WRITER {
        finish_by_driver(rt, lot, token, word, admission, HAND_OVER);
    }
}

/// An upgradable owner gives its right up, and hands the lock over to those that wait, where there
/// is room for them.
pub fn release_upgradable<R: Wait>(
    rt: &R,
    lot: &ParkingLot,
    token: &mut Token,
    word: &Word,
    admission: &Admission,
)
    requires own { MeetsAt lot.now token.old word.now admission.now }
    requires right { (base : List Ownership)
        × OwnsRight word.now.number (wanted Upgradable) base (owns_of token.old) }
    ensures own { IsSameThread lot.now token.old token.new }
    ensures path { HasWalkedCall word.now.number admission.now
        (calls.ReleaseFair Upgradable) ok token.old token.new }
    ensures over { (base : List Ownership)
        → OwnsRight word.now.number (wanted Upgradable) base (owns_of token.old)
        → IsBeside word.now.number base (owns_of token.new) }
    ensures record { ReleasesFairly word.now.number admission.now Upgradable token.old token.new }
{
    // The call begins with no step on the word.
    lot.turn_to_wait(
        rt,
        token,
        &Deed::Call(CallName::UnlockUpgradableFair),
        *word,
        *word,
    );
    let at = RwLockCallPlace::HandOver {
        access: Access::Upgradable,
        bumps: false,
        at: HandOverAt::Load,
    };
    finish_by_driver(rt, lot, token, word, admission, &at);
}

/// An owner gives its right up where others wait for it, and enters again. Where nobody does, that
/// is one load.
#[inline(always)]
pub fn bump<R: Wait>(
    rt: &R,
    lot: &ParkingLot,
    token: &mut Token,
    word: &Word,
    admission: &Admission,
    access: Access,
) -> Answer
    requires own { MeetsAt lot.now token.old word.now admission.now }
    requires right { (base : List Ownership)
        × OwnsRight word.now.number (wanted access) base (owns_of token.old) }
    ensures own { IsSameThread lot.now token.old token.new }
    ensures path { HasWalkedCall word.now.number admission.now
        (calls.Bump access) result token.old token.new }
    ensures over { (base : List Ownership)
        → OwnsRight word.now.number (wanted access) base (owns_of token.old)
        → Answers ⊥ word.now.number base admission.now (Enter access Patient) result
        (stage_of token.new None) }
{
    let name = bump_name(access);
    let seen = first_step_with(rt, lot, token, name, *word, Op::Load);
    match RwLockCallPlace::PeekQueue(access).next(*admission, Reply::Value(seen)) {
        Next::End(answer) => answer,
        Next::At(at) => finish_by_driver(rt, lot, token, word, admission, &at),
    }
}
