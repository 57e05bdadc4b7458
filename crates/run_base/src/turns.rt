//! Turns whose act is known where their call is compiled. A call does most of its work by these,
//! and all else by `run_from`.
ghost use Rattle.core_clocks.specs.Clocks.{TimeIsUp};
ghost use Rattle.steps_base.specs.declared.acts.Act.TheVariants as acts;
ghost use Rattle.steps_base.specs.declared.acts.Reply.TheVariants.{Done, Parked, Picked, Requeued, Took, Value};
ghost use Rattle.steps_base.specs.declared.acts.TakeWhich.TheVariants as whom;
ghost use Rattle.std.specs.Prelude.{◌≡◌, IsTrue, MatchBool};
ghost use Rattle.lot_steps.specs.Steps.{act_of, next_place};
ghost use Rattle.parking_lot_core.specs.Places.{IsPlaceOf};
ghost use Rattle.run_base.specs.Queued.{HasPlace, is_queued};
ghost use Rattle.run_base.specs.Stages.{waiting_of};
ghost use Rattle.run_base.specs.Telling.{StandsLast, TellsQueues, TellsRequeue, TellsTake};
ghost use Rattle.run_base.specs.Turns.{HasActed, HasTurned, IsAtPlace, MayAct};

pub use crate::acting::end;
use crate::acting::{enter, hand_over, leave, note_of, park, sleep, stand, take_wanted};
use crate::sleepers::sleeper_at;
use crate::taking::{requeue, take_first};
use crate::words::Words;
use lot_steps::{Check, Place, Reply, Wakes};
use parking_lot_core::{
    Clock, Key, Keys, Op, ParkingLot, QueuePlace, Requeue, Section, Token, Want,
};
use std::sync::Wait;

/// Takes a turn with one operation on the word of a lock. Returns what the word was.
#[inline]
pub fn turn_word<C: Clock>(
    lot: &ParkingLot,
    token: &mut Token,
    words: Words,
    _limit: Option<(&C, u64)>,
    _section: &Option<Section>,
    lock: usize,
    op: Op,
) -> u64
    requires { MayAct (TimeIsUp C.tells _limit) lot.now words
        (acts.Word lock op) token.old _section.now }
    ensures { HasActed (TimeIsUp C.tells _limit.entry) lot.now words (acts.Word lock op) (Value result)
        token.old _section.now token.new _section.now }
{
    lot.step_word(token, words.of(lock), op)
}

/// Takes a turn with one operation on the word of a lock, by which the lock goes to those that were
/// taken. Returns what the word was.
#[inline]
pub fn turn_hand_over<R: Wait, C: Clock>(
    rt: &R,
    lot: &ParkingLot,
    token: &mut Token,
    words: Words,
    _limit: Option<(&C, u64)>,
    section: &mut Option<Section>,
    lock: usize,
    op: Op,
) -> u64
    requires { MayAct (TimeIsUp C.tells _limit) lot.now words
        (acts.HandOver lock op) token.old section.old }
    ensures { HasActed (TimeIsUp C.tells _limit.entry) lot.now words (acts.HandOver lock op) (Value result)
        token.old section.old token.new section.new }
{
    hand_over(rt, lot, token, words.of(lock), section, op)
}

/// A turn that enters a section.
#[inline]
pub fn turn_enter<'a, R: Wait, C: Clock>(
    rt: &R,
    lot: &'a ParkingLot,
    token: &mut Token,
    _words: Words,
    _limit: Option<(&C, u64)>,
    section: &mut Option<Section<'a>>,
    keys: Keys,
)
    requires { MayAct (TimeIsUp C.tells _limit) lot.now _words (acts.Enter keys) token.old section.old }
    ensures { HasActed (TimeIsUp C.tells _limit.entry) lot.now _words (acts.Enter keys) Done
        token.old section.old token.new section.new }
{
    enter(rt, lot, token, section, keys);
}

/// Takes a turn that loads the word, and where the check holds stands after the last of a queue.
/// Returns whether it stands, and gives the thread's place there.
#[inline]
pub fn turn_park<'a, C: Clock>(
    lot: &ParkingLot,
    token: &mut Token,
    words: Words,
    _limit: Option<(&C, u64)>,
    section: &mut Option<Section<'a>>,
    queue: &mut Option<QueuePlace<'a>>,
    lock: usize,
    key: Key,
    check: Check,
    want: Want,
) -> bool
    requires { MayAct (TimeIsUp C.tells _limit) lot.now words
        (acts.Park lock key check want) token.old section.old }
    ensures done { HasActed (TimeIsUp C.tells _limit.entry) lot.now words (acts.Park lock key check want)
        (Parked result) token.old section.old token.new section.new }
    ensures stands { MatchBool result (StandsLast key token.old.number want section.old section.new)
        (waiting_of section.new ≡ waiting_of section.old) }
    ensures place { IsTrue result → HasPlace lot.now token.old.number queue.new }
{
    park(lot, token, words.of(lock), section, queue, key, check, want)
}

/// Takes a turn that stands after the last of a queue. It gives the thread's place there.
#[inline]
pub fn turn_stand<'a, C: Clock>(
    lot: &ParkingLot,
    token: &Token,
    _words: Words,
    _limit: Option<(&C, u64)>,
    section: &mut Option<Section<'a>>,
    key: Key,
    want: Want,
) -> QueuePlace<'a>
    requires { MayAct (TimeIsUp C.tells _limit) lot.now _words
        (acts.Stand key want) token.now section.old }
    ensures done { HasActed (TimeIsUp C.tells _limit.entry) lot.now _words (acts.Stand key want) Done
        token.now section.old token.now section.new }
    ensures stands { StandsLast key token.now.number want section.old section.new }
    ensures place { IsPlaceOf lot.now token.now.number result }
{
    stand(lot, token, section, key, want)
}

/// Takes a turn that takes the first of a queue. Whether there was any, and whether none is left.
#[inline]
pub fn turn_take_first<C: Clock>(
    lot: &ParkingLot,
    _token: &Token,
    _words: Words,
    _limit: Option<(&C, u64)>,
    section: &mut Option<Section>,
    key: Key,
) -> (bool, bool)
    requires { MayAct (TimeIsUp C.tells _limit) lot.now _words
        (acts.Take key whom.First) _token.now section.old }
    ensures done { HasActed (TimeIsUp C.tells _limit.entry) lot.now _words (acts.Take key whom.First)
        (Took result.0 result.1)
        _token.now section.old _token.now section.new }
    ensures told { TellsTake key whom.First (Took result.0 result.1) section.old section.new }
{
    take_first(lot, section, key)
}

/// Takes a turn that takes the waiters that a lock lets in: how many of them want to share, the
/// want of the first that wants more, and whether none is left.
#[inline]
pub fn turn_take_wanted<C: Clock>(
    lot: &ParkingLot,
    _token: &Token,
    _words: Words,
    _limit: Option<(&C, u64)>,
    section: &mut Option<Section>,
    key: Key,
    start: Option<Want>,
    recursive: bool,
) -> (usize, Option<Want>, bool)
    requires { MayAct (TimeIsUp C.tells _limit) lot.now _words
        (acts.Take key (whom.Picked start recursive)) _token.now section.old }
    ensures done { HasActed (TimeIsUp C.tells _limit.entry) lot.now _words
        (acts.Take key (whom.Picked start recursive)) (Picked result.0 result.1 result.2)
        _token.now section.old _token.now section.new }
    ensures told { TellsTake key (whom.Picked start recursive) (Picked result.0 result.1 result.2)
        section.old section.new }
{
    take_wanted(lot, section, key, start, recursive)
}

/// Takes a turn that moves waiters from one queue to another, and may take the first. How many
/// these are, and whether none is left where they stood.
#[inline]
pub fn turn_requeue<C: Clock>(
    lot: &ParkingLot,
    _token: &Token,
    _words: Words,
    _limit: Option<(&C, u64)>,
    section: &mut Option<Section>,
    from: Key,
    to: Key,
    how: Requeue,
) -> (usize, bool)
    requires { MayAct (TimeIsUp C.tells _limit) lot.now _words
        (acts.Requeue from to how) _token.now section.old }
    ensures done { HasActed (TimeIsUp C.tells _limit.entry) lot.now _words (acts.Requeue from to how)
        (Requeued result.0 result.1)
        _token.now section.old _token.now section.new }
    ensures told { TellsRequeue from to how result.0 result.1 section.old section.new }
{
    requeue(lot, section, from, to, how)
}

/// A turn that leaves the section of these keys, and wakes those that the thread took there.
#[inline]
pub fn turn_leave<R: Wait, C: Clock>(
    rt: &R,
    lot: &ParkingLot,
    token: &mut Token,
    _words: Words,
    _limit: Option<(&C, u64)>,
    section: &mut Option<Section>,
    _keys: Keys,
    wakes: Wakes,
)
    requires { MayAct (TimeIsUp C.tells _limit) lot.now _words
        (acts.Leave _keys wakes) token.old section.old }
    ensures { HasActed (TimeIsUp C.tells _limit.entry) lot.now _words (acts.Leave _keys wakes) Done
        token.old section.old token.new section.new }
{
    leave(rt, lot, token, section, note_of(wakes));
}

/// A turn that sleeps at a place until another thread has woken this one, or its time is up.
#[inline]
pub fn turn_sleep<'a, R: Wait, C: Clock>(
    rt: &R,
    lot: &'a ParkingLot,
    token: &mut Token,
    words: Words,
    limit: Option<(&C, u64)>,
    section: &mut Option<Section<'a>>,
    queue: &mut Option<QueuePlace<'a>>,
    place: Place,
) -> Reply
    requires at { IsAtPlace (TimeIsUp C.tells limit) lot.now words place token.old section.old }
    requires act { act_of place ≡ acts.Sleep }
    requires queued { HasPlace lot.now token.old.number queue.old }
    ensures turned { HasTurned (TimeIsUp C.tells limit.entry) lot.now words place result token.old
        section.old token.new section.new }
    ensures queues { TellsQueues acts.Sleep result token.old.number section.old section.new }
    ensures queued { IsTrue (is_queued (next_place place result))
        → HasPlace lot.now token.new.number queue.new }
{
    let sleeper = sleeper_at(place);
    sleep(
        rt,
        lot,
        token,
        words.of(sleeper.lock),
        limit,
        sleeper,
        section,
        queue,
    )
}
