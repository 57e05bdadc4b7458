//! One driver for all calls: it does the act of a place on the real lot, and `advance` leads on.
//!
//! A run ends at a closure, and another begins after it, so that no path passes a closure over. The
//! world and the driver both lead on by the same `next` of a place. A thread that waits without a limit
//! is never late, by the contract of `sleep`, so one driver serves timed and other calls.
ghost use Rattle.std.specs.Prelude.{◌≡◌, ◌++◌, List, None, IsTrue, IsFalse};
ghost use Rattle.core_clocks.specs.Clocks.{TimeIsUp};
ghost use Rattle.lot_steps.specs.Steps.{act_of, next_place};
ghost use Rattle.steps_base.specs.declared.acts.Reply.TheVariants.{Value};
ghost use Rattle.core_words.specs.Indices.{word_index};
ghost use Rattle.core_words.specs.Lots.{IsWordOf};
ghost use Rattle.core_words.specs.Steps.{MayStep, CodesWith, after_step};
ghost use Rattle.core_words.specs.declared.owners.Ownership.{Ownership};
ghost use Rattle.core_words.specs.declared.views.WordStep.{WordStep};
ghost use Rattle.core_words.specs.declared.words.WordKind.TheVariants.{Mutex};
ghost use Rattle.parking_lot_core.specs.Tokens.{IsTokenOf, IsSameThread, view_of, last_of, told_of};
ghost use Rattle.run_base.specs.Calls.{MeetAt, beginning, purpose_in, IsUnfinished, WalksAfter};
ghost use Rattle.run_base.specs.Fitting.{PlacesLead, AreWordsFor, AreWordsAfter, Fits, IsStopped, Reached};
ghost use Rattle.run_base.specs.Fitting.{answer_of, call_purpose};
ghost use Rattle.run_base.specs.MutexFitting.{IsMutexOver};
ghost use Rattle.run_base.specs.Queued.{HasPlace, is_queued};
ghost use Rattle.run_base.specs.Paths.{closure_of, mutex_at, GoesFrom};
ghost use Rattle.run_base.specs.Courses.{HasRecorded, RunsCourse, trail_of};
ghost use Rattle.run_base.specs.Words.{AreWordsOf, kind_in, at_in};
ghost use Rattle.run_base.specs.Stages.{IsSectionOf, stage_of};
ghost use Rattle.run_base.specs.Telling.{TellsQueues, owns_of, steps_of};

use crate::acting::{end, perform};
use crate::words::Words;
use lot_steps::{Act, MutexPlace, Place, Reply};
use parking_lot_core::pauses::{SHORT_PAUSE, pause};
use parking_lot_core::{Clock, Deed, Op, ParkingLot, QueuePlace, Section, Token, Word};
use spec_locks::{Answer, MutexCall, OnceState};
use std::sync::Wait;

// The most loads in place of an act that leads to sleep, in one call. With the pauses before them
// they take 17 microseconds, where a round takes 11 nanoseconds: some turns of a lock whose owner
// runs. A thread whose owner does not run is no better off with more, and sleeps then.
const MOST_LOADS: u32 = 5;

// How often the pause before a load doubles.
const DOUBLINGS: u32 = 3;

/// The clock of a thread that waits without a limit.
pub struct NoClock;

impl Clock for NoClock {
    ghost tells = { λ _ _. Unit {0} };

    fn now(&self) -> u64 {
        0
    }

    fn pause(&self, _left: u64) {}
}

/// The deadline of a thread that waits without a limit.
pub const NO_LIMIT: Option<(&'static NoClock, u64)> = None;

/// No limit, by reference.
pub const FOR_EVER: &Option<(&'static NoClock, u64)> = &None;

/// The stop of a call's run: at the call's end, or at its closure.
#[derive(Drop)]
pub enum Stop {
    /// The call is over.
    Ended(Answer),
    /// The closure of the call is to run, with this state. The call goes on after the place, by a
    /// run of its own.
    Paused { place: Place, state: OnceState },
}

fn closure_of(act: Act) -> Option<OnceState>
    ensures { result ≡ closure_of act }
{
    match act {
        Act::Closure(state) => Some(state),
        _ => None,
    }
}

/// Returns the answer of the call whose act this is, if the call is over.
pub fn answer_of(act: Act) -> Option<Answer>
    ensures { result ≡ answer_of act }
{
    match act {
        Act::End(answer) => Some(answer),
        _ => None,
    }
}

/// Takes one step on the word of a mutex.
#[inline]
pub fn step(lot: &ParkingLot, token: &mut Token, word: Word, op: Op) -> u64
    requires own { MeetAt lot.now token.old word }
    requires may { MayStep Mutex (mutex_at word.number) op (view_of token.old).owns }
    ensures own { IsSameThread lot.now token.old token.new × (last_of token.new ≡ None) }
    ensures untold { told_of token.new ≡ told_of token.old }
    ensures stepped { view_of token.new
        ≡ after_step Mutex (mutex_at word.number) op result (view_of token.old) }
    ensures coded { CodesWith Mutex (mutex_at word.number) result (view_of token.old).owns }
{
    lot.step_word(token, word, op)
}

/// Takes the first step of a call, which a director is told by this name: else it does what
/// `ParkingLot::step_word` does.
#[inline(always)]
pub fn first_step(
    lot: &ParkingLot,
    token: &mut Token,
    deed: &'static Deed,
    word: Word,
    op: Op,
) -> u64
    requires own { IsTokenOf lot.now token.old × IsWordOf lot.now.words word }
    requires may { MayStep word.kind (word_index word.number word.kind) op (view_of token.old).owns }
    ensures own { IsSameThread lot.now token.old token.new × (last_of token.new ≡ None) }
    ensures untold { told_of token.new ≡ told_of token.old }
    ensures stepped { view_of token.new
        ≡ after_step word.kind (word_index word.number word.kind) op result (view_of token.old) }
    ensures coded { CodesWith word.kind (word_index word.number word.kind) result
        (view_of token.old).owns }
{
    lot.begins(token, deed, word);
    lot.step_word_unrecorded(token, word, op)
}

/// Takes the first step of a call, for which a directed thread waits asleep: else it does what
/// `first_step` does.
#[inline(always)]
pub fn first_step_with<R: Wait>(
    rt: &R,
    lot: &ParkingLot,
    token: &mut Token,
    deed: &'static Deed,
    word: Word,
    op: Op,
) -> u64
    requires own { IsTokenOf lot.now token.old × IsWordOf lot.now.words word }
    requires may { MayStep word.kind (word_index word.number word.kind) op (view_of token.old).owns }
    ensures own { IsSameThread lot.now token.old token.new × (last_of token.new ≡ None) }
    ensures untold { told_of token.new ≡ told_of token.old }
    ensures stepped { view_of token.new
        ≡ after_step word.kind (word_index word.number word.kind) op result (view_of token.old) }
    ensures coded { CodesWith word.kind (word_index word.number word.kind) result
        (view_of token.old).owns }
{
    if lot.may_begin(token) {
        lot.step_word_unrecorded(token, word, op)
    } else {
        first_step_in_turn(rt, lot, token, deed, word, op)
    }
}

/// Takes the first step of a call once the thread has its turn for it, where a director says when it
/// runs.
#[cold]
#[inline(never)]
pub fn first_step_in_turn<R: Wait>(
    rt: &R,
    lot: &ParkingLot,
    token: &mut Token,
    deed: &'static Deed,
    word: Word,
    op: Op,
) -> u64
    requires own { IsTokenOf lot.now token.old × IsWordOf lot.now.words word }
    requires may { MayStep word.kind (word_index word.number word.kind) op (view_of token.old).owns }
    requires forgotten { last_of token.old ≡ None }
    ensures own { IsSameThread lot.now token.old token.new × (last_of token.new ≡ None) }
    ensures untold { told_of token.new ≡ told_of token.old }
    ensures stepped { view_of token.new
        ≡ after_step word.kind (word_index word.number word.kind) op result (view_of token.old) }
    ensures coded { CodesWith word.kind (word_index word.number word.kind) result
        (view_of token.old).owns }
{
    lot.turn_to_begin(rt, token, deed, &word);
    lot.step_word_unrecorded(token, word, op)
}

/// Takes the first step of a call on the word of a mutex, by its name.
#[inline(always)]
pub fn first_mutex_step(
    lot: &ParkingLot,
    token: &mut Token,
    deed: &'static Deed,
    word: Word,
    op: Op,
) -> u64
    requires own { MeetAt lot.now token.old word }
    requires may { MayStep Mutex (mutex_at word.number) op (view_of token.old).owns }
    ensures own { IsSameThread lot.now token.old token.new × (last_of token.new ≡ None) }
    ensures untold { told_of token.new ≡ told_of token.old }
    ensures stepped { view_of token.new
        ≡ after_step Mutex (mutex_at word.number) op result (view_of token.old) }
    ensures coded { CodesWith Mutex (mutex_at word.number) result (view_of token.old).owns }
{
    first_step(lot, token, deed, word, op)
}

// Each load takes the word's cache line from its owner, and slows it. A thread therefore pauses
// before it loads, the longer the more often it has loaded: the owner meanwhile takes many turns as
// if it were alone.
fn pause_before(loads: u32) {
    pause(SHORT_PAUSE << loads.min(DOUBLINGS));
}

// Where a call goes on, and what it does there. In place of an act that leads to sleep it looks at
// the word once more, after a pause, some times over. It never yields: beside busy processes that
// gives a whole slice of the processor away, where a park ends with its wake.
fn go_from(words: Words, place: &mut Place, act: Act, loads: &mut u32) -> Act
    requires words { AreWordsFor place.old (kind_in words) (at_in words) }
    requires act { act ≡ act_of place.old }
    ensures place { GoesFrom place.old place.new }
    ensures act { result ≡ act_of place.new }
{
    if *loads >= MOST_LOADS {
        return act;
    }
    match place.respins_from() {
        Some(respins_from) => {
            pause_before(*loads);
            *loads += 1;
            *place = respins_from;
            respins_from.act()
        }
        None => act,
    }
}

/// All calls keep what fits at their places.
pub(crate) fn places_lead<C: Clock>(_limit: Option<(&C, u64)>)
    ensures { PlacesLead (TimeIsUp C.tells _limit.entry) }
{}

// Takes one turn of a call: the act of its place. Each stage that fitted there leads on to one that
// fits.
fn turn<'a, R: Wait, C: Clock>(
    rt: &R,
    lot: &'a ParkingLot,
    token: &mut Token,
    words: Words,
    limit: Option<(&C, u64)>,
    section: &mut Option<Section<'a>>,
    queue: &mut Option<QueuePlace<'a>>,
    place: Place,
    act: Act,
) -> Reply
    requires own { IsTokenOf lot.now token.old × AreWordsOf lot.now words
        × IsSectionOf lot.now section.old }
    requires queued { IsTrue (is_queued place) → HasPlace lot.now token.old.number queue.old }
    requires words { AreWordsFor place (kind_in words) (at_in words) }
    requires act { act ≡ act_of place }
    requires fits { (base : List Ownership)
        × Fits (TimeIsUp C.tells limit) base place (stage_of token.old section.old) }
    requires no_closure { closure_of (act_of place) ≡ None }
    ensures own { IsSameThread lot.now token.old token.new × IsSectionOf lot.now section.new }
    ensures queues { TellsQueues act result token.old.number section.old section.new }
    ensures recorded { HasRecorded (at_in words) token.old.number place result
        (trail_of token.old section.old) (trail_of token.new section.new) }
    ensures queued { IsTrue (is_queued (next_place place result))
        → HasPlace lot.now token.new.number queue.new }
    ensures reached { (base : List Ownership)
        → Fits (TimeIsUp C.tells limit.entry) base place (stage_of token.old section.old)
        → Reached (TimeIsUp C.tells limit.entry) base place result (stage_of token.new section.new) }
{
    perform(rt, lot, token, words, limit, section, queue, place, act)
}

/// Runs a call from a place to its answer or its closure, up to a deadline where the call is timed:
/// any other pays no heed to it. The thread may be inside a section there. It brings its place in a
/// queue where it is queued.
///
/// The thread sleeps where its call waits, until another one wakes it. A closure is left to the
/// caller to run.
#[cold]
#[inline(never)]
pub fn run_from<'a, R: Wait, C: Clock>(
    rt: &R,
    lot: &'a ParkingLot,
    token: &mut Token,
    words: Words,
    limit: Option<(&C, u64)>,
    inside: Option<Section<'a>>,
    queued: Option<QueuePlace<'a>>,
    start: Place,
) -> Stop
    requires own { IsTokenOf lot.now token.old × AreWordsOf lot.now words × IsSectionOf lot.now inside }
    requires queued { IsTrue (is_queued start) → HasPlace lot.now token.old.number queued }
    requires words { AreWordsFor start (kind_in words) (at_in words) }
    requires start { (base : List Ownership)
        × Fits (TimeIsUp C.tells limit) base start (stage_of token.old inside) }
    ensures own { IsSameThread lot.now token.old token.new }
    ensures stopped { (base : List Ownership)
        → Fits (TimeIsUp C.tells limit.entry) base start (stage_of token.old inside.entry)
        → IsStopped (TimeIsUp C.tells limit.entry) base (call_purpose start) result
        (stage_of token.new None) }
    ensures words { AreWordsAfter result (kind_in words) (at_in words) }
    ensures path { RunsCourse (at_in words) token.old.number start
        (trail_of token.old inside.entry) (trail_of token.new None) result }
{
    let mut place = start;
    let mut act = start.act();
    let mut section = inside;
    let mut queue = queued;
    // Where threads take turns nobody gets on while one pauses.
    let mut loads = if lot.is_directed() { MOST_LOADS } else { 0 };
    for _ in rt.forever() {
        if let Some(state) = closure_of(act) {
            end(section);
            return Stop::Paused { place, state };
        }
        let reply = turn(
            rt,
            lot,
            token,
            words,
            limit,
            &mut section,
            &mut queue,
            place,
            act,
        );
        act = place.advance_in_place(reply);
        if let Some(answer) = answer_of(act) {
            end(section);
            return Stop::Ended(answer);
        }
        act = go_from(words, &mut place, act, &mut loads);
    }
    unreachable!()
}

/// Runs a call of a thread that is outside all sections.
#[cold]
#[inline(never)]
pub fn run<R: Wait, C: Clock>(
    rt: &R,
    lot: &ParkingLot,
    token: &mut Token,
    words: Words,
    limit: Option<(&C, u64)>,
    start: Place,
) -> Stop
    requires own { IsTokenOf lot.now token.old × AreWordsOf lot.now words }
    requires unqueued { IsFalse (is_queued start) }
    requires words { AreWordsFor start (kind_in words) (at_in words) }
    requires start { (base : List Ownership)
        × Fits (TimeIsUp C.tells limit) base start (stage_of token.old None) }
    ensures own { IsSameThread lot.now token.old token.new }
    ensures stopped { (base : List Ownership)
        → Fits (TimeIsUp C.tells limit.entry) base start (stage_of token.old None)
        → IsStopped (TimeIsUp C.tells limit.entry) base (call_purpose start) result
        (stage_of token.new None) }
    ensures words { AreWordsAfter result (kind_in words) (at_in words) }
    ensures path { RunsCourse (at_in words) token.old.number start
        (trail_of token.old None) (trail_of token.new None) result }
{
    run_from(rt, lot, token, words, limit, None, None, start)
}

// Where a call goes on whose first step saw this.
fn place_after(word: Word, call: MutexCall, seen: u64) -> Place
    ensures { result ≡ next_place (beginning word.number call) (Value seen) }
{
    let first = Place::Mutex {
        lock: word.number(),
        at: MutexPlace::first(call, false),
    };
    first.next_place(Reply::Value(seen))
}

/// Does the rest of a call whose first step saw this.
#[cold]
#[inline(never)]
pub fn call_slow<R: Wait, C: Clock>(
    rt: &R,
    lot: &ParkingLot,
    token: &mut Token,
    word: Word,
    limit: Option<(&C, u64)>,
    call: MutexCall,
    seen: u64,
) -> Answer
    requires own { MeetAt lot.now token.old word }
    requires goes_on { IsUnfinished word.number call seen (view_of token.old).owns }
    ensures own { IsSameThread lot.now token.old token.new }
    ensures path { WalksAfter word.number call seen token.old token.new result }
    ensures rest { (more : List WordStep) × (steps_of token.new ≡ steps_of token.old ++ more) }
    ensures over { IsMutexOver (TimeIsUp C.tells limit.entry) word.number (owns_of token.old)
        (purpose_in call) result (stage_of token.new None) }
{
    let start = place_after(word, call, seen);
    match run(rt, lot, token, Words::alone(word), limit, start) {
        Stop::Ended(answer) => answer,
        // No call of a mutex runs a closure.
        Stop::Paused { .. } => unreachable!(),
    }
}
