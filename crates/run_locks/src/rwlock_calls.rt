//! The calls of a reader-writer lock, each from its first step to its answer.
//!
//! The first half of a call is inlined: the first step, the decision about the value seen
//! (`course_of`), and one exchange for a thread that may come in to read. All code that waits or wakes
//! is cold. A cold call takes its word and settings by reference and a constant purpose, since a local
//! would be set to zero each time. The limit is kept twice (`Settings`), as a number and shifted as the
//! word has it.
ghost use Rattle.std.specs.Prelude.{◌≡◌, List, None, MatchResult, IsFalse};
ghost use Rattle.steps_base.specs.declared.acts.Reply.TheVariants.{Value};
ghost use Rattle.core_clocks.specs.Clocks.{TimeIsUp};
ghost use Rattle.steps_rwlock.specs.declared.purposes.RwLockPurpose.TheVariants.{Enter};
ghost use Rattle.lot_steps.specs.Steps.{next_place};
ghost use Rattle.core_words.specs.Lots.{IsWordOf};
ghost use Rattle.core_words.specs.declared.owners.Ownership.{Ownership};
ghost use Rattle.core_words.specs.declared.words.WordKind.TheVariants.{RwLock};
ghost use Rattle.parking_lot_core.specs.Tokens.{IsTokenOf, IsSameThread};
ghost use Rattle.parking_lot_core.specs.declared.tokens.Token.{Token};
ghost use Rattle.run_locks.specs.Halves.{HasBegunRwLock, HasEndedRwLock};
ghost use Rattle.run_locks.specs.declared.rwlock_calls.SlowPart.TheVariants.{GoesOn, Missed, NotBegun};
ghost use Rattle.run_base.specs.Fitting.{AreWordsFor, Fits, IsOver, Reached, call_purpose, of_rwlock};
ghost use Rattle.run_base.specs.Courses.{Courses, CoursesAfterReply, trail_of};
ghost use Rattle.run_base.specs.Paths.{at_rwlock};
ghost use Rattle.run_base.specs.RwLockCalls.{AnswersCall, BeginsWith, HasWalkedRwLock, MeetsAt, WakesBy};
ghost use Rattle.run_base.specs.RwLockCalls.{rwlock_begin, rwlock_deciding};
ghost use Rattle.run_base.specs.Queued.{is_queued};
ghost use Rattle.run_base.specs.Stages.{stage_of};
ghost use Rattle.run_base.specs.Telling.{owns_of};
ghost use Rattle.run_base.specs.Words.{single_word, kind_in, at_in};

use crate::call_names::call_name;
use crate::rwlock_courses::{Course, Settings, answer_with, course_of, opening};
use crate::wake_courses::wake_through;
use core_base::Line;
use lot_steps::{Place, Reply, advance};
use parking_lot_core::pauses::{SHORT_PAUSE, pause};
use parking_lot_core::{Clock, Op, ParkingLot, Token, Word};
use run_base::driver::{Stop, answer_of, first_step_in_turn, run};
use run_base::words::Words;
use spec_locks::{Access, Answer, Downgrade, Patience};
use std::sync::Wait;
use steps_rwlock::places::{RwLockAt, RwLockPlace};
use steps_rwlock::release::WakeAt;
use steps_rwlock::{Admission, RwLockPurpose};
use steps_rwlock_fair::RwLockCallPlace;

/// The rest of a call, which the fast half leaves to the slow one.
#[derive(Clone, Copy)]
pub enum SlowPart {
    /// No step is taken: the thread waits for its turn.
    NotBegun,
    /// The first step saw this, and the call goes on.
    GoesOn(u64),
    /// The first step saw one value, and the exchange by which the call takes its right found
    /// another.
    Missed { seen: u64, found: u64 },
}

/// Runs a call that steps on one word from a place to its answer.
pub(crate) fn run_out<R: Wait, C: Clock>(
    rt: &R,
    lot: &ParkingLot,
    token: &mut Token,
    word: Word,
    limit: Option<(&C, u64)>,
    start: Place,
) -> Answer
    requires own { IsTokenOf lot.now token.old × IsWordOf lot.now.words word }
    requires words { AreWordsFor start (kind_in (single_word word)) (at_in (single_word word)) }
    requires kind { word.kind ≡ RwLock }
    requires unqueued { IsFalse (is_queued start) }
    requires fits { (base : List Ownership)
        × Fits (TimeIsUp C.tells limit) base start (stage_of token.old None) }
    ensures own { IsSameThread lot.now token.old token.new }
    ensures path { Courses (at_in (single_word word)) token.old.number start
        (trail_of token.old None) (trail_of token.new None) result }
    ensures over { (base : List Ownership)
        → Fits (TimeIsUp C.tells limit.entry) base start (stage_of token.old None)
        → IsOver (TimeIsUp C.tells limit.entry) base (call_purpose start) result (stage_of token.new None) }
{
    let words = Words::alone(word);
    match start {
        Place::RwLock {
            lock,
            admission,
            at: RwLockCallPlace::Plain(
                RwLockPlace {
                    purpose,
                    retries: false,
                    at: RwLockAt::Wake {
                        line: Line::Main,
                        at: WakeAt::Enter,
                    },
                },
            ),
        } => wake_through(rt, lot, token, words, limit, lock, admission, purpose),
        _ => match run(rt, lot, token, words, limit, start) {
            Stop::Ended(answer) => answer,
            // No call of a lock runs a closure.
            Stop::Paused { .. } => unreachable!(),
        },
    }
}

// Where a call goes on whose first step saw this.
fn place_after(lock: usize, admission: Admission, purpose: RwLockPurpose, seen: u64) -> Place
    ensures { result ≡ next_place (rwlock_begin lock admission purpose) (Value seen) }
{
    let first = Place::RwLock {
        lock,
        admission,
        at: RwLockCallPlace::begin(purpose),
    };
    first.next_place(Reply::Value(seen))
}

// Returns where a call decides by what its first step saw.
fn deciding(lock: usize, admission: Admission, purpose: RwLockPurpose, seen: u64) -> Place
    ensures { result ≡ rwlock_deciding lock admission purpose seen }
{
    Place::RwLock {
        lock,
        admission,
        at: RwLockCallPlace::Plain(RwLockPlace {
            purpose,
            retries: false,
            at: RwLockAt::Decide(seen),
        }),
    }
}

// Returns a purpose to enter, where it lasts.
#[inline(always)]
fn entering(access: Access, patience: Patience) -> &'static RwLockPurpose
    ensures { result.now ≡ Enter access patience }
{
    use Access::{Exclusive, Shared, Upgradable};
    use Patience::{Patient, Timed, Try};
    use RwLockPurpose::Enter;
    match (access, patience) {
        (Shared, Patient) => &Enter {
            access: Shared,
            patience: Patient,
        },
        (Shared, Timed) => &Enter {
            access: Shared,
            patience: Timed,
        },
        (Shared, Try) => &Enter {
            access: Shared,
            patience: Try,
        },
        (Upgradable, Patient) => &Enter {
            access: Upgradable,
            patience: Patient,
        },
        (Upgradable, Timed) => &Enter {
            access: Upgradable,
            patience: Timed,
        },
        (Upgradable, Try) => &Enter {
            access: Upgradable,
            patience: Try,
        },
        (Exclusive, Patient) => &Enter {
            access: Exclusive,
            patience: Patient,
        },
        (Exclusive, Timed) => &Enter {
            access: Exclusive,
            patience: Timed,
        },
        (Exclusive, Try) => &Enter {
            access: Exclusive,
            patience: Try,
        },
    }
}

// Returns the purpose of a call, where it lasts.
#[inline(always)]
fn static_purpose(purpose: RwLockPurpose) -> &'static RwLockPurpose
    ensures { result.now ≡ purpose }
{
    use RwLockPurpose::{Downgrade as Lessen, Enter, Release, Upgrade};
    match purpose {
        Enter { access, patience } => entering(access, patience),
        Release(Access::Shared) => &Release(Access::Shared),
        Release(Access::Upgradable) => &Release(Access::Upgradable),
        Release(Access::Exclusive) => &Release(Access::Exclusive),
        Lessen(Downgrade::ToShared) => &Lessen(Downgrade::ToShared),
        Lessen(Downgrade::ToUpgradable) => &Lessen(Downgrade::ToUpgradable),
        Lessen(Downgrade::UpgradableToShared) => &Lessen(Downgrade::UpgradableToShared),
        Upgrade(Patience::Patient) => &Upgrade(Patience::Patient),
        Upgrade(Patience::Timed) => &Upgrade(Patience::Timed),
        Upgrade(Patience::Try) => &Upgrade(Patience::Try),
    }
}

// Runs a call by reference: what a cold call is given by value lies in a local of its caller, which
// every call would set to zero.
#[cold]
#[inline(never)]
fn rest_slow<R: Wait, C: Clock>(
    rt: &R,
    lot: &ParkingLot,
    token: &mut Token,
    word: &Word,
    admission: &Admission,
    limit: &Option<(&C, u64)>,
    purpose: &RwLockPurpose,
    seen: u64,
) -> Answer
    requires own { MeetsAt lot.now token.old word.now admission.now }
    requires fits { (base : List Ownership) × Fits (TimeIsUp C.tells limit.now) base
        (next_place (rwlock_begin word.now.number admission.now purpose.now) (Value seen)) (stage_of token.old None) }
    ensures own { IsSameThread lot.now token.old token.new }
    ensures path { Courses (at_rwlock word.now.number) token.old.number
        (next_place (rwlock_begin word.now.number admission.now purpose.now) (Value seen))
        (trail_of token.old None) (trail_of token.new None) result }
    ensures over { (base : List Ownership) → Fits (TimeIsUp C.tells limit.now) base
        (next_place (rwlock_begin word.now.number admission.now purpose.now) (Value seen)) (stage_of token.old None)
        → IsOver (TimeIsUp C.tells limit.now) base
        (call_purpose (next_place (rwlock_begin word.now.number admission.now purpose.now) (Value seen))) result (stage_of token.new None) }
{
    let start = place_after(word.number(), *admission, *purpose, seen);
    run_out(rt, lot, token, *word, *limit, start)
}

/// Does the slow half of a call whose first step saw this, and that goes on.
#[inline(always)]
pub fn call_slow<R: Wait, C: Clock>(
    rt: &R,
    lot: &ParkingLot,
    token: &mut Token,
    word: &Word,
    admission: &Admission,
    limit: &Option<(&C, u64)>,
    purpose: RwLockPurpose,
    seen: u64,
) -> Answer
    requires own { MeetsAt lot.now token.old word.now admission.now }
    requires begun { (before : Token) × (base : List Ownership)
        × BeginsWith word.now.number purpose base (owns_of before)
        × HasBegunRwLock word.now admission.now purpose (GoesOn seen) before token.old }
    ensures own { IsSameThread lot.now token.old token.new }
    ensures over { (before : Token) (base : List Ownership)
        → BeginsWith word.now.number purpose base (owns_of before)
        → HasBegunRwLock word.now admission.now purpose (GoesOn seen) before token.old
        → HasEndedRwLock (TimeIsUp C.tells limit.now) word.now admission.now purpose result before token.new }
{
    rest_slow(
        rt,
        lot,
        token,
        word,
        admission,
        limit,
        static_purpose(purpose),
        seen,
    )
}

// Runs a call by reference, after a pause. A thread whose exchange missed met another, and would
// meet it again at once. It pauses for 0.7 microseconds where a round takes 11 nanoseconds:
// meanwhile the other thread keeps the word's cache line, and takes many turns as if it were alone.
#[cold]
#[inline(never)]
fn rest_missed<R: Wait, C: Clock>(
    rt: &R,
    lot: &ParkingLot,
    token: &mut Token,
    word: &Word,
    admission: &Admission,
    limit: &Option<(&C, u64)>,
    purpose: &RwLockPurpose,
    expected: u64,
    found: u64,
) -> Answer
    requires own { MeetsAt lot.now token.old word.now admission.now }
    requires reached { (base : List Ownership) × Reached (TimeIsUp C.tells limit.now) base
        (rwlock_deciding word.now.number admission.now purpose.now expected) (Value found) (stage_of token.old None) }
    ensures own { IsSameThread lot.now token.old token.new }
    ensures path { CoursesAfterReply (at_rwlock word.now.number) token.old.number
        (rwlock_deciding word.now.number admission.now purpose.now expected) (Value found)
        (trail_of token.old None) (trail_of token.new None) result }
    ensures over { (base : List Ownership) → Reached (TimeIsUp C.tells limit.now) base
        (rwlock_deciding word.now.number admission.now purpose.now expected) (Value found) (stage_of token.old None)
        → IsOver (TimeIsUp C.tells limit.now) base
        (of_rwlock word.now.number admission.now purpose.now) result
        (stage_of token.new None) }
{
    let place = deciding(word.number(), *admission, *purpose, expected);
    let (next, act) = advance(place, Reply::Value(found));
    match answer_of(act) {
        Some(answer) => answer,
        None => {
            pause(SHORT_PAUSE);
            run_out(rt, lot, token, *word, *limit, next)
        }
    }
}

/// Does the slow half of a call whose first step saw one value, and whose exchange found another.
#[inline(always)]
pub fn missed<R: Wait, C: Clock>(
    rt: &R,
    lot: &ParkingLot,
    token: &mut Token,
    word: &Word,
    admission: &Admission,
    limit: &Option<(&C, u64)>,
    purpose: RwLockPurpose,
    seen: u64,
    found: u64,
) -> Answer
    requires own { MeetsAt lot.now token.old word.now admission.now }
    requires begun { (before : Token) × (base : List Ownership)
        × BeginsWith word.now.number purpose base (owns_of before)
        × HasBegunRwLock word.now admission.now purpose (Missed seen found) before token.old }
    ensures own { IsSameThread lot.now token.old token.new }
    ensures over { (before : Token) (base : List Ownership)
        → BeginsWith word.now.number purpose base (owns_of before)
        → HasBegunRwLock word.now admission.now purpose (Missed seen found) before token.old
        → HasEndedRwLock (TimeIsUp C.tells limit.now) word.now admission.now purpose result before token.new }
{
    rest_missed(
        rt,
        lot,
        token,
        word,
        admission,
        limit,
        static_purpose(purpose),
        seen,
        found,
    )
}

// Runs a call, by reference, once its thread has its turn.
#[cold]
#[inline(never)]
fn rest_in_turn<R: Wait, C: Clock>(
    rt: &R,
    lot: &ParkingLot,
    token: &mut Token,
    word: &Word,
    settings: &Settings,
    limit: &Option<(&C, u64)>,
    purpose: &RwLockPurpose,
) -> Answer
    requires own { MeetsAt lot.now token.old word.now settings.now.admission }
    requires begun { (before : Token) × (base : List Ownership)
        × BeginsWith word.now.number purpose.now base (owns_of before)
        × HasBegunRwLock word.now settings.now.admission purpose.now NotBegun before token.old }
    ensures own { IsSameThread lot.now token.old token.new }
    ensures over { (before : Token) (base : List Ownership)
        → BeginsWith word.now.number purpose.now base (owns_of before)
        → HasBegunRwLock word.now settings.now.admission purpose.now NotBegun before token.old
        → HasEndedRwLock (TimeIsUp C.tells limit.now) word.now settings.now.admission purpose.now result
        before token.new }
{
    let (name, op) = (call_name(*purpose), opening(*purpose));
    let seen = first_step_in_turn(rt, lot, token, name, *word, op);
    match course_of(*settings, *purpose, seen) {
        Course::Ends(answer) => answer,
        Course::GoesOn => {
            rest_slow(
                rt,
                lot,
                token,
                word,
                &settings.admission,
                limit,
                purpose,
                seen,
            )
        }
        Course::Takes => {
            rest_slow(
                rt,
                lot,
                token,
                word,
                &settings.admission,
                limit,
                purpose,
                seen,
            )
        }
    }
}

/// Does the slow half of a call that has not begun: its thread waits for its turn.
#[inline(always)]
pub fn call_in_turn<R: Wait, C: Clock>(
    rt: &R,
    lot: &ParkingLot,
    token: &mut Token,
    word: &Word,
    settings: &Settings,
    limit: &Option<(&C, u64)>,
    purpose: RwLockPurpose,
) -> Answer
    requires own { MeetsAt lot.now token.old word.now settings.now.admission }
    requires begun { (before : Token) × (base : List Ownership)
        × BeginsWith word.now.number purpose base (owns_of before)
        × HasBegunRwLock word.now settings.now.admission purpose NotBegun before token.old }
    ensures own { IsSameThread lot.now token.old token.new }
    ensures over { (before : Token) (base : List Ownership)
        → BeginsWith word.now.number purpose base (owns_of before)
        → HasBegunRwLock word.now settings.now.admission purpose NotBegun before token.old
        → HasEndedRwLock (TimeIsUp C.tells limit.now) word.now settings.now.admission purpose result
        before token.new }
{
    rest_in_turn(
        rt,
        lot,
        token,
        word,
        settings,
        limit,
        static_purpose(purpose),
    )
}

/// Does the fast half of a call of a thread that has the right that it needs: a step or two, which
/// are all where it meets nobody. Else it answers what is left to `afterwards` or `missed`.
#[inline(always)]
pub fn call_fast<C: Clock>(
    lot: &ParkingLot,
    token: &mut Token,
    word: &Word,
    settings: &Settings,
    _limit: &Option<(&C, u64)>,
    purpose: RwLockPurpose,
) -> Result<Answer, SlowPart>
    requires own { MeetsAt lot.now token.old word.now settings.now.admission }
    requires right { (base : List Ownership)
        × BeginsWith word.now.number purpose base (owns_of token.old) }
    ensures own { IsSameThread lot.now token.old token.new }
    ensures over { MatchResult result
        (λ answer. HasEndedRwLock (TimeIsUp C.tells _limit.now) word.now settings.now.admission purpose answer
        token.old token.new)
        (λ rest. HasBegunRwLock word.now settings.now.admission purpose rest token.old token.new) }
{
    if !lot.may_begin(token) {
        return Err(SlowPart::NotBegun);
    }
    let seen = lot.step_word_unrecorded(token, *word, opening(purpose));
    match course_of(*settings, purpose, seen) {
        Course::Ends(answer) => Ok(answer),
        Course::GoesOn => Err(SlowPart::GoesOn(seen)),
        Course::Takes => {
            let to = purpose.taken(seen);
            let found = lot.step_word_unrecorded(token, *word, Op::Exchange { from: seen, to });
            if found == seen {
                return Ok(answer_with(purpose));
            }
            Err(SlowPart::Missed { seen, found })
        }
    }
}

/// A whole call of a thread that has the right that it needs. Where it meets nobody it is a step or
/// two, with no further call.
#[inline(always)]
pub fn call<R: Wait, C: Clock>(
    rt: &R,
    lot: &ParkingLot,
    token: &mut Token,
    word: &Word,
    settings: &Settings,
    limit: &Option<(&C, u64)>,
    purpose: RwLockPurpose,
) -> Answer
    requires own { MeetsAt lot.now token.old word.now settings.now.admission }
    requires right { (base : List Ownership)
        × BeginsWith word.now.number purpose base (owns_of token.old) }
    ensures own { IsSameThread lot.now token.old token.new }
    ensures path { HasWalkedRwLock word.now.number settings.now.admission purpose result token.old
        token.new }
    ensures over { (base : List Ownership)
        → BeginsWith word.now.number purpose base (owns_of token.old)
        → AnswersCall (TimeIsUp C.tells limit.now) word.now.number base settings.now.admission purpose result
        (stage_of token.new None) }
    ensures record { WakesBy word.now.number settings.now.admission purpose token.old token.new }
{
    match call_fast(lot, token, word, settings, limit, purpose) {
        Ok(answer) => answer,
        Err(SlowPart::GoesOn(seen)) => {
            call_slow(
                rt,
                lot,
                token,
                word,
                &settings.admission,
                limit,
                purpose,
                seen,
            )
        }
        Err(SlowPart::Missed { seen, found }) => {
            missed(
                rt,
                lot,
                token,
                word,
                &settings.admission,
                limit,
                purpose,
                seen,
                found,
            )
        }
        Err(SlowPart::NotBegun) => call_in_turn(rt, lot, token, word, settings, limit, purpose),
    }
}
