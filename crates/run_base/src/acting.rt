//! The acts of a thread in any call, whatever the lock is.
//!
//! A hand-over gives each taken thread one right, in their order, by `owner_given`: a mutex is given
//! alone, a reader-writer lock by what each thread wants, where a writer is pending while readers are
//! left. A waiter that is handed the mutex ends at once: its hand-off and its `Accept` touch no word,
//! so the driver does nothing for them. A sleeper learns its note alone, so `Asleep` goes on by `Woken`
//! too.
ghost use Rattle.std.specs.Prelude.{◌≡◌, ◌+◌, ◌++◌, ◌∷◌, ◌==◌, ℕ, [], None, Some, false, length, true};
ghost use Rattle.std.specs.Prelude.{MatchBool};
ghost use Rattle.core_clocks.specs.Clocks.{TimeIsUp};
ghost use Rattle.core_base.specs.Lines.{queued_under, waiter, line, lines, without};
ghost use Rattle.steps_base.specs.declared.acts.Act.TheVariants.{Sleep};
ghost use Rattle.core_base.specs.declared.keys.Keys.TheVariants.{One};
ghost use Rattle.core_base.specs.declared.ops.Op.TheVariants.{Load};
ghost use Rattle.steps_base.specs.declared.acts.Reply.TheVariants.{Picked};
ghost use Rattle.steps_base.specs.declared.acts.TakeWhich.TheVariants as whoms;
ghost use Rattle.steps_base.specs.Acts.{holds};
ghost use Rattle.lot_steps.specs.Steps.{HasKeys};
ghost use Rattle.core_words.specs.Lots.{IsWordOf};
ghost use Rattle.core_words.specs.Indices.{word_index};
ghost use Rattle.core_words.specs.Steps.{MayStep, CodesWith, after_step};
ghost use Rattle.parking_lot_core.specs.Keys.{AreKeys, first_key};
ghost use Rattle.parking_lot_core.specs.Sections.{MayNote, moved_in, rightless_in, taken_in, told_in};
ghost use Rattle.parking_lot_core.specs.Sections.{visit_of, waiting_in};
ghost use Rattle.parking_lot_core.specs.Tokens.{IsTokenOf, IsSameThread, count_of, view_of, last_of, told_of};
ghost use Rattle.run_base.specs.Fitting.{sleeper_at};
ghost use Rattle.run_base.specs.Paths.{closure_of, step};
ghost use Rattle.parking_lot_core.specs.Places.{IsPlaceOf, thread_of};
ghost use Rattle.run_base.specs.Queued.{HasPlace, KeepsPlace, needs_place, spends_place};
ghost use Rattle.run_base.specs.Telling.{AreQueued, HasStepped, MayFind, MayTakeStep, MayTakeAt, StandsLast};
ghost use Rattle.run_base.specs.Telling.{TellsQueues, TellsTake, index_of, is_empty_at, line_in, owns_of};
ghost use Rattle.run_base.specs.Telling.{steps_of};
ghost use Rattle.run_base.specs.Words.{AreWordsOf, word_among, kind_in, at_in};
ghost use Rattle.run_base.specs.Courses.{HasSlept, HasWokenLate, TellsIn, leaving, open_visit, taking};
ghost use Rattle.run_base.specs.Courses.{told_within, visit_within, visited};
ghost use Rattle.parking_lot_core.specs.declared.tellings.Telling.TheVariants as telling;
ghost use Rattle.run_base.specs.Stages.{Adds, Awoke, AwokeLate, HandsEach, HasKey, IsFresh, IsUngiven};
ghost use Rattle.run_base.specs.Stages.{MayLeave, IsSectionOf, IsLeft, TookBy, stage_handed, note_of};
ghost use Rattle.run_base.specs.Stages.{section_view, stage_of, threads_taken, waiting_of, wanted_in};
ghost use Rattle.run_base.specs.Stages.{entered_now, ActNeeds, Became};

use crate::sleepers::{Sleeper, sleeper_at};
use crate::taking::{requeue, take_all, take_first, take_picked, tell_wants};
use crate::words::Words;
use lot_steps::{Act, Check, Place, Reply, TakeWhich, Wakes};
use parking_lot_core::{
    Clock, Key, Keys, Note, Op, ParkingLot, QueuePlace, Section, Slept, Token, Want, Word,
};
use std::sync::Wait;
use steps_base::takes_effect;

pub(crate) fn note_of(wakes: Wakes) -> Note
    ensures { result ≡ note_of wakes }
{
    match wakes {
        Wakes::Nobody => Note::Normal,
        Wakes::All(note) => note,
    }
}

// Loads the word inside the section, and where the check holds stands after the last of the queue.
pub(crate) fn park<'a>(
    lot: &ParkingLot,
    token: &mut Token,
    word: Word,
    section: &mut Option<Section<'a>>,
    queue: &mut Option<QueuePlace<'a>>,
    key: Key,
    check: Check,
    want: Want,
) -> bool
    requires own { IsTokenOf lot.now token.old × IsWordOf lot.now.words word
        × IsSectionOf lot.now section.old }
    requires needs { MayTakeStep word Load token.old × HasKey key (section_view section.old) }
    ensures own { IsSameThread lot.now token.old token.new × (last_of token.new ≡ None) }
    ensures same { IsSectionOf lot.now section.new × (section_view section.new ≡ section_view section.old) }
    ensures stepped { (seen : ℕ) × (result ≡ holds check seen) × MayFind word seen token.old
        × HasStepped word Load seen token.old token.new }
    ensures stands { MatchBool result (StandsLast key token.old.number want section.old section.new)
        (waiting_of section.new ≡ waiting_of section.old) }
    ensures place { MatchBool result (HasPlace lot.now token.old.number queue.new)
        (queue.new ≡ queue.old) }
    ensures told { (told_of token.new ≡ told_of token.old) × MatchBool result
        (told_within section.new ≡ told_within section.old
        ++ telling.Stood key token.old.number want ∷ [])
        (told_within section.new ≡ told_within section.old)
        × (visit_within section.new ≡ visit_within section.old) }
{
    match section {
        Some(inside) => {
            let parked = check.holds(lot.step_word(token, word, Op::Load));
            if parked {
                *queue = Some(inside.append(key, token.number(), want));
            }
            parked
        }
        None => unreachable!(),
    }
}

// Stands after the last of the queue.
pub(crate) fn stand<'a>(
    lot: &ParkingLot,
    token: &Token,
    section: &mut Option<Section<'a>>,
    key: Key,
    want: Want,
) -> QueuePlace<'a>
    requires { IsTokenOf lot.now token.now × IsSectionOf lot.now section.old
        × HasKey key (section_view section.old) }
    ensures same { IsSectionOf lot.now section.new × (section_view section.new ≡ section_view section.old) }
    ensures stands { StandsLast key token.now.number want section.old section.new }
    ensures place { IsPlaceOf lot.now token.now.number result }
    ensures told { (told_within section.new ≡ told_within section.old
        ++ telling.Stood key token.now.number want ∷ [])
        × (visit_within section.new ≡ visit_within section.old) }
{
    match section {
        Some(inside) => inside.append(key, token.number(), want),
        None => unreachable!(),
    }
}

// Takes one step on the word, with which the lock goes to those that were taken. The right that
// each of them wants is laid in its record. Where an exchange finds another value nothing is handed
// over.
pub(crate) fn hand_over<R: Wait>(
    rt: &R,
    lot: &ParkingLot,
    token: &mut Token,
    word: Word,
    section: &mut Option<Section>,
    op: Op,
) -> u64
    requires own { IsTokenOf lot.now token.old × IsWordOf lot.now.words word
        × IsSectionOf lot.now section.old }
    requires may { MayTakeStep word op token.old }
    requires each { IsUngiven (section_view section.old)
        × HandsEach word.kind (index_of word) op (owns_of token.old)
        (wanted_in (section_view section.old)) }
    ensures own { IsSameThread lot.now token.old token.new × IsSectionOf lot.now section.new }
    ensures coded { MayFind word result token.old }
    ensures handed { stage_of token.new section.new
        ≡ stage_handed word.kind (index_of word) op result (stage_of token.old section.old) }
    ensures adds { steps_of token.new ≡ steps_of token.old ++ step (index_of word) op result }
    ensures told { (told_of token.new ≡ told_of token.old)
        × (told_within section.new ≡ told_within section.old)
        × (visit_within section.new ≡ visit_within section.old) }
{
    match section {
        Some(inside) => {
            let seen = lot.step_word(token, word, op);
            if takes_effect(op, seen) {
                inside.give_each(rt, token, word, op.apply(seen));
            }
            seen
        }
        None => unreachable!(),
    }
}

// The thread leaves the queue. Whether none is left there.
fn remove(_lot: &ParkingLot, section: &mut Option<Section>, key: Key, place: QueuePlace) -> bool
    requires own { IsSectionOf _lot.now section.old × HasKey key (section_view section.old) }
    requires place { IsPlaceOf _lot.now (thread_of place) place }
    ensures same { IsSectionOf _lot.now section.new × (section_view section.new ≡ section_view section.old) }
    ensures left { AreQueued (without (thread_of place.entry) (waiting_of section.old)) section.new
        × (result ≡ is_empty_at key section.new) }
    ensures told { (told_within section.new ≡ told_within section.old
        ++ leaving (thread_of place.entry) key (length (line_in key section.new)))
        × (visit_within section.new ≡ visit_within section.old) }
{
    match section {
        Some(inside) => {
            inside.remove(place);
            inside.tell_count(key) == 0
        }
        None => unreachable!(),
    }
}

// The thread goes into a section from outside all.
pub(crate) fn enter<'a, R: Wait>(
    rt: &R,
    lot: &'a ParkingLot,
    token: &mut Token,
    section: &mut Option<Section<'a>>,
    keys: Keys,
)
    requires { IsTokenOf lot.now token.old × AreKeys keys × (section_view section.old ≡ None) }
    ensures same { token.new ≡ token.old }
    ensures entered { IsSectionOf lot.now section.new × (section_view section.new ≡ entered_now keys) }
    ensures told { (told_within section.new ≡ [])
        × (visit_within section.new ≡ Some (open_visit keys (count_of token.old))) }
{
    match section.replace(lot.enter(rt, token, keys)) {
        None => {}
        Some(_) => unreachable!(),
    }
}

/// A thread that is outside all sections has none to leave.
pub fn end(section: Option<Section>)
    requires { section_view section ≡ None }
{
    match section {
        None => {}
        Some(_) => unreachable!(),
    }
}

// A section is left with the token that entered it.
fn leave_section<R: Wait>(rt: &R, token: &mut Token, inside: Section, note: Note)
    requires own { IsTokenOf inside.lot.now token.old }
    requires note { MayNote note (taken_in inside) (rightless_in inside) }
    ensures own { IsSameThread inside.entry.lot.now token.old token.new
        × (view_of token.new ≡ view_of token.old) }
    ensures told { told_of token.new ≡ told_of token.old
        ++ (told_in inside.entry ++ visit_of inside.entry (count_of token.old) note ∷ []) }
    ensures recorded { last_of token.new ≡ Some (record {
      key = first_key inside.entry.keys;
      did = inside.entry.did;
      number = length (taken_in inside.entry) + moved_in inside.entry;
    }) }
{
    match inside.leave(rt, token, note) {
        Ok(()) => {}
        Err(_) => for _ in rt.forever() {},
    }
}

pub(crate) fn leave<R: Wait>(
    rt: &R,
    lot: &ParkingLot,
    token: &mut Token,
    section: &mut Option<Section>,
    note: Note,
)
    requires { IsTokenOf lot.now token.old × IsSectionOf lot.now section.old
        × MayLeave note (section_view section.old) }
    ensures own { IsSameThread lot.now token.old token.new
        × (view_of token.new ≡ view_of token.old) }
    ensures left { (section_view section.new ≡ None) × IsSectionOf lot.now section.new
        × IsLeft (section_view section.old) (last_of token.new) }
    ensures told { told_of token.new ≡ told_of token.old ++ (told_within section.old
        ++ visited (visit_within section.old) (count_of token.old) note) }
{
    match section.take() {
        Some(inside) => leave_section(rt, token, inside, note),
        None => unreachable!(),
    }
}

/// Takes the waiters that a lock lets in: how many of them want to share, the want of the first that
/// wants more, and whether none is left.
#[tactic(auto, using(crate::proofs::TakesFew::picked_few, crate::proofs::TakesFew::few_waiters))]
pub(crate) fn take_wanted(
    lot: &ParkingLot,
    section: &mut Option<Section>,
    key: Key,
    start: Option<Want>,
    recursive: bool,
) -> (usize, Option<Want>, bool)
    requires { MayTakeAt lot.now key section.old }
    ensures took { IsSectionOf lot.now section.new × TookBy key (whoms.Picked start recursive)
        (Picked result.0 result.1 result.2) (section_view section.old) (section_view section.new) }
    ensures told { TellsTake key (whoms.Picked start recursive) (Picked result.0 result.1 result.2)
        section.old section.new }
    ensures tells { (told_within section.new ≡ told_within section.old
        ++ taking key (whoms.Picked start recursive) (length (threads_taken section.new))
        (length (line_in key section.new)))
        × (visit_within section.new ≡ visit_within section.old) }
{
    let none_left = take_picked(lot, section, key, start, recursive);
    let (sharers, successor) = tell_wants(section);
    (sharers, successor, none_left)
}

fn take(lot: &ParkingLot, section: &mut Option<Section>, key: Key, whom: TakeWhich) -> Reply
    requires { MayTakeAt lot.now key section.old }
    ensures took { IsSectionOf lot.now section.new
        × TookBy key whom result (section_view section.old) (section_view section.new) }
    ensures told { TellsTake key whom result section.old section.new }
    ensures tells { (told_within section.new ≡ told_within section.old
        ++ taking key whom (length (threads_taken section.new)) (length (line_in key section.new)))
        × (visit_within section.new ≡ visit_within section.old) }
{
    match whom {
        TakeWhich::First => {
            let (any, none_left) = take_first(lot, section, key);
            Reply::Took { any, none_left }
        }
        TakeWhich::All => {
            let (any, none_left) = take_all(lot, section, key);
            Reply::Took { any, none_left }
        }
        TakeWhich::Picked { start, recursive } => {
            let (sharers, successor, none_left) = take_wanted(lot, section, key, start, recursive);
            Reply::Picked {
                sharers,
                successor,
                none_left,
            }
        }
    }
}

// The time of a sleeper is up, and it is inside the section of the key where it stands.
fn awake_late<'a, R: Wait>(
    rt: &R,
    token: &mut Token,
    sleeper: Sleeper,
    section: &mut Option<Section<'a>>,
    queue: &mut Option<QueuePlace<'a>>,
    mut inside: Section<'a>,
    key: Key,
    place: QueuePlace<'a>,
) -> Reply
    requires own { IsTokenOf inside.lot.now token.old × (section_view section.old ≡ None) }
    requires place { IsPlaceOf inside.lot.now token.old.number place }
    requires late { section_view (Some inside) ≡ entered_now (One key) }
    requires stands { queued_under token.old.number (waiting_in inside) ≡ Some key }
    requires untold { (told_in inside ≡ []) × (inside.since ≡ count_of token.old) }
    ensures own { IsSameThread inside.entry.lot.now token.old token.new
        × IsSectionOf inside.entry.lot.now section.new
        × (steps_of token.new ≡ steps_of token.old) }
    ensures awoke { AwokeLate key sleeper (stage_of token.old section.old) result
        (stage_of token.new section.new) }
    ensures queues { TellsQueues Sleep result token.old.number section.old section.new }
    ensures place { spends_place Sleep result ≡ false
        → HasPlace inside.entry.lot.now token.old.number queue.new }
    ensures told { HasWokenLate token.old.number key result token.old token.new section.new }
{
    if sleeper.late == Some(key) {
        *queue = Some(place);
        match section.replace(inside) {
            None => return Reply::Late,
            Some(_) => unreachable!(),
        }
    }
    if sleeper.moved == Some(key) {
        *queue = Some(place);
        // The sleeper may be late under the other key too, and is so at once.
        inside.shut();
        return Reply::MovedTo(key);
    }
    // Somebody moved the thread to a queue where it does not wait. It leaves that, and tries again.
    inside.remove(place);
    leave_section(rt, token, inside, Note::Normal);
    Reply::Woken(Note::Normal)
}

// Sleeps until another thread has taken this one, or its time is up. A right that was handed over
// is the token's then.
pub(crate) fn sleep<'a, R: Wait, C: Clock>(
    rt: &R,
    lot: &'a ParkingLot,
    token: &mut Token,
    word: Word,
    limit: Option<(&C, u64)>,
    sleeper: Sleeper,
    section: &mut Option<Section<'a>>,
    queue: &mut Option<QueuePlace<'a>>,
) -> Reply
    requires own { IsTokenOf lot.now token.old × IsWordOf lot.now.words word
        × (section_view section.old ≡ None) }
    requires queued { HasPlace lot.now token.old.number queue.old }
    ensures own { IsSameThread lot.now token.old token.new × IsSectionOf lot.now section.new
        × (steps_of token.new ≡ steps_of token.old) }
    ensures awoke { Awoke (TimeIsUp C.tells limit.entry) word.kind (index_of word) sleeper
        (stage_of token.old section.old) result (stage_of token.new section.new) }
    ensures queues { TellsQueues Sleep result token.old.number section.old section.new }
    ensures place { KeepsPlace lot.now token.old.number Sleep result queue.old queue.new }
    ensures told { HasSlept token.old.number result token.old token.new section.new }
{
    let Some(place) = queue.take() else {
        unreachable!()
    };
    let limit = sleeper.late.and(limit);
    match lot.sleep_told(rt, token, place, word, sleeper.want, limit) {
        Slept::Woken(_) => Reply::Woken(Note::Normal),
        Slept::Handed(right) if sleeper.takes_over => {
            lot.join_right(token, right);
            Reply::Woken(Note::HandOff)
        }
        // Nobody hands a lock over to a thread that goes on otherwise.
        Slept::Handed(right) => {
            right.forget();
            Reply::Woken(Note::Normal)
        }
        Slept::Late(inside, key, place) => {
            awake_late(rt, token, sleeper, section, queue, inside, key, place)
        }
    }
}

/// Does the act of a place. A sleeper may be late only where it is given a limit.
pub(crate) fn perform<'a, R: Wait, C: Clock>(
    rt: &R,
    lot: &'a ParkingLot,
    token: &mut Token,
    words: Words,
    limit: Option<(&C, u64)>,
    section: &mut Option<Section<'a>>,
    queue: &mut Option<QueuePlace<'a>>,
    place: Place,
    act: Act,
) -> Reply
    requires own { IsTokenOf lot.now token.old × AreWordsOf lot.now words
        × IsSectionOf lot.now section.old }
    requires queued { needs_place act ≡ true → HasPlace lot.now token.old.number queue.old }
    requires keys { HasKeys place }
    requires needs { ActNeeds (kind_in words) (at_in words) (stage_of token.old section.old) act }
    requires no_closure { closure_of act ≡ None }
    ensures own { IsSameThread lot.now token.old token.new × IsSectionOf lot.now section.new }
    ensures became { Became (TimeIsUp C.tells limit.entry) (kind_in words) (at_in words)
        (sleeper_at place)
        (stage_of token.old section.old) act result (stage_of token.new section.new) }
    ensures adds { Adds (at_in words) act result (steps_of token.old) (steps_of token.new) }
    ensures queues { TellsQueues act result token.old.number section.old section.new }
    ensures place { KeepsPlace lot.now token.old.number act result queue.old queue.new }
    ensures told { TellsIn token.old.number act result token.old section.old token.new section.new }
{
    match act {
        Act::Word { lock, op } => Reply::Value(lot.step_word(token, words.of(lock), op)),
        Act::HandOver { lock, op } => {
            Reply::Value(hand_over(rt, lot, token, words.of(lock), section, op))
        }
        Act::Enter(keys) => {
            enter(rt, lot, token, section, keys);
            Reply::Done
        }
        Act::Park {
            lock,
            key,
            check,
            want,
        } => {
            let word = words.of(lock);
            Reply::Parked(park(lot, token, word, section, queue, key, check, want))
        }
        Act::Stand { key, want } => {
            *queue = Some(stand(lot, token, section, key, want));
            Reply::Done
        }
        Act::Take { key, whom } => take(lot, section, key, whom),
        Act::Requeue { from, to, how } => {
            let (number, none_left) = requeue(lot, section, from, to, how);
            Reply::Requeued { number, none_left }
        }
        Act::Remove(key) => match queue.take() {
            Some(place) => Reply::Removed {
                none_left: remove(lot, section, key, place),
            },
            None => unreachable!(),
        },
        Act::Leave { wakes, .. } => {
            leave(rt, lot, token, section, note_of(wakes));
            Reply::Done
        }
        Act::Sleep => {
            let sleeper = sleeper_at(place);
            sleep(
                rt,
                lot,
                token,
                words.of(sleeper.lock),
                limit,
                sleeper,
                section,
                queue,
            )
        }
        Act::Accept => Reply::Done,
        _ => unreachable!(),
    }
}
