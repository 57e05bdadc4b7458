//! One thread.
ghost use Rattle.std.specs.Prelude.{◌≡◌, ◌≢◌, ◌<◌};
ghost use Rattle.core_base.specs.declared.keys.Keys.TheVariants.{One, Two};
ghost use Rattle.core_words.specs.Indices.{permits_in};
ghost use Rattle.core_words.specs.Lots.{IsWordOf};
ghost use Rattle.core_words.specs.declared.words.WordKind.TheVariants.{Mutex};
ghost use Rattle.parking_lot_core.specs.Keys.{IsKeyOf};
ghost use Rattle.parking_lot_core.specs.Sections.{StaysIn, TookAs, moved_in, rightless_in, taken_in};
ghost use Rattle.parking_lot_core.specs.Tokens.{IsTokenOf, IsSameThread};
ghost use Rattle.parking_lot_core.specs.declared.tokens.Did.TheVariants.{Nothing, TakeAll};

use super::{check, check_eq, lot_of, mutex_of};
use crate::lines::{append_three, lie_apart};
use crate::mutexes::{try_lock, unlock};
use core_words::laws::mutex_may_step;
use parking_lot_core::{
    Did, Fault, Key, Keys, Note, Op, ParkingLot, Requeue, Section, SectionRecord, Ticket, Token,
    Want, Word, WordKind,
};
use std::process::Abort;
use std::sync::Wait;
use std::test::Fail;

// Returns whether a thread has its number, and has left no section.
fn is_new(ticket: Ticket, number: usize) -> bool {
    let token = ticket.enter();
    let new = (token.number(), token.last_section()) == (number, None);
    drop(token.leave());
    new
}

fn are_new(rt: &impl Abort, tickets: Vec<Ticket>) {
    for (number, ticket) in tickets.into_iter().enumerate() {
        check(rt, is_new(ticket, number));
    }
}

#[test]
fn seats_are_numbered(rt: HostRuntime) -> Result<(), Fail> {
    let (_lot, tickets) = ParkingLot::new(rt.alloc(), 1, 1024)?;
    check_eq(&rt, tickets.len(), 1024);
    are_new(&rt, tickets);
    Ok(())
}

// Locks a mutex, and tries it once more: whether the right names it, for what want, whether the
// second try got it, and the word before it was unlocked and after.
fn lock_once(
    lot: &ParkingLot,
    token: &mut Token,
    word: Word,
) -> Option<(bool, Want, bool, [u64; 2])>
    requires { IsTokenOf lot.now token.old × IsWordOf lot.now.words word × (word.kind ≡ Mutex) }
{
    let right = try_lock(lot, token, word)?;
    let (named, want) = (right.word().is_same(word), right.want());
    let again = match try_lock(lot, token, word) {
        Some(other) => {
            other.forget();
            true
        }
        None => false,
    };
    let locked = unlock(lot, token, right);
    Some((
        named,
        want,
        again,
        [locked, lot.step_word(token, word, Op::Load)],
    ))
}

#[test]
fn a_mutex_is_locked_once(rt: HostRuntime) {
    let (lot, mut token, word) = mutex_of(&rt, rt.alloc(), 4);
    let locked = lock_once(&lot, &mut token, word);
    check_eq(&rt, locked, Some((true, Want::Exclusive, false, [1, 0])));
}

#[test]
fn a_lot_has_as_many_words_as_may_be(rt: HostRuntime) {
    let (lot, mut token, word) = mutex_of(&rt, rt.alloc(), 1 << 20);
    let locked = lock_once(&lot, &mut token, word);
    check_eq(&rt, locked, Some((true, Want::Exclusive, false, [1, 0])));
}

// Returns the values that the operations find, one after another.
fn found_by_each(lot: &ParkingLot, token: &mut Token, word: Word) -> [u64; 6]
    requires { IsTokenOf lot.now token.old × IsWordOf lot.now.words word × (word.kind ≡ Mutex) }
{
    mutex_may_step();
    let mark = Op::Exchange { from: 1, to: 3 };
    [
        lot.step_word(token, word, Op::Exchange { from: 0, to: 1 }),
        lot.step_word(token, word, mark),
        lot.step_word(token, word, mark),
        lot.step_word(token, word, Op::And(!2)),
        lot.step_word(token, word, Op::Or(1)),
        lot.step_word(token, word, Op::Load),
    ]
}

#[test]
fn each_operation_changes_the_word(rt: HostRuntime) {
    let (lot, mut token, word) = mutex_of(&rt, rt.alloc(), 4);
    let found = found_by_each(&lot, &mut token, word);
    check_eq(&rt, found, [0, 1, 3, 3, 1, 1]);
}

// Returns the value that a store finds, and the value that is there then.
fn found_by_a_store(lot: &ParkingLot, token: &mut Token, word: Word) -> [u64; 4]
    requires { IsTokenOf lot.now token.old × IsWordOf lot.now.words word × (word.kind ≡ Mutex) }
{
    mutex_may_step();
    [
        lot.step_word(token, word, Op::Swap(3)),
        lot.step_word(token, word, Op::Store(1)),
        lot.step_word(token, word, Op::Add(0)),
        lot.step_word(token, word, Op::Load),
    ]
}

#[test]
fn an_owner_may_store(rt: HostRuntime) {
    let (lot, mut token, word) = mutex_of(&rt, rt.alloc(), 4);
    let found = found_by_a_store(&lot, &mut token, word);
    check_eq(&rt, found, [0, 3, 1, 1]);
}

type Drawn = Result<(usize, WordKind), Fault>;

fn draw(lot: &ParkingLot, token: &mut Token, kind: WordKind) -> Drawn
    requires own { IsTokenOf lot.now token.old }
    requires bare { permits_in kind ≡ 0 }
    ensures { IsSameThread lot.now token.old token.new }
{
    let word = lot.new_word(token, kind)?;
    Ok((word.number(), word.kind()))
}

fn draw_pair(lot: &ParkingLot, token: &mut Token) -> [Drawn; 2]
    requires { IsTokenOf lot.now token.old }
    ensures { IsSameThread lot.now token.old token.new }
{
    match lot.new_pair(token) {
        Ok((mutex, count)) => [
            Ok((mutex.number(), mutex.kind())),
            Ok((count.number(), count.kind())),
        ],
        Err(fault) => [Err(fault), Err(fault)],
    }
}

// All but one of a lot of five words.
const FOUR: [Drawn; 4] = [
    Ok((0, WordKind::RwLock)),
    Ok((1, WordKind::Condvar)),
    Ok((2, WordKind::Mutex)),
    Ok((3, WordKind::Count)),
];

fn draw_four(lot: &ParkingLot, token: &mut Token) -> [Drawn; 4]
    requires { IsTokenOf lot.now token.old }
    ensures { IsSameThread lot.now token.old token.new }
{
    let lock = draw(lot, token, WordKind::RwLock);
    let waiters = draw(lot, token, WordKind::Condvar);
    let [mutex, count] = draw_pair(lot, token);
    [lock, waiters, mutex, count]
}

// Two where one is left, the one, and one more.
const THE_LAST: [Drawn; 4] = [
    Err(Fault::LotFull),
    Err(Fault::LotFull),
    Ok((4, WordKind::Once)),
    Err(Fault::LotFull),
];

fn draw_the_last(lot: &ParkingLot, token: &mut Token) -> [Drawn; 4]
    requires { IsTokenOf lot.now token.old }
{
    let [mutex, count] = draw_pair(lot, token);
    let last = draw(lot, token, WordKind::Once);
    [mutex, count, last, draw(lot, token, WordKind::Once)]
}

#[test]
fn words_are_drawn_once(rt: HostRuntime) {
    let (lot, mut token) = lot_of(&rt, rt.alloc(), 5, 1);
    check_eq(&rt, draw_four(&lot, &mut token), FOUR);
    check_eq(&rt, draw_the_last(&lot, &mut token), THE_LAST);
}

// How many stand under each of two keys, and under which the thread does.
type Standing = (usize, usize, Option<Key>);

fn stand_under(section: &mut Section, key: Key) -> Standing
    requires keys { (section.old.keys ≡ Two 6 7) × IsKeyOf section.old.keys key }
    requires thread { 0 < section.old.lot.now.records.count }
    ensures { StaysIn section.old section.new × TookAs section.old section.new }
{
    section.append(key, 0, Want::Exclusive);
    (section.count(6), section.count(7), section.key_of(0))
}

// How many were taken before all under a key were, and whether the thread alone was taken.
fn taken_alone(section: &mut Section, key: Key) -> (usize, bool)
    requires { IsKeyOf section.old.keys key × (section.old.did ≡ Nothing) }
    ensures { StaysIn section.old section.new
        × (rightless_in section.new ≡ taken_in section.new)
        × (section.new.did ≡ TakeAll key)
        × (moved_in section.new ≡ 0) }
{
    let before = section.taken().len();
    section.take_all(key);
    (before, matches!(section.taken(), [0]))
}

// A thread lines up under a key and then under another, and is taken there. Where it stood each
// time, how many were taken before, and whether it alone was taken.
fn line_up_twice<R: Wait>(
    rt: &R,
    lot: &ParkingLot,
    token: &mut Token,
) -> ([Standing; 2], usize, bool)
    requires { IsTokenOf lot.now token.old × (lot.now.records.count ≡ 1) }
    ensures { IsSameThread lot.now token.old token.new }
{
    let mut section = lot.enter(rt, token, Keys::Two(6, 7));
    let first = stand_under(&mut section, 6);
    let second = stand_under(&mut section, 7);
    let (before, alone) = taken_alone(&mut section, 7);
    section.leave(rt, token, Note::Normal).unwrap();
    ([first, second], before, alone)
}

#[test]
fn a_section_takes_in_order(rt: HostRuntime) {
    let (lot, mut token) = lot_of(&rt, rt.alloc(), 1, 1);
    let seen = line_up_twice(&rt, &lot, &mut token);
    check_eq(&rt, seen, ([(1, 0, Some(6)), (0, 1, Some(7))], 0, true));
    check_eq(&rt, token.last_section(), recorded(Did::TakeAll(7), 1));
    check_eq(&rt, lot.queued(&rt, &mut token, 7), 0);
}

const SHARED_OR_NOT: (Want, Want, Want) = (Want::Shared, Want::Exclusive, Want::Shared);

// Returns whether the first two of three were taken, with their wants, and how many stay.
fn first_two(section: &Section) -> (bool, bool, usize)
    requires { section.now.keys ≡ One 6 }
{
    (
        matches!(section.taken(), [2, 1]),
        matches!(section.wants(), [Want::Shared, Want::Exclusive]),
        section.count(6),
    )
}

// Three line up, and those are taken that are picked.
fn pick_of_three<R: Wait>(rt: &R, lot: &ParkingLot, token: &mut Token) -> (bool, bool, usize)
    requires { IsTokenOf lot.now token.old × (lot.now.records.count ≡ 3) }
    ensures { IsSameThread lot.now token.old token.new }
{
    let mut section = lot.enter(rt, token, Keys::One(6));
    append_three(&mut section, 6, (2, 1, 0), SHARED_OR_NOT);
    section.take_picked(6, None, false);
    let seen = first_two(&section);
    section.leave(rt, token, Note::Normal).unwrap();
    seen
}

#[test]
fn a_section_takes_the_picked(rt: HostRuntime) {
    let (lot, mut token) = lot_of(&rt, rt.alloc(), 1, 3);
    check_eq(&rt, pick_of_three(&rt, &lot, &mut token), (true, true, 1));
    let did = Did::TakePicked {
        key: 6,
        start: None,
        recursive: false,
    };
    check_eq(&rt, token.last_section(), recorded(did, 2));
}

// The answer of a section that requeues, the first of which it took, and how many stand under each
// key.
type Requeued = ((Option<usize>, usize), Option<usize>, [usize; 2]);

const ALL_WAIT: (Want, Want, Want) = (Want::Wait, Want::Wait, Want::Wait);

// Three line up, and are requeued.
fn requeue_three<R: Wait>(
    rt: &R,
    lot: &ParkingLot,
    token: &mut Token,
    to: Key,
    op: Requeue,
) -> Requeued
    requires { IsTokenOf lot.now token.old × (lot.now.records.count ≡ 3) × (6 ≢ to) }
    ensures { IsSameThread lot.now token.old token.new }
{
    let mut section = lot.enter(rt, token, Keys::Two(6, to));
    append_three(&mut section, 6, (2, 1, 0), ALL_WAIT);
    let answer = section.requeue(6, to, op);
    let taken = section.taken().first().copied();
    let standing = [section.count(6), section.count(to)];
    section.leave(rt, token, Note::Normal).unwrap();
    (answer, taken, standing)
}

// The record of a section of the key 6 in which so many were taken or moved.
fn recorded(did: Did, number: usize) -> Option<SectionRecord> {
    Some(SectionRecord {
        key: 6,
        did,
        number,
    })
}

// How three are requeued, what is seen of it, and how many are recorded.
const REQUEUED: &[(Requeue, Requeued, usize)] = &[
    (Requeue::One, ((None, 1), None, [2, 1]), 1),
    (Requeue::All, ((None, 3), None, [0, 3]), 3),
    (Requeue::TakeOneMoveRest, ((Some(2), 2), Some(2), [0, 2]), 3),
];

fn requeues<R: Wait + Abort>(rt: &R, lot: &ParkingLot, token: &mut Token, to: Key)
    requires { IsTokenOf lot.now token.old × (lot.now.records.count ≡ 3) × (6 ≢ to) }
    ensures { IsTokenOf lot.now token.new }
{
    for (op, seen, number) in REQUEUED {
        let (op, number) = (*op, *number);
        check_eq(rt, requeue_three(rt, lot, token, to, op), *seen);
        let did = Did::Requeue { from: 6, to, op };
        check_eq(rt, token.last_section(), recorded(did, number));
    }
}

#[test]
fn a_section_requeues(rt: HostRuntime) {
    let (lot, mut token) = lot_of(&rt, rt.alloc(), 1, 3);
    // To a key of the same bucket, and to one of another.
    check_eq(&rt, (lie_apart(3, 6, 1), lie_apart(3, 6, 2)), (false, true));
    requeues(&rt, &lot, &mut token, 1);
    requeues(&rt, &lot, &mut token, 2);
}

fn forgets<R: Wait + Abort>(rt: &R, lot: &ParkingLot, token: &mut Token, word: Word)
    requires { IsTokenOf lot.now token.old × IsWordOf lot.now.words word × (word.kind ≡ Mutex) }
{
    let mut section = lot.enter(rt, token, Keys::One(0));
    let taken = section.take_first(0);
    section.leave(rt, token, Note::Normal).unwrap();
    check_eq(rt, taken, None);
    let record = SectionRecord {
        key: 0,
        did: Did::TakeFirst(0),
        number: 0,
    };
    check_eq(rt, token.last_section(), Some(record));
    lot.step_word(token, word, Op::Load);
    check_eq(rt, token.last_section(), None);
}

#[test]
fn a_step_forgets_the_last_section(rt: HostRuntime) {
    let (lot, mut token, word) = mutex_of(&rt, rt.alloc(), 4);
    forgets(&rt, &lot, &mut token, word);
}
