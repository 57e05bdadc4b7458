//! The row, and the hold of a value that is out of it.
ghost use Rattle.std.specs.Prelude.{◌≡◌, ◌<◌, ◌≤◌, None, [], ◌∷◌, IfOk, IfSome, All, length};
ghost use Rattle.core_parts.specs.Guards.{Guards, HasTaken, HasValue};

use atomic_table::{Play, Refused, Seat, Table, TableRule};
use std::alloc::{AllocError, Global};
use std::hint::spin_loop;
use std::marker::PhantomData;
use std::sync::Wait;

/// Values that fit some keys and not others.
pub trait Keyed<K> {
    ghost fits: { K → Self → Type 0 };
}

// The states of a word. In the first two the value is at home, and in the second it was marked as it was
// given back. In the others it is out. In the last, the thread that gives it back is to wake a thread that
// may be parked on the word.
const FREE: u64 = 0;

const MARKED: u64 = 1;

const TAKEN: u64 = 2;

const AWAITED: u64 = 3;

// How often a thread that found a value out looks at the word before it parks on it, a pause after
// each look: a microsecond, where a pause takes 11 nanoseconds. A value is out for a twentieth of
// that, unless the thread that has it was interrupted, and then a longer look is in vain.
pub(crate) const LOOKS: u32 = 100;

/// While a word is `FREE` or `MARKED` its value is at home and fits the key.
pub struct RowRule<K, T> {
    marker: PhantomData<(K, T)>,
}

impl<K, T: Keyed<K>> TableRule<Option<T>, K, K> for RowRule<K, T> {
    ghost holds = { λ key. Guards (T.fits key) };

    // A seat's view is the key.
    ghost first = { λ key. key };
}

/// A swap that finds the value at home takes it.
impl<K, T: Keyed<K>> Play<Option<T>, K> for RowRule<K, T> {
    ghost then = { λ step before found after. found < 2
        → HasTaken (T.fits before.0) step.word after };
}

struct Released;

impl<K, T> Play<Option<T>, K> for Released {
    ghost then = { λ _ _ _ _. Unit {0} };
}

/// A row of values, each behind a lock of its own.
#[derive(Drop)]
pub struct KeyedLocks<K, T: Keyed<K>> {
    table: Table<Option<T>, K, K, RowRule<K, T>, Global>,
    count: usize,
    ghost sized: { (table.shared.table_id.words ≡ count) × (table.shared.table_id.slots ≡ count) },
}

/// The hold of a value that is out. It is given back with a value.
pub struct Held<K, T> {
    seat: Seat<Option<T>, K>,
    at: usize,
    ghost empty: { seat.me.1 ≡ (at, None) ∷ [] },
}

impl<K, T: Keyed<K> + Drop> KeyedLocks<K, T> {
    /// Makes a lock for each value. It takes all memory that the row needs.
    pub fn new(
        alloc: Global,
        values: Vec<Option<T>>,
        key: &K,
    ) -> Result<KeyedLocks<K, T>, AllocError>
        requires { All (HasValue (T.fits key.now)) values.items }
        ensures { IfOk result
            (λ row. (row.table.shared.key ≡ key.now) × (row.count ≡ length values.items)) }
    {
        let count = values.len();
        let unlocked = Vec::from_elem(alloc, FREE, count)?;
        match Table::new(alloc, unlocked.as_slice(), values, key) {
            Ok((table, _)) => Ok(KeyedLocks { table, count }),
            Err(Refused { slots: _ }) => Err(AllocError),
        }
    }

    pub fn len(&self) -> usize
        ensures { result ≡ self.now.count }
    {
        self.count
    }

    /// Takes a value out, which fits the key. It waits while the value is out.
    pub fn take<R: Wait>(&self, rt: &R, at: usize) -> (T, Held<K, T>)
        requires { at < self.now.count }
        ensures value { T.fits self.now.table.shared.key result.0 }
        ensures held { (result.1.seat.table_id ≡ self.now.table.shared.table_id)
            × (result.1.at ≡ at) }
    {
        match self.seize(at, TAKEN) {
            Some(taken) => taken,
            None => self.take_later(rt, at),
        }
    }

    /// Takes a value out, if it is at home.
    pub fn try_take(&self, at: usize) -> Option<(T, Held<K, T>)>
        requires at { at < self.now.count }
        ensures { IfSome result (λ taken. T.fits self.now.table.shared.key taken.0
            × (taken.1.seat.table_id ≡ self.now.table.shared.table_id) × (taken.1.at ≡ at)) }
    {
        // Another thread may be parked on the word, which is to say so still.
        self.seize(at, AWAITED)
    }

    // Takes a value out, if it is at home. Else the word says what is asked for.
    #[inline]
    fn seize(&self, at: usize, word: u64) -> Option<(T, Held<K, T>)>
        requires at { at < self.now.count }
        requires out { 2 ≤ word }
        ensures { IfSome result (λ taken. T.fits self.now.table.shared.key taken.0
            × (taken.1.seat.table_id ≡ self.now.table.shared.table_id) × (taken.1.at ≡ at)) }
    {
        let locks = &self.table.shared;
        let (found, mut seat) = locks.swap_new_seat::<RowRule<K, T>>(at, word);
        if found >= TAKEN {
            return None;
        }
        let value = locks.exchange(&mut seat, at, None).unwrap();
        Some((value, Held { seat, at }))
    }

    // Looks for a while, as long as the value is out.
    fn watch(&self, at: usize)
        requires { at < self.now.count }
    {
        for _ in 0..LOOKS {
            if self.table.shared.peek(at) < TAKEN {
                return;
            }
            spin_loop();
        }
    }

    // Takes a value out that was found out. Others may be parked on the word, and the first try
    // left no trace of them. From here on the word says that somebody waits.
    #[cold]
    #[inline(never)]
    fn take_later<R: Wait>(&self, rt: &R, at: usize) -> (T, Held<K, T>)
        requires { at < self.now.count }
        ensures value { T.fits self.now.table.shared.key result.0 }
        ensures held { (result.1.seat.table_id ≡ self.now.table.shared.table_id)
            × (result.1.at ≡ at) }
    {
        for _ in rt.forever() {
            self.watch(at);
            if let Some(taken) = self.seize(at, AWAITED) {
                return taken;
            }
            self.table.shared.park(rt, at, AWAITED as u32);
        }
        unreachable!()
    }

    /// Returns whether the value was marked as it was given back last. It takes nothing, and may
    /// have changed by the time that it is told.
    #[inline]
    pub fn is_marked(&self, at: usize) -> bool
        requires { at < self.now.count }
    {
        self.table.shared.peek(at) == MARKED
    }

    /// Gives a value back, which fits the key.
    pub fn give_back(&self, value: T, held: Held<K, T>)
        requires fits { T.fits self.now.table.shared.key value }
        requires held { (held.seat.table_id ≡ self.now.table.shared.table_id)
            × (held.at < self.now.count) }
    {
        self.put(value, held, FREE);
    }

    /// Gives a value back, and marks it until somebody takes it.
    pub fn give_back_marked(&self, value: T, held: Held<K, T>)
        requires fits { T.fits self.now.table.shared.key value }
        requires held { (held.seat.table_id ≡ self.now.table.shared.table_id)
            × (held.at < self.now.count) }
    {
        self.put(value, held, MARKED);
    }

    #[inline]
    fn put(&self, value: T, held: Held<K, T>, word: u64)
        requires fits { T.fits self.now.table.shared.key value }
        requires held { (held.seat.table_id ≡ self.now.table.shared.table_id)
            × (held.at < self.now.count) }
        requires home { word < 2 }
    {
        let Held { mut seat, at } = held;
        let locks = &self.table.shared;
        drop(locks.exchange(&mut seat, at, Some(value)));
        if locks.swap::<Released>(&mut seat, at, word) == AWAITED {
            locks.wake_one(at);
        }
    }
}
