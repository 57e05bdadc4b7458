//! The words in their table.
ghost use Rattle.std.specs.Prelude.{◌≡◌, ℕ, ◌<◌, ◌≤◌, [], IfOk};
ghost use Rattle.core_words.specs.Indices.{table_size, word_index, most_words};

use crate::plays::{
    Adds, Ands, Bits, Exchanges, Loads, Ors, OwnershipRule, PermitTag, SawSet, SeatsAnother,
    Stores, Subs, Swaps,
};
use crate::views::View;
use crate::words::Word;
use atomic_table::{Shared, Table};
use core_base::Op;
use core_parts::{PermitSlot, Permits};
use std::alloc::{AllocError, Global};
use std::marker::Brand;
use std::sync::atomic::AtomicU32;
use std::sync::atomic::Ordering::SeqCst;

/// The seat with which a thread steps. It takes no memory, and its view is what the thread has done
/// and owns.
pub type Seat = atomic_table::Seat<PermitSlot, View>;

/// The words of a lot, and the counter of those that were drawn.
#[derive(Drop)]
pub struct LotWords {
    pub(crate) table: Table<PermitSlot, View, (usize, Permits), OwnershipRule, Global>,
    pub(crate) count: usize,
    // The tag that its words carry.
    pub(crate) tag: u32,
    ghost sized: { (table.shared.table_id.words ≡ table_size count) × (table.shared.key.0 ≡ count)
        × (count ≤ most_words) },
}

// Makes a tag. Nothing is known of the value that an atomic holds, so nobody can show that two lots
// have one tag.
pub(crate) fn new_tag() -> u32 {
    AtomicU32::new(0).load(SeqCst)
}

impl LotWords {
    ghost use Rattle.core_words.specs.Permits.{out_after};
    ghost use Rattle.core_words.specs.Views.{blank, namer, shown};
    ghost use Rattle.core_base.specs.declared.ops.Op.TheVariants.{Or};
    ghost use Rattle.core_words.specs.Plays.{TakesStepOf};
    ghost use Rattle.core_words.specs.Steps.{MayStep, CodesWith, after_step};
    ghost use Rattle.core_words.specs.Lots.{IsSeatOf, IsWordOf};

    /// Words that are all 0, and the first seat, which has the numbers of all threads.
    pub fn new(alloc: Global, count: usize) -> Result<(LotWords, Seat), AllocError>
        requires { (0 < count) × (count ≤ most_words) }
        ensures { IfOk result
            (λ made. (made.0.count ≡ count) × IsSeatOf made.0 made.1 × (made.1.me ≡ (namer, []))) }
    {
        let size = 8 * (count + 1);
        let zeros = Vec::from_elem(alloc, 0u64, size)?;
        let mut permits = Permits::new();
        let mut slots = Vec::new(alloc);
        while slots.len() < size {
            slots.push(permits.draw().into_slot())?;
        }
        let tag = new_tag();
        match Table::new(alloc, zeros.as_slice(), slots, &(count, permits)) {
            Ok((table, seat)) => Ok((LotWords { table, count, tag }, seat)),
            Err(_) => Err(AllocError),
        }
    }

    /// Returns the table, whose rule holds whatever thread steps on it.
    #[inline]
    pub fn seats(&self) -> &Shared<PermitSlot, View, (usize, Permits), OwnershipRule>
        ensures { result.now ≡ self.now.table.shared }
    {
        &self.table.shared
    }

    /// Returns a seat for one more thread.
    pub fn another(&self, seat: &mut Seat) -> Seat
        requires { IsSeatOf self.now seat.old }
        ensures same { (seat.new.table_id ≡ seat.old.table_id) × (seat.new.me ≡ seat.old.me) }
        ensures another { IsSeatOf self.now result × (result.me ≡ (blank, [])) }
    {
        self.table.shared.split_seat::<SeatsAnother>(seat)
    }

    // Sets bits by one step, which writes nothing to a word that has them. So a try of a locked
    // lock disturbs nobody.
    #[inline]
    fn set_bits<B: Bits, P: PermitTag>(&self, seat: &mut Seat, word: Word, bits: u64) -> u64
        requires pick { (B.bits ≡ bits) × (P.family ≡ self.now.table.shared.key.1.family) }
        requires own { IsSeatOf self.now seat.old × IsWordOf self.now word }
        requires may { MayStep word.kind (word_index word.number word.kind)
            (Or bits) seat.old.me.0.owns }
        ensures { (seat.new.table_id ≡ seat.old.table_id)
            × TakesStepOf P.family word.kind (word_index word.number word.kind) (Or bits)
            seat.old.me result seat.new.me }
    {
        let at = word.index();
        let words = &self.table.shared;
        let seen = words.load::<SawSet<B, P>>(seat, at);
        if seen | bits == seen {
            return seen;
        }
        words.fetch_or::<Ors<P>>(seat, at, bits)
    }

    #[inline]
    fn step_tagged<P: PermitTag>(&self, seat: &mut Seat, word: Word, op: Op) -> u64
        requires pick { P.family ≡ self.now.table.shared.key.1.family }
        requires own { IsSeatOf self.now seat.old × IsWordOf self.now word }
        requires may { MayStep word.kind (word_index word.number word.kind) op seat.old.me.0.owns }
        ensures { (seat.new.table_id ≡ seat.old.table_id)
            × TakesStepOf P.family word.kind (word_index word.number word.kind) op
            seat.old.me result seat.new.me }
    {
        let at = word.index();
        let words = &self.table.shared;
        match op {
            Op::Load => words.load::<Loads<P>>(seat, at),
            Op::Store(value) => words.swap::<Stores<P>>(seat, at, value),
            Op::Swap(value) => words.swap::<Swaps<P>>(seat, at, value),
            Op::Add(by) => words.fetch_add::<Adds<P>>(seat, at, by),
            Op::Sub(by) => words.fetch_sub::<Subs<P>>(seat, at, by),
            Op::Or(bits) => self.set_bits::<Brand, P>(seat, word, bits),
            Op::And(bits) => words.fetch_and::<Ands<P>>(seat, at, bits),
            Op::Exchange { from, to } => {
                words.compare_exchange::<Exchanges<P>>(seat, at, from, to)
            }
        }
    }

    /// Takes one step on a word, and returns the value before. A thread that locks a mutex by it
    /// has the permit of the mutex's value out with that step. A thread that unlocks one lays the
    /// permit back with that step.
    #[inline]
    pub fn step(&self, seat: &mut Seat, word: Word, op: Op) -> u64
        requires own { IsSeatOf self.now seat.old × IsWordOf self.now word }
        requires may { MayStep word.kind (word_index word.number word.kind) op seat.old.me.0.owns }
        ensures own { IsSeatOf self.now seat.new }
        ensures stepped { shown seat.new.me.0
            ≡ after_step word.kind (word_index word.number word.kind) op result seat.old.me.0 }
        ensures out { seat.new.me.0.out
            ≡ out_after word.kind (word_index word.number word.kind) op result
            seat.old.me.0.out }
        ensures coded { CodesWith word.kind
            (word_index word.number word.kind) result seat.old.me.0.owns }
    {
        self.step_tagged::<Brand>(seat, word, op)
    }
}
