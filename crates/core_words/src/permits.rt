//! The permits of the values that mutexes guard: each lies beside the word of its mutex while that
//! is unlocked, and is out with a thread that owns it.
//!
//! One permit is out with a seat at most. A guard has a seat of its own, so that a step which locks
//! another mutex lays the first one's permit back; no call of the locks leads there, which is read off
//! the code. The guard's seat takes the step that leaves, and its thread goes on with a seat that was
//! split off it.
//!
//! The or of a try is a load where the mutex is locked, and else an exchange: a thread that comes
//! second writes nothing. An exchange that finds the mutex unlocked with another parked bit is no step
//! of a call, and an or is taken after it, so that a try ends.
ghost use Rattle.std.specs.Prelude.{IsTrue, ◌↔◌, ◌≡◌, ◌≢◌, ◌⊎◌, ◌%◌, ◌<◌, ◌≤◌, [], ◌∷◌, true, IfOk};
ghost use Rattle.std.specs.Prelude.{MatchOption, MatchResult};
ghost use Rattle.core_base.specs.declared.ops.Op.TheVariants.{Exchange, Or, Sub};
ghost use Rattle.core_words.specs.Indices.{word_index};
ghost use Rattle.core_words.specs.Plays.{BringsNoName, entering_saw, goes_on_with, left_over, stepping};
ghost use Rattle.core_words.specs.Plays.{takes_in};
ghost use Rattle.core_words.specs.Rights.{leaving_alone, named_by, piece_of};
ghost use Rattle.core_words.specs.Steps.{CodesWith, has};
ghost use Rattle.core_words.specs.Views.{blank, shown, with_out};
ghost use Rattle.core_words.specs.declared.owners.Owner.TheVariants.{Exclusive};
ghost use Rattle.core_words.specs.declared.words.WordKind.TheVariants.{Mutex};

use crate::plays::{
    Enters, GoesOn, GoesOnAs, KeepsOwner, Leaves, LeavesAlone, Ors, OwnershipRule, PermitTag,
    PutsBack, SeesLocked, TakesOut, TriesSeen,
};
use crate::table::{LotWords, Seat};
use crate::views::View;
use crate::words::Word;
use core_parts::seats::{change_view, join_seat, split_seat};
use core_parts::{Permit, PermitSlot, Permits};
use std::marker::Brand;
use std::mem;

// The word of a mutex that somebody has, and of one for which others may wait besides.
const LOCKED: u64 = 1;

const LOCKED_AND_PARKED: u64 = 3;

/// The ownership of a mutex whose permit has been taken out. It has to be given back, or the word
/// stays owned. It takes no memory.
pub struct OpenHeld {
    seat: Seat,
}

impl LotWords {
    ghost use Rattle.core_words.specs.Lots.{IsSeatOf, IsWordOf, permit_of};
    ghost use Rattle.core_words.specs.RightsOf.{IsOpenOf, IsOwnerOf};

    // The permit of a mutex that the seat owns is out with it from here on, and no other. It loads
    // the counter: a load of a word that was just written would wait for that.
    #[inline]
    fn mark_permit_out<P: PermitTag>(&self, seat: &mut Seat, word: Word)
        requires pick { (P.family ≡ self.now.table.shared.key.1.family)
            × (P.at ≡ word_index word.number word.kind) }
        requires own { IsSeatOf self.now seat.old × IsWordOf self.now word × (word.kind ≡ Mutex) }
        requires named { has (named_by word Exclusive) seat.old.me.0.owns ≡ true }
        ensures own { IsSeatOf self.now seat.new }
        ensures out { seat.new.me.0
            ≡ with_out (word_index word.number word.kind ∷ []) seat.old.me.0 }
    {
        // The clauses name the word; no code needs it.
        let _mutex = word;
        change_view::<PermitSlot, View, (usize, Permits), OwnershipRule, TakesOut<P>>(
            &self.table.shared,
            seat,
        );
    }

    /// Lays back what is out with a seat. It reads no word.
    #[inline]
    pub fn put_back_permit(&self, seat: &mut Seat)
        requires { IsSeatOf self.now seat.old }
        ensures own { IsSeatOf self.now seat.new }
        ensures laid { seat.new.me.0 ≡ shown seat.old.me.0 }
    {
        change_view::<PermitSlot, View, (usize, Permits), OwnershipRule, PutsBack>(
            &self.table.shared,
            seat,
        );
    }

    // Returns the seat of a mutex's owner, split off one with which the mutex's permit is out.
    #[inline]
    fn split_owner_seat<P: PermitTag>(&self, seat: &mut Seat, word: Word) -> Seat
        requires pick { P.at ≡ word_index word.number word.kind }
        requires own { IsSeatOf self.now seat.old × IsWordOf self.now word × (word.kind ≡ Mutex) }
        requires out { seat.old.me.0.out ≡ word_index word.number word.kind ∷ [] }
        requires named { has (named_by word Exclusive) seat.old.me.0.owns ≡ true }
        ensures own { IsSeatOf self.now seat.new × IsOwnerOf self.now word result }
        ensures left { seat.new.me.0 ≡ left_over (named_by word Exclusive) seat.old.me.0 }
    {
        // The clauses name the word; no code needs it.
        let _mutex = word;
        let next = split_seat::<PermitSlot, View, (usize, Permits), OwnershipRule, KeepsOwner<P>>(
            &self.table.shared,
            seat,
        );
        mem::replace(seat, next)
    }

    // Steps whatever permit is out, by a seat that owns the mutex.
    #[inline]
    fn split_picked<P: PermitTag>(&self, seat: &mut Seat, word: Word) -> Seat
        requires pick { (P.family ≡ self.now.table.shared.key.1.family)
            × (P.at ≡ word_index word.number word.kind) }
        requires own { IsSeatOf self.now seat.old × IsWordOf self.now word × (word.kind ≡ Mutex) }
        requires named { has (named_by word Exclusive) seat.old.me.0.owns ≡ true }
        ensures own { IsSeatOf self.now seat.new × IsOwnerOf self.now word result }
        ensures left { seat.new.me.0 ≡ left_over (named_by word Exclusive) seat.old.me.0 }
    {
        self.mark_permit_out::<P>(seat, word);
        self.split_owner_seat::<P>(seat, word)
    }

    #[inline]
    pub(crate) fn split_owner(&self, seat: &mut Seat, word: Word) -> Seat
        requires own { IsSeatOf self.now seat.old × IsWordOf self.now word × (word.kind ≡ Mutex) }
        requires named { has (named_by word Exclusive) seat.old.me.0.owns ≡ true }
        ensures own { IsSeatOf self.now seat.new × IsOwnerOf self.now word result }
        ensures left { seat.new.me.0 ≡ left_over (named_by word Exclusive) seat.old.me.0 }
    {
        self.split_picked::<Brand>(seat, word)
    }

    // The permit leaves its slot, for a thread that may touch the value.
    #[inline]
    fn open(&self, mut owner: Seat, word: Word) -> (OpenHeld, Permit)
        requires { IsWordOf self.now word × IsOwnerOf self.now word owner × (word.kind ≡ Mutex) }
        ensures { IsOpenOf self.now word result.0 × (result.1.id ≡ permit_of self.now word) }
    {
        let words = &self.table.shared;
        let slot = words.exchange(&mut owner, word.index(), PermitSlot::empty());
        (OpenHeld { seat: owner }, slot.into_permit())
    }

    // Lays the permit in its slot again.
    #[inline]
    fn close(&self, word: Word, opened: OpenHeld, permit: Permit) -> Seat
        requires { IsWordOf self.now word × IsOpenOf self.now word opened
            × (permit.id ≡ permit_of self.now word) × (word.kind ≡ Mutex) }
        ensures { IsOwnerOf self.now word result }
    {
        let OpenHeld { seat: mut owner } = opened;
        let words = &self.table.shared;
        drop(words.exchange(&mut owner, word.index(), permit.into_slot()));
        owner
    }

    /// Gives a seat what another has done and still owns. It reads no word.
    #[inline]
    pub fn join_steps(&self, seat: &mut Seat, owner: Seat)
        requires own { IsSeatOf self.now seat.old × IsSeatOf self.now owner }
        requires left { (owner.me.0.drawn ≡ []) × (owner.me.0.out ≡ []) }
        requires nameless { BringsNoName owner.me.0 }
        ensures own { IsSeatOf self.now seat.new }
        ensures gone_on { shown seat.new.me.0 ≡ goes_on_with seat.old.me.0 owner.me.0 }
    {
        join_seat::<PermitSlot, View, (usize, Permits), OwnershipRule, GoesOn>(
            &self.table.shared,
            seat,
            owner,
        );
    }

    // Steps by an owner with which a permit is out: it is out with the thread after the step.
    #[inline]
    pub(crate) fn join_owning(&self, seat: &mut Seat, owner: Seat)
        requires own { IsSeatOf self.now seat.old × IsSeatOf self.now owner }
        requires left { owner.me.0.drawn ≡ [] }
        requires nameless { BringsNoName owner.me.0 }
        ensures own { IsSeatOf self.now seat.new }
        ensures gone_on { seat.new.me.0
            ≡ with_out owner.me.0.out (goes_on_with seat.old.me.0 owner.me.0) }
    {
        self.put_back_permit(seat);
        let thread = mem::replace(seat, owner);
        join_seat::<PermitSlot, View, (usize, Permits), OwnershipRule, GoesOnAs>(
            &self.table.shared,
            seat,
            thread,
        );
    }

    // The steps that enter and leave, in which the pick says whose permit it is.
    #[inline]
    fn enter_tagged<P: PermitTag>(
        &self,
        seat: &mut Seat,
        word: Word,
        unlocked: u64,
    ) -> Result<(OpenHeld, Permit), u64>
        requires pick { (P.family ≡ self.now.table.shared.key.1.family)
            × (P.at ≡ word_index word.number word.kind) }
        requires own { IsSeatOf self.now seat.old × IsWordOf self.now word × (word.kind ≡ Mutex) }
        requires expects { unlocked ≢ 0 → 3 < unlocked }
        ensures own { IsSeatOf self.now seat.new }
        ensures stepped { MatchResult result
            (λ _. (unlocked ≡ 0) × (shown seat.new.me.0
            ≡ stepping seat.old.me.0 (word_index word.number word.kind) (Exchange 0 1) 0))
            (λ seen. (seen ≢ unlocked)
            × (unlocked ≡ 0 → shown seat.new.me.0
            ≡ stepping seat.old.me.0 (word_index word.number word.kind) (Exchange 0 1) seen)
            × (unlocked ≢ 0 → seat.new.me ≡ seat.old.me)) }
        ensures coded { CodesWith word.kind (word_index word.number word.kind)
            (entering_saw result) seat.old.me.0.owns }
        ensures opened { IfOk result
            (λ taken. IsOpenOf self.now word taken.0 × (taken.1.id ≡ permit_of self.now word)) }
    {
        let words = &self.table.shared;
        let seen = words.compare_exchange::<Enters<P>>(seat, word.index(), unlocked, LOCKED);
        if seen != unlocked {
            return Err(seen);
        }
        let owner = self.split_owner_seat::<P>(seat, word);
        Ok(self.open(owner, word))
    }

    // A try where the parked bit has changed since the word was seen unlocked. It is inlined: a
    // call would be given a copy of the word, which each try would make beforehand.
    #[inline]
    fn try_again<P: PermitTag>(
        &self,
        seat: &mut Seat,
        word: Word,
    ) -> (u64, Option<(OpenHeld, Permit)>)
        requires pick { (P.family ≡ self.now.table.shared.key.1.family)
            × (P.at ≡ word_index word.number word.kind) }
        requires own { IsSeatOf self.now seat.old × IsWordOf self.now word × (word.kind ≡ Mutex) }
        ensures own { IsSeatOf self.now seat.new }
        ensures stepped { shown seat.new.me.0
            ≡ stepping seat.old.me.0 (word_index word.number word.kind) (Or 1) result.0 }
        ensures coded { CodesWith word.kind (word_index word.number word.kind) result.0
            seat.old.me.0.owns }
        ensures opened { MatchOption result.1 (result.0 % 2 ≢ 0)
            (λ taken. (result.0 % 2 ≡ 0) × IsOpenOf self.now word taken.0
            × (taken.1.id ≡ permit_of self.now word)) }
    {
        let words = &self.table.shared;
        let seen = words.fetch_or::<Ors<P>>(seat, word.index(), LOCKED);
        if seen % 2 != 0 {
            return (seen, None);
        }
        let owner = self.split_owner_seat::<P>(seat, word);
        (seen, Some(self.open(owner, word)))
    }

    #[inline]
    fn try_enter_tagged<P: PermitTag>(
        &self,
        seat: &mut Seat,
        word: Word,
    ) -> (u64, Option<(OpenHeld, Permit)>)
        requires pick { (P.family ≡ self.now.table.shared.key.1.family)
            × (P.at ≡ word_index word.number word.kind) }
        requires own { IsSeatOf self.now seat.old × IsWordOf self.now word × (word.kind ≡ Mutex) }
        ensures own { IsSeatOf self.now seat.new }
        ensures stepped { shown seat.new.me.0
            ≡ stepping seat.old.me.0 (word_index word.number word.kind) (Or 1) result.0 }
        ensures coded { CodesWith word.kind (word_index word.number word.kind) result.0
            seat.old.me.0.owns }
        ensures opened { MatchOption result.1 (result.0 % 2 ≢ 0)
            (λ taken. (result.0 % 2 ≡ 0) × IsOpenOf self.now word taken.0
            × (taken.1.id ≡ permit_of self.now word)) }
    {
        let at = word.index();
        let words = &self.table.shared;
        let looked = words.load::<SeesLocked<P>>(seat, at);
        if looked % 2 != 0 {
            return (looked, None);
        }
        let seen = words.compare_exchange::<TriesSeen<P>>(seat, at, looked, looked + LOCKED);
        if seen == looked {
            let owner = self.split_owner_seat::<P>(seat, word);
            return (seen, Some(self.open(owner, word)));
        }
        if seen % 2 != 0 {
            return (seen, None);
        }
        self.try_again::<P>(seat, word)
    }

    #[inline]
    fn leave_tagged<P: PermitTag>(&self, owner: &mut Seat, word: Word, locked: u64) -> u64
        requires pick { P.family ≡ self.now.table.shared.key.1.family }
        requires own { IsOwnerOf self.now word owner.old × IsWordOf self.now word
            × (word.kind ≡ Mutex) }
        requires expects { locked ≤ 1 }
        ensures own { IsSeatOf self.now owner.new }
        ensures left { locked ≡ 1 → owner.new.me.0
            ≡ stepping blank (word_index word.number word.kind) (Sub 1) result }
        ensures kept { locked ≡ 0 → IsOwnerOf self.now word owner.new }
        ensures coded { (result ≡ 1) ⊎ (result ≡ 3) }
    {
        self.table
            .shared
            .fetch_sub::<Leaves<P>>(owner, word.index(), locked)
    }

    #[inline]
    fn leave_alone_tagged<P: PermitTag>(&self, owner: &mut Seat, word: Word, locked: u64) -> u64
        requires pick { P.family ≡ self.now.table.shared.key.1.family }
        requires own { IsOwnerOf self.now word owner.old × IsWordOf self.now word
            × (word.kind ≡ Mutex) }
        requires expects { locked ≤ 1 }
        ensures own { IsSeatOf self.now owner.new }
        ensures left { locked ≡ 1 → shown owner.new.me.0 ≡ leaving_alone blank word result }
        ensures laid { (owner.new.me.0.drawn ≡ [])
            × (locked ≡ 1 → result ≡ 1 → owner.new.me.0.out ≡ []) }
        ensures nameless { BringsNoName owner.new.me.0 }
        ensures kept { locked ≡ 0 → IsOwnerOf self.now word owner.new }
        ensures coded { (result ≡ 1) ⊎ (result ≡ 3) }
    {
        self.table
            .shared
            .compare_exchange::<LeavesAlone<P>>(owner, word.index(), locked, 0)
    }

    /// Takes a mutex that nobody has, and the permit of its value with the same step. The step
    /// expects 0 of such a mutex's word, or a number above 3, which no mutex's word is: then the
    /// attempt is no step.
    ///
    /// # Errors
    ///
    /// What the word was, where the step did not take the mutex.
    #[inline]
    pub fn lock_with_permit(
        &self,
        seat: &mut Seat,
        word: Word,
        unlocked: u64,
    ) -> Result<(OpenHeld, Permit), u64>
        requires own { IsSeatOf self.now seat.old × IsWordOf self.now word × (word.kind ≡ Mutex) }
        requires expects { unlocked ≢ 0 → 3 < unlocked }
        ensures own { IsSeatOf self.now seat.new }
        ensures stepped { MatchResult result
            (λ _. (unlocked ≡ 0) × (shown seat.new.me.0
            ≡ stepping seat.old.me.0 (word_index word.number word.kind) (Exchange 0 1) 0))
            (λ seen. (seen ≢ unlocked)
            × (unlocked ≡ 0 → shown seat.new.me.0
            ≡ stepping seat.old.me.0 (word_index word.number word.kind) (Exchange 0 1) seen)
            × (unlocked ≢ 0 → seat.new.me ≡ seat.old.me)) }
        ensures coded { CodesWith word.kind (word_index word.number word.kind)
            (entering_saw result) seat.old.me.0.owns }
        ensures opened { IfOk result
            (λ taken. IsOpenOf self.now word taken.0 × (taken.1.id ≡ permit_of self.now word)) }
    {
        self.enter_tagged::<Brand>(seat, word, unlocked)
    }

    /// Locks where others may wait. Returns what the step saw, and writes nothing to a mutex that
    /// it sees locked.
    #[inline]
    pub fn try_lock_with_permit(
        &self,
        seat: &mut Seat,
        word: Word,
    ) -> (u64, Option<(OpenHeld, Permit)>)
        requires own { IsSeatOf self.now seat.old × IsWordOf self.now word × (word.kind ≡ Mutex) }
        ensures own { IsSeatOf self.now seat.new }
        ensures stepped { shown seat.new.me.0
            ≡ stepping seat.old.me.0 (word_index word.number word.kind) (Or 1) result.0 }
        ensures coded { CodesWith word.kind (word_index word.number word.kind) result.0
            seat.old.me.0.owns }
        ensures opened { MatchOption result.1 (result.0 % 2 ≢ 0)
            (λ taken. (result.0 % 2 ≡ 0) × IsOpenOf self.now word taken.0
            × (taken.1.id ≡ permit_of self.now word)) }
    {
        self.try_enter_tagged::<Brand>(seat, word)
    }

    /// Gives a mutex up, and lays the permit of its value back with the same step. Returns the
    /// value before. It takes 1 from the mutex's word, or 0: then it is no step, and gives the
    /// mutex back.
    #[inline]
    pub fn unlock_with_permit(
        &self,
        seat: &mut Seat,
        word: Word,
        opened: OpenHeld,
        permit: Permit,
        locked: u64,
    ) -> Result<u64, (OpenHeld, Permit)>
        requires own { IsSeatOf self.now seat.old × IsWordOf self.now word × (word.kind ≡ Mutex) }
        requires opened { IsOpenOf self.now word opened × (permit.id ≡ permit_of self.now word) }
        requires expects { locked ≤ 1 }
        ensures own { IsSeatOf self.now seat.new }
        ensures stepped { MatchResult result
            (λ seen. (locked ≡ 1) × ((seen ≡ 1) ⊎ (seen ≡ 3)) × (shown seat.new.me.0
            ≡ stepping seat.old.me.0 (word_index word.number word.kind) (Sub 1) seen))
            (λ kept. (locked ≡ 0) × (seat.new.me ≡ seat.old.me)
            × IsOpenOf self.now word kept.0 × (kept.1.id ≡ permit_of self.now word)) }
    {
        let mut owner = self.close(word, opened, permit);
        // The subtraction is asked for nothing else, so that its flags answer the comparison.
        if self.leave_tagged::<Brand>(&mut owner, word, locked) == locked {
            self.join_steps(seat, owner);
            return Ok(LOCKED);
        }
        if is_no_step(locked) {
            return Err(self.open(owner, word));
        }
        self.join_steps(seat, owner);
        Ok(LOCKED_AND_PARKED)
    }

    /// Unlocks where nobody waits. Where somebody does, the seat owns the mutex, and the permit is
    /// out with it still.
    #[inline]
    pub fn unlock_if_alone(
        &self,
        seat: &mut Seat,
        word: Word,
        opened: OpenHeld,
        permit: Permit,
        locked: u64,
    ) -> Result<u64, (OpenHeld, Permit)>
        requires own { IsSeatOf self.now seat.old × IsWordOf self.now word × (word.kind ≡ Mutex) }
        requires opened { IsOpenOf self.now word opened × (permit.id ≡ permit_of self.now word) }
        requires expects { locked ≤ 1 }
        ensures own { IsSeatOf self.now seat.new }
        ensures stepped { MatchResult result
            (λ seen. (locked ≡ 1) × ((seen ≡ 1) ⊎ (seen ≡ 3))
            × (shown seat.new.me.0 ≡ leaving_alone seat.old.me.0 word seen))
            (λ kept. (locked ≡ 0) × (seat.new.me ≡ seat.old.me)
            × IsOpenOf self.now word kept.0 × (kept.1.id ≡ permit_of self.now word)) }
    {
        let mut owner = self.close(word, opened, permit);
        if self.leave_alone_tagged::<Brand>(&mut owner, word, locked) == locked {
            self.join_steps(seat, owner);
            return Ok(LOCKED);
        }
        if is_no_step(locked) {
            return Err(self.open(owner, word));
        }
        self.join_owning(seat, owner);
        Ok(LOCKED_AND_PARKED)
    }

    /// Splits a mutex off that the seat's view names, with the permit of its value. It loads a
    /// word, which is no step of a call: after that load the permit is out with the mutex, also
    /// where the thread has locked another one since.
    #[inline]
    pub fn split_open(&self, seat: &mut Seat, word: Word) -> (OpenHeld, Permit)
        requires own { IsSeatOf self.now seat.old × IsWordOf self.now word × (word.kind ≡ Mutex) }
        requires named { has (named_by word Exclusive) seat.old.me.0.owns ≡ true }
        ensures own { IsSeatOf self.now seat.new }
        ensures left { shown seat.new.me.0 ≡ left_over (named_by word Exclusive) seat.old.me.0 }
        ensures opened { IsOpenOf self.now word result.0 × (result.1.id ≡ permit_of self.now word) }
    {
        let owner = self.split_owner(seat, word);
        self.open(owner, word)
    }

    /// Gives it back to a seat. The permit stays out with that, until a step unlocks the mutex. It
    /// loads a word, which is no step of a call.
    #[inline]
    pub fn join_open(&self, seat: &mut Seat, word: Word, opened: OpenHeld, permit: Permit)
        requires own { IsSeatOf self.now seat.old × IsWordOf self.now word × (word.kind ≡ Mutex) }
        requires opened { IsOpenOf self.now word opened × (permit.id ≡ permit_of self.now word) }
        ensures own { IsSeatOf self.now seat.new }
        ensures joined { shown seat.new.me.0
            ≡ takes_in seat.old.me.0 (piece_of word Exclusive) }
        ensures out { seat.new.me.0.out ≡ word_index word.number word.kind ∷ [] }
    {
        let again = self.close(word, opened, permit);
        self.join_owning(seat, again);
    }
}

// Asked out of line, so that the flags of the subtraction are asked first.
#[cold]
#[inline(never)]
fn is_no_step(locked: u64) -> bool
    ensures { IsTrue result ↔ (locked ≡ 0) }
{
    locked == 0
}
