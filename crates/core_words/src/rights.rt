//! Ownerships that are split off a seat.
//!
//! A `Right` keeps its word and its owner, since the thread that finds one in its record has to see
//! whether it waits for that. A `Held` keeps nothing: its word is the lock's, and the guard's type says
//! how the word is owned.
ghost use Rattle.std.specs.Prelude.{◌≡◌, ◌≢◌, ◌↔◌, IsTrue, true};
ghost use Rattle.core_words.specs.Rights.{handed_view, named_by, piece_of, takes_permit, want_of};
ghost use Rattle.core_words.specs.Views.{shown, with_out};
ghost use Rattle.core_words.specs.declared.owners.Owner.TheVariants.{Exclusive};
ghost use Rattle.core_words.specs.declared.words.WordKind.TheVariants.{Mutex};

use crate::owners::Owner;
use crate::plays::{OwnershipRule, Piece, SplitsOff, TakesIn};
use crate::table::{LotWords, Seat};
use crate::views::View;
use crate::words::Word;
use core_base::Want;
use core_parts::seats::{join_seat, split_seat};
use core_parts::{PermitSlot, Permits};
use std::marker::Brand;

/// An ownership, split off the view of a seat, as a thread that knows its word keeps it. It borrows
/// nothing, and takes no memory.
///
/// A `Held` has to be given back, or the word stays owned.
pub struct Held {
    pub(crate) seat: Seat,
}

impl Held {
    /// Returns the seat, which stays a right to what its view names.
    #[inline]
    pub fn into_seat(self) -> Seat
        ensures { (result.table_id ≡ self.seat.table_id) × (result.me ≡ self.seat.me) }
    {
        let Held { seat } = self;
        seat
    }

    /// Makes a right of what a seat owns.
    #[inline]
    pub fn of_seat(seat: Seat) -> Held
        ensures { (result.seat.table_id ≡ seat.table_id) × (result.seat.me ≡ seat.me) }
    {
        Held { seat }
    }
}

/// A right with its word and owner, as it goes to a thread that is to be told them. A thread that
/// is handed a mutex is handed its slot too, in which the permit of its value lies.
pub struct Right {
    seat: Seat,
    word: Word,
    owner: Owner,
    ghost names: { seat.me.0 ≡ handed_view word owner },
}

impl Right {
    ghost use Rattle.core_words.specs.RightsOf.{IsFor};

    #[inline]
    pub fn word(&self) -> Word
        ensures { result ≡ self.now.word }
    {
        self.word
    }

    #[inline]
    pub fn owner(&self) -> Owner
        ensures { result ≡ self.now.owner }
    {
        self.owner
    }

    #[inline]
    pub fn want(&self) -> Want
        ensures { result ≡ want_of self.now.owner }
    {
        self.owner.want()
    }

    /// Returns whether it is what a thread waits for.
    pub fn is_for(&self, word: Word, want: Want) -> bool
        ensures { IsTrue result ↔ IsFor word want self.now }
    {
        self.word.is_same(word) && self.owner.suits(word.kind(), want)
    }

    /// Lets the right go without a step. Its word stays owned for good.
    pub fn forget(self) {
        let Right {
            seat,
            word: _,
            owner: _,
        } = self;
        drop(seat);
    }
}

impl LotWords {
    ghost use Rattle.core_words.specs.Lots.{IsSeatOf, IsWordOf};
    ghost use Rattle.core_words.specs.RightsOf.{IsHeldOf, IsRightOf};
    ghost use Rattle.core_words.specs.Plays.{left_over, piece, takes_in};
    ghost use Rattle.core_words.specs.Steps.{has};

    // Returns the seat of what is split off, and whose permit stays where it is.
    #[inline]
    fn split_off<P: Piece>(&self, seat: &mut Seat, word: Word, owner: Owner) -> Seat
        requires own { IsSeatOf self.now seat.old }
        requires named { (P.owned ≡ named_by word owner) × (has P.owned seat.old.me.0.owns ≡ true) }
        requires stays { takes_permit word.kind owner ≢ true }
        ensures left { IsSeatOf self.now seat.new
            × (seat.new.me.0 ≡ with_out seat.old.me.0.out (left_over P.owned seat.old.me.0)) }
        ensures split { IsSeatOf self.now result × (result.me.0 ≡ piece P.owned) }
    {
        let _named = (word, owner);
        split_seat::<PermitSlot, View, (usize, Permits), OwnershipRule, SplitsOff<P>>(
            &self.table.shared,
            seat,
        )
    }

    /// Splits an ownership off that the seat's view names, of a word that guards no value. It loads
    /// a word, which is no step of a call.
    #[inline]
    pub fn split_held(&self, seat: &mut Seat, word: Word, owner: Owner) -> Held
        requires own { IsSeatOf self.now seat.old × (word.kind ≢ Mutex) }
        requires named { has (named_by word owner) seat.old.me.0.owns ≡ true }
        ensures own { IsSeatOf self.now seat.new }
        ensures left { shown seat.new.me.0 ≡ left_over (named_by word owner) seat.old.me.0 }
        ensures held { IsHeldOf self.now word owner result }
    {
        let seat = self.split_off::<Brand>(seat, word, owner);
        Held { seat }
    }

    /// Gives it back to a seat, and it is spent. It loads a word, which is no step of a call.
    #[inline]
    pub fn join_held(&self, seat: &mut Seat, word: Word, owner: Owner, held: Held)
        requires { IsSeatOf self.now seat.old × IsHeldOf self.now word owner held }
        ensures own { IsSeatOf self.now seat.new }
        ensures joined { shown seat.new.me.0 ≡ takes_in seat.old.me.0 (piece_of word owner) }
    {
        let _named = (word, owner);
        let Held { seat: other } = held;
        join_seat::<PermitSlot, View, (usize, Permits), OwnershipRule, TakesIn>(
            &self.table.shared,
            seat,
            other,
        );
    }

    /// Splits a right off with its word and owner, and with the permit where it is a mutex that is
    /// owned.
    #[inline]
    pub fn split_right(&self, seat: &mut Seat, word: Word, owner: Owner) -> Right
        requires own { IsSeatOf self.now seat.old × IsWordOf self.now word }
        requires named { has (named_by word owner) seat.old.me.0.owns ≡ true }
        ensures own { IsSeatOf self.now seat.new }
        ensures left { shown seat.new.me.0 ≡ left_over (named_by word owner) seat.old.me.0 }
        ensures right { IsRightOf self.now result × (result.word ≡ word) × (result.owner ≡ owner) }
    {
        let seat = if owner.takes_permit(word.kind()) {
            self.split_owner(seat, word)
        } else {
            self.split_off::<Brand>(seat, word, owner)
        };
        Right { seat, word, owner }
    }

    /// Gives an ownership back to a seat. The right is spent. It loads a word, which is no step of
    /// a call.
    #[inline]
    pub fn join_right(&self, seat: &mut Seat, right: Right)
        requires { IsSeatOf self.now seat.old × IsRightOf self.now right }
        ensures own { IsSeatOf self.now seat.new }
        ensures joined { shown seat.new.me.0
            ≡ takes_in seat.old.me.0 (piece_of right.word right.owner) }
    {
        let Right {
            seat: other,
            word,
            owner,
        } = right;
        if owner.takes_permit(word.kind()) {
            self.join_owning(seat, other);
        } else {
            join_seat::<PermitSlot, View, (usize, Permits), OwnershipRule, TakesIn>(
                &self.table.shared,
                seat,
                other,
            );
        }
    }
}
