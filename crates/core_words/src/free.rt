//! How many permits of a semaphore are free.
//!
//! The number of permits with which a semaphore was drawn is known to the thread that drew it. Any
//! other thread knows by `look_free` that the free ones and its own are no more than those of the draw.
//! A second word, a table for each semaphore, a count within each ownership and a seat inside the
//! semaphore were tried on paper: none can be tied to the rule of the table.
ghost use Rattle.std.specs.Prelude.{◌≡◌};
ghost use Rattle.core_base.specs.declared.ops.Op.TheVariants.{Load};
ghost use Rattle.core_words.specs.Indices.{plain, word_index};
ghost use Rattle.core_words.specs.Plays.{WithinPermits};
ghost use Rattle.core_words.specs.Steps.{after_step};
ghost use Rattle.core_words.specs.Views.{shown};
ghost use Rattle.core_words.specs.declared.words.WordKind.TheVariants.{Semaphore};

use crate::plays::{NumberTag, PermitTag, SeesFree};
use crate::table::{LotWords, Seat};
use crate::words::Word;
use std::marker::Brand;

impl LotWords {
    ghost use Rattle.core_words.specs.Lots.{IsSeatOf, IsWordOf};

    #[inline]
    fn free_tagged<N: NumberTag, P: PermitTag>(&self, seat: &mut Seat, semaphore: Word) -> u64
        requires pick { (N.number ≡ semaphore.number)
            × (P.family ≡ self.now.table.shared.key.1.family) }
        requires own { IsSeatOf self.now seat.old × IsWordOf self.now semaphore
            × (plain semaphore.kind ≡ Semaphore 0) }
        ensures own { IsSeatOf self.now seat.new }
        ensures stepped { shown seat.new.me.0 ≡ after_step (Semaphore 0)
            (word_index semaphore.number (Semaphore 0)) Load result seat.old.me.0 }
        ensures within { WithinPermits semaphore.number result seat.old.me.0 }
    {
        self.table
            .shared
            .load::<SeesFree<N, P>>(seat, semaphore.index())
    }

    /// Returns the word of a semaphore, by one load. The permits that are free by it, with those
    /// that the seat names, are no more than those with which it was drawn, which are known to the
    /// thread that drew it.
    #[inline]
    pub fn look_free(&self, seat: &mut Seat, semaphore: Word) -> u64
        requires { IsSeatOf self.now seat.old × IsWordOf self.now semaphore
            × (plain semaphore.kind ≡ Semaphore 0) }
        ensures own { IsSeatOf self.now seat.new }
        ensures stepped { shown seat.new.me.0 ≡ after_step (Semaphore 0)
            (word_index semaphore.number (Semaphore 0)) Load result seat.old.me.0 }
        ensures within { WithinPermits semaphore.number result seat.old.me.0 }
    {
        self.free_tagged::<Brand, Brand>(seat, semaphore)
    }
}
