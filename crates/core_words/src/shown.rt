//! The mutexes that condition variables show.
//!
//! A condition variable shows nothing, or a mutex of its lot with another number than its own
//! (`MayBeShown`). The thread that makes it show one owns that mutex, and each owned word is a word of
//! the lot; that the numbers differ is asked where it is made to show (`MayTie`). A notification that
//! saw anything but 0 saw a mutex.
ghost use Rattle.std.specs.Prelude.{◌≡◌, ◌≢◌, ◌+◌, ◌≤◌};
ghost use Rattle.core_base.specs.declared.ops.Op.TheVariants.{Load};
ghost use Rattle.core_words.specs.Codes.{ShowsBeside};
ghost use Rattle.core_words.specs.Indices.{word_index};
ghost use Rattle.core_words.specs.Steps.{after_step};
ghost use Rattle.core_words.specs.Views.{HasSeen, shown};
ghost use Rattle.core_words.specs.declared.words.WordKind.TheVariants.{Condvar, Mutex};

use crate::plays::{CondvarTag, PermitTag, SeesShown};
use crate::table::{LotWords, Seat};
use crate::words::{Word, WordKind};
use std::marker::Brand;

impl LotWords {
    ghost use Rattle.core_words.specs.Lots.{IsSeatOf, IsWordOf};

    #[inline]
    fn look_tagged<C: CondvarTag, P: PermitTag>(&self, seat: &mut Seat, condvar: Word) -> u64
        requires pick { (C.words ≡ self.now.count) × (C.number ≡ condvar.number)
            × (P.family ≡ self.now.table.shared.key.1.family) }
        requires own { IsSeatOf self.now seat.old × IsWordOf self.now condvar
            × (condvar.kind ≡ Condvar) }
        ensures own { IsSeatOf self.now seat.new }
        ensures stepped { shown seat.new.me.0
            ≡ after_step Condvar (word_index condvar.number Condvar) Load result seat.old.me.0 }
        ensures shown { ShowsBeside self.now.count condvar.number result }
    {
        self.table
            .shared
            .load::<SeesShown<C, P>>(seat, condvar.index())
    }

    /// Looks what a condition variable shows, by one load of its word: 0 where it shows nothing,
    /// and else one more than the number of a mutex of the lot, which is not its own number.
    #[inline]
    pub fn look_shown(&self, seat: &mut Seat, condvar: Word) -> u64
        requires { IsSeatOf self.now seat.old × IsWordOf self.now condvar
            × (condvar.kind ≡ Condvar) }
        ensures own { IsSeatOf self.now seat.new }
        ensures stepped { shown seat.new.me.0
            ≡ after_step Condvar (word_index condvar.number Condvar) Load result seat.old.me.0 }
        ensures shown { ShowsBeside self.now.count condvar.number result }
    {
        self.look_tagged::<Brand, Brand>(seat, condvar)
    }

    /// Names the mutex that a seat has seen shown by a condition variable, by one more than its
    /// number. So a `Word` comes from a draw, or from a look at what the owner of that mutex has shown.
    pub fn mutex_shown(&self, seat: &Seat, condvar: Word, seen: u64) -> Word
        requires own { IsWordOf self.now condvar × (condvar.kind ≡ Condvar) }
        requires looked { HasSeen (word_index condvar.number Condvar) seen seat.now.me.0.steps }
        requires shown { (seen ≢ 0) × (seen ≤ self.now.count) }
        ensures { IsWordOf self.now result × (result.kind ≡ Mutex) × (seen ≡ result.number + 1) }
    {
        let _condvar = condvar;
        let _seat = seat;
        Word::new((seen - 1) as usize, WordKind::Mutex, self.tag)
    }
}
