//! Names and shares.
//!
//! A token's own view has no number, so that no step on another word has to keep it. A step on a count
//! is the name's, which passes it on to the token's list. A store on a count brings a share or takes
//! one, so the calls here alone store counts.
ghost use Rattle.std.specs.Prelude.{◌≡◌, ◌≢◌, ◌⊎◌, ℕ, List, ◌+◌, ◌/◌, ◌%◌, ◌<◌, [], ◌∷◌};
ghost use Rattle.core_base.specs.declared.ops.Op.TheVariants.{Load, Store};
ghost use Rattle.core_words.specs.Codes.{IsCountCode};
ghost use Rattle.core_words.specs.Indices.{word_index};
ghost use Rattle.core_words.specs.Lots.{IsSeatOf, IsWordOf, permit_of};
ghost use Rattle.core_words.specs.Plays.{goes_on_with, stepping};
ghost use Rattle.core_words.specs.RightsOf.{IsOpenOf};
ghost use Rattle.core_words.specs.Views.{shown};
ghost use Rattle.core_words.specs.declared.views.Counting.{Counting};
ghost use Rattle.core_words.specs.declared.words.WordKind.TheVariants.{Count, Mutex};
ghost use Rattle.core_names.specs.Shares.{counting, rest_of, sharing, steps_alone, without_steps};

use crate::plays::{
    CountTag, Draws, GivesShare, LooksNamed, LooksOwn, PassesSteps, SeesOwn, SeesTwo, StoresLess,
    StoresMore, TakesShare,
};
use core_parts::seats::{join_seat, split_seat};
use core_parts::{Permit, PermitSlot, Permits};
use core_words::plays::{OwnershipRule, PermitTag};
use core_words::{LotWords, OpenHeld, Seat, View, Word};
use std::marker::Brand;

/// The name of a thread in a lot: its number, which no other name has. The mutexes that the thread
/// has counted are owned by its name, which says what their counts are. It has no bytes.
#[derive(Drop)]
pub struct Name {
    seat: Seat,
}

/// A share of a count: one of the times that a thread has locked a mutex. It borrows nothing, and
/// has no bytes.
pub struct CountShare {
    seat: Seat,
}

impl Name {
    ghost use Rattle.core_names.specs.Names.{IsNameOf, IsNamer, IsShareOf, Says, count_at, shares_of};
    ghost use Rattle.core_names.specs.Names.{thread_named};

    /// Takes the number of a thread off the first seat of a lot, which has the numbers from this
    /// one on.
    pub fn draw(words: &LotWords, first: &mut Seat, thread: usize) -> Name
        requires { IsNamer words.now thread first.old }
        ensures first { IsNamer words.now (thread + 1) first.new }
        ensures name { IsNameOf words.now thread result }
    {
        Name::draw_tagged::<Brand>(words, first, thread)
    }

    fn draw_tagged<C: CountTag>(words: &LotWords, first: &mut Seat, thread: usize) -> Name
        requires pick { C.thread ≡ thread }
        requires own { IsNamer words.now thread first.old }
        ensures first { IsNamer words.now (thread + 1) first.new }
        ensures name { IsNameOf words.now thread result }
    {
        let _thread = thread;
        let seat = split_seat::<PermitSlot, View, (usize, Permits), OwnershipRule, Draws<C>>(
            words.seats(),
            first,
        );
        Name { seat }
    }

    // The steps of the name go to the thread's seat. It reads no word.
    #[inline]
    fn pass_steps(&mut self, words: &LotWords, seat: &mut Seat)
        requires own { IsSeatOf words.now seat.old
            × (self.old.seat.table_id ≡ words.now.table.shared.table_id) }
        ensures seat { IsSeatOf words.now seat.new
            × (shown seat.new.me.0 ≡ goes_on_with seat.old.me.0 (steps_alone self.old.seat.me.0)) }
        ensures name { (self.new.seat.table_id ≡ self.old.seat.table_id)
            × (self.new.seat.me ≡ (without_steps self.old.seat.me.0, self.old.seat.me.1)) }
    {
        let steps = split_seat::<PermitSlot, View, (usize, Permits), OwnershipRule, PassesSteps>(
            words.seats(),
            &mut self.seat,
        );
        words.join_steps(seat, steps);
    }

    /// Looks at a count, by one load as a step of the thread's seat. A thread that it finds named
    /// says what it has seen, and a thread that says a count sees that.
    #[inline]
    pub fn look(&mut self, words: &LotWords, seat: &mut Seat, thread: usize, count: Word) -> u64
        requires own { IsNameOf words.now thread self.old × IsSeatOf words.now seat.old
            × IsWordOf words.now count × (count.kind ≡ Count) }
        ensures own { IsNameOf words.now thread self.new × IsSeatOf words.now seat.new
            × (shares_of self.new ≡ shares_of self.old) }
        ensures stepped { shown seat.new.me.0
            ≡ stepping seat.old.me.0 (count_at count.number) Load result }
        ensures named { result / 4294967296 ≡ thread + 1 → Says count.number result self.new }
        ensures same { (said : ℕ) → Says count.number said self.old
            → (result ≡ said) × Says count.number said self.new }
    {
        let seen = self.look_tagged::<Brand, Brand>(words, thread, count);
        self.pass_steps(words, seat);
        seen
    }

    #[inline]
    fn look_tagged<C: CountTag, P: PermitTag>(
        &mut self,
        words: &LotWords,
        thread: usize,
        count: Word,
    ) -> u64
        requires pick { (C.thread ≡ thread) × (P.family ≡ words.now.table.shared.key.1.family) }
        requires own { IsNameOf words.now thread self.old × IsWordOf words.now count
            × (count.kind ≡ Count) }
        ensures stepped { (self.new.seat.table_id ≡ words.now.table.shared.table_id)
            × (self.new.seat.me
            ≡ (stepping self.old.seat.me.0 (count_at count.number) Load result, [])) }
        ensures named { result / 4294967296 ≡ thread + 1 → Says count.number result self.old }
        ensures same { (said : ℕ) → Says count.number said self.old → result ≡ said }
    {
        let _thread = thread;
        words
            .seats()
            .load::<LooksNamed<C, P>>(&mut self.seat, count.index())
    }

    /// Takes a share in, and loads its count, which is no step of a call. The count names the
    /// thread, which says it, with one share at least.
    #[inline]
    pub fn see(&mut self, words: &LotWords, thread: usize, count: Word, share: CountShare) -> u64
        requires own { IsNameOf words.now thread self.old × IsWordOf words.now count
            × (count.kind ≡ Count) }
        requires share { IsShareOf words.now count.number share × (thread_named share ≡ thread) }
        ensures own { IsNameOf words.now thread self.new }
        ensures shares { shares_of self.new
            ≡ sharing (count_at count.number) thread ∷ shares_of self.old }
        ensures named { (result / 4294967296 ≡ thread + 1) × (0 < result % 4294967296)
            × Says count.number result self.new }
    {
        self.take_share(words, thread, count, share);
        self.see_tagged::<Brand>(words, thread, count)
    }

    #[inline]
    fn take_share(&mut self, words: &LotWords, thread: usize, count: Word, share: CountShare)
        requires own { IsNameOf words.now thread self.old }
        requires share { IsShareOf words.now count.number share × (thread_named share ≡ thread) }
        ensures own { IsNameOf words.now thread self.new }
        ensures shares { shares_of self.new
            ≡ sharing (count_at count.number) thread ∷ shares_of self.old }
    {
        let _share = (thread, count);
        let CountShare { seat } = share;
        join_seat::<PermitSlot, View, (usize, Permits), OwnershipRule, TakesShare>(
            words.seats(),
            &mut self.seat,
            seat,
        );
    }

    #[inline]
    fn see_tagged<C: CountTag>(&mut self, words: &LotWords, thread: usize, count: Word) -> u64
        requires pick { C.thread ≡ thread }
        requires own { IsNameOf words.now thread self.old × IsWordOf words.now count
            × (count.kind ≡ Count) }
        requires share { (rest : List Counting)
            × (shares_of self.old ≡ sharing (count_at count.number) thread ∷ rest) }
        ensures own { IsNameOf words.now thread self.new × (self.new.seat.me ≡ self.old.seat.me) }
        ensures named { (result / 4294967296 ≡ thread + 1) × (0 < result % 4294967296)
            × Says count.number result self.new }
    {
        let _thread = thread;
        words
            .seats()
            .load::<SeesOwn<C>>(&mut self.seat, count.index())
    }

    /// Takes a share in, and looks at its count, by one load as a step of the thread's seat. The count
    /// names the thread, which says it, with one share at least.
    #[inline]
    pub fn look_by_share(
        &mut self,
        words: &LotWords,
        seat: &mut Seat,
        thread: usize,
        count: Word,
        share: CountShare,
    ) -> u64
        requires own { IsNameOf words.now thread self.old × IsSeatOf words.now seat.old
            × IsWordOf words.now count × (count.kind ≡ Count) }
        requires share { IsShareOf words.now count.number share × (thread_named share ≡ thread) }
        ensures own { IsNameOf words.now thread self.new × IsSeatOf words.now seat.new }
        ensures stepped { shown seat.new.me.0
            ≡ stepping seat.old.me.0 (count_at count.number) Load result }
        ensures shares { shares_of self.new
            ≡ sharing (count_at count.number) thread ∷ shares_of self.old }
        ensures named { (result / 4294967296 ≡ thread + 1) × (0 < result % 4294967296)
            × Says count.number result self.new }
    {
        self.take_share(words, thread, count, share);
        let seen = self.look_own_tagged::<Brand, Brand>(words, thread, count);
        self.pass_steps(words, seat);
        seen
    }

    #[inline]
    fn look_own_tagged<C: CountTag, P: PermitTag>(
        &mut self,
        words: &LotWords,
        thread: usize,
        count: Word,
    ) -> u64
        requires pick { (C.thread ≡ thread) × (P.family ≡ words.now.table.shared.key.1.family) }
        requires own { IsNameOf words.now thread self.old × IsWordOf words.now count
            × (count.kind ≡ Count) }
        requires share { (rest : List Counting)
            × (shares_of self.old ≡ sharing (count_at count.number) thread ∷ rest) }
        ensures stepped { (self.new.seat.table_id ≡ words.now.table.shared.table_id)
            × (self.new.seat.me
            ≡ (stepping self.old.seat.me.0 (count_at count.number) Load result, [])) }
        ensures named { (result / 4294967296 ≡ thread + 1) × (0 < result % 4294967296)
            × Says count.number result self.old }
    {
        let _thread = thread;
        words
            .seats()
            .load::<LooksOwn<C, P>>(&mut self.seat, count.index())
    }

    /// Gives a share that the name has. It reads no word.
    #[inline]
    pub fn give_share(&mut self, words: &LotWords, thread: usize, count: Word) -> CountShare
        requires own { IsNameOf words.now thread self.old }
        requires share { (rest : List Counting)
            × (shares_of self.old ≡ sharing (count_at count.number) thread ∷ rest) }
        ensures own { IsNameOf words.now thread self.new }
        ensures share { IsShareOf words.now count.number result × (thread_named result ≡ thread) }
        ensures rest { shares_of self.old
            ≡ sharing (count_at count.number) thread ∷ shares_of self.new }
    {
        self.give_tagged::<Brand>(words, thread, count)
    }

    #[inline]
    fn give_tagged<C: CountTag>(
        &mut self,
        words: &LotWords,
        thread: usize,
        count: Word,
    ) -> CountShare
        requires pick { (C.thread ≡ thread) × (C.at ≡ count_at count.number) }
        requires own { IsNameOf words.now thread self.old }
        requires share { (rest : List Counting)
            × (shares_of self.old ≡ sharing (count_at count.number) thread ∷ rest) }
        ensures own { IsNameOf words.now thread self.new }
        ensures share { IsShareOf words.now count.number result × (thread_named result ≡ thread) }
        ensures rest { shares_of self.old
            ≡ sharing (count_at count.number) thread ∷ shares_of self.new }
    {
        let _share = (thread, count);
        let seat = split_seat::<PermitSlot, View, (usize, Permits), OwnershipRule, GivesShare<C>>(
            words.seats(),
            &mut self.seat,
        );
        CountShare { seat }
    }

    /// Counts once more, by one store as a step of the thread's seat. The thread says the count
    /// that was there.
    #[inline]
    pub fn count_more(
        &mut self,
        words: &LotWords,
        seat: &mut Seat,
        thread: usize,
        count: Word,
        said: u64,
        next: u64,
    )
        requires own { IsNameOf words.now thread self.old × IsSeatOf words.now seat.old
            × IsWordOf words.now count × (count.kind ≡ Count) }
        requires said { Says count.number said self.old
            × ((said ≡ 0) ⊎ (said / 4294967296 ≡ thread + 1)) }
        requires next { IsCountCode next × (next / 4294967296 ≡ thread + 1)
            × (next % 4294967296 ≡ said % 4294967296 + 1) }
        ensures own { IsNameOf words.now thread self.new × IsSeatOf words.now seat.new }
        ensures stepped { shown seat.new.me.0
            ≡ stepping seat.old.me.0 (count_at count.number) (Store next) said }
        ensures shares { shares_of self.new
            ≡ sharing (count_at count.number) thread ∷ shares_of self.old }
    {
        self.more_tagged::<Brand>(words, thread, count, said, next);
        self.pass_steps(words, seat);
    }

    #[inline]
    fn more_tagged<C: CountTag>(
        &mut self,
        words: &LotWords,
        thread: usize,
        count: Word,
        said: u64,
        next: u64,
    )
        requires pick { (C.thread ≡ thread) × (C.said ≡ said) }
        requires own { IsNameOf words.now thread self.old × IsWordOf words.now count
            × (count.kind ≡ Count) }
        requires said { Says count.number said self.old
            × ((said ≡ 0) ⊎ (said / 4294967296 ≡ thread + 1)) }
        requires next { IsCountCode next × (next / 4294967296 ≡ thread + 1)
            × (next % 4294967296 ≡ said % 4294967296 + 1) }
        ensures { (self.new.seat.table_id ≡ words.now.table.shared.table_id)
            × (self.new.seat.me ≡ (
              counting (count_at count.number) said next
                  (sharing (count_at count.number) thread ∷ shares_of self.old) self.old.seat.me.0,
              [],
            )) }
    {
        let _said = (thread, said);
        words
            .seats()
            .swap::<StoresMore<C>>(&mut self.seat, count.index(), next);
    }

    /// Counts once less, by one store as a step of the thread's seat, and spends a share.
    #[inline]
    pub fn count_less(
        &mut self,
        words: &LotWords,
        seat: &mut Seat,
        thread: usize,
        count: Word,
        said: u64,
        next: u64,
    )
        requires own { IsNameOf words.now thread self.old × IsSeatOf words.now seat.old
            × IsWordOf words.now count × (count.kind ≡ Count) }
        requires said { Says count.number said self.old × (said / 4294967296 ≡ thread + 1) }
        requires share { (rest : List Counting)
            × (shares_of self.old ≡ sharing (count_at count.number) thread ∷ rest) }
        requires next { IsCountCode next × ((next ≡ 0) ⊎ (next / 4294967296 ≡ thread + 1))
            × (said % 4294967296 ≡ next % 4294967296 + 1) }
        ensures own { IsNameOf words.now thread self.new × IsSeatOf words.now seat.new }
        ensures stepped { shown seat.new.me.0
            ≡ stepping seat.old.me.0 (count_at count.number) (Store next) said }
        ensures says { Says count.number next self.new }
    {
        self.less_tagged::<Brand>(words, thread, count, said, next);
        self.pass_steps(words, seat);
    }

    #[inline]
    fn less_tagged<C: CountTag>(
        &mut self,
        words: &LotWords,
        thread: usize,
        count: Word,
        said: u64,
        next: u64,
    )
        requires pick { (C.thread ≡ thread) × (C.said ≡ said) }
        requires own { IsNameOf words.now thread self.old × IsWordOf words.now count
            × (count.kind ≡ Count) }
        requires said { Says count.number said self.old × (said / 4294967296 ≡ thread + 1) }
        requires share { (rest : List Counting)
            × (shares_of self.old ≡ sharing (count_at count.number) thread ∷ rest) }
        requires next { IsCountCode next × ((next ≡ 0) ⊎ (next / 4294967296 ≡ thread + 1))
            × (said % 4294967296 ≡ next % 4294967296 + 1) }
        ensures { (self.new.seat.table_id ≡ words.now.table.shared.table_id)
            × (self.new.seat.me ≡ (
              counting (count_at count.number) said next
                  (rest_of (shares_of self.old)) self.old.seat.me.0,
              [],
            )) }
    {
        let _said = (thread, said);
        words
            .seats()
            .swap::<StoresLess<C>>(&mut self.seat, count.index(), next);
    }

    /// Takes a mutex in, whose permit lies in its slot from then on. The name says that its count
    /// is 0. It reads no word.
    #[inline]
    pub fn keep(
        &mut self,
        words: &LotWords,
        thread: usize,
        mutex: Word,
        opened: OpenHeld,
        permit: Permit,
    )
        requires own { IsNameOf words.now thread self.old × IsWordOf words.now mutex
            × (mutex.kind ≡ Mutex) }
        requires opened { IsOpenOf words.now mutex opened × (permit.id ≡ permit_of words.now mutex) }
        ensures own { IsNameOf words.now thread self.new }
        ensures says { Says (mutex.number + 1) 0 self.new }
    {
        let _thread = thread;
        words.join_open(&mut self.seat, mutex, opened, permit);
        words.put_back_permit(&mut self.seat);
    }

    /// Gives a mutex whose count is 0, with the permit of its value. It reads no word.
    #[inline]
    pub fn let_go(&mut self, words: &LotWords, thread: usize, mutex: Word) -> (OpenHeld, Permit)
        requires own { IsNameOf words.now thread self.old × IsWordOf words.now mutex
            × (mutex.kind ≡ Mutex) }
        requires says { Says (mutex.number + 1) 0 self.old }
        ensures own { IsNameOf words.now thread self.new }
        ensures opened { IsOpenOf words.now mutex result.0
            × (result.1.id ≡ permit_of words.now mutex) }
    {
        let _thread = thread;
        let opened = words.split_open(&mut self.seat, mutex);
        words.put_back_permit(&mut self.seat);
        opened
    }
}

impl CountShare {
    ghost use Rattle.core_names.specs.Names.{IsShareOf, count_at, thread_named};

    // Takes another share of the same count in.
    #[inline]
    fn take_share(&mut self, words: &LotWords, count: Word, other: CountShare)
        requires own { IsShareOf words.now count.number self.old }
        requires other { IsShareOf words.now count.number other }
        ensures own { self.new.seat.table_id ≡ words.now.table.shared.table_id }
        ensures shares { self.new.seat.me.0.shares
            ≡ sharing (count_at count.number) (thread_named other)
            ∷ sharing (count_at count.number) (thread_named self.old) ∷ [] }
    {
        let _count = count;
        let CountShare { seat } = other;
        join_seat::<PermitSlot, View, (usize, Permits), OwnershipRule, TakesShare>(
            words.seats(),
            &mut self.seat,
            seat,
        );
    }

    #[inline]
    fn see_two<C: CountTag, D: CountTag>(&mut self, words: &LotWords, count: Word) -> u64
        requires own { (self.old.seat.table_id ≡ words.now.table.shared.table_id)
            × IsWordOf words.now count × (count.kind ≡ Count) }
        requires shares { self.old.seat.me.0.shares ≡ sharing (count_at count.number) D.thread
            ∷ sharing (count_at count.number) C.thread ∷ [] }
        ensures named { (result / 4294967296 ≡ C.thread + 1) × (result / 4294967296 ≡ D.thread + 1) }
    {
        words
            .seats()
            .load::<SeesTwo<C, D>>(&mut self.seat, count.index())
    }

    /// Two shares of one count that name two threads exclude each other: nobody ever has both, so this
    /// can't be called.
    pub fn has_two_threads(self, words: &LotWords, count: Word, other: CountShare) -> !
        requires word { IsWordOf words.now count × (count.kind ≡ Count) }
        requires shares { IsShareOf words.now count.number self
            × IsShareOf words.now count.number other }
        requires differ { thread_named self ≢ thread_named other }
    {
        let mut both = self;
        both.take_share(words, count, other);
        both.see_two::<Brand, Brand>(words, count);
        unreachable!()
    }
}
