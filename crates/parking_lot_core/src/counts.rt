//! Mutexes that their owners lock again: how often is counted on the word after each.
#![tactic(auto, unfolding(crate::specs::Tokens::view_of))]

ghost use Rattle.std.specs.Prelude.{◌≡◌, ◌≢◌, ℕ, List, ◌+◌, ◌-◌, ◌/◌, ◌%◌, ◌<◌, ◌∷◌, None};
ghost use Rattle.core_base.specs.declared.ops.Op.TheVariants.{Load, Store};
ghost use Rattle.core_names.specs.Names.{IsShareOf, Says, count_at, shares_of, thread_named};
ghost use Rattle.core_names.specs.Shares.{sharing};
ghost use Rattle.core_words.specs.Lots.{IsWordOf, permit_of};
ghost use Rattle.core_words.specs.Plays.{stepping};
ghost use Rattle.core_words.specs.RightsOf.{IsOpenOf};
ghost use Rattle.core_words.specs.declared.views.Counting.{Counting};
ghost use Rattle.core_words.specs.declared.words.WordKind.TheVariants.{Count};
ghost use Rattle.parking_lot_core.specs.Tokens.{IsTokenOf, IsSameThread, view_of, last_of};

use crate::lot::ParkingLot;
use crate::tokens::Token;
use core_names::CountShare;
use core_parts::Permit;
use core_words::{OpenHeld, Word};

impl ParkingLot {
    ghost use Rattle.parking_lot_core.specs.Counts.{HasShare, IsPair, Names, first_said};

    /// Looks at a count, by one step. A thread that it names says what it has seen, and a thread
    /// that says a count sees that.
    #[inline]
    pub fn look_count(&self, token: &mut Token, count: Word) -> u64
        requires own { IsTokenOf self.now token.old × IsWordOf self.now.words count
            × (count.kind ≡ Count) }
        ensures own { IsSameThread self.now token.old token.new × (last_of token.new ≡ None) }
        ensures stepped { view_of token.new
            ≡ stepping (view_of token.old) (count_at count.number) Load result }
        ensures named { Names token.old.number result → Says count.number result token.new.name }
        ensures same { (said : ℕ) → Says count.number said token.old.name
            → (result ≡ said) × Says count.number said token.new.name }
        ensures shares { shares_of token.new.name ≡ shares_of token.old.name }
    {
        token.forget();
        token
            .name
            .look(&self.words, &mut token.seat, token.number, count)
    }

    /// Takes a share of the thread in, and sees the count, which is no step: it names the thread,
    /// which says it.
    #[inline]
    pub fn see_count(&self, token: &mut Token, count: Word, share: CountShare) -> u64
        requires own { IsTokenOf self.now token.old × IsWordOf self.now.words count
            × (count.kind ≡ Count) }
        requires share { IsShareOf self.now.words count.number share
            × (thread_named share ≡ token.old.number) }
        ensures own { IsSameThread self.now token.old token.new × (last_of token.new ≡ None) }
        ensures unmoved { view_of token.new ≡ view_of token.old }
        ensures named { Names token.old.number result × (0 < result % 4294967296)
            × Says count.number result token.new.name }
        ensures shares { HasShare token.old.number count.number token.new.name }
    {
        token.forget();
        token.name.see(&self.words, token.number, count, share)
    }

    /// Takes a share of the thread in, and looks at the count by one step: it names the thread, which
    /// says it.
    #[inline]
    pub fn look_by_share(&self, token: &mut Token, count: Word, share: CountShare) -> u64
        requires own { IsTokenOf self.now token.old × IsWordOf self.now.words count
            × (count.kind ≡ Count) }
        requires share { IsShareOf self.now.words count.number share
            × (thread_named share ≡ token.old.number) }
        ensures own { IsSameThread self.now token.old token.new × (last_of token.new ≡ None) }
        ensures stepped { view_of token.new
            ≡ stepping (view_of token.old) (count_at count.number) Load result }
        ensures named { Names token.old.number result × (0 < result % 4294967296)
            × Says count.number result token.new.name }
        ensures shares { HasShare token.old.number count.number token.new.name }
    {
        token.forget();
        token
            .name
            .look_by_share(&self.words, &mut token.seat, token.number, count, share)
    }

    /// Shares of one count that name two threads exclude each other: nobody ever has both, so this
    /// can't be called.
    pub fn has_two_owners(&self, count: Word, one: CountShare, other: CountShare) -> !
        requires word { IsWordOf self.now.words count × (count.kind ≡ Count) }
        requires shares { IsShareOf self.now.words count.number one
            × IsShareOf self.now.words count.number other }
        requires differ { thread_named one ≢ thread_named other }
    {
        one.has_two_threads(&self.words, count, other)
    }

    /// Gives a share of the thread back, which is no step.
    #[inline]
    pub fn give_share(&self, token: &mut Token, count: Word) -> CountShare
        requires own { IsTokenOf self.now token.old }
        requires share { HasShare token.old.number count.number token.old.name }
        ensures own { IsSameThread self.now token.old token.new
            × (last_of token.new ≡ last_of token.old) }
        ensures unmoved { view_of token.new ≡ view_of token.old }
        ensures share { IsShareOf self.now.words count.number result
            × (thread_named result ≡ token.old.number) }
        ensures rest { shares_of token.old.name
            ≡ sharing (count_at count.number) token.old.number ∷ shares_of token.new.name }
    {
        token.name.give_share(&self.words, token.number, count)
    }

    /// Counts once more, by one store, where the thread says what the count is and has forgotten
    /// its last section.
    #[inline]
    pub fn count_again(&self, token: &mut Token, count: Word, said: u64, next: u64) -> CountShare
        requires own { IsTokenOf self.now token.old × IsWordOf self.now.words count
            × (count.kind ≡ Count) × (last_of token.old ≡ None) }
        requires said { Says count.number said token.old.name × Names token.old.number said }
        requires next { (next ≡ said + 1) × (said % 4294967296 < 4294967295) }
        ensures own { IsSameThread self.now token.old token.new × (last_of token.new ≡ None) }
        ensures stepped { view_of token.new
            ≡ stepping (view_of token.old) (count_at count.number) (Store next) said }
        ensures share { IsShareOf self.now.words count.number result
            × (thread_named result ≡ token.old.number) }
        ensures rest { shares_of token.new.name ≡ shares_of token.old.name }
    {
        token.name.count_more(
            &self.words,
            &mut token.seat,
            token.number,
            count,
            said,
            next,
        );
        token.name.give_share(&self.words, token.number, count)
    }

    /// Begins to count a mutex whose guard is spent: stores its first count by one step, which names
    /// the thread.
    #[inline]
    pub fn count_first(
        &self,
        token: &mut Token,
        mutex: Word,
        count: Word,
        first: u64,
        opened: OpenHeld,
        permit: Permit,
    ) -> CountShare
        requires own { IsTokenOf self.now token.old × IsWordOf self.now.words mutex
            × IsWordOf self.now.words count }
        requires pair { IsPair mutex count }
        requires opened { IsOpenOf self.now.words mutex opened
            × (permit.id ≡ permit_of self.now.words mutex) }
        requires code { first ≡ first_said token.old.number }
        ensures own { IsSameThread self.now token.old token.new × (last_of token.new ≡ None) }
        ensures stepped { view_of token.new
            ≡ stepping (view_of token.old) (count_at count.number) (Store first) 0 }
        ensures share { IsShareOf self.now.words count.number result
            × (thread_named result ≡ token.old.number) }
    {
        token.forget();
        token
            .name
            .keep(&self.words, token.number, mutex, opened, permit);
        token.name.count_more(&self.words, &mut token.seat, token.number, count, 0, first);
        token.name.give_share(&self.words, token.number, count)
    }

    /// Counts once less, and not for the last time, by one store that spends a share.
    #[inline]
    pub fn count_less(&self, token: &mut Token, count: Word, said: u64)
        requires own { IsTokenOf self.now token.old × IsWordOf self.now.words count
            × (count.kind ≡ Count) × (last_of token.old ≡ None) }
        requires said { Says count.number said token.old.name × Names token.old.number said
            × (1 < said % 4294967296) }
        requires share { HasShare token.old.number count.number token.old.name }
        ensures own { IsSameThread self.now token.old token.new × (last_of token.new ≡ None) }
        ensures stepped { view_of token.new
            ≡ stepping (view_of token.old) (count_at count.number) (Store (said - 1)) said }
    {
        token.name.count_less(
            &self.words,
            &mut token.seat,
            token.number,
            count,
            said,
            said - 1,
        );
    }

    /// Counts out: stores 0 by one step, which spends the last share, and gives the guard back.
    #[inline]
    pub fn count_out(
        &self,
        token: &mut Token,
        mutex: Word,
        count: Word,
        said: u64,
    ) -> (OpenHeld, Permit)
        requires own { IsTokenOf self.now token.old × IsWordOf self.now.words mutex
            × IsWordOf self.now.words count × (last_of token.old ≡ None) }
        requires pair { IsPair mutex count }
        requires said { Says count.number said token.old.name × Names token.old.number said
            × (said % 4294967296 ≡ 1) }
        requires share { HasShare token.old.number count.number token.old.name }
        ensures own { IsSameThread self.now token.old token.new × (last_of token.new ≡ None) }
        ensures stepped { view_of token.new
            ≡ stepping (view_of token.old) (count_at count.number) (Store 0) said }
        ensures opened { IsOpenOf self.now.words mutex result.0
            × (result.1.id ≡ permit_of self.now.words mutex) }
    {
        token
            .name
            .count_less(&self.words, &mut token.seat, token.number, count, said, 0);
        token.name.let_go(&self.words, token.number, mutex)
    }
}
