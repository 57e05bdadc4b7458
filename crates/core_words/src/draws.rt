//! How words are drawn: each once, from a counter that never falls.
ghost use Rattle.std.specs.Prelude.{◌≡◌, ◌+◌, ◌^◌, ◌<◌, ◌≤◌, ◌++◌, ◌⊎◌, [], ◌∷◌, length, IfOk, MatchOption};
ghost use Rattle.std.specs.Prelude.{MatchResult};
ghost use Rattle.core_words.specs.Lots.{IsSeatOf, IsWordOf};
ghost use Rattle.core_words.specs.Draws.{IsDrawn, IsDrawRefused, NoPermits};
ghost use Rattle.core_words.specs.Indices.{permits_in, word_index};
ghost use Rattle.core_words.specs.Steps.{holding};
ghost use Rattle.core_words.specs.declared.words.WordKind.TheVariants.{Mutex, Count, Semaphore};

use crate::plays::{Draws, DrawsPermits, Kinds, Looks, ManyTag};
use crate::table::{LotWords, Seat};
use crate::words::{Word, WordKind};
use core_base::Fault;
use std::marker::Brand;

// The counter's index.
const COUNTER: usize = 0;

impl LotWords {
    // Draws words of these kinds, whose numbers follow one another. It gives the first number.
    fn draw<K: Kinds>(&self, seat: &mut Seat, kinds: &[WordKind]) -> Option<usize>
        requires own { IsSeatOf self.now seat.old }
        requires kinds { (K.kinds ≡ kinds.now) × (0 < length kinds.now) }
        requires bare { NoPermits kinds.now }
        ensures own { IsSeatOf self.now seat.new
            × (seat.new.me.0.owns ≡ seat.old.me.0.owns) }
        ensures drawn { MatchOption result
            (IsDrawRefused self.now.count (length kinds.now) seat.old.me.0 seat.new.me.0)
            (λ number. IsDrawn self.now.count kinds.now number seat.old.me.0 seat.new.me.0) }
    {
        let (words, needed) = (self.count as u64, kinds.len() as u64);
        let counter = &self.table.shared;
        let mut seen = counter.load::<Looks>(seat, COUNTER);
        while seen < words && needed <= words - seen {
            let found = counter.compare_exchange::<Draws<K>>(seat, COUNTER, seen, seen + needed);
            if found == seen {
                return Some(seen as usize);
            }
            seen = found;
        }
        None
    }

    /// Returns the next word, of this kind. It is refused, by `LotFull`, only where a step saw no
    /// word left.
    pub fn new_word(&self, seat: &mut Seat, kind: WordKind) -> Result<Word, Fault>
        requires own { IsSeatOf self.now seat.old }
        requires bare { permits_in kind ≡ 0 }
        ensures own { IsSeatOf self.now seat.new
            × (seat.new.me.0.owns ≡ seat.old.me.0.owns) }
        ensures word { IfOk result (λ word. IsWordOf self.now word × (word.kind ≡ kind)) }
        ensures drawn { MatchResult result
            (λ word. IsDrawn self.now.count (kind ∷ []) word.number seat.old.me.0 seat.new.me.0)
            (λ fault. (fault ≡ Fault.LotFull)
            × IsDrawRefused self.now.count 1 seat.old.me.0 seat.new.me.0) }
    {
        match self.draw::<Brand>(seat, &[kind]) {
            Some(number) => Ok(Word::new(number, kind, self.tag)),
            None => Err(Fault::LotFull),
        }
    }

    /// The next two words: a mutex, and the count of how often it is locked. Both are drawn, or
    /// none.
    pub fn new_pair(&self, seat: &mut Seat) -> Result<(Word, Word), Fault>
        requires { IsSeatOf self.now seat.old }
        ensures own { IsSeatOf self.now seat.new
            × (seat.new.me.0.owns ≡ seat.old.me.0.owns) }
        ensures words { IfOk result (λ pair. IsWordOf self.now pair.0 × (pair.0.kind ≡ Mutex)
            × IsWordOf self.now pair.1 × (pair.1.kind ≡ Count)
            × (pair.1.number ≡ pair.0.number + 1)) }
        ensures drawn { MatchResult result
            (λ pair. IsDrawn self.now.count
            (Mutex ∷ Count ∷ []) pair.0.number seat.old.me.0 seat.new.me.0)
            (λ fault. (fault ≡ Fault.LotFull)
            × IsDrawRefused self.now.count 2 seat.old.me.0 seat.new.me.0) }
    {
        match self.draw::<Brand>(seat, &[WordKind::Mutex, WordKind::Count]) {
            Some(number) => {
                let mutex = Word::new(number, WordKind::Mutex, self.tag);
                let count = Word::new(number + 1, WordKind::Count, self.tag);
                Ok((mutex, count))
            }
            None => Err(Fault::LotFull),
        }
    }

    // Draws a semaphore's word, with all its permits. It gives the number.
    fn draw_permits<M: ManyTag>(&self, seat: &mut Seat, permits: u64) -> Option<usize>
        requires own { IsSeatOf self.now seat.old }
        requires many { (M.many ≡ permits) × (permits ≤ 2 ^ 62) }
        ensures own { IsSeatOf self.now seat.new }
        ensures held { MatchOption result
            (seat.new.me.0.owns ≡ seat.old.me.0.owns)
            (λ number. seat.new.me.0.owns
            ≡ holding (word_index number (Semaphore permits)) permits ++ seat.old.me.0.owns) }
        ensures drawn { MatchOption result
            (IsDrawRefused self.now.count 1 seat.old.me.0 seat.new.me.0)
            (λ number. IsDrawn self.now.count
            (Semaphore permits ∷ []) number seat.old.me.0 seat.new.me.0) }
    {
        let words = self.count as u64;
        let _many = permits;
        let counter = &self.table.shared;
        let mut seen = counter.load::<Looks>(seat, COUNTER);
        while seen < words {
            let found = counter.compare_exchange::<DrawsPermits<M>>(seat, COUNTER, seen, seen + 1);
            if found == seen {
                return Some(seen as usize);
            }
            seen = found;
        }
        None
    }

    /// Returns the next word, of a semaphore of so many permits. The seat holds them all, and the
    /// word is 0 until it gives them back.
    pub fn new_semaphore(&self, seat: &mut Seat, permits: u64) -> Result<Word, Fault>
        requires own { IsSeatOf self.now seat.old }
        requires few { permits ≤ 2 ^ 62 }
        ensures own { IsSeatOf self.now seat.new }
        ensures word { IfOk result
            (λ word. IsWordOf self.now word × (word.kind ≡ Semaphore permits)) }
        ensures held { MatchResult result
            (λ word. seat.new.me.0.owns
            ≡ holding (word_index word.number (Semaphore permits)) permits ++ seat.old.me.0.owns)
            (λ fault. seat.new.me.0.owns ≡ seat.old.me.0.owns) }
        ensures drawn { MatchResult result
            (λ word. IsDrawn self.now.count
            (Semaphore permits ∷ []) word.number seat.old.me.0 seat.new.me.0)
            (λ fault. (fault ≡ Fault.LotFull)
            × IsDrawRefused self.now.count 1 seat.old.me.0 seat.new.me.0) }
    {
        match self.draw_permits::<Brand>(seat, permits) {
            Some(number) => Ok(Word::new(number, WordKind::Semaphore { permits }, self.tag)),
            None => Err(Fault::LotFull),
        }
    }
}
