//! Steps on words, draws and rights, by tokens.
#![tactic(auto, unfolding(crate::specs::Tokens::view_of))]

ghost use Rattle.std.specs.Prelude.{◌≡◌, ◌≢◌, ℕ, ◌+◌, ◌%◌, ◌^◌, ◌<◌, ◌≤◌, ◌⊎◌, ◌∷◌, ◌++◌, [], true, None};
ghost use Rattle.std.specs.Prelude.{IfOk, IfErr, MatchOption, MatchResult};
ghost use Rattle.core_words.specs.Indices.{permits_in, plain, word_index};
ghost use Rattle.core_words.specs.Codes.{IsCountCode, ShowsBeside};
ghost use Rattle.core_words.specs.Views.{HasSeen};
ghost use Rattle.core_words.specs.Steps.{MayStep, CodesWith, after_step, has, holding};
ghost use Rattle.core_words.specs.Draws.{IsDrawn, IsDrawRefused};
ghost use Rattle.core_words.specs.Lots.{IsWordOf, permit_of};
ghost use Rattle.core_words.specs.Plays.{WithinPermits, entering_saw, left_over, stepping, takes_in};
ghost use Rattle.core_words.specs.Rights.{leaving_alone, named_by, owner_for, piece_of};
ghost use Rattle.core_words.specs.Permits.{out_after};
ghost use Rattle.core_words.specs.RightsOf.{IsHeldOf, IsOpenOf, IsRightOf};
ghost use Rattle.core_words.specs.declared.owners.Owner.TheVariants.{Exclusive};
ghost use Rattle.core_words.specs.declared.words.WordKind.TheVariants.{Mutex, Condvar, Count, Semaphore};
ghost use Rattle.core_base.specs.declared.ops.Op.TheVariants.{Add, Exchange, Load, Or, Sub};
ghost use Rattle.parking_lot_core.specs.Tokens.{IsTokenOf, IsSameThread, view_of, out_of, last_of, told_of};

use crate::lot::ParkingLot;
use crate::tokens::Token;
use core_base::{Fault, Op, Want};
use core_director::{CallName, Deed};
use core_parts::Permit;
use core_words::laws::{condvar_may_step, count_may_step};
use core_words::{Held, OpenHeld, Owner, Right, Word, WordKind};

impl ParkingLot {
    /// Takes one step on a word, sequentially consistent. Returns the value before. With the step
    /// that locks a mutex the permit of its value goes out with the thread, and with the one that
    /// unlocks it it lies in its slot again.
    #[inline]
    pub fn step_word(&self, token: &mut Token, word: Word, op: Op) -> u64
        requires own { IsTokenOf self.now token.old × IsWordOf self.now.words word }
        requires may { MayStep word.kind (word_index word.number word.kind) op
            (view_of token.old).owns }
        ensures own { IsSameThread self.now token.old token.new × (last_of token.new ≡ None) }
        ensures untold { told_of token.new ≡ told_of token.old }
        ensures stepped { view_of token.new
            ≡ after_step word.kind (word_index word.number word.kind) op result
            (view_of token.old) }
        ensures out { out_of token.new
            ≡ out_after word.kind (word_index word.number word.kind) op result
            (out_of token.old) }
        ensures coded { CodesWith word.kind (word_index word.number word.kind) result
            (view_of token.old).owns }
    {
        self.forget_section(token, &Deed::Step, word.index());
        self.step_word_unrecorded(token, word, op)
    }

    /// Steps as a thread that has stepped on a word since it left its last section, so that there
    /// is none to forget.
    #[inline]
    pub fn step_word_unrecorded(&self, token: &mut Token, word: Word, op: Op) -> u64
        requires own { IsTokenOf self.now token.old × IsWordOf self.now.words word }
        requires may { MayStep word.kind (word_index word.number word.kind) op
            (view_of token.old).owns }
        requires forgotten { last_of token.old ≡ None }
        ensures own { IsSameThread self.now token.old token.new × (last_of token.new ≡ None) }
        ensures untold { told_of token.new ≡ told_of token.old }
        ensures stepped { view_of token.new
            ≡ after_step word.kind (word_index word.number word.kind) op result
            (view_of token.old) }
        ensures out { out_of token.new
            ≡ out_after word.kind (word_index word.number word.kind) op result
            (out_of token.old) }
        ensures coded { CodesWith word.kind (word_index word.number word.kind) result
            (view_of token.old).owns }
    {
        self.words.step(&mut token.seat, word, op)
    }

    /// Takes one load of a word, as a step: what `word` does with `Op::Load`, for a thread that
    /// does no more than look.
    #[inline]
    pub fn load(&self, token: &mut Token, word: Word) -> u64
        requires own { IsTokenOf self.now token.old × IsWordOf self.now.words word }
        requires may { MayStep word.kind (word_index word.number word.kind) Load
            (view_of token.old).owns }
        ensures own { IsSameThread self.now token.old token.new × (last_of token.new ≡ None) }
        ensures untold { told_of token.new ≡ told_of token.old }
        ensures stepped { view_of token.new
            ≡ after_step word.kind (word_index word.number word.kind) Load result
            (view_of token.old) }
        ensures coded { CodesWith word.kind (word_index word.number word.kind) result
            (view_of token.old).owns }
    {
        self.forget_section(token, &Deed::Look, word.index());
        self.words.step(&mut token.seat, word, Op::Load)
    }

    /// Shows a mutex that the thread owns on the word of a condition variable, where that shows
    /// none. Returns the value before: 0, or one more than the number of the mutex that is shown.
    pub fn show_mutex(&self, token: &mut Token, condvar: Word, mutex: Word) -> u64
        requires own { IsTokenOf self.now token.old × IsWordOf self.now.words condvar
            × IsWordOf self.now.words mutex }
        requires kinds { (condvar.kind ≡ Condvar) × (mutex.kind ≡ Mutex)
            × (condvar.number ≢ mutex.number) }
        requires owned { has (named_by mutex Exclusive) (view_of token.old).owns ≡ true }
        ensures own { IsSameThread self.now token.old token.new × (last_of token.new ≡ None) }
        ensures untold { told_of token.new ≡ told_of token.old }
        ensures stepped { view_of token.new
            ≡ after_step Condvar (word_index condvar.number Condvar)
            (Exchange 0 (mutex.number + 1)) result (view_of token.old) }
        ensures coded { CodesWith Condvar (word_index condvar.number Condvar) result
            (view_of token.old).owns }
    {
        condvar_may_step();
        let to = mutex.number() as u64 + 1;
        self.step_word(token, condvar, Op::Exchange { from: 0, to })
    }

    /// Looks what a condition variable shows, by one load of its word, as a thread that has forgotten
    /// its last section. Returns 0 where that is nothing, and else one more than the number of a mutex
    /// of the lot.
    #[inline]
    pub fn look_shown(&self, token: &mut Token, condvar: Word) -> u64
        requires own { IsTokenOf self.now token.old × IsWordOf self.now.words condvar
            × (condvar.kind ≡ Condvar) }
        requires forgotten { last_of token.old ≡ None }
        ensures own { IsSameThread self.now token.old token.new × (last_of token.new ≡ None) }
        ensures untold { told_of token.new ≡ told_of token.old }
        ensures stepped { view_of token.new
            ≡ after_step Condvar (word_index condvar.number Condvar) Load result
            (view_of token.old) }
        ensures shown { ShowsBeside self.now.words.count condvar.number result }
    {
        self.words.look_shown(&mut token.seat, condvar)
    }

    /// Names the mutex that the thread has seen shown by a condition variable of this lot, by one
    /// more than its number.
    pub fn mutex_shown(&self, token: &Token, condvar: Word, seen: u64) -> Word
        requires own { IsTokenOf self.now token.now × IsWordOf self.now.words condvar
            × (condvar.kind ≡ Condvar) }
        requires looked { HasSeen (word_index condvar.number Condvar) seen
            (view_of token.now).steps }
        requires shown { (seen ≢ 0) × (seen ≤ self.now.words.count) }
        ensures { IsWordOf self.now.words result × (result.kind ≡ Mutex)
            × (seen ≡ result.number + 1) }
    {
        self.words.mutex_shown(&token.seat, condvar, seen)
    }

    /// Returns the next word, of this kind. A number is never given twice.
    ///
    /// # Errors
    ///
    /// `LotFull`, only where a step saw no word left. Nothing is drawn then.
    pub fn new_word(&self, token: &mut Token, kind: WordKind) -> Result<Word, Fault>
        requires own { IsTokenOf self.now token.old }
        requires bare { permits_in kind ≡ 0 }
        ensures own { IsSameThread self.now token.old token.new
            × ((view_of token.new).owns ≡ (view_of token.old).owns) }
        ensures untold { told_of token.new ≡ told_of token.old }
        ensures word { IfOk result (λ word. IsWordOf self.now.words word × (word.kind ≡ kind)) }
        ensures drawn { MatchResult result
            (λ word. IsDrawn self.now.words.count (kind ∷ []) word.number (view_of token.old)
            (view_of token.new))
            (λ fault. (fault ≡ Fault.LotFull)
            × IsDrawRefused self.now.words.count 1 (view_of token.old) (view_of token.new)) }
    {
        self.forget_section(token, &Deed::Draw, 0);
        let word = self.words.new_word(&mut token.seat, kind)?;
        self.drew(word);
        Ok(word)
    }

    /// Returns the next word, of a semaphore of so many permits. The thread holds them all, and the
    /// word is 0 until it gives them back.
    ///
    /// # Errors
    ///
    /// `LotFull`, only where a step saw no word left. Nothing is drawn then.
    pub fn new_semaphore(&self, token: &mut Token, permits: u64) -> Result<Word, Fault>
        requires own { IsTokenOf self.now token.old }
        requires few { permits ≤ 2 ^ 62 }
        ensures own { IsSameThread self.now token.old token.new }
        ensures untold { told_of token.new ≡ told_of token.old }
        ensures word { IfOk result
            (λ word. IsWordOf self.now.words word × (word.kind ≡ Semaphore permits)) }
        ensures held { MatchResult result
            (λ word. (view_of token.new).owns
            ≡ holding (word_index word.number (Semaphore permits)) permits
            ++ (view_of token.old).owns)
            (λ fault. (view_of token.new).owns ≡ (view_of token.old).owns) }
        ensures drawn { MatchResult result
            (λ word. IsDrawn self.now.words.count
            (Semaphore permits ∷ []) word.number (view_of token.old) (view_of token.new))
            (λ fault. (fault ≡ Fault.LotFull)
            × IsDrawRefused self.now.words.count 1 (view_of token.old) (view_of token.new)) }
    {
        self.forget_section(token, &Deed::Draw, 0);
        let word = self.words.new_semaphore(&mut token.seat, permits)?;
        self.drew(word);
        Ok(word)
    }

    /// Returns the word of a semaphore, by one load, as a step. The permits that are free by it,
    /// with those that the token's view names, are no more than those with which it was drawn,
    /// which are known to the thread that drew it.
    #[inline]
    pub fn look_free(&self, token: &mut Token, semaphore: Word) -> u64
        requires { IsTokenOf self.now token.old × IsWordOf self.now.words semaphore
            × (plain semaphore.kind ≡ Semaphore 0) }
        ensures own { IsSameThread self.now token.old token.new × (last_of token.new ≡ None) }
        ensures untold { told_of token.new ≡ told_of token.old }
        ensures stepped { view_of token.new
            ≡ after_step (Semaphore 0) (word_index semaphore.number (Semaphore 0)) Load result
            (view_of token.old) }
        ensures within { WithinPermits semaphore.number result (view_of token.old) }
    {
        self.forget_section(token, &Deed::Look, semaphore.index());
        self.words.look_free(&mut token.seat, semaphore)
    }

    /// The next two words, a mutex and the count of how often it is locked, or none.
    ///
    /// # Errors
    ///
    /// `LotFull`, only where a step saw fewer than two words left. Nothing is drawn then.
    pub fn new_pair(&self, token: &mut Token) -> Result<(Word, Word), Fault>
        requires { IsTokenOf self.now token.old }
        ensures own { IsSameThread self.now token.old token.new
            × ((view_of token.new).owns ≡ (view_of token.old).owns) }
        ensures untold { told_of token.new ≡ told_of token.old }
        ensures words { IfOk result (λ pair. IsWordOf self.now.words pair.0 × (pair.0.kind ≡ Mutex)
            × IsWordOf self.now.words pair.1 × (pair.1.kind ≡ Count)
            × (pair.1.number ≡ pair.0.number + 1)) }
        ensures drawn { MatchResult result
            (λ pair. IsDrawn self.now.words.count (Mutex ∷ Count ∷ []) pair.0.number
            (view_of token.old)
            (view_of token.new))
            (λ fault. (fault ≡ Fault.LotFull)
            × IsDrawRefused self.now.words.count 2 (view_of token.old) (view_of token.new)) }
    {
        self.forget_section(token, &Deed::Draw, 0);
        let (mutex, count) = self.words.new_pair(&mut token.seat)?;
        self.drew(mutex);
        self.drew(count);
        Ok((mutex, count))
    }

    /// Splits what was wanted off the token's view, of a word that guards no value. It loads a
    /// word, which is no step of a call.
    #[inline]
    pub fn split_held(&self, token: &mut Token, word: Word, want: Want) -> Held
        requires own { IsTokenOf self.now token.old × (word.kind ≢ Mutex) }
        requires named { has (named_by word (owner_for want)) (view_of token.old).owns ≡ true }
        ensures own { IsSameThread self.now token.old token.new
            × (last_of token.new ≡ last_of token.old) }
        ensures untold { told_of token.new ≡ told_of token.old }
        ensures left { view_of token.new
            ≡ left_over (named_by word (owner_for want)) (view_of token.old) }
        ensures held { IsHeldOf self.now.words word (owner_for want) result }
    {
        self.words
            .split_held(&mut token.seat, word, Owner::of_want(want))
    }

    /// Gives it back to a token, and it is spent. It loads a word, which is no step of a call.
    #[inline]
    pub fn join_held(&self, token: &mut Token, word: Word, want: Want, held: Held)
        requires { IsTokenOf self.now token.old
            × IsHeldOf self.now.words word (owner_for want) held }
        ensures own { IsSameThread self.now token.old token.new
            × (last_of token.new ≡ last_of token.old) }
        ensures untold { told_of token.new ≡ told_of token.old }
        ensures joined { view_of token.new
            ≡ takes_in (view_of token.old) (piece_of word (owner_for want)) }
    {
        self.words
            .join_held(&mut token.seat, word, Owner::of_want(want), held);
    }

    /// Splits what was wanted off, as it is given to another thread.
    #[inline]
    pub fn split_right(&self, token: &mut Token, word: Word, want: Want) -> Right
        requires own { IsTokenOf self.now token.old × IsWordOf self.now.words word }
        requires named { has (named_by word (owner_for want)) (view_of token.old).owns ≡ true }
        ensures own { IsSameThread self.now token.old token.new
            × (last_of token.new ≡ last_of token.old) }
        ensures untold { told_of token.new ≡ told_of token.old }
        ensures left { view_of token.new
            ≡ left_over (named_by word (owner_for want)) (view_of token.old) }
        ensures right { IsRightOf self.now.words result × (result.word ≡ word)
            × (result.owner ≡ owner_for want) }
    {
        self.split_owner(token, word, Owner::of_want(want))
    }

    /// Splits a right off by how the word is owned: its owner may be pending.
    #[inline]
    pub fn split_owner(&self, token: &mut Token, word: Word, owner: Owner) -> Right
        requires own { IsTokenOf self.now token.old × IsWordOf self.now.words word }
        requires named { has (named_by word owner) (view_of token.old).owns ≡ true }
        ensures own { IsSameThread self.now token.old token.new
            × (last_of token.new ≡ last_of token.old) }
        ensures untold { told_of token.new ≡ told_of token.old }
        ensures left { view_of token.new ≡ left_over (named_by word owner) (view_of token.old) }
        ensures right { IsRightOf self.now.words result × (result.word ≡ word)
            × (result.owner ≡ owner) }
    {
        self.words.split_right(&mut token.seat, word, owner)
    }

    /// Gives an ownership back to a token, and the right is spent. It loads a word, which is no
    /// step of a call.
    #[inline]
    pub fn join_right(&self, token: &mut Token, right: Right)
        requires { IsTokenOf self.now token.old × IsRightOf self.now.words right }
        ensures own { IsSameThread self.now token.old token.new
            × (last_of token.new ≡ last_of token.old) }
        ensures untold { told_of token.new ≡ told_of token.old }
        ensures joined { view_of token.new
            ≡ takes_in (view_of token.old) (piece_of right.word right.owner) }
    {
        self.words.join_right(&mut token.seat, right);
    }

    /// Takes a mutex that nobody has, and the permit of its value with the same step.
    ///
    /// # Errors
    ///
    /// What the step saw, where it wasn't an unlocked mutex without waiters. 0 where no step is taken:
    /// a directed thread waits for its turn first (`turn_to_begin`).
    #[inline]
    pub fn lock_with_permit(&self, token: &mut Token, word: Word) -> Result<(OpenHeld, Permit), u64>
        requires { IsTokenOf self.now token.old × IsWordOf self.now.words word
            × (word.kind ≡ Mutex) }
        ensures own { IsSameThread self.now token.old token.new × (last_of token.new ≡ None) }
        ensures untold { told_of token.new ≡ told_of token.old }
        ensures taken { IfOk result (λ _. (view_of token.new
            ≡ stepping (view_of token.old) (word_index word.number word.kind) (Exchange 0 1) 0)
            × CodesWith word.kind (word_index word.number word.kind) 0 (view_of token.old).owns) }
        ensures missed { IfErr result (λ seen. seen ≢ 0 → (view_of token.new
            ≡ stepping (view_of token.old) (word_index word.number word.kind) (Exchange 0 1) seen)
            × CodesWith word.kind (word_index word.number word.kind) seen (view_of token.old).owns) }
        ensures waits { IfErr result (λ seen. seen ≡ 0 → view_of token.new ≡ view_of token.old) }
        ensures opened { IfOk result (λ taken. IsOpenOf self.now.words word taken.0
            × (taken.1.id ≡ permit_of self.now.words word)) }
    {
        let unlocked = u64::from(token.expected.unlocked);
        match self.words.lock_with_permit(&mut token.seat, word, unlocked) {
            Ok(taken) => Ok(taken),
            // The token is asked again: what it expects is kept nowhere past the step.
            Err(seen) if token.is_armed() => Err(seen),
            Err(_) if token.may_step() => self.enter_now(token, word),
            Err(_) => Err(0),
        }
    }

    /// Takes a mutex that nobody has, as a thread that has forgotten its last section and has its turn.
    ///
    /// # Errors
    ///
    /// What the step saw, where it wasn't an unlocked mutex without waiters.
    pub fn enter_now(&self, token: &mut Token, word: Word) -> Result<(OpenHeld, Permit), u64>
        requires own { IsTokenOf self.now token.old × IsWordOf self.now.words word
            × (word.kind ≡ Mutex) }
        requires forgotten { last_of token.old ≡ None }
        ensures own { IsSameThread self.now token.old token.new × (last_of token.new ≡ None) }
        ensures untold { told_of token.new ≡ told_of token.old }
        ensures stepped { MatchResult result
            (λ _. view_of token.new
            ≡ stepping (view_of token.old) (word_index word.number word.kind) (Exchange 0 1) 0)
            (λ seen. (seen ≢ 0)
            × (view_of token.new
            ≡ stepping (view_of token.old) (word_index word.number word.kind)
            (Exchange 0 1) seen)) }
        ensures coded { CodesWith word.kind (word_index word.number word.kind)
            (entering_saw result) (view_of token.old).owns }
        ensures opened { IfOk result (λ taken. IsOpenOf self.now.words word taken.0
            × (taken.1.id ≡ permit_of self.now.words word)) }
    {
        self.words.lock_with_permit(&mut token.seat, word, 0)
    }

    /// Locks where others may wait. Returns what the step saw, and writes nothing to a mutex that
    /// it sees locked.
    #[inline]
    pub fn try_lock_with_permit(
        &self,
        token: &mut Token,
        word: Word,
    ) -> (u64, Option<(OpenHeld, Permit)>)
        requires { IsTokenOf self.now token.old × IsWordOf self.now.words word
            × (word.kind ≡ Mutex) }
        ensures own { IsSameThread self.now token.old token.new × (last_of token.new ≡ None) }
        ensures untold { told_of token.new ≡ told_of token.old }
        ensures stepped { view_of token.new
            ≡ stepping (view_of token.old) (word_index word.number word.kind) (Or 1) result.0 }
        ensures coded { CodesWith word.kind (word_index word.number word.kind) result.0
            (view_of token.old).owns }
        ensures opened { MatchOption result.1 (result.0 % 2 ≢ 0) (λ taken. (result.0 % 2 ≡ 0)
            × IsOpenOf self.now.words word taken.0 × (taken.1.id ≡ permit_of self.now.words word)) }
    {
        if !token.is_armed() {
            self.pass(token, &Deed::Call(CallName::TryLock), word.index());
        }
        self.words.try_lock_with_permit(&mut token.seat, word)
    }

    /// Gives a mutex up, and lays the permit of its value back with the same step. Returns the
    /// value before, or 0 where no step is taken: a directed thread waits for its turn first, and its
    /// token's view names the mutex.
    #[inline]
    pub fn unlock_with_permit(
        &self,
        token: &mut Token,
        word: Word,
        opened: OpenHeld,
        permit: Permit,
    ) -> u64
        requires own { IsTokenOf self.now token.old × IsWordOf self.now.words word
            × (word.kind ≡ Mutex) }
        requires opened { IsOpenOf self.now.words word opened
            × (permit.id ≡ permit_of self.now.words word) }
        ensures own { IsSameThread self.now token.old token.new × (last_of token.new ≡ None) }
        ensures untold { told_of token.new ≡ told_of token.old }
        ensures stepped { result ≢ 0 → view_of token.new
            ≡ stepping (view_of token.old) (word_index word.number word.kind) (Sub 1) result }
        ensures waits { result ≡ 0
            → view_of token.new ≡ takes_in (view_of token.old) (piece_of word Exclusive) }
        ensures coded { (result ≡ 0) ⊎ ((result ≡ 1) ⊎ (result ≡ 3)) }
    {
        let locked = u64::from(token.expected.locked);
        let words = &self.words;
        match words.unlock_with_permit(&mut token.seat, word, opened, permit, locked) {
            Ok(seen) => seen,
            Err((opened, permit)) if token.may_step() => {
                self.leave_now(token, word, opened, permit)
            }
            Err((opened, permit)) => {
                words.join_open(&mut token.seat, word, opened, permit);
                0
            }
        }
    }

    /// Unlocks where nobody waits. Where somebody does, the thread owns the mutex, and its permit
    /// is out with the thread still. So it is where 0 is returned and no step is taken: a directed
    /// thread waits for its turn first.
    #[inline]
    pub fn unlock_if_alone(
        &self,
        token: &mut Token,
        word: Word,
        opened: OpenHeld,
        permit: Permit,
    ) -> u64
        requires own { IsTokenOf self.now token.old × IsWordOf self.now.words word
            × (word.kind ≡ Mutex) }
        requires opened { IsOpenOf self.now.words word opened
            × (permit.id ≡ permit_of self.now.words word) }
        ensures own { IsSameThread self.now token.old token.new × (last_of token.new ≡ None) }
        ensures untold { told_of token.new ≡ told_of token.old }
        ensures stepped { result ≢ 0
            → view_of token.new ≡ leaving_alone (view_of token.old) word result }
        ensures waits { result ≡ 0
            → view_of token.new ≡ takes_in (view_of token.old) (piece_of word Exclusive) }
        ensures coded { (result ≡ 0) ⊎ ((result ≡ 1) ⊎ (result ≡ 3)) }
    {
        let locked = u64::from(token.expected.locked);
        let words = &self.words;
        match words.unlock_if_alone(&mut token.seat, word, opened, permit, locked) {
            Ok(seen) => seen,
            Err((opened, permit)) if token.may_step() => {
                self.leave_alone_now(token, word, opened, permit)
            }
            Err((opened, permit)) => {
                words.join_open(&mut token.seat, word, opened, permit);
                0
            }
        }
    }

    /// Gives a mutex up as `unlock_with_permit` does, as a thread that has forgotten its last section and has its
    /// turn. Returns the value before.
    pub fn leave_now(&self, token: &mut Token, word: Word, opened: OpenHeld, permit: Permit) -> u64
        requires own { IsTokenOf self.now token.old × IsWordOf self.now.words word
            × (word.kind ≡ Mutex) }
        requires opened { IsOpenOf self.now.words word opened
            × (permit.id ≡ permit_of self.now.words word) }
        requires forgotten { last_of token.old ≡ None }
        ensures own { IsSameThread self.now token.old token.new × (last_of token.new ≡ None) }
        ensures untold { told_of token.new ≡ told_of token.old }
        ensures stepped { view_of token.new
            ≡ stepping (view_of token.old) (word_index word.number word.kind) (Sub 1) result }
        ensures coded { (result ≡ 1) ⊎ (result ≡ 3) }
    {
        match self
            .words
            .unlock_with_permit(&mut token.seat, word, opened, permit, 1)
        {
            Ok(seen) => seen,
            Err(_) => unreachable!(),
        }
    }

    /// Gives a mutex up as `unlock_if_alone` does, as a thread that has forgotten its last section and
    /// has its turn. Returns the value before.
    pub fn leave_alone_now(
        &self,
        token: &mut Token,
        word: Word,
        opened: OpenHeld,
        permit: Permit,
    ) -> u64
        requires own { IsTokenOf self.now token.old × IsWordOf self.now.words word
            × (word.kind ≡ Mutex) }
        requires opened { IsOpenOf self.now.words word opened
            × (permit.id ≡ permit_of self.now.words word) }
        requires forgotten { last_of token.old ≡ None }
        ensures own { IsSameThread self.now token.old token.new × (last_of token.new ≡ None) }
        ensures untold { told_of token.new ≡ told_of token.old }
        ensures stepped { view_of token.new ≡ leaving_alone (view_of token.old) word result }
        ensures coded { (result ≡ 1) ⊎ (result ≡ 3) }
    {
        match self
            .words
            .unlock_if_alone(&mut token.seat, word, opened, permit, 1)
        {
            Ok(seen) => seen,
            Err(_) => unreachable!(),
        }
    }

    /// Splits a mutex off that the token's view names, with the permit of its value. It loads a
    /// word, which is no step of a call: after that load the permit is out with the mutex, also
    /// where the thread has locked another one since.
    #[inline]
    pub fn split_open(&self, token: &mut Token, word: Word) -> (OpenHeld, Permit)
        requires own { IsTokenOf self.now token.old × IsWordOf self.now.words word
            × (word.kind ≡ Mutex) }
        requires named { has (named_by word Exclusive) (view_of token.old).owns ≡ true }
        ensures own { IsSameThread self.now token.old token.new
            × (last_of token.new ≡ last_of token.old) }
        ensures untold { told_of token.new ≡ told_of token.old }
        ensures left { view_of token.new ≡ left_over (named_by word Exclusive) (view_of token.old) }
        ensures opened { IsOpenOf self.now.words word result.0
            × (result.1.id ≡ permit_of self.now.words word) }
    {
        self.words.split_open(&mut token.seat, word)
    }

    /// Gives it back to a token. The permit stays out with the thread until a step unlocks the
    /// mutex. It loads a word, which is no step of a call.
    #[inline]
    pub fn join_open(&self, token: &mut Token, word: Word, opened: OpenHeld, permit: Permit)
        requires own { IsTokenOf self.now token.old × IsWordOf self.now.words word
            × (word.kind ≡ Mutex) }
        requires opened { IsOpenOf self.now.words word opened
            × (permit.id ≡ permit_of self.now.words word) }
        ensures own { IsSameThread self.now token.old token.new
            × (last_of token.new ≡ last_of token.old) }
        ensures untold { told_of token.new ≡ told_of token.old }
        ensures joined { view_of token.new
            ≡ takes_in (view_of token.old) (piece_of word Exclusive) }
        ensures out { out_of token.new ≡ word_index word.number word.kind ∷ [] }
    {
        self.words.join_open(&mut token.seat, word, opened, permit);
    }
}
