//! The lot's side of its director, which says when its threads run.
//!
//! A directed token is never armed (`Expected`), and so each step of its thread comes to cold code. The
//! fast half of a call leaves the call to its slow half then (`may_begin`), which waits for its turn
//! (`turn_to_begin`); any other step comes to `pass`, and waits there. A lot without a director pays for
//! that at tries and looks, which have no slow half: the compiler tests a flag after each call that may
//! wait. A raw lock names its call as it begins. Deeds come by reference: an enum by value would be a local
//! of each fast half.
ghost use Rattle.std.specs.Prelude.{◌≡◌, None};

use crate::lot::ParkingLot;
use crate::tokens::Token;
use core_base::{Fault, Keys};
use core_clocks::Clock;
use core_director::{Deed, Director, NewWord, Sort, Turn};
use core_words::{Word, WordKind};
use std::sync::{Arc, Wait};

/// The clock of a director. It stands still while threads run: the time of a timed sleeper is up where
/// it gets a turn before it is woken.
#[derive(Drop)]
pub struct TurnClock {
    director: Arc<Director>,
}

impl TurnClock {
    /// Makes the clock of a director.
    ///
    /// # Errors
    ///
    /// `NoMemory`, where memory was refused.
    pub fn new(director: &Arc<Director>) -> Result<TurnClock, Fault> {
        match Arc::try_clone(director) {
            Ok(director) => Ok(TurnClock { director }),
            Err(_) => Err(Fault::NoMemory),
        }
    }
}

impl Clock for TurnClock {
    // Any time counts as reported, so that clauses on what this clock reported are empty.
    ghost tells = { λ _ _. Unit {0} };

    fn now(&self) -> u64 {
        self.director.now()
    }

    fn pause(&self, left: u64) {
        self.director.pass_time(left);
    }
}

// Returns the number of the word at an index of the table, which has eight for each, and 0 where none
// is drawn yet. A step has the index at hand, and would have to load the number.
fn number_at(index: usize) -> usize {
    (index / 8).saturating_sub(1)
}

impl ParkingLot {
    ghost use Rattle.parking_lot_core.specs.Tokens.{IsSameThread, IsTokenOf, last_of, out_of, told_of};
    ghost use Rattle.parking_lot_core.specs.Tokens.{view_of};

    // The thread steps. It writes only where a section is told: a locked instruction waits until
    // every write before it is done.
    #[inline]
    pub(crate) fn forget_section(&self, token: &mut Token, deed: &'static Deed, index: usize)
        ensures same { (token.new.seat ≡ token.old.seat) × (token.new.name ≡ token.old.name)
            × (token.new.number ≡ token.old.number) }
        ensures forgotten { last_of token.new ≡ None }
        ensures untold { told_of token.new ≡ told_of token.old }
    {
        if !token.is_armed() {
            self.pass(token, deed, index);
        }
    }

    // Forgets the last section, and waits for the thread's turn where it is directed. Out of the way,
    // so that a step which has nothing to forget takes no jump.
    #[cold]
    #[inline(never)]
    pub(crate) fn pass(&self, token: &mut Token, deed: &'static Deed, index: usize)
        ensures same { (token.new.seat ≡ token.old.seat) × (token.new.name ≡ token.old.name)
            × (token.new.number ≡ token.old.number) }
        ensures forgotten { last_of token.new ≡ None }
        ensures untold { told_of token.new ≡ told_of token.old }
    {
        token.clear_record();
        if let Some(director) = &self.director {
            director.turn(Turn::at(token.number, *deed, number_at(index)));
        }
    }

    /// Forgets the last section, as the thread begins a call. Returns whether it may step at once: a
    /// directed thread waits for its turn first (`turn_to_begin`). A fast half asks, and leaves all to
    /// its slow half where it may not: a function that waits costs its callers a test after each call.
    #[inline]
    #[tactic(auto, unfolding(crate::specs::Tokens::view_of))]
    pub fn may_begin(&self, token: &mut Token) -> bool
        requires { IsTokenOf self.now token.old }
        ensures own { IsSameThread self.now token.old token.new × (last_of token.new ≡ None) }
        ensures untold { told_of token.new ≡ told_of token.old }
        ensures view { view_of token.new ≡ view_of token.old }
        ensures out { out_of token.new ≡ out_of token.old }
    {
        token.is_armed() || token.may_step()
    }

    /// Waits for the turn to begin a call, by the word that a schedule has for it. It takes the word by
    /// reference, so that a fast half has no local to clear for it.
    #[cold]
    #[inline(never)]
    pub fn turn_to_begin<R: Wait>(&self, rt: &R, token: &Token, deed: &'static Deed, word: &Word) {
        if let Some(director) = &self.director {
            director.turn_asleep(rt, Turn::at(token.number, *deed, word.number()));
        }
    }

    /// Begins a call, by the word that a schedule has for it: forgets the last section, and waits for
    /// the thread's turn where it is directed. The call's first step then asks no more
    /// (`step_word_unrecorded`).
    #[inline]
    #[tactic(auto, unfolding(crate::specs::Tokens::view_of))]
    pub fn begins(&self, token: &mut Token, deed: &'static Deed, word: Word)
        requires { IsTokenOf self.now token.old }
        ensures own { IsSameThread self.now token.old token.new × (last_of token.new ≡ None) }
        ensures untold { told_of token.new ≡ told_of token.old }
        ensures view { view_of token.new ≡ view_of token.old }
        ensures out { out_of token.new ≡ out_of token.old }
    {
        self.forget_section(token, deed, word.index());
    }

    /// Names the call that a thread is in, whose turn was named otherwise.
    #[cold]
    #[inline(never)]
    pub fn renames(&self, token: &Token, deed: &'static Deed) {
        if let Some(director) = &self.director {
            director.rename(token.number, *deed);
        }
    }

    /// Returns whether a director says when threads run.
    #[inline]
    pub fn is_directed(&self) -> bool {
        self.director.is_some()
    }

    // Waits for the turn to enter a section.
    pub(crate) fn turn_to_enter<R: Wait>(&self, rt: &R, thread: usize, keys: Keys) {
        if let Some(director) = &self.director {
            let (Keys::One(key) | Keys::Two(key, _)) = keys;
            director.turn_asleep(rt, Turn::at(thread, Deed::Enter, key / 2));
        }
    }

    /// Waits for the turn to wait on a condition variable.
    pub fn turn_to_wait<R: Wait>(
        &self,
        rt: &R,
        token: &Token,
        deed: &'static Deed,
        condvar: Word,
        mutex: Word,
    ) {
        if let Some(director) = &self.director {
            let turn = Turn {
                thread: token.number,
                deed: *deed,
                word: condvar.number(),
                beside: mutex.number(),
            };
            director.turn_asleep(rt, turn);
        }
    }

    // Notes that a word was drawn.
    pub(crate) fn drew(&self, word: Word) {
        let sort = match word.kind() {
            WordKind::Mutex => Sort::Mutex,
            WordKind::RwLock => Sort::RwLock {
                recursive: false,
                readers: None,
            },
            WordKind::Condvar => Sort::Condvar,
            WordKind::Once => Sort::Once,
            WordKind::Count => Sort::Count,
            WordKind::Semaphore { permits } => Sort::Semaphore { permits },
        };
        self.declares(word, sort);
    }

    /// Says of which sort a word is, as a schedule declares it.
    pub fn declares(&self, word: Word, sort: Sort) {
        if let Some(director) = &self.director {
            director.drew(NewWord {
                number: word.number(),
                sort,
            });
        }
    }

    pub(crate) fn enters(&self) {
        if let Some(director) = &self.director {
            director.enter();
        }
    }

    pub(crate) fn leaves(&self) {
        if let Some(director) = &self.director {
            director.leave();
        }
    }

    // Parks until the thread is unparked, or has its turn.
    pub(crate) fn park<R: Wait>(&self, rt: &R, token: &Token, word: Word) {
        match &self.director {
            Some(director) if director.is_active() => {
                director.sleep(rt, token.number, word.number());
            }
            _ => token.parker.park(rt),
        }
    }

    // Parks a thread in a timed sleep. A directed one lets others run, and where it has its turn before
    // it is woken, time passes by the director's clock, and nobody waits for it.
    pub(crate) fn pause<R: Wait, C: Clock>(
        &self,
        rt: &R,
        token: &Token,
        word: Word,
        clock: &C,
        left: u64,
    )
        requires { IsTokenOf self.now token.now }
    {
        match &self.director {
            Some(director) if director.is_active() => {
                director.turn_asleep(rt, Turn::at(token.number, Deed::Nap, word.number()));
                if self.records.is_marked(token.number) {
                    director.rename(token.number, Deed::Wake);
                } else {
                    director.pass_time(left);
                }
            }
            _ => clock.park(rt, &token.parker, left),
        }
    }

    // Notes that a thread gives up a timed sleep.
    pub(crate) fn is_late(&self, token: &Token) {
        if let Some(director) = &self.director {
            director.is_late(token.number);
        }
    }

    pub(crate) fn is_woken(&self, thread: usize) {
        if let Some(director) = &self.director {
            director.wake(thread);
        }
    }

    /// Expects so many threads, numbered from 0, where a director says when threads run. Nobody else
    /// steps meanwhile.
    pub fn begin(&self, threads: usize) {
        if let Some(director) = &self.director {
            director.begin(threads);
        }
    }

    /// Waits for the first turn of a thread.
    pub fn start(&self, token: &Token) {
        if let Some(director) = &self.director {
            director.turn(Turn::at(token.number, Deed::Begin, 0));
        }
    }

    /// Notes that a thread has taken its last step.
    pub fn finish(&self, token: &Token) {
        if let Some(director) = &self.director {
            director.finish(token.number);
        }
    }
}
