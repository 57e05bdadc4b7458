//! Sleep, until somebody wakes the thread or its time is up.
//!
//! The key of a waiter is an atomic word of its seat, written inside the section of a bucket in which
//! the thread is queued or joins: a field of its record would make each `append` and `requeue` wait for
//! the record. A sleeper that gives up reads the word, enters that bucket and asks for its key there.
//! Where it isn't queued there and the word is another, it looks in that bucket; where the word is the
//! same, it was taken, and sleeps on until its note comes.
//!
//! Before each park a thread asks by a load whether its record is marked, and takes the record, by two
//! locked instructions, only then. A queued thread polls so twelve times, for 0.8 microseconds, before
//! it parks.
ghost use Rattle.std.specs.Prelude.{◌≡◌, ◌<◌, ◌++◌, ◌∷◌, [], IfSome, None};
ghost use Rattle.core_clocks.specs.Clocks.{TimeIsUp};
ghost use Rattle.parking_lot_core.specs.declared.tellings.Telling.TheVariants as tellings;

use crate::lot::ParkingLot;
use crate::pauses::pause;
use crate::places::QueuePlace;
use crate::sections::Section;
use crate::tellings::Telling;
use crate::tokens::Token;
use crate::waiters::WakeRecord;
use crate::wakes::WakeNote;
use core_base::{Key, Keys, Note, Want};
use core_clocks::Clock;
use core_words::{Right, Word};
use std::sync::Wait;

// How often a thread polls its note before it parks, and the rounds of the pause after each poll:
// in all 0.8 microseconds, where a round takes 11 nanoseconds, and up to four times as long on other
// processors. A thread that is answered at once sees it meanwhile. A longer spin takes time from the
// thread that is waited for, where each processor has more than one to run. It never yields: beside
// busy processes the scheduler gives the processor back a whole slice later.
const POLLS: u32 = 12;

const PAUSE: u32 = 6;

/// How a sleep ended.
pub enum Slept<'a> {
    /// The thread was taken, and is to try again. The note was made as it was woken.
    Woken(WakeNote),
    /// The thread was taken, and has been handed what it waited for.
    Handed(Right),
    /// The thread's time is up. It is inside the section of the key where it stands, with its
    /// place.
    Late(Section<'a>, Key, QueuePlace<'a>),
}

// How a look at a deadline ended.
enum Nap<'a> {
    // The thread slept a while.
    Paused,
    // The time of the waiter is up, and it is inside the section of the key where it stands.
    Late(Section<'a>, Key),
    // The time of the waiter is up, and it was taken before.
    Taken,
}

impl WakeRecord {
    ghost use Rattle.parking_lot_core.specs.Sleeps.{HasTold};

    // Takes the note, and the right that goes with it. A right that is for another word or want stays.
    fn told<'a>(&mut self, word: Word, want: Want) -> Option<Slept<'a>>
        ensures told { IfSome result (HasTold word want self.old.right self.new.right) }
        ensures none { result ≡ None → self.new.right ≡ self.old.right }
    {
        let note = self.note.take()?;
        match note.kind() {
            Note::Normal => Some(Slept::Woken(note)),
            Note::HandOff => Some(Slept::Handed(self.take_right(word, want)?)),
        }
    }
}

impl ParkingLot {
    ghost use Rattle.parking_lot_core.specs.Places.{IsPlaceOf};
    ghost use Rattle.parking_lot_core.specs.Tokens.{IsTokenOf, IsSameThread, count_of, last_of, told_of};
    ghost use Rattle.parking_lot_core.specs.Tokens.{view_of};
    ghost use Rattle.parking_lot_core.specs.Sleeps.{GivesUpAt, IsNap, IsWoken, IsSlept, WasLate};

    // Waits a while, or until the thread may have been told something.
    fn spin(&self, thread: usize)
        requires { thread < self.now.records.count }
    {
        for _ in 0..POLLS {
            if self.records.is_marked(thread) {
                return;
            }
            pause(PAUSE);
        }
    }

    // Looks whether the thread was told something. It looks at the right only once there is a note.
    // A thread that gives a right writes the note after it, and a note that came later would wake
    // the next sleep.
    fn take_note<'a, R: Wait>(
        &'a self,
        rt: &R,
        thread: usize,
        word: Word,
        want: Want,
    ) -> Option<Slept<'a>>
        requires { thread < self.now.records.count }
        ensures { IfSome result (IsWoken self.now word want) }
    {
        let (mut wake_record, held) = self.records.take(rt, thread);
        let told = wake_record.told(word, want);
        self.records.give_back(wake_record, held);
        told
    }

    // Returns the section of the key where the thread stands. None where it was taken meanwhile.
    // Another thread that moves it notes its new key inside both buckets. So the thread was taken
    // where the key is the same as before, read inside that key's bucket, and nobody of its number
    // stands there.
    fn give_up<'a, R: Wait>(&'a self, rt: &R, token: &Token) -> Option<(Section<'a>, Key)>
        ensures { IfSome result (λ late. GivesUpAt self.now token.now late.0 late.1) }
    {
        let thread = token.number;
        for _ in rt.forever() {
            let key = self.stands.key(thread);
            let section = self.locked(rt, token, Keys::One(key));
            if section.key_of(thread) == Some(key) {
                return Some((section, key));
            }
            let taken = self.stands.key(thread) == key;
            section.shut();
            if taken {
                return None;
            }
        }
        unreachable!()
    }

    // Sleeps once by a clock, up to a deadline. A thread whose time is up leaves the queue, unless it was
    // taken meanwhile.
    fn nap<'a, R: Wait, C: Clock>(
        &'a self,
        rt: &R,
        token: &Token,
        word: Word,
        clock: &C,
        deadline: u64,
    ) -> Nap<'a>
        requires { IsTokenOf self.now token.now }
        ensures { IsNap self.now token.now (C.tells clock.now) deadline result }
    {
        let now = clock.now();
        if now < deadline {
            self.pause(rt, token, word, clock, deadline - now);
            return Nap::Paused;
        }
        match self.give_up(rt, token) {
            Some((section, key)) => {
                self.is_late(token);
                Nap::Late(section, key)
            }
            None => Nap::Taken,
        }
    }

    /// Sleeps until the thread is woken, or up to a deadline on a clock. A thread sleeps only in its
    /// place in a queue.
    ///
    /// A right that was handed to the thread for another word or want stays where it is, and the
    /// thread sleeps on. A thread that was taken before it could give up is woken and not late, and
    /// without a limit nobody is late.
    pub fn sleep<'a, R: Wait, C: Clock>(
        &'a self,
        rt: &R,
        token: &mut Token,
        place: QueuePlace<'a>,
        word: Word,
        want: Want,
        limit: Option<(&C, u64)>,
    ) -> Slept<'a>
        requires own { IsTokenOf self.now token.old }
        requires queued { IsPlaceOf self.now token.old.number place }
        ensures same { token.new ≡ token.old }
        ensures slept { IsSlept self.now token.old word want result }
        ensures unlimited { limit.entry ≡ None → IsWoken self.now word want result }
        ensures late { WasLate result → TimeIsUp C.tells limit.entry }
    {
        let mut limit = limit;
        if !self.is_directed() {
            self.spin(token.number);
        }
        for _ in rt.forever() {
            // Asks by a load: to take the record is two locked instructions.
            if self.records.is_marked(token.number) {
                if let Some(told) = self.take_note(rt, token.number, word, want) {
                    return told;
                }
            }
            match limit {
                None => self.park(rt, token, word),
                Some((clock, deadline)) => match self.nap(rt, token, word, clock, deadline) {
                    Nap::Paused => {}
                    Nap::Late(section, key) => return Slept::Late(section, key, place),
                    // The thread that took this one is about to wake it.
                    Nap::Taken => limit = None,
                },
            }
        }
        unreachable!()
    }

    /// Sleeps as `sleep` does, and notes the sleep among the thread's tellings.
    #[tactic(auto, unfolding(crate::specs::Tokens::view_of))]
    pub fn sleep_told<'a, R: Wait, C: Clock>(
        &'a self,
        rt: &R,
        token: &mut Token,
        place: QueuePlace<'a>,
        word: Word,
        want: Want,
        limit: Option<(&C, u64)>,
    ) -> Slept<'a>
        requires own { IsTokenOf self.now token.old }
        requires queued { IsPlaceOf self.now token.old.number place }
        ensures own { IsSameThread self.now token.old token.new
            × (last_of token.new ≡ last_of token.old) }
        ensures view { view_of token.new ≡ view_of token.old }
        ensures told { told_of token.new ≡ told_of token.old ++ tellings.Slept (count_of token.old) ∷ [] }
        ensures slept { IsSlept self.now token.old word want result }
        ensures unlimited { limit.entry ≡ None → IsWoken self.now word want result }
        ensures late { WasLate result → TimeIsUp C.tells limit.entry }
    {
        let slept = self.sleep(rt, token, place, word, want, limit);
        let after = token.step_count();
        let telling = Telling::Slept { after };
        telling.tell(&mut token.told);
        slept
    }
}
