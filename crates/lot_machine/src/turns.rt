//! Turns of the machine: a thread begins a call, or its call goes on.
//!
//! A thread goes on from the place at which its own act has left it: an act may befall its own thread,
//! as a notification moves a wait to the mutex's queue, which that wait may then take from and wake
//! itself.
ghost use Rattle.std.specs.Prelude.{◌≡◌, ◌<◌, ◌+◌, IfSome, length, if◌then◌else◌};
ghost use Rattle.steps_base.specs.Acts.{outcome_of};
ghost use Rattle.lot_steps.specs.Steps.{HasKeys, act_of, next_place, next_act, late_key};
ghost use Rattle.lot_machine.specs.Machine.{place_at, put, section_is_free, can_go, state_after_go};
ghost use Rattle.lot_machine.specs.Machine.{go_outcome, closed_place, can_close, state_after_close};
ghost use Rattle.lot_machine.specs.Machine.{close_outcome, names_mutex_there, holds_right};
ghost use Rattle.lot_machine.specs.Machine.{is_open_to, can_begin, state_after_begin, can_spin};
ghost use Rattle.lot_machine.specs.Machine.{state_after_spin, spin_outcome, can_be_late};
ghost use Rattle.lot_machine.specs.Machine.{state_after_late, state_after_late_under, after};
ghost use Rattle.lot_machine.specs.Machine.{step_outcome};
ghost use Rattle.spec_locks.specs.Calls.{lock_of_right};
ghost use Rattle.lot_machine.specs.Fits.{ActFits, IsWellFormed};

use crate::machine::Machine;
use core_base::{Key, Keys, Queues};
use lot_steps::{Act, Call, Outcome, Place, Reply, Step, Turn, has_right};

impl<Q: Queues + Drop> Machine<Q> {
    /// The next act of a thread's call, where it is possible.
    pub fn go(&mut self, thread: usize) -> Outcome
        requires thread { thread < length self.old.places }
        requires keys { HasKeys (place_at self.old thread) }
        requires fits { ActFits self.old (act_of (place_at self.old thread)) }
        ensures state { self.new
            ≡ (if can_go self.old thread then state_after_go self.old thread else self.old) }
        ensures outcome { result
            ≡ (if can_go self.old thread then go_outcome self.old thread else Outcome.NotNow) }
    {
        // Most turns of a schedule find a thread in no call, or asleep.
        if self.places[thread].is_idle()
            || matches!(self.places[thread].outcome(), Outcome::Sleep)
        {
            return Outcome::NotNow;
        }
        let act = self.places[thread].act();
        self.go_from(thread, act)
    }

    /// The act of a place, and where its reply leads, where the act is possible.
    #[inline(never)]
    fn go_from(&mut self, thread: usize, act: Act) -> Outcome
        requires thread { thread < length self.old.places }
        requires act { act ≡ act_of (place_at self.old thread) }
        requires fits { ActFits self.old (act_of (place_at self.old thread)) }
        ensures state { self.new
            ≡ (if can_go self.old thread then state_after_go self.old thread else self.old) }
        ensures outcome { result
            ≡ (if can_go self.old thread then go_outcome self.old thread else Outcome.NotNow) }
    {
        match self.perform(thread, act) {
            Some(reply) => self.deliver(thread, reply),
            None => Outcome::NotNow,
        }
    }

    /// The closure of a thread has answered, and the thread goes on by it, where it may.
    pub fn close(&mut self, thread: usize, succeeded: bool) -> Outcome
        requires thread { thread < length self.old.places }
        requires keys { HasKeys (place_at self.old thread)
            × HasKeys (closed_place self.old thread succeeded) }
        requires fits { ActFits self.old (act_of (closed_place self.old thread succeeded)) }
        ensures state { self.new
            ≡ (if can_close self.old thread succeeded
            then state_after_close self.old thread succeeded
            else self.old) }
        ensures outcome { result
            ≡ (if can_close self.old thread succeeded then close_outcome self.old thread succeeded
            else Outcome.NotNow) }
    {
        let place = self.places[thread];
        match place.act() {
            Act::Closure(_) => {
                let place = place.next_place(Reply::Closed { succeeded });
                self.places[thread] = place;
                self.go_from(thread, place.act())
            }
            _ => Outcome::NotNow,
        }
    }

    /// Leads a thread on by the reply to its act, from where that has left it.
    fn deliver(&mut self, thread: usize, reply: Reply) -> Outcome
        requires { thread < length self.old.places }
        ensures state { self.new
            ≡ put self.old thread (next_place (place_at self.old thread) reply) }
        ensures outcome { result ≡ outcome_of (next_act (place_at self.old thread) reply) }
    {
        self.places[thread].step(reply)
    }

    /// A thread begins a call, where it may.
    pub fn begin(&mut self, thread: usize, call: Call) -> Outcome
        requires { thread < length self.old.places }
        ensures state { self.new
            ≡ (if can_begin self.old thread call then state_after_begin self.old thread call
            else self.old) }
        ensures outcome { result
            ≡ (if can_begin self.old thread call then Outcome.Step else Outcome.NotNow) }
    {
        if !self.can_begin(thread, call) {
            return Outcome::NotNow;
        }
        let kind = self.locks[call.lock()].kind;
        self.places[thread] = Place::first(kind, call);
        Outcome::Step
    }

    /// Returns whether a thread may begin a call.
    pub fn can_begin(&self, thread: usize, call: Call) -> bool
        requires { thread < length self.now.places }
        ensures { result ≡ can_begin self.now thread call }
    {
        self.places[thread].is_idle() && self.is_open_to(thread, call)
    }

    /// Returns whether the lock is there, has the call, and the thread has the right that the call
    /// needs.
    fn is_open_to(&self, thread: usize, call: Call) -> bool
        ensures { result ≡ is_open_to self.now thread call }
    {
        let lock = call.lock();
        if lock >= self.locks.len() {
            return false;
        }
        if !self.locks[lock].kind.has_call(call) {
            return false;
        }
        match call.mutex() {
            Some(mutex) => self.is_mutex(mutex) && self.holds_right(thread, call, mutex),
            None => self.holds_right(thread, call, lock),
        }
    }

    /// Returns whether a mutex is there that condition variables work with.
    fn is_mutex(&self, lock: usize) -> bool
        ensures { result ≡ names_mutex_there self.now (Some lock) }
    {
        lock < self.locks.len() && self.locks[lock].kind.is_plain_mutex()
    }

    /// Returns whether the thread has the right that the call needs, to this lock.
    fn holds_right(&self, thread: usize, call: Call, lock: usize) -> bool
        requires { (lock < length self.now.locks) × (lock ≡ lock_of_right call) }
        ensures { result ≡ holds_right self.now thread call }
    {
        let owners = self.locks[lock].owners;
        has_right(call, thread, owners, self.share(lock, thread))
    }

    /// A thread looks at the word once more in place of an act that leads to sleep, where it may.
    pub fn spin(&mut self, thread: usize) -> Outcome
        requires { IsWellFormed self.old × (thread < length self.old.places) }
        ensures state { self.new
            ≡ (if can_spin self.old thread then state_after_spin self.old thread else self.old) }
        ensures outcome { result
            ≡ (if can_spin self.old thread then spin_outcome self.old thread else Outcome.NotNow) }
    {
        match self.places[thread].respins_from() {
            Some(place) => {
                self.places[thread] = place;
                self.go(thread)
            }
            None => Outcome::NotNow,
        }
    }

    /// A thread that sleeps in a timed call enters the section of the queue where it stands, where
    /// it may.
    pub fn late(&mut self, thread: usize) -> Outcome
        requires thread { thread < length self.old.places }
        requires keys { HasKeys (place_at self.old thread) }
        requires key { IfSome (late_key (place_at self.old thread))
            (λ key. key < length self.old.sections) }
        ensures state { self.new
            ≡ (if can_be_late self.old thread then state_after_late self.old thread else self.old) }
        ensures outcome { result
            ≡ (if can_be_late self.old thread then Outcome.Step else Outcome.NotNow) }
    {
        match self.places[thread].late_key() {
            Some(key) => self.late_under(thread, key),
            None => Outcome::NotNow,
        }
    }

    fn late_under(&mut self, thread: usize, key: Key) -> Outcome
        requires thread { thread < length self.old.places }
        requires key { key < length self.old.sections }
        ensures state { self.new
            ≡ (if section_is_free self.old key then state_after_late_under self.old thread key
            else self.old) }
        ensures outcome { result ≡ (if section_is_free self.old key then Outcome.Step else Outcome.NotNow) }
    {
        if !self.is_free(key) {
            return Outcome::NotNow;
        }
        self.fill(Keys::One(key), Some(thread));
        self.deliver_to(thread, Reply::Late);
        Outcome::Step
    }

    /// Takes one turn of a thread, where it is possible.
    pub fn turn(&mut self, step: Step) -> Outcome
        requires { IsWellFormed self.old }
        ensures state { self.new ≡ after self.old step }
        ensures outcome { result ≡ step_outcome self.old step }
    {
        if step.thread >= self.places.len() {
            return Outcome::NotNow;
        }
        match step.turn {
            Turn::Begin(call) => self.begin(step.thread, call),
            Turn::Go => self.go(step.thread),
            Turn::Spin => self.spin(step.thread),
            Turn::Late => self.late(step.thread),
            Turn::Ok => self.close(step.thread, true),
            Turn::Err => self.close(step.thread, false),
        }
    }
}
