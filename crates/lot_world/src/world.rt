//! Any number of threads over locks, by a list of steps.
ghost use Rattle.std.specs.Prelude.{ℕ, List, [], ◌∷◌, ◌≡◌, ◌<◌, ◌≤◌, ◌++◌, ◌+◌, ◌*◌, ◌⊎◌, ◌||◌, IfOk, IfErr};
ghost use Rattle.std.specs.Prelude.{OnOk, IsTrue, ◌↔◌, All, length, take, true, false, vec_len};
ghost use Rattle.std.specs.Prelude.{vec_capacity};
ghost use Rattle.spec_locks.specs.Kinds.{fits};
ghost use Rattle.spec_locks.specs.Calls.{lock_in};
ghost use Rattle.lot_steps.specs.Steps.{first_place};
ghost use Rattle.lot_machine.specs.Machine.{opening, place_at, lock_at, share_at, word_at, kind_at};
ghost use Rattle.lot_machine.specs.Machine.{filled_at, queue_at, section_at, after, step_outcome};
ghost use Rattle.lot_machine.specs.Machine.{after_steps, step_outcomes, solo};
ghost use Rattle.lot_machine.specs.Fits.{SameSize};
ghost use Rattle.spec_locks.specs.Runs.{IsOpening, IsStep, IsRun, purpose_at};
ghost use Rattle.spec_locks.specs.Headline.{Behaves, MayTell, Opens, full_by};
ghost use Rattle.spec_locks.specs.Guarantees.{IsGuaranteed};
ghost use Rattle.spec_locks.specs.EachState.{StateHolds};
ghost use Rattle.spec_locks.specs.EachStep.{StepHolds};
ghost use Rattle.spec_locks.specs.UserLaws.{ReadersStayOut, RereadersPass, UpgradesLetNobodyWrite};
ghost use Rattle.spec_locks.specs.UserLaws.{DowngradesOwn};
ghost use Rattle.spec_locks.specs.CondvarLaws.{NobodyWakesByItself};
ghost use Rattle.lot_laws.specs.SitesOf.{IsWorld};
ghost use Rattle.lot_laws.specs.Refinement.{locks_of, ChangesOneThing};
ghost use Rattle.lot_laws.specs.Promises.{IsKept};
ghost use Rattle.lot_laws.specs.Fair.{IsFair};
ghost use Rattle.lot_laws.specs.Owing.{OwesSince};
ghost use Rattle.lot_laws.specs.Overtaking.{NobodyIsOvertaken};
ghost use Rattle.lot_laws.specs.WorldRuns.{IsWorldRun, Tells, states_of, LooksNoMore, SleepersStay};
ghost use Rattle.lot_laws.specs.WorldRuns.{TouchesOnlyByGoing, TriesAtOnce};
ghost use Rattle.lot_laws.specs.Solo.{IsUnderWay, IsUnobstructed, HasWhatItReads, IsBarred, OnlyTries};
ghost use Rattle.lot_laws.specs.Solo.{EndsOrSleeps, EndsAlone, IsSoloRun};
ghost use Rattle.lot_machine.specs.Views.{StandUnder, owners_of, queue_of, debts_of};
ghost use Rattle.lot_rests.specs.Rests.{ComesToRest, GoesRound, Settles, is_turn};
ghost use Rattle.spec_locks.specs.Rest as rest;
ghost use Rattle.lot_world.specs.Drains.{IsDrainable, IsDrain};
ghost use Rattle.lot_world.specs.Drainable.{is_drainable};
ghost use Rattle.lot_world.specs.Schedules.{schedule_of};

use crate::{is_drainable, schedule};
use core_base::{Fault, Queues, main_key, second_key};
use lot_machine::{DebtBook, Debts, Lock, Machine, OwnersOf, Parts, QueueOf};
use lot_steps::{Call, Kind, Outcome, Place, Step, Turn};
use std::alloc::Global;
use std::marker::Model;

/// The greatest number of threads of a world.
pub const MOST_THREADS: usize = 1024;

/// The greatest number of locks of a world.
pub const MOST_LOCKS: usize = 256;

/// After how many steps alone a thread is stopped.
pub const SOLO_STEPS: usize = 64;

/// Memory for an outcome was refused after this many steps.
#[derive(Clone, Copy, Debug, PartialEq, Eq)]
pub struct Stopped {
    pub taken: usize,
}

/// Returns whether a turn was possible: one before, or that which told this.
fn any_turn(before: bool, told: Outcome) -> bool
    ensures { result ≡ (is_turn told || before) }
{
    match told {
        Outcome::NotNow => before,
        _ => true,
    }
}

/// Threads over locks. No call but `new`, `run` and `drain` takes memory.
#[derive(Drop)]
pub struct World<Q: Queues + Drop> {
    machine: Machine<Q>,
}

impl<Q: Queues + Drop> Model for World<Q> {
    ghost use Rattle.lot_machine.specs.Machine.{State};
    ghost use Rattle.lot_laws.specs.SitesOf.{IsWorld};

    ghost Value = { State };

    ghost view = { λ a. a.machine };

    ghost invariant = { λ a. IsWorld a.machine };
}

impl<Q: Queues + Drop> World<Q> {
    /// Makes a world of locks of these kinds, at most 256, in their order, and of 1 to 1,024 threads.
    /// Nobody is in a call, nobody owns anything, and nobody waits. `Kind::fits` tests what a kind
    /// needs.
    ///
    /// # Errors
    ///
    /// `NoMemory`, where memory was refused.
    pub fn new(alloc: Global, kinds: &[Kind], threads: usize) -> Result<Self, Fault>
        requires some { 1 ≤ threads }
        requires few_threads { threads ≤ MOST_THREADS }
        requires few_locks { length kinds.now ≤ MOST_LOCKS }
        requires fit { All (λ kind. fits kind threads ≡ true) kinds.now }
        ensures ok { IfOk result (λ world. world ≡ opening kinds.now threads) }
        ensures opening { IfOk result (λ world. IsOpening (locks_of world) × IsKept world) }

        // The run of the headline begins here: no lock was at its limit yet.
        ensures headline { IfOk result (λ world. Opens kinds.now threads (locks_of world)
            × ((lock : ℕ) → filled_at world lock ≡ false)) }
        ensures err { IfErr result (λ fault. fault ≡ Fault.NoMemory) }
    {
        Ok(World {
            machine: Machine::new(alloc, kinds, threads)?,
        })
    }

    /// Takes one step of one thread. One that isn't possible answers `NotNow` and changes nothing.
    pub fn step(&mut self, step: Step) -> Outcome
        ensures state { self.new ≡ after self.old step }
        ensures outcome { result ≡ step_outcome self.old step }

        // The first page. In each state owners exclude each other. Where no thread has anything to
        // do, nobody waits for a lock that is open; while one has, some thread can go on. No waiter
        // of a condition variable is left, and a fair mutex is owned while somebody waits for it.
        // Counts keep to the limit. A thread in a call owns what it owned as the call began, or what
        // the call trades that for. One whose time was up gives up before it sleeps again.
        ensures stays { StateHolds (locks_of self.new) (filled_at self.new) }

        // A turn is refused exactly where it isn't possible, and an answer is true. A try to lock a
        // mutex, or to write, ends as its thread goes on. Rights change by their thread's own call
        // of the lock, or are handed over. No other thread wakes or falls asleep by itself. In a
        // queue those that stay keep their order, and a thread that joins stands last.
        ensures holds { StepHolds (locks_of self.old) step result (locks_of self.new) }

        // One step of the headline: nobody is forgotten before it, nor after it.
        ensures headline { Behaves (filled_at self.old) (locks_of self.old) (step ∷ [])
            (result ∷ []) (locks_of self.new) }

        // A lock is filled where it was before, or where as many share it now as its limit allows.
        ensures filled { (lock : ℕ) → filled_at self.new lock
            ≡ full_by (filled_at self.old) (locks_of self.new) lock }

        // The step is one of the abstract locks: one case of one lock, a notification's move of
        // waiters between two, or nothing, and its answer is true.
        ensures refines { IsStep (locks_of self.old) step result (locks_of self.new) }
        ensures one_thing { ChangesOneThing self.old step.thread self.new }
        ensures touches { TouchesOnlyByGoing self.old step.turn self.new }

        // A fair release lets its mutex go only where its word told of nobody, or nobody waits. Else
        // the first waiter owns it in its place. Of a lock that is shared all that it has taken have
        // what they waited for in that one step, or are woken where they would pass the limit.
        ensures fair { IsFair self.old self.new }

        // Words are coded, counts keep to the limit, and each thread that waits for a lock whose
        // way nobody bars, a requeued waiter too, has a thread that owes its wake or tries again.
        // Outside its section a condition variable shows a mutex exactly while somebody waits.
        ensures kept { IsKept self.new }

        // A try to lock a mutex, or to write, ends in one step, also while others are inside
        // sections: with the mutex exactly where nobody owns it, and with a lock that is shared
        // exactly where the word is 0.
        ensures tries { step.turn ≡ Turn.Go → TriesAtOnce self.old step.thread result }

        // A thread whose exchange set a bit, in place of which it might have looked at the word,
        // looks at that no more before it goes into the section.
        ensures looks_no_more { step.turn ≡ Turn.Go → LooksNoMore self.old step.thread self.new }

        // Another thread that sleeps does so on, unless this one has it in hand and wakes it.
        ensures sleepers { SleepersStay self.old step.thread self.new }

        // While a writer is pending on a lock that isn't recursive, nobody begins to share it.
        ensures readers_stay_out { ReadersStayOut (locks_of self.old) (locks_of self.new) }

        // A thread that shares a recursive lock isn't queued to share it once more.
        ensures rereaders_pass { RereadersPass (locks_of self.old) (locks_of self.new) }

        // From the upgradable right to the exclusive one, an upgrade lets no other writer in, and a
        // downgrade owns throughout.
        ensures upgrades_let_nobody_write { UpgradesLetNobodyWrite (locks_of self.old)
            (locks_of self.new) }
        ensures downgrades_own { DowngradesOwn (locks_of self.old) (locks_of self.new) }

        // No wait on a condition variable wakes by itself: another thread notifies that one, while
        // it stands in its queue.
        ensures nobody_wakes_by_itself { NobodyWakesByItself (locks_of self.old)
            (locks_of self.new) }

        // A thread owes a wake since the step that saw waiters, or since it entered the section,
        // until it leaves it. While threads wait, a run of a `Once` that ends wakes them all, a failed
        // run too.
        ensures owing { OwesSince self.old step.thread result self.new }
        ensures same_size { SameSize self.old self.new }
    {
        self.machine.turn(step)
    }

    /// Steps of one thread alone, until its call ends, sleeps or is in its closure, or until its
    /// next step isn't possible, at most `SOLO_STEPS`. Returns the outcome of the last possible
    /// step, and `NotNow` where there was none.
    pub fn solo(&mut self, thread: usize) -> Outcome
        ensures state { self.new ≡ (solo SOLO_STEPS self.old thread Outcome.NotNow).state }
        ensures outcome { result ≡ (solo SOLO_STEPS self.old thread Outcome.NotNow).outcome }
        ensures run { IsSoloRun self.old thread result self.new }
        ensures stays { StateHolds (locks_of self.new) (filled_at self.new) }

        // A call under way ends or sleeps, where nobody else is inside the section that it enters.
        ensures rests { IsUnderWay self.old thread → IsUnobstructed self.old thread → EndsOrSleeps result }

        // From its beginning a call enters where it may. Else it sleeps as the last of the queue,
        // or aside where it waits for readers. A try ends; a release ends without its right, and a
        // downgrade with the lesser one.
        ensures ends { (call : Call)
            → place_at self.old thread ≡ first_place (kind_at self.old (lock_in call)) call
            → IsUnobstructed self.old thread
            → EndsAlone self.old thread (purpose_at (locks_of self.old) call) result self.new }

        // A call under way ends, sleeps or is barred, whatever other threads are inside sections.
        // It is barred where its next act enters a section that another thread is inside.
        ensures rests_or_barred { IsUnderWay self.old thread
            → EndsOrSleeps result ⊎ IsBarred self.new thread }

        // From its beginning a call ends as above, or is barred. A fair release of a mutex, a bump
        // of a right that isn't shared and a notification read a queue: they need that nobody else
        // is inside its section.
        ensures ends_or_barred { (call : Call)
            → place_at self.old thread ≡ first_place (kind_at self.old (lock_in call)) call
            → HasWhatItReads self.old thread (purpose_at (locks_of self.old) call)
            → EndsAlone self.old thread (purpose_at (locks_of self.old) call) result self.new
            ⊎ IsBarred self.new thread }

        // A try ends as above, whatever thread is inside a section, since it enters none.
        ensures tries { (call : Call)
            → place_at self.old thread ≡ first_place (kind_at self.old (lock_in call)) call
            → OnlyTries (purpose_at (locks_of self.old) call)
            → EndsAlone self.old thread (purpose_at (locks_of self.old) call) result self.new }
        ensures same_size { SameSize self.old self.new }
    {
        // A use of the field brings the world's invariant into the proof.
        let _ = &self.machine;
        self.step_alone(thread)
    }

    fn step_alone(&mut self, thread: usize) -> Outcome
        ensures state { self.new ≡ (solo SOLO_STEPS self.old thread Outcome.NotNow).state }
        ensures outcome { result ≡ (solo SOLO_STEPS self.old thread Outcome.NotNow).outcome }
        ensures same_size { SameSize self.old self.new }
    {
        let mut last = Outcome::NotNow;
        for _ in 0..SOLO_STEPS {
            match self.step(Step {
                thread,
                turn: Turn::Go,
            }) {
                Outcome::NotNow => return last,
                Outcome::Step => last = Outcome::Step,
                rests => return rests,
            }
        }
        last
    }

    /// Takes steps in their order, and puts their outcomes after those that are there.
    ///
    /// # Errors
    ///
    /// `Stopped`, with the number of steps that were taken, where memory for an outcome was refused.
    /// The world is the one after these steps.
    pub fn run(&mut self, steps: &[Step], outcomes: &mut Vec<Outcome>) -> Result<(), Stopped>
        ensures same_size { SameSize self.old self.new }

        // The first page, from the opening state on: each state that the world is in is safe, and
        // each step holds what it promises of steps.
        ensures guaranteed { (kinds : List Kind) (threads : ℕ) → self.old ≡ opening kinds threads
            → OnOk result (Tells outcomes.old.items outcomes.new.items
            (IsGuaranteed kinds threads (states_of self.old steps.now) steps.now)) }
        ensures holds { OnOk result (StateHolds (locks_of self.new) (filled_at self.new)) }

        // A fair mutex lets nobody be overtaken, nor does a plain one while each call gives it up
        // fairly and no condition variable names it: while a thread is k-th in its queue, at most k
        // others come to own it.
        ensures in_turn { OnOk result (NobodyIsOvertaken self.old steps.now self.new) }

        // The headline, from the opening state on: some run of the abstract locks tells these
        // outcomes, and in each of its states nobody is forgotten.
        ensures headline { (kinds : List Kind) (threads : ℕ) → self.old ≡ opening kinds threads
            → OnOk result (Tells outcomes.old.items outcomes.new.items
            (MayTell kinds threads steps.now)) }

        // From any state on the run behaves as the abstract locks do, and one run may follow
        // another.
        ensures behaves { OnOk result (Tells outcomes.old.items outcomes.new.items
            (λ told. Behaves (filled_at self.old) (locks_of self.old) steps.now told
            (locks_of self.new))) }

        // Every run of the world is a run of the abstract locks, with the outcomes that it tells,
        // from the state that it finds to the one that it leaves.
        ensures refines { OnOk result (Tells outcomes.old.items outcomes.new.items
            (λ told. IsRun (locks_of self.old) steps.now told (locks_of self.new))) }

        // From the state that it finds threads that begin nothing come to rest: in whatever order
        // they take their turns, there are few, and then nobody is awake in a call.
        ensures comes_to_rest { ComesToRest self.old }

        // In it nobody is forgotten, before, between and after its steps, and each step holds what
        // is promised of steps.
        ensures kept_before { IsKept self.old }
        ensures run { OnOk result (Tells outcomes.old.items outcomes.new.items
            (λ told. IsWorldRun self.old steps.now told self.new)) }

        // Where memory for an outcome was refused, the steps that were taken are such a run.
        ensures stopped_refines { IfErr result
            (λ stopped. Tells outcomes.old.items outcomes.new.items
            (λ told. IsRun (locks_of self.old) (take stopped.taken steps.now) told
            (locks_of self.new))) }
        ensures stopped_run { IfErr result (λ stopped. Tells outcomes.old.items outcomes.new.items
            (λ told. IsWorldRun self.old (take stopped.taken steps.now) told self.new)) }
        ensures stopped_in_turn { IfErr result
            (λ stopped. NobodyIsOvertaken self.old (take stopped.taken steps.now) self.new) }
        ensures stopped_headline { (kinds : List Kind) (threads : ℕ)
            → self.old ≡ opening kinds threads
            → IfErr result (λ stopped. Tells outcomes.old.items outcomes.new.items
            (MayTell kinds threads (take stopped.taken steps.now))) }
        ensures stopped_guaranteed { (kinds : List Kind) (threads : ℕ)
            → self.old ≡ opening kinds threads
            → IfErr result (λ stopped. Tells outcomes.old.items outcomes.new.items
            (IsGuaranteed kinds threads (states_of self.old (take stopped.taken steps.now))
            (take stopped.taken steps.now))) }
        ensures stopped_behaves { IfErr result
            (λ stopped. Tells outcomes.old.items outcomes.new.items
            (λ told. Behaves (filled_at self.old) (locks_of self.old)
            (take stopped.taken steps.now) told (locks_of self.new))) }
        ensures state { OnOk result (self.new ≡ after_steps self.old steps.now) }
        ensures outcomes { OnOk result
            (outcomes.new.items ≡ outcomes.old.items ++ step_outcomes self.old steps.now) }
        ensures taken { IfErr result (λ stopped. stopped.taken < length steps.now) }

        // Memory is refused only past the room that there was.
        ensures room { IfErr result
            (λ stopped. vec_capacity outcomes.old ≤ vec_len outcomes.old + stopped.taken) }
        ensures stopped { IfErr result
            (λ stopped. self.new ≡ after_steps self.old (take stopped.taken steps.now)) }
        ensures stopped_outcomes { IfErr result
            (λ stopped. outcomes.new.items
            ≡ outcomes.old.items ++ step_outcomes self.old (take stopped.taken steps.now)) }
    {
        // Brings the world's invariant into the proof, as above.
        let _ = &self.machine;
        for (taken, step) in steps.iter().enumerate() {
            if outcomes.reserve(1).is_err() {
                return Err(Stopped { taken });
            }
            outcomes.push_reserved(self.step(*step));
        }
        Ok(())
    }

    /// Lets threads go on, one after another, round and round, until none can. Nobody waits for a
    /// lock that is open then, but for waiters of a reader-writer lock that was once full of readers.
    pub fn settle(&mut self)
        // The turns are few, and each was possible. None is possible afterwards.
        ensures settles { Settles self.old self.new }

        // Each thread in a call sleeps or runs a closure.
        ensures quiet { rest.IsQuiet (locks_of self.new) }
        ensures rests { rest.WaitersWaitRightly (locks_of self.new) (filled_at self.new) }
        ensures same_size { SameSize self.old self.new }
    {
        // Brings the world's invariant into the proof, as above.
        let _ = &self.machine;
        'rounds: while self.go_round() {}
    }

    /// Takes one turn of each thread that can go on. Returns whether there was one.
    fn go_round(&mut self) -> bool
        ensures { GoesRound self.old result self.new }
    {
        let mut moved = false;
        for thread in 0..self.threads() {
            let told = self.step(Step {
                thread,
                turn: Turn::Go,
            });
            moved = any_turn(moved, told);
        }
        moved
    }

    /// Returns whether some steps drain the world: it has one lock, a mutex or a reader-writer
    /// lock, whose readers were never as many as its limit. Each thread has one right at most, and
    /// none where its call needs none, or is a bump that has given its right up, but for what that
    /// call got.
    pub fn drainable(&self) -> bool
        ensures drainable { IsTrue result ↔ IsDrainable self.now }
        ensures test { result ≡ is_drainable self.now }
    {
        is_drainable(&self.machine)
    }

    /// Returns steps that drain the world: after them nobody is in a call or queued, nobody owns the
    /// lock, and its word is 0. The world stays as it is.
    ///
    /// # Errors
    ///
    /// `NoMemory`, where memory was refused.
    pub fn drain(&self, alloc: Global) -> Result<Vec<Step>, Fault>
        requires { IsDrainable self.now }
        ensures ok { IfOk result (λ steps. IsDrain self.now steps.items) }
        ensures schedule { IfOk result (λ steps. steps.items ≡ schedule_of self.now) }
        ensures err { IfErr result (λ fault. fault ≡ Fault.NoMemory) }
    {
        schedule(alloc, self.machine.copy(alloc)?)
    }

    /// Takes the state of these parts in place of its own: one that a world may be in, with as many
    /// threads and locks. It takes no memory.
    pub fn restore<P: Parts>(&mut self, parts: &P)
        requires world { IsWorld (P.state parts.now) }
        requires size { SameSize self.old (P.state parts.now) }
        ensures { self.new ≡ P.state parts.now }
    {
        self.machine.restore(parts);
    }

    /// Returns how many threads there are.
    pub fn threads(&self) -> usize
        ensures { result ≡ length self.now.places }
    {
        self.machine.threads()
    }

    /// Returns how many locks there are.
    pub fn locks(&self) -> usize
        ensures { result ≡ length self.now.locks }
    {
        self.machine.locks()
    }

    /// Returns a lock: its kind, word and owners, but for the threads that share it.
    pub fn lock(&self, lock: usize) -> Lock
        requires { lock < length self.now.locks }
        ensures { result ≡ lock_at self.now lock }
    {
        self.machine.lock(lock)
    }

    /// Returns a thread's number of shared rights of a lock.
    pub fn share(&self, lock: usize, thread: usize) -> usize
        requires { lock < length self.now.locks }
        ensures { result ≡ share_at self.now lock thread }
    {
        self.machine.share(lock, thread)
    }

    /// Returns the kind of a lock.
    pub fn kind(&self, lock: usize) -> Kind
        requires { lock < length self.now.locks }
        ensures { result ≡ kind_at self.now lock }
    {
        self.machine.kind(lock)
    }

    /// Returns the word of a lock.
    pub fn word(&self, lock: usize) -> u64
        requires { lock < length self.now.locks }
        ensures { result ≡ word_at self.now lock }
    {
        self.machine.word(lock)
    }

    /// Returns whether as many threads as its limit allows once shared a lock. One that nobody
    /// shares, such as a mutex, is never filled.
    pub fn filled(&self, lock: usize) -> bool
        requires { lock < length self.now.locks }
        ensures { result ≡ filled_at self.now lock }
    {
        self.machine.filled(lock)
    }

    /// Returns the threads inside the sections of a lock: of its main queue, then of the waiter aside.
    pub fn inside(&self, lock: usize) -> (Option<usize>, Option<usize>)
        requires { lock < length self.now.locks }
        ensures main { result.0 ≡ section_at self.now (2 * lock) }
        ensures aside { result.1 ≡ section_at self.now (2 * lock + 1) }
    {
        let main = self.machine.inside(main_key(lock));
        let aside = self.machine.inside(second_key(lock));
        (main, aside)
    }

    /// Returns the place at which a thread stands.
    pub fn place(&self, thread: usize) -> Place
        requires { thread < length self.now.places }
        ensures { result ≡ place_at self.now thread }
    {
        self.machine.place(thread)
    }

    /// Returns the owners of a lock: the exclusive, pending, upgradable and running owner, then
    /// each sharer, once for each right.
    pub fn owners(&self, lock: usize) -> OwnersOf<'_>
        requires { lock < length self.now.locks }
        ensures { result ≡ owners_of self.now lock }
    {
        self.machine.owners(lock)
    }

    /// Returns the waiters of a lock: its main queue from the front, then the waiter aside.
    pub fn queue(&self, lock: usize) -> QueueOf<'_, Q>
        requires { lock < length self.now.locks }
        ensures waiters { result ≡ queue_of self.now lock }
        ensures main { StandUnder (2 * lock) (queue_at self.now (2 * lock)) }
        ensures aside { StandUnder (2 * lock + 1) (queue_at self.now (2 * lock + 1)) }
    {
        self.machine.queue(lock)
    }

    /// Returns the debts, for a caller that asks about many locks.
    pub fn debts(&self) -> DebtBook<'_>
        ensures { result ≡ self.now.places }
    {
        DebtBook::new(self.machine.places())
    }

    /// Returns which threads owe a wake on a lock, then which were woken and try again, by their
    /// numbers.
    pub fn debt(&self, lock: usize) -> Debts<'_>
        requires { lock < length self.now.locks }
        ensures { result ≡ debts_of self.now lock }
    {
        Debts::new(self.machine.places(), lock)
    }
}
