//! The schedule that drains a machine of one lock, worked out on the machine itself.
//!
//! Threads go on, round and round, until none can. Then the first owner between its calls begins its
//! release, and threads go on again, as often as there is an owner. The word is cleared last.
ghost use Rattle.std.specs.Prelude.{◌≡◌, ◌<◌, IfOk, IfErr, length};
ghost use Rattle.lot_machine.specs.Machine.{go_of, kind_at, step_outcome};
ghost use Rattle.lot_machine.specs.Fits.{IsWellFormed};
ghost use Rattle.lot_world.specs.Schedules.{one_more, alone_by, begin_of, go_alone, call_alone};
ghost use Rattle.lot_world.specs.Schedules.{round, settled, releases, first_begin, first_release};
ghost use Rattle.lot_world.specs.Schedules.{release_taken, all_released, entry_call, fair_release_of};
ghost use Rattle.lot_world.specs.Schedules.{clear, schedule_of};

use core_base::{Fault, Queues};
use lot_machine::Machine;
use spec_locks::{Access, Call, Kind, MutexCall, Outcome, Patience, RwLockCall, Step, Turn};
use std::alloc::Global;
use std::marker::Model;

/// After how many steps alone a thread is stopped.
const SOLO_STEPS: usize = 64;

/// The lock that is drained.
const LOCK: usize = 0;

/// The calls by which a mutex is released.
const MUTEX_RELEASES: [Call; 1] = [Call::Mutex {
    lock: LOCK,
    call: MutexCall::Unlock,
}];

/// The calls by which a reader-writer lock is released.
const RWLOCK_RELEASES: [Call; 3] = [
    Call::RwLock {
        lock: LOCK,
        call: RwLockCall::Release(Access::Exclusive),
    },
    Call::RwLock {
        lock: LOCK,
        call: RwLockCall::Release(Access::Upgradable),
    },
    Call::RwLock {
        lock: LOCK,
        call: RwLockCall::Release(Access::Shared),
    },
];

/// A machine of one lock, and the steps that it has taken.
#[derive(Drop)]
struct Drain<Q: Queues + Drop> {
    machine: Machine<Q>,
    steps: Vec<Step>,
}

impl<Q: Queues + Drop> Model for Drain<Q> {
    ghost use Rattle.std.specs.Prelude.{◌≡◌, length};
    ghost use Rattle.lot_machine.specs.Fits.{IsWellFormed};
    ghost use Rattle.lot_world.specs.Schedules.{Progress};

    ghost Value = { Progress };

    ghost view = { λ d. record { state = d.machine; steps = d.steps.items } };

    ghost invariant = { λ d. IsWellFormed d.machine × (length d.machine.locks ≡ 1) };
}

/// Takes the steps that drain a machine, and returns them.
///
/// # Errors
///
/// `NoMemory`, where memory was refused.
pub fn schedule<Q: Queues + Drop>(alloc: Global, machine: Machine<Q>) -> Result<Vec<Step>, Fault>
    requires well_formed { IsWellFormed machine }
    requires one { length machine.locks ≡ 1 }
    ensures ok { IfOk result (λ steps. steps.items ≡ schedule_of machine) }
    ensures err { IfErr result (λ fault. fault ≡ Fault.NoMemory) }
{
    let mut drain = Drain {
        machine,
        steps: Vec::new(alloc),
    };
    drain.settle()?;
    drain.release_all()?;
    drain.clear_word()?;
    Ok(drain.steps)
}

impl<Q: Queues + Drop> Drain<Q> {
    /// Takes a step.
    fn take(&mut self, step: Step) -> Result<(), Fault>
        ensures ok { IfOk result (λ _. self.new ≡ one_more self.old step) }
        ensures err { IfErr result (λ fault. fault ≡ Fault.NoMemory) }
    {
        if self.steps.reserve(1).is_err() {
            return Err(Fault::NoMemory);
        }
        self.machine.turn(step);
        self.steps.push_reserved(step);
        Ok(())
    }

    /// Takes a thread's next step, where it is possible.
    fn go(&mut self, thread: usize) -> Result<Outcome, Fault>
        ensures ok { IfOk result (λ outcome. (outcome ≡ step_outcome self.old.state (go_of thread))
            × (self.new ≡ alone_by outcome self.old (one_more self.old (go_of thread))
            (one_more self.old (go_of thread)))) }
        ensures err { IfErr result (λ fault. fault ≡ Fault.NoMemory) }
    {
        if self.steps.reserve(1).is_err() {
            return Err(Fault::NoMemory);
        }
        let step = go_of(thread);
        let outcome = self.machine.turn(step);
        match outcome {
            Outcome::NotNow => {}
            _ => self.steps.push_reserved(step),
        }
        Ok(outcome)
    }

    /// A thread goes on until it rests, or its next step isn't possible.
    fn go_alone(&mut self, thread: usize) -> Result<(), Fault>
        ensures ok { IfOk result (λ _. self.new ≡ go_alone self.old thread) }
        ensures err { IfErr result (λ fault. fault ≡ Fault.NoMemory) }
    {
        for _ in 0..SOLO_STEPS {
            match self.go(thread)? {
                Outcome::Step => {}
                _ => return Ok(()),
            }
        }
        Ok(())
    }

    /// A thread begins a call, and goes on until it rests.
    fn call_alone(&mut self, thread: usize, call: Call) -> Result<(), Fault>
        ensures ok { IfOk result (λ _. self.new ≡ call_alone self.old thread call) }
        ensures err { IfErr result (λ fault. fault ≡ Fault.NoMemory) }
    {
        self.take(begin_of(thread, call))?;
        self.go_alone(thread)
    }

    /// Each thread in its turn goes on until it rests, or its next step isn't possible.
    fn go_round(&mut self) -> Result<(), Fault>
        ensures ok { IfOk result (λ _. self.new ≡ round self.old 0 (length self.old.state.places)) }
        ensures err { IfErr result (λ fault. fault ≡ Fault.NoMemory) }
    {
        for thread in 0..self.machine.threads() {
            self.go_alone(thread)?;
        }
        Ok(())
    }

    /// Threads go on, round and round, until none can.
    fn settle(&mut self) -> Result<(), Fault>
        ensures ok { IfOk result (λ _. self.new ≡ settled self.old) }
        ensures err { IfErr result (λ fault. fault ≡ Fault.NoMemory) }
    {
        for _ in 0..usize::MAX {
            let before = self.steps.len();
            self.go_round()?;
            if self.steps.len() == before {
                return Ok(());
            }
        }
        // No memory has room for the steps of so many rounds.
        Err(Fault::NoMemory)
    }

    /// One owner after another releases, as long as there is one.
    fn release_all(&mut self) -> Result<(), Fault>
        ensures ok { IfOk result (λ _. self.new ≡ all_released self.old) }
        ensures err { IfErr result (λ fault. fault ≡ Fault.NoMemory) }
    {
        for _ in 0..self.machine.threads() {
            match self.first_release() {
                Some(step) => self.release(step)?,
                None => return Ok(()),
            }
        }
        Ok(())
    }

    /// A thread begins to release, and threads go on until none can.
    fn release(&mut self, step: Step) -> Result<(), Fault>
        ensures ok { IfOk result (λ _. self.new ≡ release_taken self.old step) }
        ensures err { IfErr result (λ fault. fault ≡ Fault.NoMemory) }
    {
        self.take(step)?;
        self.settle()
    }

    /// Returns the first release that a thread may begin.
    fn first_release(&self) -> Option<Step>
        ensures { result ≡ first_release self.now.state 0 (length self.now.state.places) }
    {
        for thread in 0..self.machine.threads() {
            if let Some(step) = self.release_of(thread) {
                return Some(step);
            }
        }
        None
    }

    /// The release that a thread may begin.
    fn release_of(&self, thread: usize) -> Option<Step>
        requires { thread < length self.now.state.places }
        ensures { result
            ≡ first_begin self.now.state thread (releases (kind_at self.now.state 0)) }
    {
        match self.machine.kind(LOCK) {
            Kind::RwLock { .. } | Kind::Recursive { .. } => {
                self.first_begin(thread, &RWLOCK_RELEASES)
            }
            Kind::Mutex | Kind::Fair | Kind::Condvar | Kind::Once | Kind::Semaphore { .. } => {
                self.first_begin(thread, &MUTEX_RELEASES)
            }
        }
    }

    /// Returns the first of some calls that a thread may begin.
    fn first_begin(&self, thread: usize, calls: &[Call]) -> Option<Step>
        requires { thread < length self.now.state.places }
        ensures { result ≡ first_begin self.now.state thread calls.now }
    {
        for call in calls {
            if self.machine.can_begin(thread, *call) {
                return Some(begin_of(thread, *call));
            }
        }
        None
    }

    /// Where a bit is left in the word of a lock that nobody owns, the first thread takes the lock
    /// and hands it to nobody.
    fn clear_word(&mut self) -> Result<(), Fault>
        ensures ok { IfOk result (λ _. self.new ≡ clear self.old) }
        ensures err { IfErr result (λ fault. fault ≡ Fault.NoMemory) }
    {
        if self.machine.word(LOCK) == 0 {
            return Ok(());
        }
        let kind = self.machine.kind(LOCK);
        self.call_alone(0, entry_of(kind))?;
        self.call_alone(0, fair_release_of(kind))
    }
}

fn go_of(thread: usize) -> Step
    ensures { result ≡ go_of thread }
{
    Step {
        thread,
        turn: Turn::Go,
    }
}

fn begin_of(thread: usize, call: Call) -> Step
    ensures { result ≡ begin_of thread call }
{
    Step {
        thread,
        turn: Turn::Begin(call),
    }
}

/// The call that takes a lock of this kind for one thread alone.
fn entry_of(kind: Kind) -> Call
    ensures { result ≡ entry_call kind }
{
    match kind {
        Kind::RwLock { .. } | Kind::Recursive { .. } => Call::RwLock {
            lock: LOCK,
            call: RwLockCall::Enter {
                access: Access::Exclusive,
                patience: Patience::Patient,
            },
        },
        Kind::Mutex | Kind::Fair | Kind::Condvar | Kind::Once | Kind::Semaphore { .. } =>
            Call::Mutex {
                lock: LOCK,
                call: MutexCall::Lock,
            },
    }
}

/// The call that gives it up fairly.
fn fair_release_of(kind: Kind) -> Call
    ensures { result ≡ fair_release_of kind }
{
    match kind {
        Kind::RwLock { .. } | Kind::Recursive { .. } => Call::RwLock {
            lock: LOCK,
            call: RwLockCall::ReleaseFair(Access::Exclusive),
        },
        Kind::Mutex | Kind::Fair | Kind::Condvar | Kind::Once | Kind::Semaphore { .. } =>
            Call::Mutex {
                lock: LOCK,
                call: MutexCall::UnlockFair,
            },
    }
}
