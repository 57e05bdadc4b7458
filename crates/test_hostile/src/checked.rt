//! Worlds whose every step is checked.
ghost use Rattle.std.specs.Prelude.{◌≡◌, ◌<◌, All, IsTrue, length, true};
ghost use Rattle.spec_locks.specs.Kinds.{fits};

use core_base::{Queues, main_key};
use lot_world::{Debt, Kind, MOST_LOCKS, MOST_THREADS, Outcome, Owner, Step, Turn, World};
use std::alloc::{AllocError, Global};
use test_checker::{
    Right, Seen, SeenLock, SeenOwner, SeenThread, SeenWaiter, Standing, Violation, Watch,
    check_state, check_step,
};

/// Why a checked run stops.
#[derive(Clone, Copy, Debug, PartialEq, Eq)]
pub enum Stop {
    NoMemory,
    /// No world has so many threads, or locks of these kinds.
    NoWorld,
    /// The step of this number, counted from 0, is wrong.
    Wrong(usize, Step, Violation),
}

impl From<AllocError> for Stop {
    fn from(_: AllocError) -> Stop {
        Stop::NoMemory
    }
}

fn right_of(owner: Owner) -> Right {
    match owner {
        Owner::Exclusive => Right::Exclusive,
        Owner::Pending => Right::Pending,
        Owner::Upgradable => Right::Upgradable,
        Owner::Running => Right::Running,
        Owner::Shared => Right::Shared,
    }
}

fn look_at_thread<Q: Queues + Drop>(world: &World<Q>, thread: usize) -> SeenThread
    requires { thread < length world.now.places }
{
    let place = world.place(thread);
    let standing = if place.is_idle() {
        Standing::Idle
    } else if place.outcome() == Outcome::Sleep {
        Standing::Asleep
    } else {
        Standing::Awake
    };
    SeenThread {
        standing,
        taken_by: place.taker(),
    }
}

fn look_at_lock<Q: Queues + Drop>(
    alloc: Global,
    world: &World<Q>,
    lock: usize,
) -> Result<SeenLock, AllocError>
    requires there { lock < length world.now.locks }
    requires few { lock < 256 }
{
    let mut owners = Vec::new(alloc);
    for (owner, thread) in world.owners(lock) {
        owners.reserve(1)?;
        let right = right_of(owner);
        owners.push_reserved(SeenOwner { right, thread });
    }
    let mut main = Vec::new(alloc);
    let mut aside = Vec::new(alloc);
    for waiter in world.queue(lock) {
        let (thread, want) = (waiter.thread, waiter.want);
        if waiter.key == main_key(lock) {
            main.reserve(1)?;
            main.push_reserved(SeenWaiter { thread, want });
        } else {
            aside.reserve(1)?;
            aside.push_reserved(thread);
        }
    }
    let mut owing = Vec::new(alloc);
    let mut retrying = Vec::new(alloc);
    for (debt, thread) in world.debt(lock) {
        if debt == Debt::Owes {
            owing.reserve(1)?;
            owing.push_reserved(thread);
        } else {
            retrying.reserve(1)?;
            retrying.push_reserved(thread);
        }
    }
    Ok(SeenLock {
        kind: world.kind(lock),
        word: world.word(lock),
        is_filled: world.filled(lock),
        owners,
        main,
        aside,
        owing,
        retrying,
    })
}

/// Lists all that a world shows.
fn look<Q: Queues + Drop>(alloc: Global, world: &World<Q>) -> Result<Seen, AllocError> {
    let mut threads = Vec::new(alloc);
    for thread in 0..world.threads() {
        threads.reserve(1)?;
        threads.push_reserved(look_at_thread(world, thread));
    }
    let mut locks = Vec::new(alloc);
    for lock in 0..world.locks() {
        if lock < 256 {
            let seen = look_at_lock(alloc, world, lock)?;
            locks.reserve(1)?;
            locks.push_reserved(seen);
        }
    }
    Ok(Seen { threads, locks })
}

/// Returns whether a world of so many threads may have locks of these kinds.
fn all_fit(kinds: &[Kind], threads: usize) -> bool
    ensures { IsTrue result → All (λ kind. fits kind threads ≡ true) kinds.now }
{
    kinds.iter().all(|kind| kind.fits(threads))
}

/// A world, what it showed last, and the calls that were begun in it.
#[derive(Drop)]
pub struct Checked<Q: Queues + Drop> {
    pub world: World<Q>,
    pub seen: Seen,
    watch: Watch,
    pub taken: usize,
    pub possible: usize,
    alloc: Global,
}

impl<Q: Queues + Drop> Checked<Q> {
    pub fn new(alloc: Global, kinds: &[Kind], threads: usize) -> Result<Self, Stop> {
        if threads < 1 || threads > MOST_THREADS || kinds.len() > MOST_LOCKS {
            return Err(Stop::NoWorld);
        }
        if !all_fit(kinds, threads) {
            return Err(Stop::NoWorld);
        }
        let Ok(world) = World::new(alloc, kinds, threads) else {
            return Err(Stop::NoMemory);
        };
        let seen = look(alloc, &world)?;
        let watch = Watch::new(alloc, threads)?;
        Ok(Checked {
            world,
            seen,
            watch,
            taken: 0,
            possible: 0,
            alloc,
        })
    }

    /// Takes a step, and stops where it is wrong.
    pub fn step(&mut self, step: Step) -> Result<Outcome, Stop> {
        let outcome = self.world.step(step);
        let after = look(self.alloc, &self.world)?;
        let found = self.check(step, outcome, &after);
        self.seen = after;
        if let Err(violation) = found {
            return Err(Stop::Wrong(self.taken, step, violation));
        }
        self.taken = self.taken.wrapping_add(1);
        if outcome != Outcome::NotNow {
            self.possible = self.possible.wrapping_add(1);
        }
        Ok(outcome)
    }

    fn check(&mut self, step: Step, outcome: Outcome, after: &Seen) -> Result<(), Violation> {
        check_step(&self.seen, step, outcome, after)?;
        check_state(after)?;
        self.watch.follow(&self.seen, step, outcome, after)
    }

    /// A thread goes on alone until it rests, as by `World::solo`.
    pub fn go_on(&mut self, thread: usize) -> Result<(), Stop> {
        for _ in 0..64 {
            let turn = Turn::Go;
            if self.step(Step { thread, turn })? != Outcome::Step {
                return Ok(());
            }
        }
        Ok(())
    }
}
