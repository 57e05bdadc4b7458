//! Whether a world may be drained.
//!
//! The test is of the state alone, as a program can make it. Three of its parts hold in every world
//! that steps lead to from an opening. A world that was full isn't drained: a reader may be forgotten
//! behind a full lock, as `readers full` ends a call that was woken.
ghost use Rattle.std.specs.Prelude.{◌≡◌, ◌<◌, ◌≤◌, length};
ghost use Rattle.lot_laws.specs.Refinement.{lock_state};
ghost use Rattle.spec_locks.specs.Locks.{rights_of};
ghost use Rattle.lot_world.specs.Drains.{number};
ghost use Rattle.lot_world.specs.Drainable.{is_drainable, has_owners, is_below, are_below, all_hold_few};
ghost use Rattle.lot_world.specs.Drainable.{holds_few, one_if, rights_held, rights_gained};

use crate::gains::{Gain, gain_of, may_pend};
use core_base::Queues;
use lot_machine::Machine;
use lot_steps::{Owners, Place};
use spec_locks::{Access, Kind};

/// The lock that is drained.
const LOCK: usize = 0;

/// Which rights a thread has.
#[derive(Clone, Copy)]
struct HeldRights {
    exclusive: bool,
    pending: bool,
    upgradable: bool,
    shared: usize,
}

/// Returns whether there is one lock, which has owners, and whose readers were never as many as its
/// limit, and whether each thread has one right at most, and none where its call is to get one.
pub fn is_drainable<Q: Queues + Drop>(machine: &Machine<Q>) -> bool
    ensures { result ≡ is_drainable machine.now }
{
    if machine.locks() != 1 || machine.threads() == 0 {
        return false;
    }
    has_owners(machine.kind(LOCK))
        && !machine.filled(LOCK)
        && are_below(machine.sole_owners(LOCK), machine.threads())
        && all_hold_few(machine)
}

/// Returns whether locks of this kind have owners.
fn has_owners(kind: Kind) -> bool
    ensures { result ≡ has_owners kind }
{
    match kind {
        Kind::Mutex | Kind::Fair | Kind::RwLock { .. } | Kind::Recursive { .. } => true,
        Kind::Condvar | Kind::Once | Kind::Semaphore { .. } => false,
    }
}

/// Returns whether each thread that owns a lock is one of so many threads.
fn are_below(owners: Owners, threads: usize) -> bool
    ensures { result ≡ are_below owners threads }
{
    is_below(owners.exclusive, threads)
        && is_below(owners.pending.map(|pending| pending.thread), threads)
        && is_below(owners.upgradable, threads)
}

fn is_below(thread: Option<usize>, threads: usize) -> bool
    ensures { result ≡ is_below thread threads }
{
    match thread {
        Some(thread) => thread < threads,
        None => true,
    }
}

fn all_hold_few<Q: Queues + Drop>(machine: &Machine<Q>) -> bool
    requires { 0 < length machine.now.locks }
    ensures { result ≡ all_hold_few machine.now 0 (length machine.now.places) }
{
    for thread in 0..machine.threads() {
        if !holds_few(machine.place(thread), held(machine, thread)) {
            return false;
        }
    }
    true
}

/// Returns which rights a thread has.
fn held<Q: Queues + Drop>(machine: &Machine<Q>, thread: usize) -> HeldRights
    requires { 0 < length machine.now.locks }
    ensures { rights_held result ≡ rights_of (lock_state machine.now 0) thread }
{
    let owners = machine.sole_owners(LOCK);
    let pending = owners.pending.map(|pending| pending.thread);
    HeldRights {
        exclusive: owners.exclusive == Some(thread),
        pending: pending == Some(thread),
        upgradable: owners.upgradable == Some(thread),
        shared: machine.share(LOCK, thread),
    }
}

/// Returns whether a thread at this place has one right at most, and none where its call is to get
/// one. It is pending only where its call may be.
fn holds_few(place: Place, held: HeldRights) -> bool
    ensures { result ≡ holds_few place (rights_held held) }
{
    if held.shared > 1 || number(held) > 1 {
        return false;
    }
    if held.pending && !may_pend(place) {
        return false;
    }
    match gain_of(place) {
        Some(gain) => number(held) == gained(gain, held),
        None => true,
    }
}

/// Returns how many rights these are.
fn number(held: HeldRights) -> usize
    requires { held.shared ≤ 1 }
    ensures { result ≡ number (rights_held held) }
{
    one_if(held.exclusive) + one_if(held.pending) + one_if(held.upgradable) + held.shared
}

/// Returns how many of them are what a call has got.
fn gained(gain: Gain, held: HeldRights) -> usize
    ensures { result ≡ rights_gained gain (rights_held held) }
{
    match gain {
        Gain::Nothing => 0,
        Gain::Pending => one_if(held.pending),
        Gain::Right(Access::Exclusive) => one_if(held.exclusive),
        Gain::Right(Access::Upgradable) => one_if(held.upgradable),
        Gain::Right(Access::Shared) => held.shared,
    }
}

fn one_if(is_so: bool) -> usize
    ensures number { result ≡ one_if is_so }
    ensures few { result ≤ 1 }
{
    if is_so { 1 } else { 0 }
}
