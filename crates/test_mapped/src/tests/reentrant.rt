//! Mutexes that their owner locks again, tried by one thread and by two.
ghost use Rattle.std.specs.Prelude.{◌≡◌, ◌+◌, All, IfSome};
ghost use Rattle.std.specs.Arc.{arc_value};
ghost use Rattle.parking_lot_core.specs.Tokens.{IsSameThread, IsTicketOf, IsTokenOf};
ghost use Rattle.parking_lot.specs.LotOf.{lot_of, thread_of};

use super::check_eq;
use super::parts::{Point, TheX};
use super::texts::text_of;
use parking_lot::{ParkingLot, ReentrantMutex, ReentrantMutexGuard, Ticket, Token};
use std::alloc::Global;
use std::process::Abort;
use std::sync::atomic::Ordering::SeqCst;
use std::sync::atomic::{AtomicBool, AtomicU64};
use std::sync::{Arc, Wait};
use std::thread::{Threads, map_vec, yield_now};

// Takes one of the tickets of a lot.
fn one_of(lot: &ParkingLot, tickets: &mut Vec<Ticket>) -> Option<Ticket>
    requires { All (IsTicketOf lot.now) tickets.old.items }
    ensures left { All (IsTicketOf lot.now) tickets.new.items }
    ensures one { IfSome result (IsTicketOf lot.now) }
{
    tickets.pop()
}

// A lot of two words for two threads, with the token of the first and the ticket of the other.
fn pair<A: Abort>(rt: &A, alloc: Global) -> (Arc<ParkingLot>, Token, Vec<Ticket>)
    ensures { IsTokenOf (arc_value result.0) result.1
        × All (IsTicketOf (arc_value result.0)) result.2.items }
{
    let Ok((lot, mut tickets)) = ParkingLot::new(alloc, 2, 2) else {
        panic!(rt; "no lot");
    };
    match one_of(&lot, &mut tickets) {
        Some(first) => (lot, first.enter(), tickets),
        None => panic!(rt; "no seat"),
    }
}

fn reentrant<T: Drop, A: Abort>(
    rt: &A,
    alloc: Global,
    value: T,
) -> (ReentrantMutex<T>, Token, Vec<Ticket>)
    ensures { IsTokenOf (lot_of result.0.0) result.1
        × All (IsTicketOf (lot_of result.0.0)) result.2.items }
{
    let (lot, mut token, tickets) = pair(rt, alloc);
    match ReentrantMutex::new(&lot, &mut token, value) {
        Ok(mutex) => (mutex, token, tickets),
        Err(_) => panic!(rt; "no reentrant mutex"),
    }
}

// Enters by one of the tickets of a mutex's lot.
fn other_of<T>(mutex: &ReentrantMutex<T>, tickets: Vec<Ticket>) -> Option<Token>
    requires { All (IsTicketOf (lot_of mutex.now.0)) tickets.items }
    ensures { IfSome result (IsTokenOf (lot_of mutex.now.0)) }
{
    let mut tickets = tickets;
    let other = tickets.pop()?;
    Some(other.enter())
}

// The guard of one lock more.
fn locked<'a, T, R: Wait + Abort>(
    rt: &R,
    mutex: &'a ReentrantMutex<T>,
    token: &mut Token,
) -> ReentrantMutexGuard<'a, T>
    requires { IsTokenOf (lot_of mutex.now.0) token.old }
    ensures token { IsSameThread (lot_of mutex.now.0) token.old token.new }
    ensures guard { (result.mutex.now ≡ mutex.now)
        × (thread_of result.share ≡ token.old.number + 1) }
{
    match mutex.lock(rt, token) {
        Ok(guard) => guard,
        Err(_) => panic!(rt; "full"),
    }
}

// Tries the mutex once, and returns the guard that the try got, if any.
fn tried<'a, T, R: Wait + Abort>(
    rt: &R,
    mutex: &'a ReentrantMutex<T>,
    token: &mut Token,
) -> Option<ReentrantMutexGuard<'a, T>>
    requires { IsTokenOf (lot_of mutex.now.0) token.old }
    ensures token { IsSameThread (lot_of mutex.now.0) token.old token.new }
    ensures guard { IfSome result (λ guard. (guard.mutex.now ≡ mutex.now)
        × (thread_of guard.share ≡ token.old.number + 1)) }
{
    match mutex.try_lock(token) {
        Ok(taken) => taken,
        Err(_) => panic!(rt; "full"),
    }
}

// Returns the value that a guard shows. A method of a guard is dear to prove, and is called in one
// place each.
fn value_of<'g, T>(guard: &'g ReentrantMutexGuard<'_, T>) -> &'g T {
    &**guard
}

// Unlocks by a guard of this thread.
fn end<T, R: Wait>(rt: &R, token: &mut Token, guard: ReentrantMutexGuard<'_, T>)
    requires { IsTokenOf (lot_of guard.mutex.now.0) token.old
        × (thread_of guard.share ≡ token.old.number + 1) }
    ensures { IsSameThread (lot_of guard.entry.mutex.now.0) token.old token.new }
{
    guard.unlock(rt, token);
}

// Unlocks what a try got. Whether that was a guard.
fn given_up<T, R: Wait>(
    rt: &R,
    mutex: &ReentrantMutex<T>,
    token: &mut Token,
    taken: Option<ReentrantMutexGuard<'_, T>>,
) -> bool
    requires { IsTokenOf (lot_of mutex.now.0) token.old
        × IfSome taken (λ guard. (guard.mutex.now ≡ mutex.now)
        × (thread_of guard.share ≡ token.old.number + 1)) }
    ensures { IsSameThread (lot_of mutex.now.0) token.old token.new }
{
    match taken {
        Some(guard) => {
            end(rt, token, guard);
            true
        }
        None => false,
    }
}

fn tried_by_two<R: Wait + Abort>(
    rt: &R,
    mutex: &ReentrantMutex<u8>,
    one: &mut Token,
    other: &mut Token,
) -> [bool; 5]
    requires { IsTokenOf (lot_of mutex.now.0) one.old × IsTokenOf (lot_of mutex.now.0) other.old }
{
    let first = tried(rt, mutex, one);
    let again = tried(rt, mutex, one);
    let beside = tried(rt, mutex, other);
    let once_more = tried(rt, mutex, one);
    let first = given_up(rt, mutex, one, first);
    let beside = given_up(rt, mutex, other, beside);
    let once_more = given_up(rt, mutex, one, once_more);
    let again = given_up(rt, mutex, one, again);
    let later = tried(rt, mutex, other);
    [
        first,
        again,
        beside,
        once_more,
        given_up(rt, mutex, other, later),
    ]
}

#[test]
fn tries_of_the_owner_succeed_and_of_others_fail(rt: HostRuntime) {
    let (mutex, mut one, tickets) = reentrant(&rt, rt.alloc(), 7);
    if let Some(mut other) = other_of(&mutex, tickets) {
        let found = tried_by_two(&rt, &mutex, &mut one, &mut other);
        check_eq(&rt, found, [true, true, false, true, true]);
    }
    check_eq(&rt, mutex.into_inner(), 7);
}

// Locks once more by a guard. Whether the mutex is locked for the other thread while either guard is
// there, and when both are gone.
fn locked_by_a_guard<R: Wait + Abort>(
    rt: &R,
    mutex: &ReentrantMutex<u8>,
    one: &mut Token,
    other: &mut Token,
) -> [bool; 3]
    requires { IsTokenOf (lot_of mutex.now.0) one.old × IsTokenOf (lot_of mutex.now.0) other.old }
{
    let Ok(guard) = mutex.lock(rt, one) else {
        panic!(rt; "full");
    };
    let (guard, another) = match guard.again(one) {
        Ok(guards) => guards,
        Err((_, guard)) => {
            end(rt, one, guard);
            panic!(rt; "full");
        }
    };
    let beside_both = tried(rt, mutex, other);
    let beside_both = given_up(rt, mutex, other, beside_both);
    end(rt, one, guard);
    let beside_one = tried(rt, mutex, other);
    let beside_one = given_up(rt, mutex, other, beside_one);
    end(rt, one, another);
    let later = tried(rt, mutex, other);
    [beside_both, beside_one, given_up(rt, mutex, other, later)]
}

#[test]
fn a_guard_gives_another(rt: HostRuntime) {
    let (mutex, mut one, tickets) = reentrant(&rt, rt.alloc(), 7);
    if let Some(mut other) = other_of(&mutex, tickets) {
        let found = locked_by_a_guard(&rt, &mutex, &mut one, &mut other);
        check_eq(&rt, found, [false, false, true]);
    }
}

// Locks so often, each time inside the last, reads, and unlocks as often.
fn nested<R: Wait + Abort>(
    rt: &R,
    mutex: &ReentrantMutex<u64>,
    token: &mut Token,
    times: u64,
) -> u64
    requires { IsTokenOf (lot_of mutex.now.0) token.old }
    ensures { IsTokenOf (lot_of mutex.now.0) token.new }
{
    let outer = locked(rt, mutex, token);
    let mut sum = 0u64;
    for _ in 0..times {
        let inner = locked(rt, mutex, token);
        sum = sum.wrapping_add(*value_of(&inner));
        end(rt, token, inner);
    }
    outer.unlock_fair(rt, token);
    sum
}

#[test]
fn one_thread_locks_many_times(rt: HostRuntime) {
    let (mutex, mut token, _others) = reentrant(&rt, rt.alloc(), 3);
    check_eq(&rt, nested(&rt, &mutex, &mut token, 1000), 3000);
    check_eq(&rt, nested(&rt, &mutex, &mut token, 1), 3);
}

// Bumps an only guard, and one beside another. Whether the mutex is this thread's still.
fn bumped<R: Wait + Abort>(rt: &R, mutex: &ReentrantMutex<u64>, token: &mut Token) -> bool
    requires { IsTokenOf (lot_of mutex.now.0) token.old }
{
    let guard = locked(rt, mutex, token).bump(rt, token);
    let inner = locked(rt, mutex, token).bump(rt, token);
    let is_ours = value_of(&guard) == value_of(&inner);
    end(rt, token, inner);
    end(rt, token, guard);
    is_ours
}

#[test]
fn a_bump_keeps_the_mutex_where_nobody_waits(rt: HostRuntime) {
    let (mutex, mut token, _others) = reentrant(&rt, rt.alloc(), 3);
    check_eq(&rt, bumped(&rt, &mutex, &mut token), true);
}

// What the mutex shows to a thread.
fn text_for<R: Wait + Abort>(
    rt: &R,
    alloc: Global,
    mutex: &ReentrantMutex<[u8; 2]>,
    token: &mut Token,
) -> String
    requires { IsTokenOf (lot_of mutex.now.0) token.old }
    ensures token { IsSameThread (lot_of mutex.now.0) token.old token.new }
{
    let shown = mutex.show(token);
    let text = text_of(rt, alloc, &shown);
    shown.close(rt, token);
    text
}

// The texts of a mutex that this thread has, and that another has.
fn shown_to_two<R: Wait + Abort>(
    rt: &R,
    alloc: Global,
    mutex: &ReentrantMutex<[u8; 2]>,
    one: &mut Token,
    other: &mut Token,
) -> (String, String)
    requires { IsTokenOf (lot_of mutex.now.0) one.old × IsTokenOf (lot_of mutex.now.0) other.old }
{
    let guard = locked(rt, mutex, one);
    let own = text_for(rt, alloc, mutex, one);
    let others = text_for(rt, alloc, mutex, other);
    end(rt, one, guard);
    (own, others)
}

#[test]
fn a_reentrant_mutex_shows_its_value_to_its_owner(rt: HostRuntime) {
    let (mutex, mut one, tickets) = reentrant(&rt, rt.alloc(), [0, 10]);
    if let Some(mut other) = other_of(&mutex, tickets) {
        let (own, others) = shown_to_two(&rt, rt.alloc(), &mutex, &mut one, &mut other);
        check_eq(&rt, own.as_str(), "ReentrantMutex { data: [0, 10] }");
        check_eq(&rt, others.as_str(), "ReentrantMutex { data: <locked> }");
    }
}

// Reads a part through one guard while another is there.
fn part_of<R: Wait + Abort>(rt: &R, mutex: &ReentrantMutex<Point>, token: &mut Token) -> u32
    requires { IsTokenOf (lot_of mutex.now.0) token.old }
{
    let whole = locked(rt, mutex, token);
    let part = locked(rt, mutex, token).map(TheX);
    let seen = *part;
    end(rt, token, whole);
    part.unlock_fair(rt, token);
    seen
}

#[test]
fn a_part_of_a_reentrant_value_is_read(rt: HostRuntime) {
    let (mutex, mut token, _others) = reentrant(&rt, rt.alloc(), Point { x: 3, y: 5 });
    check_eq(&rt, part_of(&rt, &mutex, &mut token), 3);
}

// Adds to a number with a load and a store, under two guards, of which the first goes first.
fn add_under<R: Wait + Abort>(rt: &R, mutex: &ReentrantMutex<AtomicU64>, token: &mut Token, by: u64)
    requires { IsTokenOf (lot_of mutex.now.0) token.old }
    ensures { IsSameThread (lot_of mutex.now.0) token.old token.new }
{
    let first = locked(rt, mutex, token);
    let second = locked(rt, mutex, token);
    let sum = value_of(&second).load(SeqCst).wrapping_add(by);
    end(rt, token, first);
    value_of(&second).store(sum, SeqCst);
    end(rt, token, second);
}

// Tells that it has the mutex, and adds 0 to 99 while it has.
fn add_while_held<R: Wait + Abort>(
    rt: &R,
    mutex: &ReentrantMutex<AtomicU64>,
    token: &mut Token,
    is_held: &AtomicBool,
)
    requires { IsTokenOf (lot_of mutex.now.0) token.old }
    ensures { IsTokenOf (lot_of mutex.now.0) token.new }
{
    let guard = locked(rt, mutex, token);
    is_held.store(true, SeqCst);
    for n in 0..100u64 {
        add_under(rt, mutex, token, n);
        yield_now();
    }
    end(rt, token, guard);
}

// Returns the value once the mutex is locked, after the thread that has it.
fn read_after<R: Wait + Abort>(
    rt: &R,
    mutex: &ReentrantMutex<AtomicU64>,
    token: &mut Token,
    is_held: &AtomicBool,
) -> u64
    requires { IsTokenOf (lot_of mutex.now.0) token.old }
    ensures { IsTokenOf (lot_of mutex.now.0) token.new }
{
    for _ in rt.forever() {
        if is_held.load(SeqCst) {
            break;
        }
        yield_now();
    }
    let guard = locked(rt, mutex, token);
    let seen = value_of(&guard).load(SeqCst);
    end(rt, token, guard);
    seen
}

// The first to come adds while it has the mutex, and the other reads after it. Or both add many
// times.
fn take_part<R: Wait + Abort>(
    rt: &R,
    mutex: &ReentrantMutex<AtomicU64>,
    token: &mut Token,
    came: &AtomicU64,
    is_held: &AtomicBool,
    alternate: bool,
) -> u64
    requires { IsTokenOf (lot_of mutex.now.0) token.old }
    ensures { IsTokenOf (lot_of mutex.now.0) token.new }
{
    if alternate {
        for _ in 0..1000 {
            add_under(rt, mutex, token, 1);
        }
        return 0;
    }
    if came.fetch_add(1, SeqCst) == 0 {
        add_while_held(rt, mutex, token, is_held);
        return 0;
    }
    read_after(rt, mutex, token, is_held)
}

// The tickets of all threads of a mutex's lot, after one of them has left it.
fn tickets_of<T, A: Abort>(
    rt: &A,
    mutex: &ReentrantMutex<T>,
    token: Token,
    tickets: Vec<Ticket>,
) -> Vec<Ticket>
    requires { IsTokenOf (lot_of mutex.now.0) token × All (IsTicketOf (lot_of mutex.now.0)) tickets.items }
    ensures { All (IsTicketOf (lot_of mutex.now.0)) result.items }
{
    let mut all = tickets;
    if all.push(token.leave()).is_err() {
        panic!(rt; "no memory");
    }
    all
}

// The values that both threads saw together, and the last one.
fn play<R: Threads + Wait + Abort + Sync>(rt: &R, alloc: Global, alternate: bool) -> (u64, u64) {
    let (mutex, token, tickets) = reentrant(rt, alloc, AtomicU64::new(0));
    let tickets = tickets_of(rt, &mutex, token, tickets);
    let (came, is_held) = (AtomicU64::new(0), AtomicBool::new(false));
    let (shared, came, is_held) = (&mutex, &came, &is_held);
    let seen = map_vec(
        rt,
        tickets,
        &|ticket: Ticket|
            requires { IsTicketOf (lot_of shared.now.0) ticket }
        {
            let mut token = ticket.enter();
            let seen = take_part(rt, shared, &mut token, came, is_held, alternate);
            drop(token.leave());
            seen
        },
    );
    let seen = seen.map_or(
        0,
        |seen| seen.iter().fold(0u64, |all, one| all.wrapping_add(*one)),
    );
    (seen, mutex.into_inner().into_inner())
}

#[test]
fn another_thread_waits_for_all_guards(rt: HostRuntime) {
    check_eq(&rt, play(&rt, rt.alloc(), false), (4950, 4950));
}

#[test]
fn two_threads_alternate(rt: HostRuntime) {
    check_eq(&rt, play(&rt, rt.alloc(), true), (0, 2000));
}
