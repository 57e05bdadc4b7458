//! The operations on condition variables.
ghost use Rattle.std.specs.Prelude.{◌≡◌, IfOk};
ghost use Rattle.std.specs.Arc.{arc_value};
ghost use Rattle.parking_lot.specs.LotOf.{IsTokenOf, lock_of, lot_of, lot_of_condvar};

use crate::made::{both, unless_refused};
use parking_lot::{Condvar, Fault, Mutex, MutexGuard, ParkingLot, Token};
use std::sync::{Arc, Wait};

// How many items a queue holds.
const PLACES: u64 = 16;

// A thread's state once it has come to a meeting.
#[derive(Clone, Copy)]
enum Meeting {
    // Nothing is left to meet for.
    Over,
    // The thread was the last that came.
    Full,
    // The thread waits until more than so many operations are done.
    Waits { round: u64 },
}

// The counts of threads that meet, take turns, or send items to one another.
#[derive(Drop)]
struct Tally {
    // How many threads have come, by which each has its number.
    came: u64,
    // The thread whose turn it is, or how many have met or are in the queue.
    at: u64,
    left: u64,
    done: u64,
}

impl Tally {
    fn come(&mut self) -> u64 {
        let number = self.came;
        self.came = number.wrapping_add(1);
        number
    }

    // Does one operation more, if one is left. Whether it was.
    fn count(&mut self) -> bool {
        if self.left == 0 {
            return false;
        }
        self.left = self.left.wrapping_sub(1);
        self.done = self.done.wrapping_add(1);
        true
    }

    // Gives the turn to the next of so many.
    fn turn(&mut self, threads: u64) {
        self.at = self.at.wrapping_add(1);
        if self.at == threads {
            self.at = 0;
        }
    }

    // Comes to meet so many.
    fn meet(&mut self, threads: u64) -> Meeting {
        if self.left == 0 {
            return Meeting::Over;
        }
        self.turn(threads);
        if self.at == 0 {
            self.count();
            return Meeting::Full;
        }
        Meeting::Waits { round: self.done }
    }

    // Does an operation in its turn, and gives the turn to the next. Whether one was left.
    fn take_turn(&mut self, threads: u64) -> bool {
        let any = self.count();
        self.turn(threads);
        any
    }

    // Puts an item into the queue, if one is left. Whether it was.
    fn put(&mut self) -> bool {
        let any = self.count();
        if any {
            self.at = self.at.wrapping_add(1);
        }
        any
    }

    // Takes one from it. Whether there was one.
    fn take(&mut self) -> bool {
        if self.at == 0 {
            return false;
        }
        self.at = self.at.wrapping_sub(1);
        true
    }
}

/// A tally under a mutex, and the condition variables on which threads wait for it.
#[derive(Drop)]
pub(crate) struct Desk {
    tally: Mutex<Tally>,
    pub(crate) filled: Condvar,
    emptied: Condvar,
    ghost together: { (lot_of_condvar filled ≡ lot_of tally) × (lot_of_condvar emptied ≡ lot_of tally) },
}

/// How many words they take of their lot.
pub(crate) const DESK: usize = 3;

/// Returns a desk at which so many operations are to be done.
pub(crate) fn desk_for(
    lot: &Arc<ParkingLot>,
    token: &mut Token,
    operations: u64,
) -> Result<Desk, Fault>
    requires { IsTokenOf (arc_value lot.now) token.old }
    ensures token { IsTokenOf (arc_value lot.now) token.new }
    ensures made { IfOk result (λ desk. lot_of_condvar desk.filled ≡ arc_value lot.now) }
{
    let tally = Tally {
        came: 0,
        at: 0,
        left: operations,
        done: 0,
    };
    let filled = Condvar::new(lot, token);
    let emptied = Condvar::new(lot, token);
    let tally = unless_refused(Mutex::new(lot, token, tally));
    let (tally, (filled, emptied)) = both(tally, both(filled, emptied))?;
    Ok(Desk {
        tally,
        filled,
        emptied,
    })
}

/// Returns how many operations were done there.
pub(crate) fn done_at<R: Wait>(rt: &R, desk: &Desk, token: &mut Token) -> u64
    requires { IsTokenOf (lot_of_condvar desk.now.filled) token.old }
{
    desk.tally.with(rt, token, |tally: &mut Tally| tally.done)
}

/// Notifies the first of nobody, so many times.
#[inline(never)]
pub(crate) fn notify_nobody<const SECOND: bool, R: Wait>(
    rt: &R,
    condvar: &Condvar,
    token: &mut Token,
    times: u64,
)
    requires { IsTokenOf (lot_of_condvar condvar.now) token.old }
    ensures { IsTokenOf (lot_of_condvar condvar.now) token.new }
{
    for _ in 0..times {
        condvar.notify_one(rt, token);
    }
}

// Waits for as long as a condition holds. Nobody waits there with another mutex.
#[inline]
fn wait_while<'d, R: Wait, F: FnMut(&mut Tally) -> bool + Drop>(
    rt: &R,
    condvar: &Condvar,
    token: &mut Token,
    guard: MutexGuard<'d, Tally>,
    condition: F,
) -> MutexGuard<'d, Tally>
    requires token { IsTokenOf (lot_of_condvar condvar.now) token.old }
    requires condvar { lot_of (lock_of guard) ≡ lot_of_condvar condvar.now }
    requires callable { F.IsAlwaysCallable condition }
    ensures token { IsTokenOf (lot_of_condvar condvar.now) token.new }
    ensures guard { lock_of result ≡ lock_of guard.entry }
{
    match condvar.wait_while(rt, token, guard, condition) {
        Ok(guard) => guard,
        Err((_, guard)) => guard,
    }
}

// Waits until all of so many have come. The last notifies the others.
fn meet<R: Wait>(rt: &R, desk: &Desk, token: &mut Token, threads: u64) -> bool
    requires { IsTokenOf (lot_of_condvar desk.now.filled) token.old }
    ensures { IsTokenOf (lot_of_condvar desk.now.filled) token.new }
{
    let mut guard = desk.tally.lock(rt, token);
    match guard.meet(threads) {
        Meeting::Over => {
            guard.unlock(rt, token);
            false
        }
        Meeting::Full => {
            guard.unlock(rt, token);
            desk.filled.notify_all(rt, token);
            true
        }
        Meeting::Waits { round } => {
            let guard = wait_while(rt, &desk.filled, token, guard, move |tally: &mut Tally| {
                tally.done == round
            });
            guard.unlock(rt, token);
            true
        }
    }
}

// Waits for its turn, and gives it to the next. Whether anything was left to do.
fn take_turn<R: Wait>(rt: &R, desk: &Desk, token: &mut Token, number: u64, threads: u64) -> bool
    requires { IsTokenOf (lot_of_condvar desk.now.filled) token.old }
    ensures { IsTokenOf (lot_of_condvar desk.now.filled) token.new }
{
    let guard = desk.tally.lock(rt, token);
    let mut guard = wait_while(rt, &desk.filled, token, guard, move |tally: &mut Tally| {
        tally.left != 0 && tally.at != number
    });
    let any = guard.take_turn(threads);
    guard.unlock(rt, token);
    desk.filled.notify_all(rt, token);
    any
}

// Waits for a place, and puts an item there. Whether one was left to put.
fn send<R: Wait>(rt: &R, desk: &Desk, token: &mut Token) -> bool
    requires { IsTokenOf (lot_of_condvar desk.now.filled) token.old }
    ensures { IsTokenOf (lot_of_condvar desk.now.filled) token.new }
{
    let guard = desk.tally.lock(rt, token);
    let mut guard = wait_while(rt, &desk.emptied, token, guard, |tally: &mut Tally| {
        tally.left != 0 && tally.at >= PLACES
    });
    let any = guard.put();
    guard.unlock(rt, token);
    if any {
        desk.filled.notify_one(rt, token);
    } else {
        desk.filled.notify_all(rt, token);
        desk.emptied.notify_all(rt, token);
    }
    any
}

// Waits for an item, and takes it. Whether one came.
fn receive<R: Wait>(rt: &R, desk: &Desk, token: &mut Token) -> bool
    requires { IsTokenOf (lot_of_condvar desk.now.filled) token.old }
    ensures { IsTokenOf (lot_of_condvar desk.now.filled) token.new }
{
    let guard = desk.tally.lock(rt, token);
    let mut guard = wait_while(rt, &desk.filled, token, guard, |tally: &mut Tally| {
        tally.left != 0 && tally.at == 0
    });
    let any = guard.take();
    guard.unlock(rt, token);
    desk.emptied.notify_one(rt, token);
    any
}

/// How threads work at a desk.
#[derive(Clone, Copy)]
pub(crate) enum Way {
    Meet,
    TakeTurns,
    Queue,
}

// Returns the number of a thread, by the order in which they come.
fn come_to<R: Wait>(rt: &R, desk: &Desk, token: &mut Token) -> u64
    requires { IsTokenOf (lot_of_condvar desk.now.filled) token.old }
    ensures { IsTokenOf (lot_of_condvar desk.now.filled) token.new }
{
    let mut guard = desk.tally.lock(rt, token);
    let number = guard.come();
    guard.unlock(rt, token);
    number
}

/// Works at a desk until nothing is left. How many operations it took part in.
pub(crate) fn work_at<R: Wait>(
    rt: &R,
    desk: &Desk,
    token: &mut Token,
    way: Way,
    threads: u64,
) -> u64
    requires { IsTokenOf (lot_of_condvar desk.now.filled) token.old }
    ensures { IsTokenOf (lot_of_condvar desk.now.filled) token.new }
{
    let number = come_to(rt, desk, token);
    let mut done = 0u64;
    for _ in rt.forever() {
        let any = match way {
            Way::Meet => meet(rt, desk, token, threads),
            Way::TakeTurns => take_turn(rt, desk, token, number, threads),
            Way::Queue if number % 2 == 0 => send(rt, desk, token),
            Way::Queue => receive(rt, desk, token),
        };
        if !any {
            break;
        }
        done = done.wrapping_add(1);
    }
    done
}
