//! Threads that send numbers to one another through a queue that is bounded.
ghost use Rattle.std.specs.Prelude.{◌≡◌, ◌≤◌, All};
ghost use Rattle.parking_lot.specs.LotOf.{IsTicketOf, IsTokenOf, lock_of, lot_of, lot_of_condvar};

use super::{Limit, check, condvar_of, mutex_of, seats, wait};
use parking_lot::{Condvar, Mutex, MutexGuard, TickClock, Ticket, Token};
use std::alloc::Global;
use std::process::Abort;
use std::sync::Wait;
use std::sync::atomic::Ordering::SeqCst;
use std::sync::atomic::{AtomicU64, AtomicUsize};
use std::thread::{Threads, map_vec};

const EACH: u64 = 200;

// The nanoseconds that a bounded wait may last.
const SHORT: u64 = 1000;

// Numbers that were sent and not taken yet: how many they are, the sum of all that were sent, how
// many may be there, and how many are still to come.
#[derive(Drop)]
struct Line {
    inside: u64,
    sum: u64,
    most: u64,
    to_come: u64,
}

impl Line {
    fn is_full(&self) -> bool {
        self.inside >= self.most
    }

    // Returns whether there is none to take yet, and one may come.
    fn is_blank(&self) -> bool {
        self.inside == 0 && self.to_come != 0
    }

    fn put(&mut self, number: u64) {
        self.inside = self.inside.wrapping_add(1);
        self.sum = self.sum.wrapping_add(number);
        self.to_come = self.to_come.wrapping_sub(1);
    }

    // Takes one. Whether there was one.
    fn take(&mut self) -> bool {
        let any = self.inside != 0;
        if any {
            self.inside = self.inside.wrapping_sub(1);
        }
        any
    }
}

// A queue, on which those wait that find it empty, and those that find it full.
#[derive(Drop)]
struct Pipe {
    line: Mutex<Line>,
    filled: Condvar,
    emptied: Condvar,
    ghost together: { (lot_of_condvar filled ≡ lot_of line) × (lot_of_condvar emptied ≡ lot_of line) },
}

// How threads wait and notify.
#[derive(Clone, Copy)]
enum Style {
    One,
    All,
    // As by all, and each wait is bounded.
    Bounded,
}

impl Style {
    fn limit(self) -> Limit {
        match self {
            Style::Bounded => Limit::For(SHORT),
            _ => Limit::None,
        }
    }
}

fn notify<R: Wait>(rt: &R, condvar: &Condvar, token: &mut Token, style: Style)
    requires { IsTokenOf (lot_of_condvar condvar.now) token.old }
    ensures { IsTokenOf (lot_of_condvar condvar.now) token.new }
{
    if matches!(style, Style::One) {
        condvar.notify_one(rt, token);
    } else {
        condvar.notify_all(rt, token);
    }
}

// The guard of the line, once that blocks nobody like this one any more.
fn guard_past<'p, R: Wait, F: Fn(&Line) -> bool + Drop>(
    rt: &R,
    pipe: &'p Pipe,
    condvar: &Condvar,
    token: &mut Token,
    style: Style,
    blocks: F,
) -> MutexGuard<'p, Line>
    requires token { IsTokenOf (lot_of pipe.now.line) token.old }
    requires condvar { lot_of_condvar condvar.now ≡ lot_of pipe.now.line }
    requires blocks { F.IsAlwaysCallable blocks }
    ensures token { IsTokenOf (lot_of pipe.now.line) token.new }
    ensures guard { lock_of result ≡ pipe.now.line }
{
    let clock = TickClock::new();
    let mut guard = pipe.line.lock(rt, token);
    for _ in rt.forever() {
        if !blocks(&*guard) {
            break;
        }
        (guard, _) = wait(rt, condvar, token, guard, &clock, style.limit());
    }
    guard
}

// Waits until there is room, and sends a number.
fn send<R: Wait>(rt: &R, pipe: &Pipe, token: &mut Token, number: u64, style: Style)
    requires { IsTokenOf (lot_of pipe.now.line) token.old }
    ensures { IsTokenOf (lot_of pipe.now.line) token.new }
{
    let mut guard = guard_past(rt, pipe, &pipe.emptied, token, style, Line::is_full);
    guard.put(number);
    guard.unlock(rt, token);
    notify(rt, &pipe.filled, token, style);
}

// Waits until there is a number to take, or none comes any more. Whether it took one.
fn receive<R: Wait>(rt: &R, pipe: &Pipe, token: &mut Token, style: Style) -> bool
    requires { IsTokenOf (lot_of pipe.now.line) token.old }
    ensures { IsTokenOf (lot_of pipe.now.line) token.new }
{
    let mut guard = guard_past(rt, pipe, &pipe.filled, token, style, Line::is_blank);
    let any = guard.take();
    guard.unlock(rt, token);
    notify(rt, &pipe.emptied, token, style);
    any
}

fn send_each<R: Wait>(rt: &R, pipe: &Pipe, token: &mut Token, style: Style)
    requires { IsTokenOf (lot_of pipe.now.line) token.old }
    ensures { IsTokenOf (lot_of pipe.now.line) token.new }
{
    for number in 1..=EACH {
        send(rt, pipe, token, number, style);
    }
    pipe.filled.notify_all(rt, token);
}

// Takes numbers until none come any more, and counts them.
fn receive_each<R: Wait>(rt: &R, pipe: &Pipe, token: &mut Token, style: Style, taken: &AtomicU64)
    requires { IsTokenOf (lot_of pipe.now.line) token.old }
    ensures { IsTokenOf (lot_of pipe.now.line) token.new }
{
    for _ in rt.forever() {
        if !receive(rt, pipe, token, style) {
            break;
        }
        taken.fetch_add(1, SeqCst);
    }
}

// How many numbers all threads of these tickets took. The first that come send.
fn send_and_receive<R: Threads + Wait + Sync>(
    rt: &R,
    pipe: &Pipe,
    tickets: Vec<Ticket>,
    senders: usize,
    style: Style,
) -> Option<u64>
    requires { All (IsTicketOf (lot_of pipe.now.line)) tickets.items }
{
    let (came, taken) = (&AtomicUsize::new(0), &AtomicU64::new(0));
    let ended = map_vec(
        rt,
        tickets,
        &|ticket: Ticket|
            requires { IsTicketOf (lot_of pipe.now.line) ticket }
        {
            let mut token = ticket.enter();
            if came.fetch_add(1, SeqCst) < senders {
                send_each(rt, pipe, &mut token, style);
            } else {
                receive_each(rt, pipe, &mut token, style, taken);
            }
            drop(token.leave());
        },
    );
    if ended.is_err() {
        return None;
    }
    Some(taken.load(SeqCst))
}

// A queue for so many threads, which as many as these send to.
fn pipe_for<A: Abort>(
    rt: &A,
    alloc: Global,
    threads: usize,
    senders: usize,
    most: u64,
) -> (Pipe, Vec<Ticket>)
    requires { threads ≤ 200 }
    ensures { All (IsTicketOf (lot_of result.0.line)) result.1.items }
{
    let (lot, mut token, others) = seats(rt, alloc, threads + 1);
    let line = Line {
        inside: 0,
        sum: 0,
        most,
        to_come: EACH.wrapping_mul(senders as u64),
    };
    let line = mutex_of(rt, &lot, &mut token, line);
    let filled = condvar_of(rt, &lot, &mut token);
    let emptied = condvar_of(rt, &lot, &mut token);
    let pipe = Pipe {
        line,
        filled,
        emptied,
    };
    (pipe, others)
}

// Returns whether all numbers are taken that are sent, and their sum is right: by so many senders
// and receivers, through so many places.
fn passes<R: Threads + Wait + Abort + Sync>(
    rt: &R,
    alloc: Global,
    senders: usize,
    receivers: usize,
    most: u64,
    style: Style,
) -> bool
    requires { (senders ≤ 100) × (receivers ≤ 100) }
{
    let (pipe, others) = pipe_for(rt, alloc, senders + receivers, senders, most);
    let taken = send_and_receive(rt, &pipe, others, senders, style);
    let line = pipe.line.into_inner();
    let sent = EACH.wrapping_mul(senders as u64);
    let wanted = (senders as u64).wrapping_mul(EACH * (EACH + 1) / 2);
    taken == Some(sent) && line.inside == 0 && line.sum == wanted
}

#[test]
fn one_sends_to_one(rt: HostRuntime) {
    // Through one place, in bounded waits, and through a hundred places.
    for (most, style) in [(1, Style::All), (1, Style::Bounded), (100, Style::All)] {
        check(&rt, passes(&rt, rt.alloc(), 1, 1, most, style));
    }
}

#[test]
fn one_sends_to_five(rt: HostRuntime) {
    check(&rt, passes(&rt, rt.alloc(), 1, 5, 1, Style::All));
}

#[test]
fn ten_send_to_one(rt: HostRuntime) {
    check(&rt, passes(&rt, rt.alloc(), 10, 1, 1, Style::All));
}

#[test]
fn ten_send_to_ten(rt: HostRuntime) {
    // The threads that notify all, those that notify one, and those in bounded waits.
    for (most, style) in [(1, Style::All), (1, Style::One), (5, Style::Bounded)] {
        check(&rt, passes(&rt, rt.alloc(), 10, 10, most, style));
    }
}
