//! The threads: one that is timed, one that wakes it, and others that sleep up to other deadlines.
ghost use Rattle.std.specs.Prelude.{◌≡◌};
ghost use Rattle.parking_lot.specs.LotOf.{IsTokenOf, lock_of, lot_of};

use crate::plans::{Mode, Plan};
use crate::rooms::{Ball, Room, Sign, room_in};
use parking_lot::{Clock, Fault, SystemClock, Team, Token};
use std::alloc::Global;
use std::sync::Wait;
use std::thread::Threads;
use std::time::{Clock as SystemTimes, Duration};

// How long a wait lasts that nobody notifies, in nanoseconds.
const SHORT: u64 = 1_000_000;

// A time that no sample takes, in nanoseconds.
const FAR: u64 = 600_000_000_000;

// How often the waking thread looks whether the other is about to sleep, in nanoseconds.
const LOOK: u64 = 20_000;

// How long the other has then to fall asleep, in nanoseconds.
const SETTLE: u64 = 300_000;

// Waits for a millisecond, and returns by how many nanoseconds the wait was longer.
fn time_out<R: Wait + SystemTimes>(rt: &R, room: &Room, token: &mut Token) -> u64
    requires { IsTokenOf (lot_of room.now.ball) token.old }
    ensures { IsTokenOf (lot_of room.now.ball) token.new }
{
    let clock = SystemClock::new(rt);
    let guard = room.ball.lock(rt, token);
    let began = clock.now();
    let again = |_: &mut Ball| true;
    let guard = match room.told.wait_while_for(
        rt,
        token,
        guard,
        again,
        &clock,
        Duration::from_nanos(SHORT),
    ) {
        Ok((guard, _)) => guard,
        Err((_, guard)) => guard,
    };
    let took = clock.now().saturating_sub(began);
    guard.unlock(rt, token);
    took.saturating_sub(SHORT)
}

// Waits until another thread notifies, and returns how many nanoseconds that is past.
fn be_told<R: Wait + SystemTimes>(rt: &R, room: &Room, token: &mut Token, is_timed: bool) -> u64
    requires { IsTokenOf (lot_of room.now.ball) token.old }
    ensures { IsTokenOf (lot_of room.now.ball) token.new }
{
    let clock = SystemClock::new(rt);
    let mut guard = room.ball.lock(rt, token);
    guard.waits = true;
    let again = |ball: &mut Ball| ball.sent_at.is_none();
    let mut guard = if is_timed {
        match room
            .told
            .wait_while_for(rt, token, guard, again, &clock, Duration::from_nanos(FAR))
        {
            Ok((guard, _)) => guard,
            Err((_, guard)) => guard,
        }
    } else {
        match room.told.wait_while(rt, token, guard, again) {
            Ok(guard) => guard,
            Err((_, guard)) => guard,
        }
    };
    let now = clock.now();
    let sent_at = guard.sent_at.take().unwrap_or(now);
    guard.unlock(rt, token);
    now.saturating_sub(sent_at)
}

// Waits until another thread gives a sign, and takes it away.
fn await_sign<R: Wait + SystemTimes>(rt: &R, room: &Room, token: &mut Token, sign: Sign)
    requires { IsTokenOf (lot_of room.now.ball) token.old }
    ensures { IsTokenOf (lot_of room.now.ball) token.new }
{
    for _ in rt.forever() {
        let mut guard = room.ball.lock(rt, token);
        let is_there = guard.take(sign);
        guard.unlock(rt, token);
        if is_there {
            break;
        }
        rt.sleep(Duration::from_nanos(LOOK));
    }
}

fn give_sign<R: Wait>(rt: &R, room: &Room, token: &mut Token, sign: Sign)
    requires { IsTokenOf (lot_of room.now.ball) token.old }
    ensures { IsTokenOf (lot_of room.now.ball) token.new }
{
    let mut guard = room.ball.lock(rt, token);
    guard.give(sign);
    guard.unlock(rt, token);
}

// Notifies the thread that is timed, once it has had time to fall asleep.
fn notify<R: Wait + SystemTimes>(rt: &R, room: &Room, token: &mut Token)
    requires { IsTokenOf (lot_of room.now.ball) token.old }
    ensures { IsTokenOf (lot_of room.now.ball) token.new }
{
    let clock = SystemClock::new(rt);
    await_sign(rt, room, token, Sign::Waits);
    rt.sleep(Duration::from_nanos(SETTLE));
    let mut guard = room.ball.lock(rt, token);
    guard.sent_at = Some(clock.now());
    guard.unlock(rt, token);
    room.told.notify_one(rt, token);
}

// Locks the fair mutex, and hands it over to the thread that is timed once that one has had time to fall
// asleep.
fn hand_over<R: Wait + SystemTimes>(rt: &R, room: &Room, token: &mut Token)
    requires { IsTokenOf (lot_of room.now.ball) token.old }
    ensures { IsTokenOf (lot_of room.now.ball) token.new }
{
    let clock = SystemClock::new(rt);
    let mut stick = room.stick.lock(rt, token);
    give_sign(rt, room, token, Sign::Holds);
    await_sign(rt, room, token, Sign::Waits);
    rt.sleep(Duration::from_nanos(SETTLE));
    *stick = clock.now();
    stick.unlock(rt, token);
}

// Is handed the fair mutex, and returns how many nanoseconds that took.
fn take_over<R: Wait + SystemTimes>(rt: &R, room: &Room, token: &mut Token, is_timed: bool) -> u64
    requires { IsTokenOf (lot_of room.now.ball) token.old }
    ensures { IsTokenOf (lot_of room.now.ball) token.new }
{
    let clock = SystemClock::new(rt);
    await_sign(rt, room, token, Sign::Holds);
    give_sign(rt, room, token, Sign::Waits);
    let stick = if is_timed {
        match room
            .stick
            .try_lock_for(rt, token, &clock, Duration::from_nanos(FAR))
        {
            Some(stick) => stick,
            None => return FAR,
        }
    } else {
        room.stick.lock(rt, token)
    };
    let took = clock.now().saturating_sub(*stick);
    stick.unlock(rt, token);
    took
}

// Sleeps up to a deadline of its own, until all samples are taken.
fn idle<R: Wait + SystemTimes>(rt: &R, room: &Room, token: &mut Token)
    requires { IsTokenOf (lot_of room.now.ball) token.old }
    ensures { IsTokenOf (lot_of room.now.ball) token.new }
{
    let clock = SystemClock::new(rt);
    let far = Duration::from_nanos(FAR.saturating_add(token.number() as u64));
    let guard = room.ball.lock(rt, token);
    let again = |ball: &mut Ball| !ball.over;
    let guard = match room
        .idle
        .wait_while_for(rt, token, guard, again, &clock, far)
    {
        Ok((guard, _)) => guard,
        Err((_, guard)) => guard,
    };
    guard.unlock(rt, token);
}

fn end<R: Wait>(rt: &R, room: &Room, token: &mut Token)
    requires { IsTokenOf (lot_of room.now.ball) token.old }
{
    let mut guard = room.ball.lock(rt, token);
    guard.over = true;
    guard.unlock(rt, token);
    room.idle.notify_all(rt, token);
}

// Takes one sample of a mode.
fn sample<R: Wait + SystemTimes>(rt: &R, room: &Room, token: &mut Token, mode: Mode) -> u64
    requires { IsTokenOf (lot_of room.now.ball) token.old }
    ensures { IsTokenOf (lot_of room.now.ball) token.new }
{
    match mode {
        Mode::TimeOut => time_out(rt, room, token),
        Mode::Notify | Mode::NotifyTimed => be_told(rt, room, token, mode.is_timed()),
        Mode::HandOver | Mode::HandOverTimed => take_over(rt, room, token, mode.is_timed()),
    }
}

// Takes all samples of a plan.
fn take_samples<R: Wait + SystemTimes>(
    rt: &R,
    alloc: Global,
    room: &Room,
    token: &mut Token,
    plan: Plan,
) -> Vec<u64>
    requires { IsTokenOf (lot_of room.now.ball) token.old }
{
    let mut samples = Vec::new(alloc);
    for _ in 0..plan.samples {
        let taken = sample(rt, room, token, plan.mode);
        samples.push(taken).unwrap_or(());
    }
    end(rt, room, token);
    samples
}

// Wakes the thread that is timed, as often as samples are taken.
fn wake<R: Wait + SystemTimes>(rt: &R, room: &Room, token: &mut Token, plan: Plan)
    requires { IsTokenOf (lot_of room.now.ball) token.old }
{
    for _ in 0..plan.samples {
        match plan.mode {
            Mode::TimeOut => (),
            Mode::Notify | Mode::NotifyTimed => notify(rt, room, token),
            Mode::HandOver | Mode::HandOverTimed => hand_over(rt, room, token),
        }
    }
}

// Does the part of a thread by its number, and returns the samples that it took.
fn work<R: Wait + SystemTimes>(
    rt: &R,
    alloc: Global,
    room: &Room,
    token: &mut Token,
    plan: Plan,
) -> Vec<u64>
    requires { IsTokenOf (lot_of room.now.ball) token.old }
{
    match token.number() {
        0 => return take_samples(rt, alloc, room, token, plan),
        1 => wake(rt, room, token, plan),
        _ => idle(rt, room, token),
    }
    Vec::new(alloc)
}

/// Takes the samples of a plan, in nanoseconds.
///
/// # Errors
///
/// `NoMemory`, where memory was refused.
pub(crate) fn latencies<R: Threads + Wait + Sync + SystemTimes>(
    rt: &R,
    alloc: Global,
    plan: Plan,
) -> Result<Vec<u64>, Fault> {
    let (team, mut token) = Team::new(alloc, plan.sleepers.saturating_add(2))?;
    let room = room_in(team.lot(), &mut token)?;
    let room = &room;
    let samples = team.run(
        rt,
        &|token: &mut Token| -> Vec<u64>
            requires { IsTokenOf (lot_of room.now.ball) token.old }
        { work(rt, alloc, room, token, plan) },
    )?;
    Ok(samples.into_iter().next().unwrap_or(Vec::new(alloc)))
}
