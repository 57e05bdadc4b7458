//! How a thread looks how far a `Once` has come: to run its closure, or to wait until a run has
//! succeeded.
//!
//! | place | does | then |
//! |---|---|---|
//! | `Load` | loads | by what it saw: ends, or `Decide` |
//! | `Decide(v)`, to be run | exchanges `v` for the word of a run | runs its closure, or as by `Load` |
//! | `Decide(v)`, without `PARKED` | exchanges `v` for `v + PARKED`, or goes on from `Load` as it spins | `Decide` |
//! | `Decide(v)` with `PARKED` | enters the section of the queue | `Check` |
//! | `Check` | stands after the last of the queue, if it still has to wait | `Leave` |
//! | `Leave` | leaves the section | `Asleep`, or `Load` where it doesn't stand in the queue |
//! | `Asleep` | sleeps | `Taken`, or it gives up where its time is up |
//! | `Taken` | sleeps | `Load` at a wake |
ghost use Rattle.std.specs.Prelude.{◌≡◌, ◌<◌, ◌^◌};
ghost use Rattle.steps_once.specs.OnceSteps.{is_forced, is_timed, runs, want_of, when_done, course_of};
ghost use Rattle.steps_once.specs.OnceSteps.{started, marked, begins_run, is_late_asleep, looked, next_look};
ghost use Rattle.steps_once.specs.OnceSteps.{still_retries, check_of, decided, look_act};

use crate::places::{LOCKED, PARKED};
use core_base::{Keys, Note, Op, Want, main_key};
use spec_locks::{Answer, OnceCall};
use steps_base::bits::{is_done, is_marked, is_poisoned, is_running};
use steps_base::{Act, Check, Next, Reply, Wakes};

/// Where a thread stands that looks, or waits.
#[derive(Clone, Copy, PartialEq, Eq)]
pub enum LookAt {
    Load,
    /// Decides by the value that it saw last.
    Decide(u64),
    /// Inside the section, before the check.
    Check,
    /// Inside the section, after the check.
    Leave { parked: bool },
    /// In the queue.
    Asleep,
    /// Taken by a thread that has not left its section yet.
    Taken { by: usize },
}

/// The course that a call takes by the value that it saw.
#[derive(Clone, Copy, PartialEq, Eq)]
pub enum Course {
    Ends(Answer),
    /// The thread may run its closure.
    Runs,
    /// The thread is to wait, and says so in the word.
    Marks,
    /// The thread is to wait, and the word says so.
    Parks,
}

pub(super) fn is_forced(call: OnceCall) -> bool
    ensures { result ≡ is_forced call }
{
    match call {
        OnceCall::CallOnce { forced } | OnceCall::Wait { forced } => forced,
        OnceCall::WaitTimed => false,
    }
}

/// Tells whether a call has a deadline.
pub(super) fn is_timed(call: OnceCall) -> bool
    ensures { result ≡ is_timed call }
{
    matches!(call, OnceCall::WaitTimed)
}

fn runs(call: OnceCall) -> bool
    ensures { result ≡ runs call }
{
    matches!(call, OnceCall::CallOnce { .. })
}

/// Returns what a waiting call wants.
pub(super) fn want_of(call: OnceCall) -> Want
    ensures { result ≡ want_of call }
{
    match call {
        OnceCall::CallOnce { .. } => Want::CallOnce,
        OnceCall::Wait { .. } | OnceCall::WaitTimed => Want::Wait,
    }
}

/// Gives the answer of a call that sees the `Once` done: `Yes` with a deadline, else `Ok`.
fn when_done(call: OnceCall) -> Answer
    ensures { result ≡ when_done call }
{
    match call {
        OnceCall::CallOnce { .. } | OnceCall::Wait { .. } => Answer::Ok,
        OnceCall::WaitTimed => Answer::Yes,
    }
}

pub(super) fn course_of(call: OnceCall, seen: u64) -> Course
    ensures { result ≡ course_of call seen }
{
    if is_done(seen) {
        Course::Ends(when_done(call))
    } else if is_poisoned(seen) && !is_forced(call) {
        Course::Ends(Answer::Poisoned)
    } else if runs(call) && !is_running(seen) {
        Course::Runs
    } else if is_marked(seen) {
        Course::Parks
    } else {
        Course::Marks
    }
}

/// Returns the word of a run that begins: each thread that waits does so still.
fn started(seen: u64) -> u64
    ensures { result ≡ started seen }
{
    seen / PARKED * PARKED + LOCKED
}

fn marked(seen: u64) -> u64
    ensures { result ≡ marked seen }
{
    seen % PARKED + PARKED
}

/// Returns whether the thread has won the exchange by which its run begins.
pub(super) fn begins_run(call: OnceCall, at: LookAt, reply: Reply) -> bool
    ensures { result ≡ begins_run call at reply }
{
    match (at, reply) {
        (LookAt::Decide(expected), Reply::Value(seen)) => {
            seen == expected && course_of(call, seen) == Course::Runs
        }
        _ => false,
    }
}

/// Tells whether the thread gives up its sleep, since its time is up.
pub(super) fn gives_up(call: OnceCall, at: LookAt, reply: Reply) -> bool
    ensures { result ≡ is_late_asleep call at reply }
{
    match (at, reply) {
        (LookAt::Asleep, Reply::Late) => is_timed(call),
        _ => false,
    }
}

/// Returns where a thread goes by a value that it saw.
fn looked(call: OnceCall, seen: u64) -> Next<LookAt>
    ensures { result ≡ looked call seen }
{
    match course_of(call, seen) {
        Course::Ends(answer) => Next::End(answer),
        _ => Next::At(LookAt::Decide(seen)),
    }
}

/// Leads a thread on that looks, and neither begins its run nor gives up.
pub(super) fn next_look(call: OnceCall, at: LookAt, reply: Reply) -> Next<LookAt>
    ensures { result ≡ next_look call at reply }
{
    match (at, reply) {
        (LookAt::Load, Reply::Value(seen)) => looked(call, seen),
        (LookAt::Decide(expected), Reply::Value(seen)) => {
            if seen == expected && course_of(call, seen) == Course::Marks {
                Next::At(LookAt::Decide(marked(seen)))
            } else {
                looked(call, seen)
            }
        }
        (LookAt::Decide(_), Reply::Done) => Next::At(LookAt::Check),
        (LookAt::Check, Reply::Parked(parked)) => Next::At(LookAt::Leave { parked }),
        (LookAt::Leave { parked }, Reply::Done) => if parked {
            Next::At(LookAt::Asleep)
        } else {
            Next::At(LookAt::Load)
        },
        (LookAt::Asleep, Reply::TakenBy(by)) => Next::At(LookAt::Taken { by }),
        // A running thread sees its wake note alone, and not which thread took it.
        (LookAt::Asleep, Reply::Woken(Note::Normal)) => Next::At(LookAt::Load),
        (LookAt::Taken { .. }, Reply::Woken(Note::Normal)) => Next::At(LookAt::Load),
        (at, _) => Next::At(at),
    }
}

/// Returns whether a thread retries after the reply.
pub(super) fn still_retries(retries: bool, reply: Reply) -> bool
    ensures { result ≡ still_retries retries reply }
{
    match reply {
        Reply::Woken(Note::Normal) => true,
        Reply::Parked(parked) => retries && !parked,
        _ => retries,
    }
}

/// Returns the test by which a thread finds inside the section that it still has to wait.
fn check(call: OnceCall) -> Check
    ensures { result ≡ check_of call }
{
    match call {
        OnceCall::CallOnce { .. } => Check::WordIs(LOCKED + PARKED),
        OnceCall::Wait { forced } => Check::Unfinished { forced },
        OnceCall::WaitTimed => Check::Unfinished { forced: false },
    }
}

/// Returns the act of a thread on a value that it saw.
fn decided(lock: usize, call: OnceCall, seen: u64) -> Act
    requires { lock < 2 ^ 63 }
    ensures { result ≡ decided lock call seen }
{
    match course_of(call, seen) {
        Course::Ends(_) => Act::Word { lock, op: Op::Load },
        Course::Runs => Act::Word {
            lock,
            op: Op::Exchange {
                from: seen,
                to: started(seen),
            },
        },
        Course::Marks => Act::Word {
            lock,
            op: Op::Exchange {
                from: seen,
                to: marked(seen),
            },
        },
        Course::Parks => Act::Enter(Keys::One(main_key(lock))),
    }
}

/// Returns the next act of a thread that looks, or waits.
pub(super) fn look_act(lock: usize, call: OnceCall, at: LookAt) -> Act
    requires { lock < 2 ^ 63 }
    ensures { result ≡ look_act lock call at }
{
    match at {
        LookAt::Load => Act::Word { lock, op: Op::Load },
        LookAt::Decide(seen) => decided(lock, call, seen),
        LookAt::Check => Act::Park {
            lock,
            key: main_key(lock),
            check: check(call),
            want: want_of(call),
        },
        LookAt::Leave { .. } => Act::Leave {
            keys: Keys::One(main_key(lock)),
            wakes: Wakes::Nobody,
        },
        LookAt::Asleep | LookAt::Taken { .. } => Act::Sleep,
    }
}
