//! How a thread runs the closure of a `Once`, and wakes all that wait for the end of its run.
//!
//! | place | does | then |
//! |---|---|---|
//! | `Closure` | runs the closure | `Close` |
//! | `Close` | swaps in `DONE`, or `POISONED` where its closure answered an error | `Enter` where it saw `PARKED`, else ends |
//! | `Enter` | enters the section of the queue | `Take` |
//! | `Take` | takes all waiters | `Leave` |
//! | `Leave` | leaves the section, and wakes them | ends |
ghost use Rattle.std.specs.Prelude.{◌≡◌, ◌<◌, ◌^◌};
ghost use Rattle.steps_once.specs.OnceSteps.{closure_begun, state_before, phase_afterwards, word_after};
ghost use Rattle.steps_once.specs.OnceSteps.{ended};
ghost use Rattle.steps_once.specs.OnceSteps.{next_run, run_act};

use crate::places::{DONE, POISONED};
use core_base::{Keys, Note, Op, main_key};
use spec_locks::{Answer, OnceState};
use steps_base::bits::{is_marked, is_poisoned};
use steps_base::{Act, Next, Phase, Reply, TakeWhich, Wakes};

/// Where a thread stands that runs its closure, or ends its run.
#[derive(Clone, Copy, PartialEq, Eq)]
pub enum RunAt {
    /// The run before failed, or there was none.
    Closure { poisoned: bool },
    Close { succeeded: bool },
    /// The thread saw `PARKED`.
    Enter { succeeded: bool },
    Take { succeeded: bool },
    Leave { succeeded: bool, any: bool },
}

impl RunAt {
    /// Where a run begins, by the value that the thread's exchange found.
    pub(super) fn found(reply: Reply) -> RunAt
        ensures { result ≡ closure_begun reply }
    {
        match reply {
            Reply::Value(seen) => RunAt::Closure {
                poisoned: is_poisoned(seen),
            },
            _ => RunAt::Closure { poisoned: false },
        }
    }
}

/// Returns the state that a closure is told as it begins.
pub(super) fn state_before(poisoned: bool) -> OnceState
    ensures { result ≡ state_before poisoned }
{
    if poisoned {
        OnceState::Poisoned
    } else {
        OnceState::New
    }
}

/// Returns how far the `Once` has come after the run.
pub(super) fn phase_afterwards(succeeded: bool) -> Phase
    ensures { result ≡ phase_afterwards succeeded }
{
    if succeeded {
        Phase::Done
    } else {
        Phase::Poisoned
    }
}

fn word_after(succeeded: bool) -> u64
    ensures { result ≡ word_after succeeded }
{
    if succeeded { DONE } else { POISONED }
}

fn ended(succeeded: bool) -> Answer
    ensures { result ≡ ended succeeded }
{
    if succeeded {
        Answer::Ok
    } else {
        Answer::Failed
    }
}

/// Returns where a run goes.
pub(super) fn next_run(at: RunAt, reply: Reply) -> Next<RunAt>
    ensures { result ≡ next_run at reply }
{
    match (at, reply) {
        (RunAt::Closure { .. }, Reply::Closed { succeeded }) => {
            Next::At(RunAt::Close { succeeded })
        }
        (RunAt::Close { succeeded }, Reply::Value(seen)) => if is_marked(seen) {
            Next::At(RunAt::Enter { succeeded })
        } else {
            Next::End(ended(succeeded))
        },
        (RunAt::Enter { succeeded }, Reply::Done) => Next::At(RunAt::Take { succeeded }),
        (RunAt::Take { succeeded }, Reply::Took { any, .. }) => {
            Next::At(RunAt::Leave { succeeded, any })
        }
        (RunAt::Leave { succeeded, .. }, Reply::Done) => Next::End(ended(succeeded)),
        (at, _) => Next::At(at),
    }
}

/// Returns the next act of a run.
pub(super) fn run_act(lock: usize, at: RunAt) -> Act
    requires { lock < 2 ^ 63 }
    ensures { result ≡ run_act lock at }
{
    match at {
        RunAt::Closure { poisoned } => Act::Closure(state_before(poisoned)),
        RunAt::Close { succeeded } => Act::Word {
            lock,
            op: Op::Swap(word_after(succeeded)),
        },
        RunAt::Enter { .. } => Act::Enter(Keys::One(main_key(lock))),
        RunAt::Take { .. } => Act::Take {
            key: main_key(lock),
            whom: TakeWhich::All,
        },
        RunAt::Leave { any, .. } => Act::Leave {
            keys: Keys::One(main_key(lock)),
            wakes: Wakes::taken(any, Note::Normal),
        },
    }
}
