//! A thread's orders, of locks by their numbers, and how they are carried out.
ghost use Rattle.std.specs.Prelude.{◌≡◌, ℕ, List, ◌<◌, ◌&&◌, if◌then◌else◌, None, Some, length};
ghost use Rattle.lot_machine.specs.Machine.{kind_at, State as LotState};
ghost use Rattle.lot_text.specs.Turns.{named_turn};
ghost use Rattle.lot_replay.specs.Sessions.{session_world};
ghost use Rattle.lot_replay.specs.Stages.{call_named, action_of, done_by, is_bare_wait};

use crate::session::Session;
use core_base::Queues;
use lot_text::{Name, NamedCall, NamedTurn, PlainTurn};
use lot_world::{Call, Kind, Outcome, Step, Turn, World};
use spec_locks::{CondvarCall, OnceCall};

/// The order of a thread, of locks by their numbers.
#[derive(Clone, Copy)]
pub enum Action {
    Turn(Turn),
    Solo,
    Do(Call),
}

impl<Q: Queues + Drop> Session<Q> {
    /// Finds the action of a turn whose locks are named, by their numbers.
    pub(crate) fn action_of(&self, turn: NamedTurn) -> Option<Action>
        ensures { result ≡ action_of self.now.names (session_world self.now) turn }
    {
        match turn {
            NamedTurn::Begin { call, name } => {
                let call = self.call_named(call, name)?;
                Some(Action::Turn(Turn::Begin(call)))
            }
            NamedTurn::Go => Some(Action::Turn(Turn::Go)),
            NamedTurn::Spin => Some(Action::Turn(Turn::Spin)),
            NamedTurn::Late => Some(Action::Turn(Turn::Late)),
            NamedTurn::Ok => Some(Action::Turn(Turn::Ok)),
            NamedTurn::Err => Some(Action::Turn(Turn::Err)),
            NamedTurn::Solo => Some(Action::Solo),
            NamedTurn::Do { call, name } => {
                let call = self.call_named(call, name)?;
                Some(Action::Do(call))
            }
        }
    }

    fn call_named(&self, call: NamedCall, name: Name) -> Option<Call>
        ensures { result ≡ call_named self.now.names (session_world self.now) call name }
    {
        let lock = self.names.find(name)?;
        let on_condvar = self.kind_of(lock).is_condvar();
        match call {
            NamedCall::Mutex(call) => Some(Call::Mutex { lock, call }),
            NamedCall::RwLock(call) => Some(Call::RwLock { lock, call }),
            NamedCall::Once(call) => once_call(lock, call, on_condvar),
            NamedCall::Semaphore(call) => Some(Call::Semaphore { lock, call }),
            NamedCall::Notify { all } => {
                let call = CondvarCall::Notify { all };
                Some(Call::Condvar { lock, call })
            }
            NamedCall::Wait { mutex, timed } => {
                if !on_condvar {
                    return None;
                }
                let mutex = self.names.find(mutex)?;
                let call = CondvarCall::Wait { mutex, timed };
                Some(Call::Condvar { lock, call })
            }
        }
    }

    fn kind_of(&self, lock: usize) -> Kind
        requires { lock < length self.now.names }
        ensures { result ≡ kind_at (session_world self.now) lock }
    {
        match &self.world {
            Some(world) => world.kind(lock),
            None => self.kinds[lock],
        }
    }
}

/// Tells whether a call has the word of a wait on a condition variable, and names no mutex.
fn is_bare_wait(call: OnceCall) -> bool
    ensures { result ≡ is_bare_wait call }
{
    matches!(call, OnceCall::Wait { forced: false } | OnceCall::WaitTimed)
}

// Returns a wait on a condition variable would name its mutex.
fn once_call(lock: usize, call: OnceCall, on_condvar: bool) -> Option<Call>
    ensures { result ≡ (if on_condvar && is_bare_wait call then None
        else Some (Call.Once lock call)) }
{
    if on_condvar && is_bare_wait(call) {
        return None;
    }
    Some(Call::Once { lock, call })
}

/// Returns the action of a plain turn.
pub fn plain_action(turn: PlainTurn) -> Action
    ensures { (names : List (List ℕ)) (w : LotState)
        → action_of names w (named_turn turn) ≡ Some result }
{
    match turn {
        PlainTurn::Go => Action::Turn(Turn::Go),
        PlainTurn::Spin => Action::Turn(Turn::Spin),
        PlainTurn::Late => Action::Turn(Turn::Late),
    }
}

/// Does it, and answers the last outcome.
#[inline(always)]
pub fn perform<Q: Queues + Drop>(world: &mut World<Q>, thread: usize, action: Action) -> Outcome
    ensures state { world.new ≡ (done_by world.old thread action).0 }
    ensures outcome { result ≡ (done_by world.old thread action).1 }
    ensures same_locks { length world.new.locks ≡ length world.old.locks }
{
    match action {
        Action::Turn(turn) => world.step(Step { thread, turn }),
        Action::Solo => world.solo(thread),
        Action::Do(call) => {
            let turn = Turn::Begin(call);
            match world.step(Step { thread, turn }) {
                Outcome::NotNow => Outcome::NotNow,
                _ => world.solo(thread),
            }
        }
    }
}
