//! The threads and locks of a replay, and what they answer to a line.
//!
//! The world is made at the first line that is neither `threads` nor `lock`; where memory for it is
//! refused, that line is named. A schedule without such a line makes no world.
ghost use Rattle.std.specs.Prelude.{◌≡◌, ◌≤◌, ℕ, List, [], Option, Some, IfSome, IfNone, length};
ghost use Rattle.lot_world.specs.declared.world.TheConstants.{MOST_THREADS, MOST_LOCKS};
ghost use Rattle.lot_text.specs.Lines.{line_len};
ghost use Rattle.lot_text.specs.Sent.{Puts};
ghost use Rattle.lot_text.specs.Grammar.{meaning};
ghost use Rattle.lot_text.specs.Turns.{Says, named_turn};
ghost use Rattle.lot_replay.specs.Stages.{nothing, declaring, running, acted, action_at, played, obeyed};
ghost use Rattle.lot_replay.specs.Stages.{after_line};
ghost use Rattle.lot_replay.specs.Sessions.{session_stage, session_world, replay_stage_of, stage_shown};
ghost use Rattle.lot_replay.specs.Answers.{AnswersTo};

use crate::actions::{Action, perform, plain_action};
use crate::drains::drain_world;
use crate::session::Session;
use crate::show::show_locks;
use core_base::Queues;
use lot_text::{
    Command, LINE_LEN, Line, Name, NamedTurn, Names, Page, PlainTurn, meaning, print_turn,
};
use lot_world::{Kind, MOST_LOCKS, MOST_THREADS, World};
use std::alloc::Global;
use std::io::Write;

/// Why a line isn't answered.
#[derive(Clone, Copy, Debug, PartialEq, Eq)]
pub enum Refusal {
    Malformed,
    NoMemory,
}

/// The stage to which the lines of a replay have led, to be looked at.
#[derive(Clone, Copy, Drop)]
pub enum SessionStage<'a, Q: Queues + Drop> {
    /// The threads are not there yet.
    Nothing,
    /// Locks of these names and kinds are declared, and no line has taken a turn.
    Declaring {
        threads: usize,
        names: &'a [Name],
        kinds: &'a [Kind],
    },
    /// A world of locks of these names.
    Running {
        names: &'a [Name],
        world: &'a World<Q>,
    },
}

/// The stage to which the lines of a replay have led: nothing before the threads are there.
#[derive(Drop)]
pub struct State<Q: Queues + Drop> {
    session: Option<Session<Q>>,
}

impl<Q: Queues + Drop> State<Q> {
    pub fn new() -> State<Q>
        ensures { replay_stage_of result.session ≡ nothing }
    {
        State { session: None }
    }

    /// Returns the world with the names of its locks, from the first turn, `show` or `drain` on.
    pub fn scene(&self) -> Option<(&World<Q>, &[Name])>
        ensures { IfSome result
            (λ scene. replay_stage_of self.now.session ≡ running scene.1.now scene.0.now) }
    {
        let session = self.session.as_ref()?;
        let world = session.world.as_ref()?;
        Some((world, session.names.as_slice()))
    }

    /// Returns the stage, to be looked at.
    pub fn stage(&self) -> SessionStage<'_, Q>
        ensures { replay_stage_of self.now.session ≡ stage_shown result }
    {
        let Some(session) = &self.session else {
            return SessionStage::Nothing;
        };
        let names = session.names.as_slice();
        match &session.world {
            Some(world) => SessionStage::Running { names, world },
            None => SessionStage::Declaring {
                threads: session.threads,
                names,
                kinds: session.kinds.as_slice(),
            },
        }
    }

    /// Returns the action of a turn whose locks are named, by their numbers: none where no lock has a name, or
    /// a wait names no mutex that it wants.
    pub fn action(&self, turn: NamedTurn) -> Option<Action>
        ensures { result ≡ action_at (replay_stage_of self.now.session) turn }
    {
        self.session.as_ref()?.action_of(turn)
    }

    /// Answers a line that says this, and has the text `kept`. One that is refused changes nothing,
    /// and nothing is said of it here.
    #[inline]
    pub fn answer_next<W: Write>(
        &mut self,
        alloc: Global,
        page: &mut Page,
        writer: &mut W,
        said: Line,
        kept: &[u8],
    ) -> Result<(), Refusal>
        requires { Says said kept.now }
        ensures { AnswersTo (meaning kept.now) (after_line (replay_stage_of self.old.session) kept.now)
            result (replay_stage_of self.old.session) (replay_stage_of self.new.session)
            (Puts (W.contents writer.old) (W.contents writer.new) page.old page.new) }
    {
        match said {
            Line::Turn { thread, turn } => self.take_turn(alloc, page, writer, thread, turn),
            Line::Text => {
                if kept.len() > LINE_LEN {
                    return Err(Refusal::Malformed);
                }
                self.answer(alloc, page, writer, kept)
            }
        }
    }

    fn take_turn<W: Write>(
        &mut self,
        alloc: Global,
        page: &mut Page,
        writer: &mut W,
        thread: usize,
        turn: PlainTurn,
    ) -> Result<(), Refusal>
        ensures { AnswersTo (Some (Command.Turn thread (named_turn turn)))
            (obeyed (replay_stage_of self.old.session) (Command.Turn thread (named_turn turn))) result
            (replay_stage_of self.old.session) (replay_stage_of self.new.session)
            (Puts (W.contents writer.old) (W.contents writer.new) page.old page.new) }
    {
        match &mut self.session {
            Some(session) => session.take_turn(alloc, page, writer, thread, turn),
            None => Err(Refusal::Malformed),
        }
    }

    /// Answers a line. One that is refused changes nothing, and nothing is said of it here.
    pub fn answer<W: Write>(
        &mut self,
        alloc: Global,
        page: &mut Page,
        writer: &mut W,
        line: &[u8],
    ) -> Result<(), Refusal>
        requires { length line.now ≤ line_len }
        ensures { AnswersTo (meaning line.now) (after_line (replay_stage_of self.old.session) line.now)
            result (replay_stage_of self.old.session) (replay_stage_of self.new.session)
            (Puts (W.contents writer.old) (W.contents writer.new) page.old page.new) }
    {
        let Some(command) = meaning(line) else {
            return Err(Refusal::Malformed);
        };
        match &mut self.session {
            Some(session) => session.obey(alloc, page, writer, command),
            None => self.open(alloc, command),
        }
    }

    /// The first line has to say how many threads there are.
    fn open(&mut self, alloc: Global, command: Command) -> Result<(), Refusal>
        requires { replay_stage_of self.old.session ≡ nothing }
        ensures { AnswersTo (Some command) (obeyed nothing command) result nothing
            (replay_stage_of self.new.session) (λ text. text ≡ []) }
    {
        match command {
            Command::Threads(threads) if 1 <= threads && threads <= MOST_THREADS => {
                self.session = Some(Session::new(alloc, threads));
                Ok(())
            }
            _ => Err(Refusal::Malformed),
        }
    }
}

impl<Q: Queues + Drop> Session<Q> {
    fn new(alloc: Global, threads: usize) -> Session<Q>
        requires some { 1 ≤ threads }
        requires few { threads ≤ MOST_THREADS }
        ensures { session_stage result ≡ declaring threads [] [] }
    {
        Session {
            threads,
            names: Names::new(alloc),
            kinds: Vec::new(alloc),
            world: None,
        }
    }

    fn take_turn<W: Write>(
        &mut self,
        alloc: Global,
        page: &mut Page,
        writer: &mut W,
        thread: usize,
        turn: PlainTurn,
    ) -> Result<(), Refusal>
        ensures { AnswersTo (Some (Command.Turn thread (named_turn turn)))
            (obeyed (session_stage self.old) (Command.Turn thread (named_turn turn))) result
            (session_stage self.old) (session_stage self.new)
            (Puts (W.contents writer.old) (W.contents writer.new) page.old page.new) }
    {
        self.act(alloc, page, writer, thread, plain_action(turn))
    }

    fn obey<W: Write>(
        &mut self,
        alloc: Global,
        page: &mut Page,
        writer: &mut W,
        command: Command,
    ) -> Result<(), Refusal>
        ensures { AnswersTo (Some command) (obeyed (session_stage self.old) command) result
            (session_stage self.old) (session_stage self.new)
            (Puts (W.contents writer.old) (W.contents writer.new) page.old page.new) }
    {
        match command {
            Command::Threads(_) => Err(Refusal::Malformed),
            Command::Lock { name, kind } => self.declare(alloc, name, kind),
            Command::Turn { thread, turn } => match self.action_of(turn) {
                Some(action) => self.act(alloc, page, writer, thread, action),
                None => Err(Refusal::Malformed),
            },
            Command::Show => self.show(alloc, page, writer),
            Command::Drain => self.drain(alloc, page, writer),
        }
    }

    /// Adds a lock, where its name is new and no turn was taken yet.
    fn declare(&mut self, alloc: Global, name: Name, kind: Kind) -> Result<(), Refusal>
        ensures { AnswersTo (Some (Command.Lock name kind))
            (obeyed (session_stage self.old) (Command.Lock name kind)) result
            (session_stage self.old) (session_stage self.new) (λ text. text ≡ []) }
    {
        if self.world.is_some() || self.names.len() >= MOST_LOCKS {
            return Err(Refusal::Malformed);
        }
        if !kind.fits(self.threads) || self.names.find(name).is_some() {
            return Err(Refusal::Malformed);
        }
        if self.kinds.reserve(1).is_err() || self.names.push(alloc, name).is_err() {
            return Err(Refusal::NoMemory);
        }
        self.kinds.push_reserved(kind);
        Ok(())
    }

    /// Makes the world, where it isn't there yet. It stays away where memory is refused.
    #[inline(always)]
    fn make_world(&mut self, alloc: Global)
        ensures made { IfSome self.new.world
            (λ w. session_stage self.new ≡ running self.old.names (session_world self.old)) }
        ensures refused { IfNone self.new.world (session_stage self.new ≡ session_stage self.old) }
    {
        if self.world.is_none() {
            self.world = World::new(alloc, self.kinds.as_slice(), self.threads).ok();
        }
    }

    // Inlined, so that a plain turn is no choice among all actions.
    #[inline(always)]
    fn act<W: Write>(
        &mut self,
        alloc: Global,
        page: &mut Page,
        writer: &mut W,
        thread: usize,
        action: Action,
    ) -> Result<(), Refusal>
        ensures { (said : Option Command) → AnswersTo said
            (Some (acted self.old.names (session_world self.old) thread action)) result
            (session_stage self.old) (session_stage self.new)
            (Puts (W.contents writer.old) (W.contents writer.new) page.old page.new) }
    {
        self.make_world(alloc);
        match &mut self.world {
            Some(world) => {
                let outcome = perform(world, thread, action);
                print_turn(page, writer, thread, outcome);
                Ok(())
            }
            None => Err(Refusal::NoMemory),
        }
    }

    /// Prints a line for each lock, in the order in which they were declared.
    fn show<W: Write>(
        &mut self,
        alloc: Global,
        page: &mut Page,
        writer: &mut W,
    ) -> Result<(), Refusal>
        ensures { AnswersTo (Some Command.Show)
            (played self.old.names (session_world self.old) Command.Show) result
            (session_stage self.old) (session_stage self.new)
            (Puts (W.contents writer.old) (W.contents writer.new) page.old page.new) }
    {
        self.make_world(alloc);
        match &self.world {
            Some(world) => {
                show_locks(page, writer, self.names.as_slice(), world);
                Ok(())
            }
            None => Err(Refusal::NoMemory),
        }
    }

    /// Drains the world, where it may be drained, and prints the steps that do it.
    fn drain<W: Write>(
        &mut self,
        alloc: Global,
        page: &mut Page,
        writer: &mut W,
    ) -> Result<(), Refusal>
        ensures { AnswersTo (Some Command.Drain)
            (played self.old.names (session_world self.old) Command.Drain) result
            (session_stage self.old) (session_stage self.new)
            (Puts (W.contents writer.old) (W.contents writer.new) page.old page.new) }
    {
        let names = self.names.as_slice();
        if let Some(world) = &mut self.world {
            return drain_world(alloc, page, writer, names, world);
        }
        let Ok(mut world) = World::new(alloc, self.kinds.as_slice(), self.threads) else {
            return Err(Refusal::NoMemory);
        };
        drain_world(alloc, page, writer, names, &mut world)?;
        self.world = Some(world);
        Ok(())
    }
}
