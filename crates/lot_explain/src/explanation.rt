//! A replay, with what is to be said of its lines.
//!
//! The replay's own state makes the answers, and no word of an explanation can change them.
ghost use Rattle.std.specs.Prelude.{◌≡◌, [], ◌++◌, IfOk};
ghost use Rattle.lot_replay.specs.Stages.{nothing};
ghost use Rattle.lot_replay.specs.Sessions.{replay_stage_of};
ghost use Rattle.lot_explain.specs.Explains.{IsTextOf, Adds};

use crate::failure::Failure;
use crate::lines::{Told, next_line};
use crate::notes::Notes;
use core_base::Queues;
use lot_replay::state::State;
use lot_replay::status::{DONE, MALFORMED};
use std::alloc::Global;
use std::io;
use std::io::{BufRead, Write};

/// The answers of a replay with its status, and what is said of the lines.
#[derive(Drop)]
pub struct Explanation {
    pub answers: Vec<u8>,
    pub status: u8,
    pub notes: Notes,
}

impl Explanation {
    /// Writes the answers of each line, and under them what is said of it.
    ///
    /// # Errors
    ///
    /// The errors of the writer.
    pub fn write<W: Write>(&self, out: &mut W) -> io::Result<()> {
        self.notes.write(out, self.answers.as_slice())
    }
}

/// Replays a schedule, and says of each line what it has changed, or why it was refused. The answers
/// and the status are those of a replay.
///
/// # Errors
///
/// `NoMemory`, and `Unread` where a read failed.
pub fn explain<Q: Queues + Drop, R: BufRead>(
    alloc: Global,
    reader: &mut R,
) -> Result<Explanation, Failure>
    ensures { IfOk result (λ told. IsTextOf (R.remaining reader.old) told.answers.items told.status) }
{
    let mut state = State::<Q>::new();
    let mut answers = Vec::new(alloc);
    let mut notes = Notes::new(alloc);
    let status = tell_lines(alloc, reader, &mut state, &mut answers, &mut notes)?;
    Ok(Explanation {
        answers,
        status,
        notes,
    })
}

/// Tells all lines, and gives the status.
fn tell_lines<Q: Queues + Drop, R: BufRead>(
    alloc: Global,
    reader: &mut R,
    state: &mut State<Q>,
    answers: &mut Vec<u8>,
    notes: &mut Notes,
) -> Result<u8, Failure>
    requires begins { replay_stage_of state.old.session ≡ nothing }
    requires empty { answers.old.items ≡ [] }
    ensures { IfOk result (λ status. IsTextOf (R.remaining reader.old) answers.new.items status) }
{
    for number in 1..u64::MAX {
        let told = next_line(alloc, reader, state, number)?;
        let ending = add(answers, notes, &told)?;
        match ending {
            Some(status) => return Ok(status),
            None => {}
        }
    }
    Err(Failure::Unread)
}

/// Adds the answer of a line, and what is said under it. Gives the status where no line comes after it.
fn add(answers: &mut Vec<u8>, notes: &mut Notes, told: &Told) -> Result<Option<u8>, Failure>
    ensures { IfOk result (λ ending. Adds told.now answers.old.items answers.new.items ending) }
{
    match told {
        Told::Answered { answer, note } => {
            push(answers, notes, answer.as_slice(), note.as_slice())?;
            Ok(None)
        }
        Told::Refused { answer, note } => {
            push(answers, notes, answer.as_slice(), note.as_slice())?;
            Ok(Some(MALFORMED))
        }
        Told::End => Ok(Some(DONE)),
    }
}

fn push(answers: &mut Vec<u8>, notes: &mut Notes, answer: &[u8], note: &[u8]) -> Result<(), Failure>
    ensures { IfOk result (λ _. answers.new.items ≡ answers.old.items ++ answer.now) }
{
    if answers.extend_from_slice(answer).is_err() {
        return Err(Failure::NoMemory);
    }
    notes.add(answers.len(), note)
}
