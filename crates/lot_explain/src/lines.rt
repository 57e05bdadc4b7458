//! A line of a schedule, answered and told.
ghost use Rattle.std.specs.Prelude.{◌≡◌, ◌≤◌, IfOk, IfErr, length};
ghost use Rattle.lot_text.specs.Lines.{line_len};
ghost use Rattle.lot_text.specs.Text.{malformed_line};
ghost use Rattle.lot_replay.specs.Replay.{LineMayLead, IsMalformed};
ghost use Rattle.lot_replay.specs.Sessions.{replay_stage_of};
ghost use Rattle.lot_explain.specs.Explains.{ComesTo, TellsLine, TellsLong};

use crate::before::Before;
use crate::failure::Failure;
use crate::remarks::{of_answered, of_long, of_refused};
use arrayvec::ArrayVec;
use core_base::Queues;
use lot_replay::state::{Refusal, State};
use lot_text::{LINE_LEN, Page, Reading, print_malformed, read_line};
use std::alloc::Global;
use std::io::BufRead;

/// What comes of the next line: what a replay writes, and what is said under it.
#[derive(Drop)]
pub enum Told {
    /// The line is answered.
    Answered { answer: Vec<u8>, note: Vec<u8> },
    /// The line is malformed, and no line comes after it.
    Refused { answer: Vec<u8>, note: Vec<u8> },
    /// There is no line.
    End,
}

/// Answers the next line, and says what it has changed, or why it was refused.
pub(crate) fn next_line<Q: Queues + Drop, R: BufRead>(
    alloc: Global,
    reader: &mut R,
    state: &mut State<Q>,
    number: u64,
) -> Result<Told, Failure>
    ensures { IfOk result (λ told. ComesTo (R.remaining reader.old) (R.remaining reader.new) number
        (replay_stage_of state.old.session) (replay_stage_of state.new.session) told) }
{
    let mut line = ArrayVec::<u8, LINE_LEN>::new();
    match read_line(reader, &mut line) {
        Reading::Line => tell_line(alloc, state, number, line.as_slice()),
        Reading::TooLong => tell_long(alloc, number),
        Reading::End => Ok(Told::End),
        Reading::Failed => Err(Failure::Unread),
    }
}

/// Refuses a line that is too long.
fn tell_long(alloc: Global, number: u64) -> Result<Told, Failure>
    ensures { IfOk result (λ told. TellsLong number told) }
{
    let answer = malformed(alloc, number)?;
    let note = of_long(alloc, number)?;
    Ok(Told::Refused { answer, note })
}

/// Answers a line, and says what it has changed, or why it was refused.
fn tell_line<Q: Queues + Drop>(
    alloc: Global,
    state: &mut State<Q>,
    number: u64,
    line: &[u8],
) -> Result<Told, Failure>
    requires { length line.now ≤ line_len }
    ensures { IfOk result (λ told. TellsLine line.now number (replay_stage_of state.old.session)
        (replay_stage_of state.new.session) told) }
{
    let before = Before::of(alloc, state, line)?;
    match answer(alloc, state, line) {
        Ok(answer) => {
            let note = of_answered(alloc, &before, state, answer.as_slice(), number, line)?;
            Ok(Told::Answered { answer, note })
        }
        Err(Refusal::Malformed) => {
            let answer = malformed(alloc, number)?;
            let note = of_refused(alloc, state.stage(), number, line)?;
            Ok(Told::Refused { answer, note })
        }
        Err(Refusal::NoMemory) => Err(Failure::NoMemory),
    }
}

/// Answers a line as a replay does.
fn answer<Q: Queues + Drop>(
    alloc: Global,
    state: &mut State<Q>,
    line: &[u8],
) -> Result<Vec<u8>, Refusal>
    requires { length line.now ≤ line_len }
    ensures answered { IfOk result (λ answer. LineMayLead (replay_stage_of state.old.session) line.now
        (replay_stage_of state.new.session) answer.items) }
    ensures refused { IfErr result (λ refusal. refusal ≡ Refusal.Malformed
        → IsMalformed (replay_stage_of state.old.session) line.now) }
{
    let mut answer = Vec::new(alloc);
    let mut page = Page::new();
    if let Err(refusal) = state.answer(alloc, &mut page, &mut answer, line) {
        return Err(refusal);
    }
    page.finish(&mut answer);
    if page.is_lost() {
        return Err(Refusal::NoMemory);
    }
    Ok(answer)
}

/// Returns the last answer of a replay that is refused.
fn malformed(alloc: Global, number: u64) -> Result<Vec<u8>, Failure>
    ensures { IfOk result (λ answer. answer.items ≡ malformed_line number) }
{
    let mut answer = Vec::new(alloc);
    let mut page = Page::new();
    print_malformed(&mut page, &mut answer, number);
    page.finish(&mut answer);
    if page.is_lost() {
        return Err(Failure::NoMemory);
    }
    Ok(answer)
}
