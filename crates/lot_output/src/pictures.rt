//! Pictures of what was found: a column for each turn.
use core_base::ListQueues;
use lot_findings::{Finding, Source, new_world};
use lot_picture::{Program, Recording, TurnColumn, TurnRecorder, VariableName};
use lot_story::{Telling, TurnTold};
use state_search::NoRoom;
use std::alloc::{AllocError, Global};

/// Records the turns of a finding, each as a column with its line of the program and what became of the
/// thread.
///
/// # Errors
///
/// `NoRoom`, where memory was refused.
pub fn record_turns(alloc: Global, finding: &Finding<'_>) -> Result<Recording, NoRoom> {
    let source = finding.source;
    let program = &source.parsed.program;
    if !program.is_fit() {
        return Err(NoRoom);
    }
    let world = new_world(alloc, program)?;
    let named = program_of(alloc, source).map_err(no_room)?;
    let mut recorder = TurnRecorder::new(alloc, world, named).map_err(no_room)?;
    let mut telling = Telling::new(alloc, source)?;
    for by in finding.walk.moves() {
        record_turn(alloc, &mut recorder, &mut telling, *by)?;
    }
    Ok(recorder.finish(first_again(finding)))
}

// Returns what the parts of a program are called.
fn program_of(alloc: Global, source: Source<'_>) -> Result<Program, AllocError> {
    let mut threads = Vec::new(alloc);
    for thread in 0..source.parsed.program.threads() {
        let name = source.thread_name(thread);
        threads.push(format!(in alloc; "{name}")?)?;
    }
    let mut variables = Vec::new(alloc);
    for variable in source.parsed.variables.iter() {
        variables.push(VariableName {
            name: variable.name,
            owner: variable.owner,
        })?;
    }
    Ok(Program {
        locks: Vec::from_slice(alloc, source.parsed.locks.as_slice())?,
        threads,
        variables,
    })
}

fn record_turn(
    alloc: Global,
    recorder: &mut TurnRecorder<ListQueues>,
    telling: &mut Telling<'_>,
    by: usize,
) -> Result<(), NoRoom> {
    let before = telling.steps().len();
    let told = telling.tell(alloc, by)?;
    let heading = heading_of(alloc, &told).map_err(no_room)?;
    let turn = TurnColumn {
        thread: told.thread,
        steps: telling.steps().get(before..).unwrap_or(&[]),
        heading: heading.as_str(),
        said: told.end,
        variables: telling.walk().scene().variables(),
    };
    recorder.add(alloc, turn).map_err(no_room)
}

// Returns what is written above the column of a turn.
fn heading_of(alloc: Global, told: &TurnTold<'_>) -> Result<String, AllocError> {
    let (line, text, sort) = (told.line, told.text, told.sort);
    if sort.is_empty() {
        format!(in alloc; "{line}: {text}")
    } else {
        format!(in alloc; "{line}: {text}: {sort}")
    }
}

// Returns the number of the first turn that comes again and again, where some do.
fn first_again(finding: &Finding<'_>) -> Option<u64> {
    let lap = finding.lap?;
    let before = finding.walk.moves().len().saturating_sub(lap.turns);
    Some((before as u64).saturating_add(1))
}

fn no_room(_refused: AllocError) -> NoRoom {
    NoRoom
}
