//! A transcript, and its check.

use core_base::{ListQueues, Queues};
use core_queues::BucketQueues;
use lot_replay::start::start;
use std::alloc::{AllocError, Global};
use test_hostile::disturbed::{Figures, Stopped, disturb};
use test_hostile::scripts::Script;
use thiserror::Error;

/// An input, and what its replay prints.
#[derive(Drop)]
pub(crate) struct Transcript {
    pub input: Vec<u8>,
    pub told: String,
}

/// What is wrong with a transcript.
#[derive(Drop, Debug, Error)]
pub(crate) enum Failure {
    #[error("line {line} of the answers: expected `{wanted}`, found `{found}`")]
    Line {
        line: usize,
        wanted: String,
        found: String,
    },
    #[error("expected status {wanted}, found {found}")]
    Status {
        wanted: u8,
        found: u8,
    },
    #[error("disturbed, it breaks a rule: {0:?}")]
    Disturbed(Stopped),
    #[error("no memory")]
    NoMemory,
}

impl From<AllocError> for Failure {
    fn from(_: AllocError) -> Failure {
        Failure::NoMemory
    }
}

impl From<Stopped> for Failure {
    fn from(stopped: Stopped) -> Failure {
        Failure::Disturbed(stopped)
    }
}

// The most threads of a transcript that is disturbed: each thread disturbs each line.
const MOST_DISTURBING: usize = 16;

/// Replays a transcript over both kinds of queues, and disturbs it where its replay ends well and it has a few
/// threads.
///
/// # Errors
///
/// The first thing that is wrong, or `NoMemory`.
pub(crate) fn check(alloc: Global, transcript: &Transcript) -> Result<Figures, Failure> {
    let wanted = status_of(transcript.told.as_str());
    check_over::<ListQueues>(alloc, transcript, wanted)?;
    check_over::<BucketQueues>(alloc, transcript, wanted)?;
    if wanted != 0 {
        return Ok(Figures::NONE);
    }
    let mut script = Script::new(alloc);
    script.read(alloc, transcript.input.as_slice())?;
    if script.threads > MOST_DISTURBING {
        return Ok(Figures::NONE);
    }
    let by_list = disturb::<ListQueues>(alloc, &script)?;
    let by_buckets = disturb::<BucketQueues>(alloc, &script)?;
    Ok(by_list.and(by_buckets))
}

// Returns the status of a replay that prints this: 2 where the last line names a malformed one.
fn status_of(told: &str) -> u8 {
    match told.lines().next_back() {
        Some(line) if line.starts_with("line ") => 2,
        _ => 0,
    }
}

fn check_over<Q: Queues + Drop>(
    alloc: Global,
    transcript: &Transcript,
    wanted: u8,
) -> Result<(), Failure> {
    let mut text = Vec::new(alloc);
    let mut errors = Vec::new(alloc);
    let mut input = transcript.input.as_slice();
    let found = start::<Q, _, _, _>(alloc, &["replay"], &mut input, &mut text, &mut errors);
    let told = String::from_utf8_lossy(alloc, text.as_slice())?;
    check_lines(alloc, transcript.told.as_str(), told.as_str())?;
    if found == wanted {
        Ok(())
    } else {
        Err(Failure::Status { wanted, found })
    }
}

// Compares two texts line by line.
fn check_lines(alloc: Global, wanted: &str, found: &str) -> Result<(), Failure> {
    if wanted == found {
        return Ok(());
    }
    let mut rest = found.lines();
    for (number, line) in wanted.lines().enumerate() {
        let other = rest.next().unwrap_or("");
        if line != other {
            return Err(Failure::Line {
                line: number.wrapping_add(1),
                wanted: String::from_str(alloc, line)?,
                found: String::from_str(alloc, other)?,
            });
        }
    }
    Err(Failure::Line {
        line: wanted.lines().count().wrapping_add(1),
        wanted: String::new(alloc),
        found: String::from_str(alloc, rest.next().unwrap_or(""))?,
    })
}
