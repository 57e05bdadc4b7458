//! What came of the runs, as JSON.

use crate::failure::Failure;
use crate::summary::Summary;
use serde::Serialize;
use std::alloc::{AllocError, Global};

/// How many runs had an ending.
#[derive(Drop, Serialize)]
struct EndingReport {
    ending: &'static str,
    runs: u64,
    /// The first seed.
    seed: Option<u64>,
}

/// The first run that went wrong.
#[derive(Drop, Serialize)]
struct FailureReport {
    verdict: String,
    seed: u64,
    /// The arguments that repeat it.
    arguments: String,
    /// The threads that had the turns.
    replay: String,
    waits: Vec<String>,
    schedule: Option<Vec<String>>,
    /// Whether the simulator takes the schedule.
    is_taken: bool,
}

/// What came of the runs.
#[derive(Drop, Serialize)]
struct Report {
    runs: u64,
    turns: u64,
    longest: u64,
    complete: bool,
    endings: Vec<EndingReport>,
    /// The threads that have made no call in a turn.
    silent: Vec<usize>,
    failure: Option<FailureReport>,
}

fn failure_report(alloc: Global, failure: &Failure) -> Result<FailureReport, AllocError> {
    Ok(FailureReport {
        verdict: failure.verdict(alloc)?,
        seed: failure.course.seed,
        arguments: failure.arguments(alloc)?,
        replay: failure.script(alloc)?,
        waits: failure.waits(alloc)?,
        schedule: failure.schedule(alloc)?,
        is_taken: failure.is_taken(alloc)?,
    })
}

/// Returns what came of the runs, as one JSON object.
///
/// # Errors
///
/// Where memory was refused.
pub fn json(alloc: Global, summary: &Summary) -> Result<String, AllocError> {
    let mut endings = Vec::new(alloc);
    for (ending, tally) in summary.tallies() {
        endings.push(EndingReport {
            ending,
            runs: tally.runs,
            seed: tally.first,
        })?;
    }
    let failure = match &summary.failure {
        Some(failure) => Some(failure_report(alloc, failure)?),
        None => None,
    };
    let report = Report {
        runs: summary.runs,
        turns: summary.turns,
        longest: summary.longest,
        complete: summary.is_complete,
        endings,
        silent: summary.silent.clone()?,
        failure,
    };
    match serde_json::to_string(alloc, &report) {
        Ok(text) => Ok(text),
        Err(_) => Err(AllocError),
    }
}
