//! Schedules with a `drain`, as lines in and lines out, over both kinds of queues.
use super::rows::{DRAINED, ROWS, WORKED};
use super::{check, check_eq};
use core_base::{ListQueues, Queues};
use core_queues::BucketQueues;
use lot_replay::replay::replay;
use std::alloc::{AllocError, Global};
use std::process::Abort;

/// The text and the status to which a schedule leads.
fn replayed<Q: Queues + Drop>(alloc: Global, input: &[u8]) -> (Vec<u8>, u8) {
    let mut reader = input;
    let mut text = Vec::new(alloc);
    let status = replay::<Q, _, _>(alloc, &mut reader, &mut text);
    (text, status)
}

fn leads_to<Q: Queues + Drop>(rt: &impl Abort, alloc: Global, input: &[u8], wanted: &[u8]) {
    let (text, status) = replayed::<Q>(alloc, input);
    check_eq(rt, text.as_slice(), wanted);
    check_eq(rt, status, 0);
}

#[test]
fn schedules_have_their_texts(rt: HostRuntime) {
    for (input, text) in ROWS.iter() {
        leads_to::<ListQueues>(&rt, rt.alloc(), input, text);
        leads_to::<BucketQueues>(&rt, rt.alloc(), input, text);
    }
}

/// The schedule with these lines after it.
fn with_lines(alloc: Global, schedule: &[u8], lines: &[u8]) -> Result<Vec<u8>, AllocError> {
    let mut input = Vec::new(alloc);
    input.extend_from_slice(schedule)?;
    input.extend_from_slice(lines)?;
    Ok(input)
}

const DRAIN: &[u8] = b"drain ";

/// The steps of the drains in a text, as a schedule has them.
fn steps_in(alloc: Global, text: &[u8]) -> Result<Vec<u8>, AllocError> {
    let mut steps = Vec::new(alloc);
    for line in text.split(|byte| *byte == b'\n') {
        if let Some(step) = line.strip_prefix(DRAIN) {
            steps.extend_from_slice(step)?;
            steps.extend_from_slice(b"\n")?;
        }
    }
    Ok(steps)
}

/// Checks that the lock is drained once the schedule has ended: the last line tells that its word
/// is 0, and nobody owns it or waits. The same holds where the steps of the drain are lines of the
/// schedule.
fn is_drained(rt: &impl Abort, alloc: Global, schedule: &[u8]) -> Result<(), AllocError> {
    let drained = with_lines(alloc, schedule, b"drain\nshow\n")?;
    let (text, status) = replayed::<BucketQueues>(alloc, drained.as_slice());
    check_eq(rt, status, 0);
    check(rt, text.as_slice().ends_with(b" 0\n"));
    let steps = steps_in(alloc, text.as_slice())?;
    check(rt, !steps.is_empty());
    let taken = with_lines(alloc, schedule, steps.as_slice())?;
    let shown = with_lines(alloc, taken.as_slice(), b"show\n")?;
    let (text, status) = replayed::<BucketQueues>(alloc, shown.as_slice());
    check_eq(rt, status, 0);
    check(rt, text.as_slice().ends_with(b" 0\n"));
    Ok(())
}

#[test]
fn a_drain_is_a_schedule(rt: HostRuntime) {
    for schedule in DRAINED.iter() {
        check_eq(&rt, is_drained(&rt, rt.alloc(), schedule), Ok(()));
    }
}

fn is_refused(text: &[u8]) -> bool {
    text.split(|byte| *byte == b'\n')
        .any(|line| line == b"drain refused".as_slice())
}

/// Checks that a drain after each line of the schedule empties the lock, or is refused.
fn are_drained_or_refused(
    rt: &impl Abort,
    alloc: Global,
    schedule: &[u8],
) -> Result<(), AllocError> {
    let mut front = Vec::new(alloc);
    for line in schedule.split(|byte| *byte == b'\n') {
        front.extend_from_slice(line)?;
        front.extend_from_slice(b"\n")?;
        if line.is_empty() {
            continue;
        }
        let drained = with_lines(alloc, front.as_slice(), b"drain\nshow\n")?;
        let (text, status) = replayed::<BucketQueues>(alloc, drained.as_slice());
        check_eq(rt, status, 0);
        let text = text.as_slice();
        check(rt, is_refused(text) || text.ends_with(b" 0\n"));
    }
    Ok(())
}

#[test]
fn worked_schedules_are_drained_after_each_line(rt: HostRuntime) {
    for schedule in WORKED.iter() {
        let tried = are_drained_or_refused(&rt, rt.alloc(), schedule);
        check_eq(&rt, tried, Ok(()));
    }
}
