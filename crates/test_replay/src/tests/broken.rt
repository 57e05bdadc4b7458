//! A short run whose devices fail, are interrupted, or move one byte at a time, at each of its bytes.

use super::devices::{Refusal, Short, Stumbling};
use super::{check_eq, leads_both_to, leads_to, replayed, replayed_in_pieces};
use core_queues::BucketQueues;
use lot_replay::start::start;
use std::alloc::{AllocError, Global};
use std::io::ErrorKind;
use std::process::Abort;
use std::test::Fail;

/// The lines of a short run, with what each is answered. None of them means anything where its end
/// is missing.
const RUN: [(&[u8], &[u8]); 12] = [
    (b"threads 2\n", b""),
    (b"lock m mutex\n", b""),
    (b"lock r rwlock\n", b""),
    (b"0 do lock m\n", b"0 end ok\n"),
    (b"1 do lock_timed m\n", b"1 sleep\n"),
    (b"show\n", b"m 3 own=0x queue=1x\nr 0\n"),
    (b"0 begin unlock m\n", b"0 step\n"),
    (b"1 late\n", b"1 step\n"),
    (b"0 go\n", b"0 step\n"),
    (b"1 solo\n", b"1 end no\n"),
    (b"0 solo\n", b"0 end ok\n"),
    (b"drain\n", b"drain refused\n"),
];

/// The first lines of the run, as many as end within so many bytes: their number, and their answers.
fn told_within(alloc: Global, len: usize) -> Result<(usize, Vec<u8>), AllocError> {
    let mut told = Vec::new(alloc);
    let mut left = len;
    for (number, (line, answer)) in RUN.iter().enumerate() {
        if line.len() > left {
            return Ok((number, told));
        }
        left -= line.len();
        told.extend_from_slice(answer)?;
    }
    Ok((RUN.len(), told))
}

/// The whole run.
fn input(alloc: Global) -> Result<Vec<u8>, AllocError> {
    let mut input = Vec::new(alloc);
    for (line, _) in RUN.iter() {
        input.extend_from_slice(line)?;
    }
    Ok(input)
}

/// All that it is answered.
fn told(alloc: Global) -> Result<Vec<u8>, AllocError> {
    let mut told = Vec::new(alloc);
    for (_, answer) in RUN.iter() {
        told.extend_from_slice(answer)?;
    }
    Ok(told)
}

/// The answers to the lines that end within so many bytes, and that the next is malformed.
fn malformed_after(alloc: Global, len: usize) -> Result<Vec<u8>, AllocError> {
    let (lines, mut told) = told_within(alloc, len)?;
    let mut last = String::new(alloc);
    write!(last, "line {} malformed\n", lines.wrapping_add(1))?;
    told.extend_from_slice(last.as_bytes())?;
    Ok(told)
}

/// Returns whether a line of the run ends after so many bytes, with its line feed or but for it.
fn is_end(input: &[u8], len: usize) -> bool {
    len == 0 || input.get(len - 1) == Some(&b'\n') || input.get(len) == Some(&b'\n')
}

#[test]
fn the_run_is_answered(rt: HostRuntime) -> Result<(), Fail> {
    let (input, told) = (input(rt.alloc())?, told(rt.alloc())?);
    leads_both_to(&rt, rt.alloc(), input.as_slice(), told.as_slice(), 0);
    Ok(())
}

#[test]
fn a_read_that_fails_leaves_the_lines_before(rt: HostRuntime) -> Result<(), Fail> {
    let input = input(rt.alloc())?;
    for before in 0..input.len() + 1 {
        let (_, wanted) = told_within(rt.alloc(), before)?;
        let (text, status) = replayed_in_pieces(rt.alloc(), &input.as_slice()[..before], 1, true);
        check_eq(&rt, (before, text.as_slice()), (before, wanted.as_slice()));
        check_eq(&rt, (before, status), (before, 4));
        let (text, status) = stumbled(rt.alloc(), input.as_slice(), before, ErrorKind::TimedOut);
        check_eq(&rt, (before, text.as_slice()), (before, wanted.as_slice()));
        check_eq(&rt, (before, status), (before, 4));
    }
    Ok(())
}

/// The text and the status of an input whose reader refuses one look after so many bytes.
fn stumbled(alloc: Global, bytes: &[u8], before: usize, kind: ErrorKind) -> (Vec<u8>, u8) {
    let refusal = Some(kind);
    replayed(
        alloc,
        Stumbling {
            bytes,
            before,
            refusal,
        },
    )
}

#[test]
fn a_read_that_is_interrupted_is_tried_again(rt: HostRuntime) -> Result<(), Fail> {
    let (input, told) = (input(rt.alloc())?, told(rt.alloc())?);
    for before in 0..input.len() + 1 {
        let kind = ErrorKind::Interrupted;
        let found = stumbled(rt.alloc(), input.as_slice(), before, kind);
        leads_to(&rt, found, told.as_slice(), 0);
    }
    let found = replayed_in_pieces(rt.alloc(), input.as_slice(), 1, false);
    leads_to(&rt, found, told.as_slice(), 0);
    Ok(())
}

#[test]
fn an_input_that_is_cut_ends_at_its_last_line(rt: HostRuntime) -> Result<(), Fail> {
    let input = input(rt.alloc())?;
    for len in 0..input.len() + 1 {
        let cut = &input.as_slice()[..len];
        if is_end(input.as_slice(), len) {
            let (_, wanted) = told_within(rt.alloc(), len.wrapping_add(1))?;
            leads_both_to(&rt, rt.alloc(), cut, wanted.as_slice(), 0);
        } else {
            let wanted = malformed_after(rt.alloc(), len)?;
            leads_both_to(&rt, rt.alloc(), cut, wanted.as_slice(), 2);
        }
    }
    Ok(())
}

/// Bytes that no line has.
const STRANGE: [u8; 6] = [0, b'\t', b'\r', 0x7f, 0x80, 0xff];

#[test]
fn a_strange_byte_is_malformed_wherever_it_stands(rt: HostRuntime) -> Result<(), Fail> {
    let input = input(rt.alloc())?;
    for place in 0..input.len() + 1 {
        let wanted = malformed_after(rt.alloc(), place)?;
        for byte in STRANGE {
            let mut bytes = Vec::new(rt.alloc());
            bytes.extend_from_slice(&input.as_slice()[..place])?;
            bytes.push(byte)?;
            bytes.extend_from_slice(&input.as_slice()[place..])?;
            leads_both_to(&rt, rt.alloc(), bytes.as_slice(), wanted.as_slice(), 2);
        }
    }
    Ok(())
}

/// A run into a writer that takes so many bytes at a time: it refuses a write after `room` bytes.
fn run_into(
    rt: &impl Abort,
    alloc: Global,
    room: usize,
    width: usize,
    refusal: Refusal,
) -> Result<(), Fail> {
    let (input, told) = (input(alloc)?, told(alloc)?);
    let mut reader = input.as_slice();
    let mut writer = Short::new(alloc, room, refusal, width);
    let mut errors = Vec::<u8>::new(alloc);
    let args = ["replay"];
    let status = start::<BucketQueues, _, _, _>(
        alloc,
        &args,
        &mut reader,
        &mut writer,
        &mut errors,
    );
    let wanted = told.as_slice().get(..room).unwrap_or(told.as_slice());
    let ended = if room < told.len() { 4 } else { 0 };
    check_eq(rt, (room, writer.taken.as_slice()), (room, wanted));
    check_eq(
        rt,
        (room, width, refusal, status),
        (room, width, refusal, ended),
    );
    check_eq(rt, (room, errors.len()), (room, 0));
    Ok(())
}

#[test]
fn a_write_that_fails_leaves_the_bytes_before(rt: HostRuntime) -> Result<(), Fail> {
    let told = told(rt.alloc())?;
    for room in 0..told.len() + 2 {
        for width in [1, 2, 3, usize::MAX] {
            run_into(&rt, rt.alloc(), room, width, Refusal::Fails)?;
            run_into(&rt, rt.alloc(), room, width, Refusal::TakesNothing)?;
        }
    }
    Ok(())
}

#[test]
fn a_usage_that_fails_leaves_the_bytes_before(rt: HostRuntime) {
    let usage = b"usage: lotsim replay | lotsim live\n".as_slice();
    for room in 0..usage.len() + 2 {
        for width in [1, 3] {
            let mut text = Vec::<u8>::new(rt.alloc());
            let mut errors = Short::new(rt.alloc(), room, Refusal::Fails, width);
            let mut reader = b"show\n".as_slice();
            let status = start::<BucketQueues, _, _, _>(
                rt.alloc(),
                &["lots"],
                &mut reader,
                &mut text,
                &mut errors,
            );
            let wanted = usage.get(..room).unwrap_or(usage);
            let ended = if room < usage.len() { 4 } else { 2 };
            check_eq(&rt, (room, errors.taken.as_slice()), (room, wanted));
            check_eq(&rt, (room, status), (room, ended));
            check_eq(&rt, (room, text.len()), (room, 0));
        }
    }
}
