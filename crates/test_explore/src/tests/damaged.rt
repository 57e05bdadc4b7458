//! Programs that are damaged: what is wrong is told in one line, or they are programs yet.

use super::check_eq;
use lot_program_text::{TextError, parse};
use std::alloc::{AllocError, Global};
use std::process::Abort;
use std::test::Fail;

/// Programs with each form of line.
const WHOLE: &str = "threads 2\nlock m mutex\nlock c condvar\nlock o once\nvar full 0\n\
    thread 0\nrepeat 2\nlock m\nwhile full = 1\nwait c m\nend\nset full 1\nnotify_one c\nunlock m\nend\n\
    call_once o\nok\nif ok\nadd full 1\nelse\nloop\nassert full < 2\nend\nend\n\
    thread 1\nlock_timed m\nif yes\nunlock m\nend\n\
    always full <= 2\nfinally full = 2\nnever 0 at 8 1 at 26\nends 1\n";

const NAMED: &str = "const two 2\nlock s semaphore two\nvar full 0\n\
    thread taker two\nown i 0\nwhile i < two and full < 9 or full = 9\n\
    either\nacquire s\nrelease s\nor\nadd i 1\nor\nbreak\nend\nend\n\
    thread other\nset full two\nassert full = 2 or full = 3\n\
    always full <= 2 or full = two and full < 3\nnever taker 1 at 8 other at 17\nends taker 2\n";

/// A short one, of which each byte is changed.
const SHORT: &str =
    "threads 1\nlock m mutex\nvar x 0\nthread 0\nif x = 0\nlock m\nend\nalways x = 0\n";

/// Bytes that others are changed to.
const BYTES: &str = "\n #0z=";

/// How a line of a text is damaged.
#[derive(Clone, Copy)]
enum Damage {
    Cut,
    Doubled,
    Swapped,
}

/// Returns what is wrong with what is told of a text: nothing, mostly.
fn flaw_of(alloc: Global, text: &str) -> Result<&'static str, AllocError> {
    let (line, told) = match parse(alloc, text) {
        Ok(_) => return Ok(""),
        Err(TextError::NoMemory) => return Ok("memory was refused"),
        Err(error) => (line_of(&error), format!(in alloc; "{error}")?),
    };
    if told.lines().count() != 1 {
        return Ok("not one line is told");
    }
    if line == 0 || line as usize > text.split('\n').count() {
        return Ok("no such line");
    }
    Ok("")
}

fn line_of(error: &TextError) -> u32 {
    match error {
        TextError::Malformed {
            line,
            word: _,
            expected: _,
        }
        | TextError::Short { line, expected: _ }
        | TextError::Unanswered {
            line,
            answer: _,
            can: _,
        }
        | TextError::Twice {
            line,
            thread: _,
            first: _,
        } => *line,
        TextError::NoMemory => 0,
    }
}

/// Returns a text whose line of this number is damaged.
fn damaged(alloc: Global, text: &str, number: usize, damage: Damage) -> Result<String, AllocError> {
    let mut lines = Vec::new(alloc);
    for (at, line) in text.lines().enumerate() {
        match damage {
            Damage::Cut if at == number => {}
            Damage::Doubled if at == number => {
                lines.push(line)?;
                lines.push(line)?;
            }
            _ => lines.push(line)?,
        }
    }
    let next = number.saturating_add(1);
    if matches!(damage, Damage::Swapped) && number < lines.len() && next < lines.len() {
        lines.swap(number, next);
    }
    joined(alloc, lines.as_slice())
}

fn joined(alloc: Global, lines: &[&str]) -> Result<String, AllocError> {
    let mut text = String::new(alloc);
    for line in lines {
        text.push_str(line)?;
        text.push('\n')?;
    }
    Ok(text)
}

#[test]
fn a_program_with_a_damaged_line_is_told_in_one_line(rt: HostRuntime) -> Result<(), Fail> {
    for whole in [WHOLE, NAMED] {
        check_eq(&rt, parse(rt.alloc(), whole).is_ok(), true);
        for number in 0..whole.lines().count() {
            for damage in [Damage::Cut, Damage::Doubled, Damage::Swapped] {
                let text = damaged(rt.alloc(), whole, number, damage)?;
                check_eq(&rt, flaw_of(rt.alloc(), text.as_str())?, "");
            }
        }
    }
    Ok(())
}

#[test]
fn a_program_with_a_changed_byte_is_told_in_one_line(rt: HostRuntime) -> Result<(), Fail> {
    for at in 0..SHORT.len() {
        for byte in BYTES.chars() {
            let mut text = String::new(rt.alloc());
            for (place, old) in SHORT.chars().enumerate() {
                text.push(if place == at { byte } else { old })?;
            }
            check_eq(&rt, flaw_of(rt.alloc(), text.as_str())?, "");
        }
    }
    Ok(())
}
