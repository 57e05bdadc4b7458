//! The values of arguments, read from their texts.

use crate::options::Refused;
use clap::ArgMatches;
use picture_layout::Length;
use std::alloc::{AllocError, Global};

const A_LINE: &str = "a line's number, from 1 on";

const A_THREAD: &str = "numbers of threads, as 0,2";

const A_WIDTH: &str = "a length of 60mm to 5291mm, as 84mm, 17cm, 3.25in, 240pt or 600px";

/// Says that the value of an argument isn't what it is to be.
fn wrong(alloc: Global, name: &str, text: &str, wanted: &str) -> Refused {
    match format!(in alloc; "--{name} {text}: not {wanted}\n") {
        Ok(said) => Refused::Wrong(said),
        Err(_) => Refused::NoMemory,
    }
}

/// Returns the number that a text says in digits.
fn number_in(text: &str) -> Option<u64> {
    if text.is_empty() || !text.bytes().all(|byte| byte.is_ascii_digit()) {
        return None;
    }
    text.parse::<u64>().ok()
}

/// Returns the line that an argument names.
pub fn line_number(
    alloc: Global,
    matches: &ArgMatches<'_>,
    name: &str,
) -> Result<Option<u64>, Refused> {
    let Some(text) = matches.get_str(name) else {
        return Ok(None);
    };
    match number_in(text) {
        Some(number) if number != 0 => Ok(Some(number)),
        _ => Err(wrong(alloc, name, text, A_LINE)),
    }
}

/// Returns the lines that an argument lists.
pub fn line_numbers(
    alloc: Global,
    matches: &ArgMatches<'_>,
    name: &str,
) -> Result<Vec<u64>, Refused> {
    let mut numbers = Vec::new(alloc);
    let Some(text) = matches.get_str(name) else {
        return Ok(numbers);
    };
    for word in text.split(',') {
        match number_in(word) {
            Some(number) if number != 0 => push(&mut numbers, number)?,
            _ => return Err(wrong(alloc, name, text, A_LINE)),
        }
    }
    Ok(numbers)
}

/// Returns the threads that an argument lists.
pub fn thread_numbers(
    alloc: Global,
    matches: &ArgMatches<'_>,
    name: &str,
) -> Result<Option<Vec<usize>>, Refused> {
    let Some(text) = matches.get_str(name) else {
        return Ok(None);
    };
    let mut numbers = Vec::new(alloc);
    for word in text.split(',') {
        match number_in(word) {
            Some(number) => push(&mut numbers, number as usize)?,
            None => return Err(wrong(alloc, name, text, A_THREAD)),
        }
    }
    Ok(Some(numbers))
}

/// Returns the words that an argument lists.
pub fn words_in(
    alloc: Global,
    matches: &ArgMatches<'_>,
    name: &str,
) -> Result<Option<Vec<String>>, AllocError> {
    let Some(text) = matches.get_str(name) else {
        return Ok(None);
    };
    let mut words = Vec::new(alloc);
    for word in text.split(',') {
        push(&mut words, String::from_str(alloc, word)?)?;
    }
    Ok(Some(words))
}

/// Returns the width that an argument asks for.
pub fn width_in(
    alloc: Global,
    matches: &ArgMatches<'_>,
    name: &str,
) -> Result<Option<Length>, Refused> {
    let Some(text) = matches.get_str(name) else {
        return Ok(None);
    };
    match Length::from_text(text) {
        Some(length) => Ok(Some(length)),
        None => Err(wrong(alloc, name, text, A_WIDTH)),
    }
}

fn push<T: Drop>(all: &mut Vec<T>, one: T) -> Result<(), AllocError> {
    all.push(one)?;
    Ok(())
}
