//! The words of locks and their queues, in words.
//!
//! A word is cut to its number where its columns are narrower, and a line below says what such numbers
//! mean.

use core_base::{Waiter, Want, main_key};
use lot_picture::{LockRow, Recording};
use lot_world::{Kind, MOST_LOCKS};
use std::alloc::{AllocError, Global};
use steps_base::bits;

/// Returns a lock's word: its number, and what its bits say.
pub fn text_of_word(
    alloc: Global,
    recording: &Recording,
    kind: Kind,
    word: u64,
) -> Result<String, AllocError> {
    let mut text = format!(in alloc; "{word}")?;
    match kind {
        Kind::Mutex | Kind::Fair => push_mutex(&mut text, word)?,
        Kind::RwLock { .. } | Kind::Recursive { .. } => push_rwlock(&mut text, word)?,
        Kind::Once => push_once(&mut text, word)?,
        Kind::Semaphore { .. } => push_semaphore(&mut text, word)?,
        Kind::Condvar => push_condvar(&mut text, recording, word)?,
    }
    Ok(text)
}

/// Adds the names of those bits that are set, after the number.
fn push_bits(text: &mut String, bits: &[(bool, &str)]) -> Result<bool, AllocError> {
    let mut number = 0usize;
    for (is_set, name) in bits {
        if *is_set {
            text.push_str(if number == 0 { ": " } else { "|" })?;
            text.push_str(*name)?;
            number = number.saturating_add(1);
        }
    }
    Ok(number != 0)
}

fn push_mutex(text: &mut String, word: u64) -> Result<(), AllocError> {
    let bits = [(word % 2 == 1, "LOCKED"), (word / 2 % 2 == 1, "PARKED")];
    push_bits(text, &bits)?;
    Ok(())
}

fn push_rwlock(text: &mut String, word: u64) -> Result<(), AllocError> {
    let names = [
        (bits::has_writer(word), "WRITER"),
        (bits::has_upgradable(word), "UPGRADABLE"),
        (bits::has_aside(word), "ASIDE"),
        (bits::has_parked(word), "PARKED"),
    ];
    let has_bits = push_bits(text, &names)?;
    let readers = bits::count_in(word);
    if readers != 0 {
        text.push_str(if has_bits { " + " } else { ": " })?;
        push_counted(text, readers, "reader")?;
    }
    Ok(())
}

fn push_once(text: &mut String, word: u64) -> Result<(), AllocError> {
    let names = [
        (bits::is_done(word), "DONE"),
        (bits::is_poisoned(word), "POISONED"),
        (bits::is_running(word), "RUNNING"),
        (bits::is_marked(word), "PARKED"),
    ];
    push_bits(text, &names)?;
    Ok(())
}

fn push_semaphore(text: &mut String, word: u64) -> Result<(), AllocError> {
    push_bits(text, &[(word % 2 == 1, "PARKED")])?;
    let free = word / 2;
    if free != 0 {
        text.push_str(if word % 2 == 1 { " + " } else { ": " })?;
        push_counted(text, free, "permit")?;
    }
    Ok(())
}

/// Adds the mutex that a condition variable shows.
fn push_condvar(text: &mut String, recording: &Recording, word: u64) -> Result<(), AllocError> {
    if word == 0 || word > MOST_LOCKS as u64 {
        return Ok(());
    }
    text.push_str(": ")?;
    for byte in recording.name_of((word - 1) as usize) {
        text.push(char::from(*byte))?;
    }
    Ok(())
}

fn push_counted(text: &mut String, count: u64, what: &str) -> Result<(), AllocError> {
    write!(text, "{count} {what}")?;
    if count != 1 {
        text.push_str("s")?;
    }
    Ok(())
}

/// Returns the waiters of a lock: the main queue from the front, each with what it wants, and the
/// waiter aside.
pub fn text_of_queue(alloc: Global, row: &LockRow, queue: &[Waiter]) -> Result<String, AllocError> {
    let mut text = String::new(alloc);
    for (at, waiter) in queue.iter().enumerate() {
        let (thread, want) = (waiter.thread, want_letter(waiter.want));
        text.push_str(if at == 0 { "" } else { " " })?;
        if is_aside(row.lock, *waiter) {
            text.push_str("aside ")?;
        }
        write!(text, "{thread}{want}")?;
    }
    Ok(text)
}

/// Tells whether a waiter of a lock waits aside.
pub fn is_aside(lock: usize, waiter: Waiter) -> bool {
    lock >= MOST_LOCKS || waiter.key != main_key(lock)
}

fn want_letter(want: Want) -> &'static str {
    match want {
        Want::Exclusive => "x",
        Want::Upgradable => "u",
        Want::Shared => "s",
        Want::Wait => "w",
        Want::CallOnce => "c",
    }
}
