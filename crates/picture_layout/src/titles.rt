//! How pictures and locks are called.

use lot_picture::{ColumnKind, LockRow, Recording};
use lot_world::Kind;
use std::alloc::{AllocError, Global};

/// How many locks a title names.
const MOST_NAMED: usize = 4;

/// Returns what a picture is called: its locks, each with its kind, and how many threads and lines or turns
/// there are.
pub fn title_of(alloc: Global, recording: &Recording) -> Result<String, AllocError> {
    let mut title = String::new(alloc);
    push_locks(&mut title, recording)?;
    if recording.rows.len() > MOST_NAMED {
        let more = recording.rows.len() - MOST_NAMED;
        write!(title, "{more} more, ")?;
    }
    push_counted(&mut title, recording.threads as u64, "thread")?;
    title.push_str(", ")?;
    push_counted(&mut title, recording.lines, unit_word(recording.kind))?;
    Ok(title)
}

/// Returns the word for a column.
pub fn unit_word(kind: ColumnKind) -> &'static str {
    match kind {
        ColumnKind::Line => "line",
        ColumnKind::Turn => "turn",
    }
}

fn push_locks(title: &mut String, recording: &Recording) -> Result<(), AllocError> {
    for row in recording.rows.iter().take(MOST_NAMED) {
        push_lock(title, row)?;
    }
    Ok(())
}

fn push_lock(title: &mut String, row: &LockRow) -> Result<(), AllocError> {
    title.push_str(kind_text(row.kind))?;
    title.push_str(" ")?;
    push_bytes(title, row.name.text())?;
    title.push_str(", ")
}

fn push_counted(title: &mut String, count: u64, what: &str) -> Result<(), AllocError> {
    write!(title, "{count} {what}")?;
    if count != 1 {
        title.push_str("s")?;
    }
    Ok(())
}

/// Adds bytes to a text, each as the letter of its number.
pub fn push_bytes(text: &mut String, bytes: &[u8]) -> Result<(), AllocError> {
    for byte in bytes {
        text.push(char::from(*byte))?;
    }
    Ok(())
}

/// Returns what a kind of lock is called.
fn kind_text(kind: Kind) -> &'static str {
    match kind {
        Kind::Mutex => "mutex",
        Kind::Fair => "fair mutex",
        Kind::RwLock { .. } => "reader-writer lock",
        Kind::Recursive { .. } => "recursive reader-writer lock",
        Kind::Condvar => "condition variable",
        Kind::Once => "Once",
        Kind::Semaphore { .. } => "semaphore",
    }
}

/// Returns the lines of a text, each of so many letters at most where its words allow that.
pub fn wrapped(alloc: Global, text: &str, letters: usize) -> Result<Vec<String>, AllocError> {
    let mut lines = Vec::<String>::new(alloc);
    for word in text.split(' ') {
        match lines.last_mut() {
            Some(line) if fits_on(line.as_str(), word, letters) => {
                line.push_str(" ")?;
                line.push_str(word)?;
            }
            _ => lines.push(String::from_str(alloc, word)?)?,
        }
    }
    Ok(lines)
}

fn fits_on(line: &str, word: &str, letters: usize) -> bool {
    line.len().saturating_add(word.len()).saturating_add(1) <= letters
}
