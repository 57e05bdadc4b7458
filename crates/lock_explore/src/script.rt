//! The threads that have the turns of a run, as text: `0:3,1,0:2` are three turns of thread 0, one of
//! thread 1, and two of thread 0.

use std::alloc::{AllocError, Global};

fn add(alloc: Global, text: &mut String, thread: usize, turns: u64) -> Result<(), AllocError> {
    let comma = if text.is_empty() { "" } else { "," };
    let part = if turns == 1 {
        format!(in alloc; "{comma}{thread}")?
    } else {
        format!(in alloc; "{comma}{thread}:{turns}")?
    };
    text.push_str(part.as_str())?;
    Ok(())
}

/// Returns the text of some threads, turn by turn.
///
/// # Errors
///
/// Where memory was refused.
pub fn script_text(alloc: Global, threads: &[usize]) -> Result<String, AllocError> {
    let mut text = String::new(alloc);
    let mut running = None;
    let mut turns = 0u64;
    for thread in threads {
        match running {
            Some(same) if same == *thread => turns = turns.saturating_add(1),
            Some(other) => {
                add(alloc, &mut text, other, turns)?;
                running = Some(*thread);
                turns = 1;
            }
            None => {
                running = Some(*thread);
                turns = 1;
            }
        }
    }
    if let Some(thread) = running {
        add(alloc, &mut text, thread, turns)?;
    }
    Ok(text)
}

/// The most turns of a script.
const MOST_TURNS: u64 = 1_000_000;

// The thread of a part, and its turns.
fn part_from(part: &str) -> Option<(usize, u64)> {
    match part.split_once(':') {
        Some((thread, turns)) => Some((thread.parse::<usize>().ok()?, turns.parse::<u64>().ok()?)),
        None => Some((part.parse::<usize>().ok()?, 1)),
    }
}

/// Reads the text of a script. An error is the part that is none.
///
/// # Errors
///
/// Where memory was refused.
pub fn script_from(alloc: Global, text: &str) -> Result<Result<Vec<usize>, String>, AllocError> {
    let mut script = Vec::new(alloc);
    let mut all = 0u64;
    for part in text.split(',') {
        let Some((thread, turns)) = part_from(part) else {
            return Ok(Err(String::from_str(alloc, part)?));
        };
        all = all.saturating_add(turns);
        if all > MOST_TURNS || thread >= core_director::MOST_THREADS {
            return Ok(Err(String::from_str(alloc, part)?));
        }
        for _ in 0..turns {
            script.push(thread)?;
        }
    }
    Ok(Ok(script))
}
