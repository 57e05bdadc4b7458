//! Who waits for what, and of whom.

use crate::failure::Failure;
use crate::judge::{LockEnd, judge};
use core_director::{Deed, Ending, Member, Status};
use std::alloc::{AllocError, Global};

// Adds words or threads after a beginning, if there are any.
fn add_list(
    alloc: Global,
    text: &mut String,
    begin: &str,
    between: &str,
    numbers: &[usize],
) -> Result<(), AllocError> {
    let mut mark = begin;
    for number in numbers {
        let item = format!(in alloc; "{mark}{number}")?;
        text.push_str(item.as_str())?;
        mark = between;
    }
    Ok(())
}

// Adds for what a thread in the queue of a lock waits: for others that have it, if there are any.
fn add_wait(
    alloc: Global,
    text: &mut String,
    end: &LockEnd,
    thread: usize,
) -> Result<(), AllocError> {
    let mark = if end.is_condvar {
        " to be notified"
    } else {
        ""
    };
    let wait = format!(in alloc; ", waits for w{}{mark}", end.word)?;
    text.push_str(wait.as_str())?;
    let mut others = Vec::new(alloc);
    for owner in &end.owners {
        if *owner != thread {
            others.push(*owner)?;
        }
    }
    if others.is_empty() && end.owners.contains(&thread) {
        return text.push_str(", which it has itself");
    }
    add_list(alloc, text, " of thread ", " and ", others.as_slice())
}

// Returns what a thread that is not at its end does.
fn deed_of(alloc: Global, member: &Member) -> Result<String, AllocError> {
    let word = member.next.word;
    match (member.status, member.next.deed, member.call) {
        (Status::Absent, _, _) => String::from_str(alloc, " has not come"),
        (Status::Asleep, _, Some(call)) => match call.deed {
            Deed::Call(name) => {
                format!(in alloc; " sleeps in {} of w{}", name.as_str(), call.word)
            }
            _ => format!(in alloc; " sleeps"),
        },
        (Status::Asleep, _, None) => format!(in alloc; " sleeps at w{word}"),
        (_, Deed::Call(name), _) => format!(in alloc; " is about to {} w{word}", name.as_str()),
        (_, Deed::Wake, _) => format!(in alloc; " is woken at w{word}"),
        (_, Deed::Begin, _) => String::from_str(alloc, " has called nothing"),
        (_, deed, _) => format!(in alloc; " is at w{word}: {deed:?}"),
    }
}

fn line_of(
    alloc: Global,
    ends: &[LockEnd],
    thread: usize,
    member: &Member,
) -> Result<String, AllocError> {
    let deed = deed_of(alloc, member)?;
    let mut text = format!(in alloc; "thread {thread}{deed}")?;
    let mut owned = Vec::new(alloc);
    for end in ends {
        if end.waiters.contains(&thread) {
            add_wait(alloc, &mut text, end, thread)?;
        }
        if end.owners.contains(&thread) {
            owned.push(end.word)?;
        }
    }
    add_list(alloc, &mut text, ", has w", ", w", owned.as_slice())?;
    Ok(text)
}

impl Failure {
    /// Returns a line for each thread that is not at its end: what it waits for and of whom, and what
    /// it has. What threads have is known where the simulator takes the run.
    ///
    /// # Errors
    ///
    /// Where memory was refused.
    pub fn waits(&self, alloc: Global) -> Result<Vec<String>, AllocError> {
        let judged = match self.schedule(alloc)? {
            Some(lines) => judge(alloc, lines.as_slice())?,
            None => None,
        };
        let ends = match judged {
            Some(ends) => ends,
            None => Vec::new(alloc),
        };
        let mut lines = Vec::new(alloc);
        for (thread, member) in self.members.iter().enumerate() {
            if member.status != Status::Gone {
                lines.push(line_of(alloc, ends.as_slice(), thread, member)?)?;
            }
        }
        Ok(lines)
    }

    /// Returns whether the simulator takes the run, line by line.
    ///
    /// # Errors
    ///
    /// Where memory was refused.
    pub fn is_taken(&self, alloc: Global) -> Result<bool, AllocError> {
        match self.schedule(alloc)? {
            Some(lines) => Ok(judge(alloc, lines.as_slice())?.is_some()),
            None => Ok(false),
        }
    }

    /// Returns how the run ended, in words.
    ///
    /// # Errors
    ///
    /// Where memory was refused.
    pub fn verdict(&self, alloc: Global) -> Result<String, AllocError> {
        let turns = self.log.turns.len();
        match self.ending {
            Ending::Fine => String::from_str(alloc, "fine"),
            Ending::Deadlock => format!(in alloc; "deadlock after {turns} turns"),
            Ending::Failed => {
                format!(in alloc; "failed after {turns} turns: {}", self.log.fault)
            }
            Ending::TooLong => format!(in alloc; "too long: {turns} turns"),
            Ending::Stuck(Some(thread)) => {
                format!(in alloc;
                    "stuck after {turns} turns: thread {thread} waits for something else than the locks"
                )
            }
            Ending::Stuck(None) => {
                format!(in alloc; "stuck after {turns} turns: no thread has the turn")
            }
            Ending::Strayed => {
                format!(in alloc;
                    "strayed after {turns} turns: the thread that is next by the replay can't go on"
                )
            }
        }
    }
}
