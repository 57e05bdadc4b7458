//! Lines in, lines out.
ghost use Rattle.std.specs.Prelude.{◌≡◌, ◌≤◌, ℕ, List, MatchOption, drop, length, false};
ghost use Rattle.lot_text.specs.Sent.{Puts};
ghost use Rattle.lot_replay.specs.Answers.{last_line, last_status};
ghost use Rattle.lot_replay.specs.Fronts.{AnswersFront, AnswersRead, RefusesFirst, RefusesRead};
ghost use Rattle.lot_replay.specs.Sessions.{replay_stage_of};
ghost use Rattle.lot_replay.specs.Replay.{MayWrite, Replays, BeginningsBegin, EarlyTextsBegin, HasOneText};

use crate::state::{Refusal, State};
use crate::status::{BROKEN, DONE, MALFORMED, NO_MEMORY};
use arrayvec::ArrayVec;
use core_base::Queues;
use lot_text::{LINE_LEN, Page, Reading, first_line, print_malformed, print_no_memory, read_line};
use std::alloc::Global;
use std::io::{BufRead, ErrorKind, Write};

/// The lines at the front of a text: how many were answered, how many bytes they have, and why the
/// next isn't answered, if it was looked at.
#[derive(Clone, Copy)]
struct Front {
    lines: usize,
    len: usize,
    refusal: Option<Refusal>,
}

impl Front {
    const NONE: Front = Front {
        lines: 0,
        len: 0,
        refusal: None,
    };
}

/// Answers the lines of an input, and gives the status. All of the input's text goes out, or where
/// a write fails a beginning of it.
pub fn replay<Q: Queues + Drop, R: BufRead, W: Write>(
    alloc: Global,
    reader: &mut R,
    writer: &mut W,
) -> u8
    ensures { Replays (R.remaining reader.old) (R.remaining reader.new) (W.contents writer.old)
        (W.contents writer.new) result }
{
    let mut page = Page::new();
    let status = answer_lines::<Q, R, W>(alloc, reader, writer, &mut page);
    page.finish(writer);
    if page.is_lost() { BROKEN } else { status }
}

/// Answers the lines up to the end, or to the first that cannot be answered.
fn answer_lines<Q: Queues + Drop, R: BufRead, W: Write>(
    alloc: Global,
    reader: &mut R,
    writer: &mut W,
    page: &mut Page,
) -> u8
    ensures { (text : List ℕ) × (ending : ℕ)
        × MayWrite (R.remaining reader.old) (R.remaining reader.new) text ending
        × Puts (W.contents writer.old) (W.contents writer.new) page.old page.new text
        × (page.new.lost ≡ false → result ≡ ending) }
{
    let mut state = State::<Q>::new();
    let mut line = ArrayVec::<u8, LINE_LEN>::new();
    let mut number = 1;
    for _ in 0..u64::MAX {
        let Some(front) = answer_shown(alloc, reader, writer, page, &mut state) else {
            return BROKEN;
        };
        let Some(next) = u64::checked_add(number, front.lines as u64) else {
            return BROKEN;
        };
        if let Some(refusal) = front.refusal {
            return stop(page, writer, next, refusal);
        }
        if page.is_lost() {
            return BROKEN;
        }
        match read_line(reader, &mut line) {
            Reading::Line => {}
            Reading::TooLong => return stop(page, writer, next, Refusal::Malformed),
            Reading::End => return DONE,
            Reading::Failed => return BROKEN,
        }
        if let Err(refusal) = state.answer(alloc, page, writer, line.as_slice()) {
            return stop(page, writer, next, refusal);
        }
        if page.is_lost() || next == u64::MAX {
            return BROKEN;
        }
        number = next + 1;
    }
    BROKEN
}

/// Answers the lines that the reader shows whole, and takes them from it. None where a read fails.
fn answer_shown<Q: Queues + Drop, R: BufRead, W: Write>(
    alloc: Global,
    reader: &mut R,
    writer: &mut W,
    page: &mut Page,
    state: &mut State<Q>,
) -> Option<Front>
    ensures { MatchOption result
        (AnswersRead (R.remaining reader.old) (R.remaining reader.new) 0
        (replay_stage_of state.old.session) (replay_stage_of state.new.session)
        (Puts (W.contents writer.old) (W.contents writer.new) page.old page.new))
        (λ front. AnswersRead (R.remaining reader.old) (R.remaining reader.new) front.lines
        (replay_stage_of state.old.session) (replay_stage_of state.new.session)
        (Puts (W.contents writer.old) (W.contents writer.new) page.old page.new)
        × RefusesRead front.refusal (replay_stage_of state.new.session) (R.remaining reader.old)
        (R.remaining reader.new)) }
{
    let front = match reader.fill_buf() {
        Ok(shown) => answer_front(alloc, page, writer, state, shown),
        Err(e) => {
            if e.kind() == ErrorKind::Interrupted {
                return Some(Front::NONE);
            }
            return None;
        }
    };
    reader.consume(front.len);
    Some(front)
}

/// Answers the lines that a text shows whole, up to the first that isn't answered.
fn answer_front<Q: Queues + Drop, W: Write>(
    alloc: Global,
    page: &mut Page,
    writer: &mut W,
    state: &mut State<Q>,
    shown: &[u8],
) -> Front
    ensures within { result.len ≤ length shown.now }
    ensures answered { AnswersFront shown.now (drop result.len shown.now) result.lines
        (replay_stage_of state.old.session) (replay_stage_of state.new.session)
        (Puts (W.contents writer.old) (W.contents writer.new) page.old page.new) }
    ensures refused { RefusesFirst result.refusal (replay_stage_of state.new.session)
        (drop result.len shown.now) }
{
    let mut front = Front::NONE;
    while let Some(first) = first_line(&shown[front.len..]) {
        let kept = &shown[front.len..][..first.len - 1];
        if let Err(refusal) = state.answer_next(alloc, page, writer, first.said, kept) {
            front.refusal = Some(refusal);
            return front;
        }
        front.len += first.len;
        front.lines += 1;
    }
    front
}

/// Prints the last line of a replay that stops at a line, and gives the status.
fn stop<W: Write>(page: &mut Page, writer: &mut W, number: u64, refusal: Refusal) -> u8
    ensures text { Puts (W.contents writer.old) (W.contents writer.new) page.old page.new
        (last_line refusal number) }
    ensures status { result ≡ last_status refusal }
{
    match refusal {
        Refusal::Malformed => {
            print_malformed(page, writer, number);
            MALFORMED
        }
        Refusal::NoMemory => {
            print_no_memory(page, writer, number);
            NO_MEMORY
        }
    }
}

/// A schedule that begins another, at the end of a line, has a text that begins the other's.
pub fn beginnings_begin()
    ensures { BeginningsBegin }
{}

/// The answers given before memory or a device failed begin the text of the whole input.
pub fn early_texts_begin()
    ensures { EarlyTextsBegin }
{}

/// Each input has one text.
pub fn texts_are_one()
    ensures { HasOneText }
{}
