//! The lines that answer turns, and the last lines of a replay that stops.

ghost use Rattle.lot_text.specs.Sent.{Puts};
ghost use Rattle.lot_text.specs.Text.{state_text, answer_text, turn_line, malformed_line, no_memory_line};
ghost use Rattle.std.specs.Prelude.{◌≡◌};

use crate::output::Page;
use spec_locks::{Answer, OnceState, Outcome};
use std::io::Write;

/// Prints the line that answers a thread's turn, as almost every line of an output does: so it is
/// inlined.
#[inline(always)]
pub fn print_turn<W: Write>(page: &mut Page, writer: &mut W, thread: usize, outcome: Outcome)
    ensures { Puts (W.contents writer.old) (W.contents writer.new) page.old page.new
        (turn_line thread outcome) }
{
    page.put_number(writer, thread as u64);
    match outcome {
        Outcome::NotNow => page.put(writer, b" not now\n"),
        Outcome::Step => page.put(writer, b" step\n"),
        Outcome::Sleep => page.put(writer, b" sleep\n"),
        Outcome::Closure(state) => {
            page.put(writer, b" closure ");
            page.put(writer, state_text(state));
            page.put(writer, b"\n");
        }
        Outcome::End(answer) => {
            page.put(writer, b" end ");
            print_answer(page, writer, answer);
            page.put(writer, b"\n");
        }
    }
}

fn state_text(state: OnceState) -> &'static [u8]
    ensures { result.now ≡ state_text state }
{
    match state {
        OnceState::New => b"New",
        OnceState::Poisoned => b"Poisoned",
        OnceState::InProgress => b"InProgress",
        OnceState::Done => b"Done",
    }
}

fn print_answer<W: Write>(page: &mut Page, writer: &mut W, answer: Answer)
    ensures { Puts (W.contents writer.old) (W.contents writer.new) page.old page.new
        (answer_text answer) }
{
    match answer {
        Answer::Ok => page.put(writer, b"ok"),
        Answer::Yes => page.put(writer, b"yes"),
        Answer::No => page.put(writer, b"no"),
        Answer::ReadersFull => page.put(writer, b"readers full"),
        Answer::Notified => page.put(writer, b"notified"),
        Answer::TimedOut => page.put(writer, b"timed out"),
        Answer::TwoMutexes => page.put(writer, b"two mutexes"),
        Answer::Poisoned => page.put(writer, b"poisoned"),
        Answer::Failed => page.put(writer, b"failed"),
        Answer::Number(n) => page.put_number(writer, n as u64),
    }
}

/// Prints the last line of a replay that met a line of another form.
pub fn print_malformed<W: Write>(page: &mut Page, writer: &mut W, number: u64)
    ensures { Puts (W.contents writer.old) (W.contents writer.new) page.old page.new
        (malformed_line number) }
{
    page.put(writer, b"line ");
    page.put_number(writer, number);
    page.put(writer, b" malformed\n");
}

/// Prints the last line of a replay that was refused memory.
pub fn print_no_memory<W: Write>(page: &mut Page, writer: &mut W, number: u64)
    ensures { Puts (W.contents writer.old) (W.contents writer.new) page.old page.new
        (no_memory_line number) }
{
    page.put(writer, b"line ");
    page.put_number(writer, number);
    page.put(writer, b" no memory\n");
}
