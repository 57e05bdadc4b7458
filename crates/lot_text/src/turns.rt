//! The turns that most lines of a schedule are. They are read where the reader shows them: to copy
//! a line and to take all its words apart costs more than the turn.
ghost use Rattle.std.specs.Prelude.{◌≡◌, ◌≤◌, IfSome, length};
ghost use Rattle.lot_text.specs.Turns.{BeginsWithLine, BeginsWithTurn, BeginsWithWord};

use crate::grammar::number;
use crate::input::len_of_line;
use crate::words::begins_with;

/// A turn that most lines are: it begins no call, no closure answers in it, and its thread doesn't
/// go on alone.
#[derive(Clone, Copy)]
pub enum PlainTurn {
    Go,
    Spin,
    Late,
}

/// A line that was read: a plain turn, or what its whole text means.
#[derive(Clone, Copy)]
pub enum Line {
    Turn { thread: usize, turn: PlainTurn },
    Text,
}

/// A line that is shown whole, and how many bytes it has with its line feed.
#[derive(Clone, Copy)]
pub struct ShownLine {
    pub said: Line,
    pub len: usize,
}

/// A plain turn, and how many bytes its line has with its line feed.
#[derive(Clone, Copy)]
struct TurnLine {
    thread: usize,
    turn: PlainTurn,
    len: usize,
}

/// Returns the line that comes first, where its line feed is there.
#[inline]
pub fn first_line(text: &[u8]) -> Option<ShownLine>
    ensures { IfSome result (λ first. BeginsWithLine text.now first.said first.len) }
{
    if let Some(TurnLine { thread, turn, len }) = turn_line(text) {
        let said = Line::Turn { thread, turn };
        return Some(ShownLine { said, len });
    }
    text_line(text)
}

/// Returns the text that comes first, where its line feed is there.
#[inline(never)]
fn text_line(text: &[u8]) -> Option<ShownLine>
    ensures { IfSome result (λ first. BeginsWithLine text.now first.said first.len) }
{
    let len = len_of_line(text);
    if len == text.len() {
        return None;
    }
    let said = Line::Text;
    Some(ShownLine { said, len: len + 1 })
}

/// Returns the plain turn whose line comes first.
fn turn_line(text: &[u8]) -> Option<TurnLine>
    ensures { IfSome result (λ line. BeginsWithTurn text.now line.thread line.turn line.len) }
{
    let digits = len_of_digits(text);
    let thread = number(&text[..digits])?;
    let (turn, len) = plain_turn(&text[digits..])?;
    Some(TurnLine {
        thread,
        turn,
        len: digits + len,
    })
}

/// Returns how many digits come first.
fn len_of_digits(text: &[u8]) -> usize
    ensures { result ≤ length text.now }
{
    text.iter()
        .position(|b| !b.is_ascii_digit())
        .unwrap_or(text.len())
}

/// Returns the turn whose word comes first, between a space and a line feed, and how many bytes
/// these are together.
fn plain_turn(text: &[u8]) -> Option<(PlainTurn, usize)>
    ensures { IfSome result (λ found. BeginsWithWord text.now found.0 found.1) }
{
    if begins_with(text, b" go\n") {
        Some((PlainTurn::Go, 4))
    } else if begins_with(text, b" spin\n") {
        Some((PlainTurn::Spin, 6))
    } else if begins_with(text, b" late\n") {
        Some((PlainTurn::Late, 6))
    } else {
        None
    }
}
