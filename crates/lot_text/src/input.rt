//! Lines of a reader, a bounded part of it at a time.
ghost use Rattle.std.specs.Prelude.{◌≡◌, ◌≢◌, ◌≤◌, ◌<◌, length, take, slice_index};
ghost use Rattle.lot_text.specs.Lines.{line_len};
ghost use Rattle.lot_text.specs.Reads.{IsOneLine, TakesPiece, ReadsLine};

use arrayvec::ArrayVec;
use memchr::memchr;
use std::io::{BufRead, ErrorKind};

/// The longest line, without its line feed.
pub const LINE_LEN: usize = 128;

/// The result of reading a line.
#[derive(Clone, Copy, Debug, PartialEq, Eq)]
pub enum Reading {
    Line,
    TooLong,
    End,
    Failed,
}

/// The result of a look at the reader's bytes.
#[derive(Clone, Copy)]
pub enum Piece {
    More,
    LineFeed,
    NoRoom,
    NoMore,
    Refused,
}

/// Reads the next line, without its line feed.
pub fn read_line<R: BufRead>(reader: &mut R, line: &mut ArrayVec<u8, LINE_LEN>) -> Reading
    ensures { ReadsLine (R.remaining reader.old) (R.remaining reader.new) result line.new.items }
{
    *line = ArrayVec::new();
    for _ in 0..u64::MAX {
        match take_piece(reader, line) {
            Piece::More => {}
            Piece::LineFeed => return Reading::Line,
            Piece::NoRoom => return Reading::TooLong,
            Piece::NoMore => {
                return if line.is_empty() {
                    Reading::End
                } else {
                    Reading::Line
                };
            }
            Piece::Refused => return Reading::Failed,
        }
    }
    Reading::Failed
}

/// Moves what the reader shows of the line to `line`, up to its line feed.
fn take_piece<R: BufRead>(reader: &mut R, line: &mut ArrayVec<u8, LINE_LEN>) -> Piece
    requires { length line.old.items ≤ line_len }
    ensures { TakesPiece (R.remaining reader.old) (R.remaining reader.new) result line.old.items
        line.new.items }
{
    let shown = match reader.fill_buf() {
        Ok(shown) => shown,
        Err(e) => {
            if e.kind() == ErrorKind::Interrupted {
                return Piece::More;
            }
            return Piece::Refused;
        }
    };
    if shown.is_empty() {
        return Piece::NoMore;
    }
    let len = len_of_line(shown);
    if line.try_extend_from_slice(&shown[..len]).is_err() {
        return Piece::NoRoom;
    }
    if len < shown.len() {
        reader.consume(len + 1);
        return Piece::LineFeed;
    }
    reader.consume(len);
    Piece::More
}

/// Returns how many bytes come before the first line feed, or all.
pub(crate) fn len_of_line(bytes: &[u8]) -> usize
    ensures within { result ≤ length bytes.now }
    ensures before { IsOneLine (take result bytes.now) }
    ensures found { result < length bytes.now → slice_index bytes.now result ≡ 10 }
{
    memchr(b'\n', bytes).unwrap_or(bytes.len())
}
