//! Replays and searches for programs in C and Rust: bytes in, bytes out. `include/lot.h` declares the
//! functions.
#![tactic(auto)]

ghost use Rattle.std.specs.Prelude.{◌++◌};
ghost use Rattle.lot_c.specs.Replies.{LeavesRest, Replies};

mod delivery;
mod endings;
mod found;
mod replies;
mod search;
mod status;

use crate::delivery::deliver;
use crate::replies::reply;
use crate::search::search_text;
use crate::status::BROKEN;
use std::alloc::Global;
use std::io::Read;

/// Replays a schedule: its text goes to the front of `output`, and `written` gets its length in bytes.
/// Returns the status of the replay: 0, 2 where a line is malformed, 3 where memory was refused at a
/// line. Where memory was refused for the text, the status is 4, and nothing is written. Where `output`
/// is too short, the status is 5, and `written` alone is changed.
#[unsafe(no_mangle)]
pub extern "C" fn lot_replay(
    alloc: Global,
    input: &[u8],
    output: &mut [u8],
    written: &mut usize,
) -> u32
    ensures text { Replies input.now 0 output.old output.new written.new result }
{
    let mut reader = input;
    reply(alloc, &mut reader, 0, output, written)
}

/// Replays a schedule that goes on after another, and leaves out the first `told` bytes of its text. Where
/// the text of `state` has so many bytes, and `state` ends in a line feed, the answers of `lines` are left.
/// The rest is as at `lot_replay`.
#[unsafe(no_mangle)]
pub extern "C" fn lot_step(
    alloc: Global,
    state: &[u8],
    lines: &[u8],
    told: usize,
    output: &mut [u8],
    written: &mut usize,
) -> u32
    ensures text { Replies (state.now ++ lines.now) told output.old output.new written.new result }
{
    let mut reader = state.chain(lines);
    reply(alloc, &mut reader, told, output, written)
}

/// Searches all schedules of a program of lock calls, within so many states: the text that `lotexplore`
/// prints of it goes to the front of `output`, and `written` gets its length in bytes. Returns the status
/// of the search: 0 where nothing goes wrong, 1 where a schedule does, 2 where the program is malformed,
/// 3 where a limit was reached or memory was refused. 4 and 5 are as at `lot_replay`.
#[unsafe(no_mangle)]
pub extern "C" fn lot_explore(
    alloc: Global,
    program: &[u8],
    states: u32,
    output: &mut [u8],
    written: &mut usize,
) -> u32
    ensures rest { LeavesRest output.old output.new written.new result }
{
    match search_text(alloc, program, states) {
        Ok(searched) => deliver(searched.text.as_slice(), searched.status, output, written),
        Err(_) => {
            *written = 0;
            BROKEN as u32
        }
    }
}
