//! A replay for the buffer of a caller.
ghost use Rattle.lot_c.specs.Replies.{RepliesTo};

use crate::delivery::{after, deliver};
use crate::status::BROKEN;
use core_queues::BucketQueues;
use lot_replay::replay::replay;
use std::alloc::Global;
use std::io::BufRead;

/// Replays what a reader has, and puts its text from a byte on at the front of a buffer. Returns the status.
pub fn reply<R: BufRead>(
    alloc: Global,
    reader: &mut R,
    told: usize,
    output: &mut [u8],
    written: &mut usize,
) -> u32
    ensures { RepliesTo (R.remaining reader.old) told output.old output.new written.new result }
{
    let mut text = Vec::new(alloc);
    let status = replay::<BucketQueues, R, Vec<u8>>(alloc, reader, &mut text);
    if status == BROKEN {
        *written = 0;
        return BROKEN as u32;
    }
    deliver(after(text.as_slice(), told), status, output, written)
}
