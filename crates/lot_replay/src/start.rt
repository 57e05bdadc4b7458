//! The job that the arguments name.

ghost use Rattle.std.specs.Prelude.{◌≡◌, ◌≢◌, ◌↔◌, [], ◌∷◌, IsTrue, codes};
ghost use Rattle.std.specs.Io.KnownBytes.{Keeps};
ghost use Rattle.lot_replay.specs.Replay.{Replays};
ghost use Rattle.lot_replay.specs.Start.{TellsUsage, texts_of};

use crate::replay::replay;
use crate::status::{BROKEN, MALFORMED};
use core_base::Queues;
use lot_text::send_all;
use std::alloc::Global;
use std::io::{BufRead, Write};

/// Does the job that the arguments name, and gives the status of the process. Where they name none,
/// the usage goes to `errors`.
pub fn start<Q: Queues + Drop, R: BufRead, W: Write, E: Write>(
    alloc: Global,
    args: &[&str],
    reader: &mut R,
    writer: &mut W,
    errors: &mut E,
) -> u8
    ensures replay { texts_of args.now ≡ codes "replay" ∷ []
        → Replays (R.remaining reader.old) (R.remaining reader.new)
        (W.contents writer.old) (W.contents writer.new) result }
    ensures replay_tells_no_error { texts_of args.now ≡ codes "replay" ∷ []
        → Keeps (E.contents errors.old) (E.contents errors.new) }
    ensures usage { texts_of args.now ≢ codes "replay" ∷ []
        → TellsUsage (E.contents errors.old) (E.contents errors.new) result }
    ensures usage_reads_nothing { texts_of args.now ≢ codes "replay" ∷ []
        → Keeps (R.remaining reader.old) (R.remaining reader.new) }
    ensures usage_writes_nothing { texts_of args.now ≢ codes "replay" ∷ []
        → Keeps (W.contents writer.old) (W.contents writer.new) }
{
    if is_job(args, "replay") {
        return replay::<Q, R, W>(alloc, reader, writer);
    }
    if send_all(errors, b"usage: lotsim replay | lotsim live\n") {
        MALFORMED
    } else {
        BROKEN
    }
}

/// Returns whether the arguments are this word alone.
fn is_job(args: &[&str], job: &str) -> bool
    ensures { IsTrue result ↔ (texts_of args.now ≡ job.now ∷ []) }
{
    match args {
        [only] => *only == job,
        _ => false,
    }
}
