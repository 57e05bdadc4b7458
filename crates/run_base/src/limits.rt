//! The limits of waits that end after a while.
//!
//! A deadline is made of one look at the clock. Where no `u64` holds the sum the call waits without a
//! limit. No contract says that the first of two times was reported in this call: a clock knows no
//! calls. A timed try that needs no wait never looks at the deadline: a free lock is taken though the
//! time is up, as in the Rust crate.
ghost use Rattle.std.specs.Duration.{as_nanos};
ghost use Rattle.core_clocks.specs.Clocks.{HasElapsed, TimeIsUp};

use parking_lot_core::{Clock, to_deadline};
use std::time::Duration;

/// Returns the limit of a thread that waits for so long, from now on: none, where no `u64` tells its end.
pub fn limit_in<C: Clock>(clock: &C, timeout: Duration) -> Option<(&C, u64)>
    ensures { TimeIsUp C.tells result → HasElapsed (C.tells clock.now) (as_nanos timeout) }
{
    let deadline = to_deadline(clock.now(), timeout)?;
    Some((clock, deadline))
}
