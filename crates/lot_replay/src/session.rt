//! The threads and the named locks of a replay.
ghost use Rattle.std.specs.Prelude.{◌≡◌, ◌≤◌, All, length, true};
ghost use Rattle.std.specs.Option.{ForSome};
ghost use Rattle.lot_world.specs.Kinds.{fits};
ghost use Rattle.lot_world.specs.declared.world.TheConstants.{MOST_THREADS, MOST_LOCKS};

use core_base::Queues;
use lot_text::Names;
use lot_world::{Kind, MOST_LOCKS, MOST_THREADS, World};

/// The threads and the named locks of a replay, and their world from the first turn or show on.
pub(crate) struct Session<Q: Queues + Drop> {
    pub(crate) threads: usize,
    pub(crate) names: Names,
    pub(crate) kinds: Vec<Kind>,
    pub(crate) world: Option<World<Q>>,
    ghost some_thread: { 1 ≤ threads },
    ghost few_threads: { threads ≤ MOST_THREADS },
    ghost few_locks: { length kinds.items ≤ MOST_LOCKS },
    ghost fit: { All (λ kind. fits kind threads ≡ true) kinds.items },
    ghost named: { length names ≡ length kinds.items },
    ghost same_locks: { ForSome world (λ w. length w.locks ≡ length names) },
}

// By hand: a derived drop is written out at each exit of each function that owns one.
impl<Q: Queues + Drop> Drop for Session<Q> {
    fn drop(self) {
        let Session {
            threads: _,
            names: _,
            kinds: _,
            world: _,
        } = self;
    }
}
