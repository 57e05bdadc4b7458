//! The kinds of lock.
ghost use Rattle.std.specs.Prelude.{◌≡◌};
ghost use Rattle.spec_locks.specs.Kinds.{fits, has_call, is_condvar, is_fair, is_plain_mutex};

use crate::calls::Call;

/// The greatest reader limit.
pub const MOST_READERS: u64 = 1152921504606846974;

/// The greatest number of permits, 2^62.
pub const MOST_PERMITS: u64 = 4611686018427387904;

/// A kind of lock, with what is chosen for it.
#[derive(Clone, Copy, Debug, PartialEq, Eq)]
pub enum Kind {
    Mutex,
    /// A mutex whose `unlock` hands the lock over.
    Fair,
    /// A reader-writer lock that admits no reader beside a waiting writer that has its bit set.
    RwLock { limit: u64 },
    /// A reader-writer lock whose readers may read again beside a waiting writer.
    Recursive { limit: u64 },
    Condvar,
    Once,
    /// A semaphore, whose threads hold at most so many permits in all.
    Semaphore { permits: u64 },
}

impl Kind {
    /// Returns whether a world of this many threads may have such a lock: its reader limit, if it
    /// has one, is at least the number of threads and at most 2^60 - 2; a semaphore has 1 to 2^62
    /// permits.
    pub fn fits(self, threads: usize) -> bool
        ensures { result ≡ fits self threads }
    {
        match self {
            Kind::RwLock { limit } => threads as u64 <= limit && limit <= MOST_READERS,
            Kind::Recursive { limit } => threads as u64 <= limit && limit <= MOST_READERS,
            Kind::Semaphore { permits } => 1 <= permits && permits <= MOST_PERMITS,
            Kind::Mutex | Kind::Fair | Kind::Condvar | Kind::Once => true,
        }
    }

    /// Returns whether the kind has the call.
    pub fn has_call(self, call: Call) -> bool
        ensures { result ≡ has_call self call }
    {
        match (self, call) {
            (Kind::Mutex | Kind::Fair, Call::Mutex { .. }) => true,
            (Kind::RwLock { .. } | Kind::Recursive { .. }, Call::RwLock { .. }) => true,
            (Kind::Condvar, Call::Condvar { .. }) => true,
            (Kind::Once, Call::Once { .. }) => true,
            (Kind::Semaphore { .. }, Call::Semaphore { .. }) => true,
            _ => false,
        }
    }

    /// Returns whether it is a mutex whose `unlock` hands the lock over.
    pub fn is_fair(self) -> bool
        ensures { result ≡ is_fair self }
    {
        matches!(self, Kind::Fair)
    }

    /// Returns whether it is a mutex that condition variables work with. A fair one isn't.
    pub fn is_plain_mutex(self) -> bool
        ensures { result ≡ is_plain_mutex self }
    {
        matches!(self, Kind::Mutex)
    }

    pub fn is_condvar(self) -> bool
        ensures { result ≡ is_condvar self }
    {
        matches!(self, Kind::Condvar)
    }
}
