//! Worked schedules with a `drain`, and the texts to which they lead.

/// Schedules, and the texts to which they lead.
pub const ROWS: [(&[u8], &[u8]); 13] = [
    // Nothing is to be done.
    (
        b"threads 2
lock m mutex
drain
show
",
        b"m 0
",
    ),
    // There are two locks.
    (
        b"threads 1
lock a mutex
lock b mutex
drain
",
        b"drain refused
",
    ),
    // A thread has two rights.
    (
        b"threads 1
lock r rwlock
0 do read r
0 do read r
drain
show
",
        b"0 end ok
0 end ok
drain refused
r 32 own=0s,0s
",
    ),
    // There is no lock, or one without owners.
    (
        b"threads 1
drain
",
        b"drain refused
",
    ),
    (
        b"threads 1
lock o once
drain
",
        b"drain refused
",
    ),
    (
        b"threads 1
lock c condvar
drain
",
        b"drain refused
",
    ),
    // A mutex was handed over.
    (
        b"threads 3
lock m mutex
0 do lock m
1 do lock m
2 do lock m
0 do unlock_fair m
1 solo
1 do unlock_fair m
drain
show
drain
show
",
        b"0 end ok
1 sleep
2 sleep
0 end ok
1 end ok
1 end ok
drain 2 go
drain 2 begin unlock m
drain 2 go
m 0
m 0
",
    ),
    // An upgradable owner gives up its own right.
    (
        b"threads 1
lock r rwlock
0 do upgradable r
drain
show
",
        b"0 end ok
drain 0 begin unlock_upgradable r
drain 0 go
r 0
",
    ),
    (
        b"threads 1
lock r recursive
0 do write r
drain
show
",
        b"0 end ok
drain 0 begin unlock_exclusive r
drain 0 go
r 0
",
    ),
    // The readers become as many as the limit on the way.
    (
        b"threads 2
lock r rwlock 2
0 begin read r
1 begin read r
drain
show
drain
",
        b"0 step
1 step
drain 0 go
drain 0 go
drain 1 go
drain 1 go
drain 0 begin unlock_shared r
drain 0 go
drain 1 begin unlock_shared r
drain 1 go
r 0
drain refused
",
    ),
    // A fair mutex is released fairly by `unlock`.
    (
        b"threads 2
lock m fair
0 do lock m
1 do lock m
drain
show
",
        b"0 end ok
1 sleep
drain 0 begin unlock m
drain 0 go
drain 0 go
drain 0 go
drain 0 go
drain 0 go
drain 1 go
drain 1 begin unlock m
drain 1 go
m 0
",
    ),
    // A thread that reads twice is between its two releases.
    (
        b"threads 1
lock r rwlock
0 do read r
0 do read r
0 do unlock_shared r
drain
show
",
        b"0 end ok
0 end ok
0 end ok
drain 0 begin unlock_shared r
drain 0 go
r 0
",
    ),
    // A reader begins to read once more.
    (
        b"threads 1
lock r rwlock
0 do read r
0 begin read r
drain
",
        b"0 end ok
0 step
drain refused
",
    ),
];

/// Schedules of one lock, named `r` or `m`, after whose last line it can be drained.
pub const DRAINED: [&[u8]; 8] = [
    // A writer waits for a reader, and another reader waits after it.
    b"threads 3
lock r rwlock
0 do read r
1 do write_timed r
2 do read r
",
    // Both sections are held.
    b"threads 3
lock r rwlock
0 do read r
1 do write_timed r
0 begin unlock_shared r
0 go
0 go
2 begin read r
2 go
2 go
2 go
",
    // A bump is past its release.
    b"threads 3
lock r rwlock
0 do write r
1 do read r
2 do write r
0 begin bump_exclusive r
0 go
0 go
0 go
0 go
0 go
0 go
",
    // A late writer has taken its bit from the word, and not rolled back.
    b"threads 3
lock r rwlock
0 do read r
1 do write_timed r
2 do read r
1 late
1 go
1 go
1 go
",
    // An upgrade waits for a reader.
    b"threads 2
lock r recursive
0 do upgradable r
1 do read r
0 do upgrade_timed r
",
    // A release of a mutex has seen a waiter, and another thread has locked it.
    b"threads 3
lock m mutex
0 do lock m
1 do lock m
0 begin unlock m
0 go
0 go
2 do try_lock m
",
    // A reader that has two rights gives one up.
    b"threads 2
lock r rwlock
0 do read r
0 do read r
1 do write r
0 begin unlock_shared r
0 go
",
    // Writers and readers wait after a writer.
    b"threads 4
lock r rwlock
0 do write r
1 do read r
2 do write r
3 do upgradable r
",
];

/// Worked schedules of one lock.
pub const WORKED: [&[u8]; 12] = [
    // Two threads take a mutex in turn.
    b"threads 1
lock m mutex
0 do try_lock m
0 do try_lock m
0 do unlock m
0 do try_lock m
",
    // A try comes between a release and the waiter that it woke.
    b"threads 3
lock m mutex
0 do lock m
1 do lock m
0 begin unlock m
0 go
2 do try_lock m
0 solo
1 solo
",
    // A mutex is handed over.
    b"threads 3
lock m mutex
0 do lock m
1 do lock m
2 do lock m
0 do unlock_fair m
1 solo
1 do unlock_fair m
2 solo
",
    // A mutex is handed over as another thread is about to wait.
    b"threads 3
lock m mutex
0 do lock m
1 do lock m
2 begin lock m
2 go
2 go
0 do unlock_fair m
2 go
2 go
2 solo
",
    // A thread waits for a mutex up to a deadline.
    b"threads 2
lock m mutex
0 do lock m
1 do lock_timed m
1 late
1 solo
",
    // A writer waits for a reader.
    b"threads 3
lock r rwlock
0 do read r
1 do write r
2 do try_read r
",
    // Upgrades and readers on a recursive lock.
    b"threads 4
lock r recursive
0 do read r
1 do read r
2 do write r
3 do try_read r
",
    // A writer that waits for a reader gives up.
    b"threads 3
lock r rwlock
0 do read r
1 do write_timed r
2 do read r
1 late
1 go
1 go
1 go
1 go
1 solo
2 solo
",
    // A writer hands the lock over.
    b"threads 4
lock r rwlock
0 do write r
1 do read r
2 do write r
3 do read r
0 do unlock_exclusive_fair r
",
    // An upgrade gives up.
    b"threads 2
lock r rwlock
0 do upgradable r
1 do read r
0 do upgrade_timed r
0 late
0 solo
",
    // A writer settles as the last reader leaves.
    b"threads 3
lock r rwlock
0 do read r
1 begin write r
1 go
1 go
1 go
1 go
1 go
0 begin unlock_shared r
0 go
1 solo
1 do unlock_exclusive r
2 do try_write r
2 do write r
2 do unlock_exclusive r
0 solo
2 do try_write r
",
    // An upgrade waits on a recursive lock.
    b"threads 2
lock r recursive 2
0 do upgradable r
1 do read r
0 do upgrade_timed r
1 do read r
0 late
0 solo
1 do read r
",
];
