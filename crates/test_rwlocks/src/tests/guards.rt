//! Guards, and the threads that they keep out, on a lock as it is made and on one that so many may
//! share.
ghost use Rattle.std.specs.Prelude.{◌≡◌};
ghost use Rattle.parking_lot_core.specs.Tokens.{IsTokenOf};
ghost use Rattle.parking_lot.specs.LotOf.{lot_of_rwlock};

use super::crowds::{Part, play};
use super::{
    Lock, check_eq, comes_upgradable, end_reader, end_upgradable, lock_alone, read,
    read_upgradable, reads, to_reader, to_upgradable, write, writes,
};
use parking_lot::{ParkingLot, Token};
use std::process::Abort;
use std::sync::Wait;
use std::sync::atomic::AtomicBool;
use std::sync::atomic::Ordering::SeqCst;
use std::thread::yield_now;

const TURNS: usize = 1_000_000;

/// What one look at a lock tells: which tries get it, and whether it is held, and is held alone.
#[derive(Clone, Copy, Debug, PartialEq, Eq)]
struct Seen {
    reads: bool,
    comes_upgradable: bool,
    writes: bool,
    locked: bool,
    exclusively: bool,
}

// Looks at a lock, and tries it with each right.
fn look<R: Wait>(rt: &R, lock: &Lock, token: &mut Token) -> Seen
    requires { IsTokenOf (lot_of_rwlock lock.now) token.old }
    ensures { IsTokenOf (lot_of_rwlock lock.now) token.new }
{
    Seen {
        reads: reads(rt, lock, token),
        comes_upgradable: comes_upgradable(rt, lock, token),
        writes: writes(rt, lock, token),
        locked: lock.is_locked(token),
        exclusively: lock.is_locked_exclusive(token),
    }
}

// Checks all that is seen beside a reader.
fn beside_reader<R: Wait>(rt: &R, lock: &Lock, token: &mut Token) -> Option<Seen>
    requires { IsTokenOf (lot_of_rwlock lock.now) token.old }
    ensures { IsTokenOf (lot_of_rwlock lock.now) token.new }
{
    let guard = read(rt, lock, token)?;
    let seen = look(rt, lock, token);
    end_reader(rt, token, guard);
    Some(seen)
}

// Beside one that may write later.
fn beside_upgradable<R: Wait>(rt: &R, lock: &Lock, token: &mut Token) -> Option<Seen>
    requires { IsTokenOf (lot_of_rwlock lock.now) token.old }
    ensures { IsTokenOf (lot_of_rwlock lock.now) token.new }
{
    let guard = read_upgradable(rt, lock, token)?;
    let seen = look(rt, lock, token);
    end_upgradable(rt, token, guard);
    Some(seen)
}

// Beside a writer, after each of its downgrades, and in the end.
fn beside_writer<R: Wait>(rt: &R, lock: &Lock, token: &mut Token) -> [Seen; 4]
    requires { IsTokenOf (lot_of_rwlock lock.now) token.old }
    ensures { IsTokenOf (lot_of_rwlock lock.now) token.new }
{
    let guard = write(rt, lock, token);
    let writer = look(rt, lock, token);
    let guard = to_upgradable(rt, token, guard);
    let upgradable = look(rt, lock, token);
    let guard = to_reader(rt, token, guard);
    let reader = look(rt, lock, token);
    end_reader(rt, token, guard);
    [writer, upgradable, reader, look(rt, lock, token)]
}

// Which tries get the lock beside a reader.
const BESIDE_READER: Seen = Seen {
    reads: true,
    comes_upgradable: true,
    writes: false,
    locked: true,
    exclusively: false,
};

// Beside one that may write later.
const BESIDE_UPGRADABLE: Seen = Seen {
    reads: true,
    comes_upgradable: false,
    writes: false,
    locked: true,
    exclusively: false,
};

// Beside a writer.
const BESIDE_WRITER: Seen = Seen {
    reads: false,
    comes_upgradable: false,
    writes: false,
    locked: true,
    exclusively: true,
};

// While nobody has the lock.
const FREE: Seen = Seen {
    reads: true,
    comes_upgradable: true,
    writes: true,
    locked: false,
    exclusively: false,
};

fn all_keep_out<R: Wait + Abort>(rt: &R, lock: &Lock, token: &mut Token)
    requires { IsTokenOf (lot_of_rwlock lock.now) token.old }
{
    let reader = beside_reader(rt, lock, token);
    let upgradable = beside_upgradable(rt, lock, token);
    check_eq(
        rt,
        [reader, upgradable],
        [Some(BESIDE_READER), Some(BESIDE_UPGRADABLE)],
    );
    check_eq(
        rt,
        beside_writer(rt, lock, token),
        [BESIDE_WRITER, BESIDE_UPGRADABLE, BESIDE_READER, FREE],
    );
}

#[test]
fn guards_keep_tries_out(rt: HostRuntime) {
    for limited in [false, true] {
        let (lock, mut token) = lock_alone(&rt, rt.alloc(), 0, limited);
        all_keep_out(&rt, &lock, &mut token);
    }
}

// Tells that the thread has the lock. Whether somebody comes to wait then, for the lock or for its
// last readers.
pub(super) fn is_waited_for<R: Wait>(
    rt: &R,
    lot: &ParkingLot,
    lock: &Lock,
    token: &mut Token,
    held: &AtomicBool,
) -> bool
    requires { IsTokenOf lot.now token.old }
    ensures { IsTokenOf lot.now token.new }
{
    held.store(true, SeqCst);
    let raw = lock.raw();
    for _ in 0..TURNS {
        let waiting = lot.queued(rt, token, raw.key());
        let aside = lot.queued(rt, token, raw.second_key());
        if waiting == 1 || aside == 1 {
            return true;
        }
        yield_now();
    }
    false
}

// Reads until a writer waits. Whether one came, and kept a try to read once more out.
pub(super) fn read_twice<R: Wait>(
    rt: &R,
    lot: &ParkingLot,
    lock: &Lock,
    token: &mut Token,
    held: &AtomicBool,
) -> bool
    requires { IsTokenOf lot.now token.old × (lot_of_rwlock lock.now ≡ lot.now) }
    ensures { IsTokenOf lot.now token.new }
{
    let Some(guard) = read(rt, lock, token) else {
        return false;
    };
    let came = is_waited_for(rt, lot, lock, token, held);
    let again = reads(rt, lock, token);
    end_reader(rt, token, guard);
    came && !again
}

#[test]
fn a_waiting_writer_keeps_a_reader_out(rt: HostRuntime) {
    let seen = play(&rt, rt.alloc(), 2, 2, Part::ReadTwice);
    check_eq(&rt, seen, (true, 7));
}
