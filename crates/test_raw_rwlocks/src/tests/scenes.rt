//! Scenes of threads at one lock: one holds it until others wait for it, and lets them in.
mod comers;
mod fair;
mod holders;
mod scene;
mod waits;

ghost use Rattle.std.specs.Prelude.{◌≡◌, ◌≤◌};
ghost use Rattle.parking_lot_core.specs.Tokens.{IsTicketOf, IsTokenOf};
ghost use Rattle.test_any_rwlock.specs.AnyLocks.{lot_of};

use super::check;
use super::fixtures::{AnyRwLock, Sort, seats};
use comers::come_later;
use holders::hold;
use parking_lot::{ParkingLot, Ticket, Token};
use scene::{Scene, Told};
use std::alloc::Global;
use std::fmt::Debug;
use std::process::Abort;
use std::sync::Wait;
use std::sync::atomic::Ordering::SeqCst;
use std::thread::{Threads, map_vec};

// Asserts that the thing found is the thing wanted. All tests share this one assertion, since each
// is proved where it stands.
fn check_eq<T: PartialEq + Debug + Drop>(rt: &impl Abort, found: T, wanted: T) {
    assert_eq!(rt; found, wanted);
}

// The first that comes holds the lock, and the others come to it then. Whether the thread is
// content with what came of its part.
fn take_part<R: Wait>(
    rt: &R,
    lot: &ParkingLot,
    lock: &AnyRwLock,
    token: &mut Token,
    scene: &Scene,
    told: &Told,
) -> bool
    requires { IsTokenOf lot.now token.old × (lot_of lock.now ≡ lot.now) }
{
    if told.comes_first() {
        hold(rt, lot, lock, token, scene, told)
    } else {
        come_later(rt, lock, token, scene, told);
        true
    }
}

// Plays a scene: all stand where they are to, and all come in, beside none that they exclude.
fn play<R: Threads + Wait + Sync + Abort>(sort: Sort, rt: &R, alloc: Global, scene: Scene) {
    play_within(sort, rt, alloc, scene, 1000);
}

// Plays on a lock that at most `limit` threads may share. It gives up where memory is refused.
fn play_within<R: Threads + Wait + Sync + Abort>(
    sort: Sort,
    rt: &R,
    alloc: Global,
    scene: Scene,
    limit: u64,
)
    requires { (5 ≤ limit) × (limit ≤ 1024) }
{
    let Ok((lot, lock, tickets)) = seats(sort, alloc, 4, limit) else {
        panic!(rt; "no seats");
    };
    let (lot, lock, scene, told) = (&*lot, &lock, &scene, &Told::new());
    let ended = map_vec(
        rt,
        tickets,
        &|ticket: Ticket|
            requires { IsTicketOf (lot_of lock.now) ticket × (lot_of lock.now ≡ lot.now) }
        {
            let mut token = ticket.enter();
            take_part(rt, lot, lock, &mut token, scene, told)
        },
    );
    check(rt, ended.is_ok_and(|ended| ended.iter().all(|well| *well)));
    check(rt, told.came.load(SeqCst) == 3 && told.inside.wrongs() == 0);
}
