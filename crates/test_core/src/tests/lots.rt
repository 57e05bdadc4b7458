//! Lots that are one, and lots that are two.
use super::{check, new_lot};
use parking_lot_core::ParkingLot;
use std::process::Abort;
use std::sync::atomic::AtomicUsize;
use std::sync::atomic::Ordering::SeqCst;
use std::thread::join;

const ASKS: usize = 20_000;

#[test]
fn a_lot_is_itself_and_no_other(rt: HostRuntime) {
    let (one, _) = new_lot(&rt, rt.alloc(), 4, 2);
    let (other, _) = new_lot(&rt, rt.alloc(), 4, 2);
    let (larger, _) = new_lot(&rt, rt.alloc(), 8, 3);
    for _ in 0..3 {
        check(&rt, one.same_lot(&one));
        check(&rt, !one.same_lot(&other));
        check(&rt, !other.same_lot(&one));
        check(&rt, !larger.same_lot(&one));
        check(&rt, larger.same_lot(&larger));
    }
}

// Asks so often, and counts the answers that are wrong.
fn ask(one: &ParkingLot, other: &ParkingLot, are_same: bool, wrong: &AtomicUsize) {
    for _ in 0..ASKS {
        if one.same_lot(other) != are_same {
            wrong.fetch_add(1, SeqCst);
        }
    }
}

// Two threads ask about two lots at once, each from its side, and two about each of the lots.
#[test]
fn lots_are_told_apart_while_threads_ask(rt: HostRuntime) {
    let (one, _) = new_lot(&rt, rt.alloc(), 4, 2);
    let (other, _) = new_lot(&rt, rt.alloc(), 4, 2);
    let (left, right): (&ParkingLot, &ParkingLot) = (&one, &other);
    let wrong = AtomicUsize::new(0);
    let count = &wrong;
    join(
        &rt,
        || {
            join(
                &rt,
                || ask(left, right, false, count),
                || ask(left, left, true, count),
            )
        },
        || {
            join(
                &rt,
                || ask(right, left, false, count),
                || ask(right, right, true, count),
            )
        },
    );
    check(&rt, wrong.load(SeqCst) == 0);
}
