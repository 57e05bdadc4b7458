//! Threads that are put into the queue of a second bucket, and how many stand in a queue.
ghost use Rattle.parking_lot_core.specs.Keys.{IsKeyOf};
ghost use Rattle.parking_lot_core.specs.Tokens.{IsSameThread, IsTokenOf};
ghost use Rattle.std.specs.Prelude.{◌≡◌, ◌<◌, ◌≢◌};

use super::{check_eq, lot_of};
use parking_lot_core::{Key, Keys, Note, ParkingLot, Token, Want};
use std::sync::Wait;

const SEATS: usize = 8;

const KEY: Key = 2;

const OTHER: Key = 3;

// Puts a thread after the last under a key, in a section of that key alone.
pub(super) fn put<R: Wait>(rt: &R, lot: &ParkingLot, token: &mut Token, key: Key, thread: usize)
    requires { IsTokenOf lot.now token.old × (thread < lot.now.records.count) }
    ensures { IsSameThread lot.now token.old token.new }
{
    let mut section = lot.enter(rt, token, Keys::One(key));
    section.append(key, thread, Want::Exclusive);
    section.leave(rt, token, Note::Normal).unwrap();
}

#[test]
fn queued_counts_those_of_a_key(rt: HostRuntime) {
    let (lot, mut token) = lot_of(&rt, rt.alloc(), 4, SEATS);
    check_eq(&rt, lot.queued(&rt, &mut token, KEY), 0);
    put(&rt, &lot, &mut token, KEY, 1);
    check_eq(&rt, lot.queued(&rt, &mut token, KEY), 1);
    put(&rt, &lot, &mut token, KEY, 2);
    check_eq(&rt, lot.queued(&rt, &mut token, KEY), 2);
    check_eq(&rt, lot.queued(&rt, &mut token, OTHER), 0);
}

// A thread that stands under one key is put under another by a section that hasn't its bucket. The
// next section of both keys finds it under the second alone, and doesn't wait for ever.
#[test]
fn a_thread_in_two_buckets_leaves_the_older(rt: HostRuntime) {
    let (lot, mut token) = lot_of(&rt, rt.alloc(), 4, SEATS);
    put(&rt, &lot, &mut token, KEY, 1);
    put(&rt, &lot, &mut token, OTHER, 1);
    let section = lot.enter(&rt, &mut token, Keys::Two(KEY, OTHER));
    check_eq(&rt, section.key_of(1), Some(OTHER));
    check_eq(&rt, section.count(KEY), 0);
    section.leave(&rt, &mut token, Note::Normal).unwrap();
}
