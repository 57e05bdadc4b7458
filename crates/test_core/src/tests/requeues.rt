//! A requeue of as many waiters as a lot has seats.
ghost use Rattle.parking_lot_core.specs.Tokens.{IsSameThread, IsTokenOf};
ghost use Rattle.std.specs.Prelude.{◌≡◌, ◌<◌, ◌≤◌, ◌≢◌};

use super::doubled::put;
use super::{check_eq, lot_of};
use crate::lines::lie_apart;
use parking_lot_core::{Key, Keys, Note, ParkingLot, Requeue, Token};
use std::process::Abort;
use std::sync::Wait;

const SEATS: usize = 1024;

const FROM: Key = 6;

// Lines up all threads under a key.
fn line_up<R: Wait>(rt: &R, lot: &ParkingLot, token: &mut Token, key: Key)
    requires { IsTokenOf lot.now token.old × (lot.now.records.count ≡ 1024) }
    ensures { IsSameThread lot.now token.old token.new }
{
    for thread in 0..SEATS {
        put(rt, lot, token, key, thread);
    }
}

// Moves all from under one key under another, and tells how many it moved, how many stand under each,
// and how many are recorded.
fn move_all<R: Wait>(rt: &R, lot: &ParkingLot, token: &mut Token, to: Key) -> [usize; 3]
    requires { IsTokenOf lot.now token.old × (6 ≢ to) }
    ensures { IsSameThread lot.now token.old token.new }
{
    let mut section = lot.enter(rt, token, Keys::Two(FROM, to));
    let (_, moved) = section.requeue(FROM, to, Requeue::All);
    let standing = [moved, section.count(FROM), section.count(to)];
    section.leave(rt, token, Note::Normal).unwrap();
    standing
}

fn moves<R: Wait + Abort>(rt: &R, lot: &ParkingLot, token: &mut Token, to: Key, apart: bool)
    requires { IsTokenOf lot.now token.old × (lot.now.records.count ≡ 1024) × (6 ≢ to) }
    ensures { IsTokenOf lot.now token.new }
{
    check_eq(rt, lie_apart(SEATS, FROM, to), apart);
    line_up(rt, lot, token, FROM);
    check_eq(rt, move_all(rt, lot, token, to), [SEATS, 0, SEATS]);
    check_eq(rt, lot.queued(rt, token, to), SEATS);
}

#[test]
fn each_of_1024_moves_to_another_bucket(rt: HostRuntime) {
    let (lot, mut token) = lot_of(&rt, rt.alloc(), 1, SEATS);
    moves(&rt, &lot, &mut token, 7, true);
}

#[test]
fn each_of_1024_moves_within_a_bucket(rt: HostRuntime) {
    let (lot, mut token) = lot_of(&rt, rt.alloc(), 1, SEATS);
    moves(&rt, &lot, &mut token, 616, false);
}
