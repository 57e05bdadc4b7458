//! A right that isn't what its thread waits for.
ghost use Rattle.std.specs.Prelude.{◌≡◌};
ghost use Rattle.core_words.specs.Lots.{IsWordOf};
ghost use Rattle.core_words.specs.declared.words.WordKind.TheVariants.{Mutex};
ghost use Rattle.parking_lot_core.specs.Tokens.{IsTokenOf, IsSameThread};

use super::clocks::told_until;
use super::threads::try_hand_over;
use super::{check, check_eq, mutex_of, word_of};
use core_clocks::TickClock;
use parking_lot_core::{Key, ParkingLot, Token, Want, Word, WordKind};
use std::sync::Wait;
use test_core::lines::line_up;
use test_core::mutexes::try_lock;

const KEY: Key = 0;

const EARLY: u64 = 20;

// The thread locks a mutex, takes itself from the queue, and hands itself the right. Whether it got
// the mutex, and stood there.
fn hand_to_itself<R: Wait>(rt: &R, lot: &ParkingLot, token: &mut Token, word: Word) -> bool
    requires { IsTokenOf lot.now token.old × IsWordOf lot.now.words word × (word.kind ≡ Mutex) }
    ensures { IsSameThread lot.now token.old token.new }
{
    line_up(rt, lot, token, KEY, Want::Exclusive);
    let Some(right) = try_lock(lot, token, word) else {
        return false;
    };
    match try_hand_over(rt, lot, token, right, 0) {
        Some(left) => {
            left.forget();
            false
        }
        None => true,
    }
}

#[test]
fn a_right_to_another_mutex_wakes_nobody(rt: HostRuntime) {
    let (lot, mut token, one) = mutex_of(&rt, rt.alloc(), 2);
    let other = word_of(&rt, &lot, &mut token, WordKind::Mutex);
    check(&rt, hand_to_itself(&rt, &lot, &mut token, other));
    let place = line_up(&rt, &lot, &mut token, KEY, Want::Exclusive);
    let clock = TickClock::new();
    let late = told_until(&rt, &lot, &mut token, place, one, (&clock, EARLY));
    check_eq(&rt, late, Err((KEY, Some(KEY))));
}
