//! A thread that parks on a value which another one has taken out of its row.
ghost use Rattle.std.specs.Prelude.{◌<◌, ◌≡◌};

use super::buckets::is_told;
use super::{TURNS, check, delay};
use core_parts::{Keyed, KeyedLocks};
use std::alloc::Global;
use std::process::Abort;
use std::sync::Wait;
use std::sync::atomic::AtomicBool;
use std::sync::atomic::Ordering::SeqCst;
use std::thread::join;

// A value that fits every key.
#[derive(Drop)]
struct Anything;

impl Keyed<u64> for Anything {
    ghost fits = { λ _ _. Unit {0} };
}

fn row_of_one<A: Abort>(rt: &A, alloc: Global) -> KeyedLocks<u64, Anything>
    ensures { 0 < result.count }
{
    let Ok(mut values) = Vec::with_capacity(alloc, 1) else {
        panic!(rt; "no values");
    };
    values.push_reserved(Some(Anything));
    match KeyedLocks::new(alloc, values, &0) {
        Ok(row) => row,
        Err(_) => panic!(rt; "no row"),
    }
}

// What two threads tell each other: that the value is out, and that the other is about to take it.
#[derive(Drop)]
struct Flags {
    out: AtomicBool,
    asks: AtomicBool,
}

// Holds the value until another thread wants it and has had time to park, and gives it back. Returns
// whether that thread came.
fn hold<R: Wait>(rt: &R, row: &KeyedLocks<u64, Anything>, flags: &Flags) -> bool
    requires { 0 < row.now.count }
{
    let (value, held) = row.take(rt, 0);
    flags.out.store(true, SeqCst);
    let told = is_told(&flags.asks);
    delay(TURNS);
    row.give_back(value, held);
    told
}

// Takes the value once it is out. Returns whether it was.
fn take_later<R: Wait>(rt: &R, row: &KeyedLocks<u64, Anything>, flags: &Flags) -> bool
    requires { 0 < row.now.count }
{
    let told = is_told(&flags.out);
    flags.asks.store(true, SeqCst);
    let (value, held) = row.take(rt, 0);
    row.give_back(value, held);
    told
}

#[test]
fn who_gives_a_value_back_wakes_who_parks_for_it(rt: HostRuntime) {
    let row = row_of_one(&rt, rt.alloc());
    let flags = Flags {
        out: AtomicBool::new(false),
        asks: AtomicBool::new(false),
    };
    let (row, flags) = (&row, &flags);
    let (came, told) = join(
        &rt,
        move || hold(&rt, row, flags),
        move || take_later(&rt, row, flags),
    );
    check(&rt, came && told);
}
