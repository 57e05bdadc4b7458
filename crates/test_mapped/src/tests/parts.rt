//! Guards of a part of a value.
ghost use Rattle.std.specs.Prelude.{◌≡◌, Ok, refl};
ghost use Rattle.parking_lot_core.specs.Tokens.{IsTokenOf};
ghost use Rattle.parking_lot.specs.LotOf.{lot_of};

use super::{check_eq, mutex_alone, rwlock_alone};
use crate::{Entry, Slot};
use indexmap::IndexMap;
use lock_values::{Mapped, Shows};
use parking_lot::lock_api_rw::{RawRwLockFair, RwLock};
use parking_lot::{Mutex, Project, Token};
use std::alloc::{AllocError, Global};
use std::process::Abort;
use std::sync::Wait;

#[derive(Drop)]
pub(super) struct Point {
    pub(super) x: u32,
    pub(super) y: u32,
}

// The first coordinate.
#[derive(Clone, Copy)]
pub(super) struct TheX;

impl Project<Point> for TheX {
    type Target = u32;

    type Error = u64;

    ghost finds = { λ _ point. Ok point.x };

    ghost written = { λ _ point x. record point { x = x } };

    ghost finds_written = { λ _ _ _ _ _. refl };

    fn check(self, _value: &Point) -> Result<(), u64> {
        Ok(())
    }

    fn get<'v>(self, value: &'v Point) -> &'v u32
    where
        Self: 'v,
    {
        &value.x
    }

    fn get_mut<'v>(value: &'v mut Point, _by: TheX) -> &'v mut u32
    where
        Self: 'v,
    {
        &mut value.x
    }
}

// Writes one coordinate, and answers both.
fn moved<R: Wait>(rt: &R, mutex: &Mutex<Point>, token: &mut Token) -> (u32, u32)
    requires { IsTokenOf (lot_of mutex.now) token.old }
{
    let mut part = mutex.lock(rt, token).map(TheX);
    *part = part.wrapping_add(4);
    part.unlock(rt, token);
    mutex.with(rt, token, |point: &mut Point| (point.x, point.y))
}

#[test]
fn a_part_is_written_and_the_rest_stays(rt: HostRuntime) {
    let (mutex, mut token) = mutex_alone(&rt, rt.alloc(), Point { x: 3, y: 5 });
    check_eq(&rt, moved(&rt, &mutex, &mut token), (7, 5));
}

// A guard that has its value itself, as a look by a borrowed key is not covered under a lock's guard.
#[derive(Drop)]
struct Whole<T> {
    value: T,
}

impl<T> Shows for Whole<T> {
    type Value = T;

    ghost shown = { λ guard. guard.value };

    ghost written = { λ guard value. record guard { value = value } };

    ghost shows_written = { λ _ _. refl };

    fn show(&self) -> &T {
        &self.value
    }
}

type Words = IndexMap<&'static str, &'static str>;

fn words(alloc: Global) -> Result<Words, AllocError> {
    let mut words = IndexMap::new(alloc);
    match words.insert("hello", "world") {
        Ok(_) => Ok(words),
        Err(_) => Err(AllocError),
    }
}

// A look for a key that is there gives a guard of its value. One for a key that isn't gives the guard
// back, with the error that was asked for.
fn looked<A: Abort>(
    rt: &A,
    guard: Whole<Words>,
    key: &&'static str,
    wanted: Result<&'static str, u64>,
) -> Whole<Words> {
    let there = Entry {
        key,
        missing: 12345u64,
    };
    match Mapped::try_new(guard, there) {
        Ok(mapped) => {
            check_eq(rt, Ok(*mapped), wanted);
            mapped.into_guard()
        }
        Err((guard, why)) => {
            check_eq(rt, Err(why), wanted);
            guard
        }
    }
}

#[test]
fn a_refusal_gives_the_guard_back(rt: HostRuntime) -> Result<(), AllocError> {
    let guard = Whole {
        value: words(rt.alloc())?,
    };
    let guard = looked(&rt, guard, &"hello2", Err(12345));
    check_eq(&rt, guard.show().get(&"hello").copied(), Some("world"));
    drop(looked(&rt, guard, &"hello", Ok("world")));
    Ok(())
}

type Lists = IndexMap<&'static str, Vec<u32>>;

fn lists(alloc: Global) -> Result<Lists, AllocError> {
    let mut lists = IndexMap::new(alloc);
    let list = Vec::from_elem(alloc, 7u32, 2)?;
    match lists.insert("hello", list) {
        Ok(_) => Ok(lists),
        Err(_) => Err(AllocError),
    }
}

// A further look that is refused gives the mapped guard back.
fn looked_further<A: Abort>(
    rt: &A,
    mapped: Mapped<Whole<Lists>, Entry<&&'static str, u64>>,
) -> Whole<Lists> {
    let further = Slot {
        at: 9,
        missing: 45678,
    };
    match mapped.try_map_or_err(further) {
        Ok(deeper) => {
            check_eq(rt, true, false);
            deeper.into_guard()
        }
        Err((mapped, why)) => {
            check_eq(rt, why, 45678);
            check_eq(rt, mapped.len(), 2);
            mapped.into_guard()
        }
    }
}

#[test]
fn a_refused_look_further_gives_the_mapped_guard_back(rt: HostRuntime) -> Result<(), AllocError> {
    let guard = Whole {
        value: lists(rt.alloc())?,
    };
    let there = Entry {
        key: &"hello",
        missing: 12345u64,
    };
    if let Ok(mapped) = Mapped::try_new(guard, there) {
        drop(looked_further(&rt, mapped));
    }
    Ok(())
}

// Two readers see the part that a writer has written. It is proved for any raw lock, since each call
// of a known one is dear.
fn read_twice<L: RawRwLockFair, R: Wait>(
    rt: &R,
    lock: &RwLock<L, Point>,
    token: &mut L::Token,
) -> Option<(u32, u32)>
    requires { L.is_token_of (L.lot_of lock.now) token.old }
{
    let mut part = lock.write(rt, token).map(TheX);
    *part = 9;
    part.unlock_fair(rt, token);
    let Ok(one) = lock.read(rt, token) else {
        return None;
    };
    let one = one.map(TheX);
    let other = match lock.read(rt, token) {
        Ok(other) => other.map(TheX),
        Err(_) => {
            one.unlock(rt, token);
            return None;
        }
    };
    let seen = (*one, *other);
    one.unlock(rt, token);
    other.unlock_fair(rt, token);
    Some(seen)
}

#[test]
fn a_part_of_a_shared_value_is_read_twice(rt: HostRuntime) {
    let (lock, mut token) = rwlock_alone(&rt, rt.alloc(), Point { x: 3, y: 5 });
    let seen = read_twice(&rt, &lock, &mut token);
    check_eq(&rt, seen, Some((9, 9)));
    check_eq(&rt, lock.into_inner().y, 5);
}
