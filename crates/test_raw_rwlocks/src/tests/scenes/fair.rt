//! Threads to which a reader-writer lock is handed over.
ghost use Rattle.parking_lot_core.specs.Tokens.{IsTokenOf};
ghost use Rattle.test_any_rwlock.specs.AnyLocks.{lot_of};

use super::super::fixtures::{AnyRwLock, Sort, lock_alone};
use super::scene::{ALL, Coming, Manner, READERS, Scene, WRITERS};
use super::{check_eq, play, play_within};
use parking_lot::Token;
use std::sync::Wait;
use std::test::Fail;

// The number of comers in each queue.
fn scene(manner: Manner, coming: [Coming; 3], main: usize, second: usize) -> Scene {
    Scene {
        manner,
        coming,
        main,
        second,
        beside: 0,
    }
}

#[test]
fn a_writer_hands_the_lock_over(rt: HostRuntime) {
    play(
        Sort::Normal,
        &rt,
        rt.alloc(),
        scene(Manner::Handed, ALL, 3, 0),
    );
    play(
        Sort::Recursive,
        &rt,
        rt.alloc(),
        scene(Manner::Handed, ALL, 3, 0),
    );
    play(
        Sort::Normal,
        &rt,
        rt.alloc(),
        scene(Manner::Handed, READERS, 3, 0),
    );
}

#[test]
fn a_writer_that_bumps_lets_others_in(rt: HostRuntime) {
    play(
        Sort::Normal,
        &rt,
        rt.alloc(),
        scene(Manner::Bumped, ALL, 3, 0),
    );
    play(
        Sort::Recursive,
        &rt,
        rt.alloc(),
        scene(Manner::Bumped, READERS, 3, 0),
    );
}

const TIMED: [Coming; 3] = [
    Coming::TimedReader,
    Coming::TimedUpgradable,
    Coming::TimedWriter,
];

#[test]
fn a_waiter_with_a_deadline_is_handed_the_lock(rt: HostRuntime) {
    play(
        Sort::Normal,
        &rt,
        rt.alloc(),
        scene(Manner::Handed, TIMED, 3, 0),
    );
    play(
        Sort::Recursive,
        &rt,
        rt.alloc(),
        scene(Manner::Bumped, TIMED, 3, 0),
    );
    let upgradables = [
        Coming::TimedUpgradable,
        Coming::TimedUpgradable,
        Coming::TimedWriter,
    ];
    let handed = scene(Manner::UpgradableHanded, upgradables, 3, 0);
    play(Sort::Normal, &rt, rt.alloc(), handed);
}

// An exclusive owner hands the lock to all that read, on a lock that no more may share than there
// are threads.
#[test]
fn all_that_are_handed_the_lock_have_it(rt: HostRuntime) {
    let readers = [Coming::Reader, Coming::Reader, Coming::Reader];
    let handed = scene(Manner::Handed, readers, 3, 0);
    play_within(Sort::Normal, &rt, rt.alloc(), handed, 5);
}

const UPGRADABLES: [Coming; 3] = [Coming::Upgradable, Coming::Upgradable, Coming::Writer];

#[test]
fn an_upgradable_owner_hands_the_lock_over(rt: HostRuntime) {
    let handed = scene(Manner::UpgradableHanded, UPGRADABLES, 3, 0);
    play(Sort::Normal, &rt, rt.alloc(), handed);
    let bumped = scene(Manner::UpgradableBumped, UPGRADABLES, 3, 0);
    play(Sort::Normal, &rt, rt.alloc(), bumped);
}

#[test]
fn a_reader_that_bumps_lets_a_writer_in(rt: HostRuntime) {
    let bumped = scene(Manner::ReaderBumped, WRITERS, 2, 1);
    play(Sort::Normal, &rt, rt.alloc(), bumped);
}

/// Which rights of a lone owner were kept by a bump, and gone after a fair release.
#[derive(Clone, Copy, Debug, PartialEq, Eq)]
struct Freed {
    shared: bool,
    upgradable: bool,
    exclusive: bool,
}

// Bumps each right of a lock that one thread has to itself, and releases it fairly.
fn goes_alone<R: Wait>(rt: &R, lock: &AnyRwLock, token: &mut Token) -> Freed
    requires { IsTokenOf (lot_of lock.now) token.old }
    ensures { IsTokenOf (lot_of lock.now) token.new }
{
    let mut freed = Freed {
        shared: false,
        upgradable: false,
        exclusive: false,
    };
    if let Ok(guard) = lock.lock_shared(rt, token)
        && let Ok(guard) = lock.bump_shared(rt, token, guard)
    {
        lock.unlock_shared_fair(rt, token, guard);
        freed.shared = !lock.is_locked(token);
    }
    if let Ok(guard) = lock.lock_upgradable(rt, token)
        && let Ok(guard) = lock.bump_upgradable(rt, token, guard)
    {
        lock.unlock_upgradable_fair(rt, token, guard);
        freed.upgradable = !lock.is_locked(token);
    }
    let guard = lock.lock_exclusive(rt, token);
    let guard = lock.bump_exclusive(rt, token, guard);
    let kept = lock.is_locked_exclusive(token);
    lock.unlock_exclusive_fair(rt, token, guard);
    freed.exclusive = kept && !lock.is_locked(token);
    freed
}

#[test]
fn a_lone_owner_keeps_its_right_as_it_bumps(rt: HostRuntime) -> Result<(), Fail> {
    let (lock, mut token) = lock_alone(Sort::Normal, rt.alloc(), 2)?;
    let expected = Freed {
        shared: true,
        upgradable: true,
        exclusive: true,
    };
    check_eq(&rt, goes_alone(&rt, &lock, &mut token), expected);
    Ok(())
}
