//! Threads that wait for a reader-writer lock until another lets them in.
ghost use Rattle.parking_lot_core.specs.Tokens.{IsTicketOf};
ghost use Rattle.test_any_rwlock.specs.AnyLocks.{lot_of};

use super::super::fixtures::{AnyRwLock, Sort, comes_to, seats};
use super::scene::{ALL, Coming, Manner, READERS, Scene, WRITERS};
use super::{check, play};
use parking_lot::{Fault, Ticket};
use std::alloc::Global;
use std::sync::Wait;
use std::sync::atomic::AtomicUsize;
use std::sync::atomic::Ordering::SeqCst;
use std::test::Fail;
use std::thread::{Threads, map_vec};

// Reads until another reader has told that it does too. Whether it has.
fn meet<R: Wait>(rt: &R, lock: &AnyRwLock, ticket: Ticket, met: &AtomicUsize) -> bool
    requires { IsTicketOf (lot_of lock.now) ticket }
{
    let mut token = ticket.enter();
    let Ok(guard) = lock.lock_shared(rt, &mut token) else {
        return false;
    };
    met.fetch_add(1, SeqCst);
    let seen = comes_to(met, 2);
    lock.unlock_shared(rt, &mut token, guard);
    seen
}

// Returns whether all readers of these tickets met.
fn all_meet<R: Threads + Wait + Sync>(sort: Sort, rt: &R, alloc: Global) -> Result<bool, Fault> {
    let (_lot, lock, tickets) = seats(sort, alloc, 2, 1000)?;
    let (shared, met) = (&lock, &AtomicUsize::new(0));
    let seen = map_vec(
        rt,
        tickets,
        &|ticket: Ticket|
            requires { IsTicketOf (lot_of shared.now) ticket }
        { meet(rt, shared, ticket, met) },
    );
    Ok(seen.is_ok_and(|seen| seen.iter().all(|seen| *seen)))
}

#[test]
fn readers_meet(rt: HostRuntime) -> Result<(), Fail> {
    check(&rt, all_meet(Sort::Normal, &rt, rt.alloc())?);
    check(&rt, all_meet(Sort::Recursive, &rt, rt.alloc())?);
    Ok(())
}

#[test]
fn a_writer_that_goes_lets_all_in(rt: HostRuntime) {
    let scene = Scene {
        manner: Manner::Unlocked,
        coming: ALL,
        main: 3,
        second: 0,
        beside: 0,
    };
    play(Sort::Normal, &rt, rt.alloc(), scene);
}

#[test]
fn a_writer_that_downgrades_lets_readers_in(rt: HostRuntime) {
    let scene = Scene {
        manner: Manner::Downgraded,
        coming: READERS,
        main: 3,
        second: 0,
        beside: 3,
    };
    play(Sort::Normal, &rt, rt.alloc(), scene);
}

#[test]
fn a_writer_that_keeps_the_upgradable_right_lets_readers_in(rt: HostRuntime) {
    let scene = Scene {
        manner: Manner::ToUpgradable,
        coming: READERS,
        main: 3,
        second: 0,
        beside: 2,
    };
    play(Sort::Normal, &rt, rt.alloc(), scene);
}

#[test]
fn a_downgrade_of_the_upgradable_right_lets_another_have_it(rt: HostRuntime) {
    let scene = Scene {
        manner: Manner::UpgradableToReader,
        coming: READERS,
        main: 1,
        second: 0,
        beside: 3,
    };
    play(Sort::Normal, &rt, rt.alloc(), scene);
}

#[test]
fn a_release_of_the_upgradable_right_lets_another_have_it(rt: HostRuntime) {
    let coming = [Coming::Upgradable, Coming::Writer, Coming::Upgradable];
    let scene = Scene {
        manner: Manner::UpgradableGone,
        coming,
        main: 3,
        second: 0,
        beside: 0,
    };
    play(Sort::Normal, &rt, rt.alloc(), scene);
}

#[test]
fn the_last_reader_lets_the_writer_in(rt: HostRuntime) {
    let scene = Scene {
        manner: Manner::ReaderGone,
        coming: WRITERS,
        main: 2,
        second: 1,
        beside: 0,
    };
    play(Sort::Normal, &rt, rt.alloc(), scene);
    let scene = Scene {
        manner: Manner::ReaderGone,
        coming: WRITERS,
        main: 2,
        second: 1,
        beside: 0,
    };
    play(Sort::Recursive, &rt, rt.alloc(), scene);
}

#[test]
fn a_recursive_reader_reads_again_while_a_writer_waits(rt: HostRuntime) {
    let scene = Scene {
        manner: Manner::ReaderAgain,
        coming: WRITERS,
        main: 2,
        second: 1,
        beside: 0,
    };
    play(Sort::Recursive, &rt, rt.alloc(), scene);
}
