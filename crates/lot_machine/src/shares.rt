//! The shared rights of threads, and the owners to which a lock is handed over.
//!
//! Numbers of shared rights wrap at 64 bits in a hand-over, as the word does. That they stay below the
//! limit is a fact of the locks, and not of the machine.
ghost use Rattle.std.specs.Prelude.{ℕ, ◌≡◌, ◌==◌, IfOk, map, sum, slice_set, slice_index_or, replicate};
ghost use Rattle.lot_machine.specs.Machine.{shares_given, with_share, held, shares_in_hand};
ghost use Rattle.lot_machine.specs.Machine.{owners_of_successor};

use crate::hands::{Successor, shares_in_hand};
use core_base::Want;
use lot_steps::{Fallback, Owners, Pending, Place};
use std::alloc::{AllocError, Global};

/// Returns a thread's number of rights; one that isn't there has none.
pub(crate) fn share_in(shares: &[usize], thread: usize) -> usize
    ensures { result ≡ slice_index_or shares.now thread 0 }
{
    if thread < shares.len() {
        shares[thread]
    } else {
        0
    }
}

pub(crate) fn set_share_in(shares: &mut [usize], thread: usize, number: usize)
    ensures { shares.new ≡ slice_set shares.old thread number }
{
    if thread < shares.len() {
        shares[thread] = number;
    }
}

/// Returns whether nobody shares, by each thread's number of rights.
pub(crate) fn nobody_shares(shares: &[usize]) -> bool
    ensures { result ≡ (sum shares.now == 0) }
{
    for number in shares {
        if *number != 0 {
            return false;
        }
    }
    true
}

/// Each that a thread has in hand and that wants to share has one right more.
pub(crate) fn give_shares(shares: &mut [usize], places: &[Place], thread: usize)
    ensures { shares.new ≡ shares_given thread places.now shares.old }
{
    for other in 0..shares.len().min(places.len()) {
        shares[other] = with_share(shares_in_hand(thread, &places[other]), shares[other]);
    }
}

/// One right more, where one is given.
pub(crate) fn with_share(given: bool, number: usize) -> usize
    ensures { result ≡ with_share given number }
{
    if given {
        number.wrapping_add(1)
    } else {
        number
    }
}

/// The one of those in a hand that wants more than to share owns, beside those that keep the lock.
pub(crate) fn owners_of_successor(
    unshared: bool,
    successor: Option<Successor>,
    owners: Owners,
) -> Owners
    ensures { (readers : ℕ) → unshared ≡ (readers == 0)
        → result ≡ owners_of_successor readers successor owners }
{
    match successor {
        Some(
            Successor {
                thread,
                want: Want::Exclusive,
            },
        ) if unshared => owners.with_exclusive(Some(thread)),
        Some(
            Successor {
                thread,
                want: Want::Exclusive,
            },
        ) => Owners {
            pending: Some(Pending {
                thread,
                fallback: Fallback::Nothing,
            }),
            ..owners
        },
        Some(
            Successor {
                thread,
                want: Want::Upgradable,
            },
        ) => Owners {
            upgradable: Some(thread),
            ..owners
        },
        _ => owners,
    }
}

/// No thread shares any of these locks.
pub(crate) fn unshared_locks(
    alloc: Global,
    locks: usize,
    threads: usize,
) -> Result<Vec<Vec<usize>>, AllocError>
    ensures { IfOk result
        (λ shares. map (λ row. row.items) shares.items ≡ replicate locks (replicate threads 0)) }
{
    let mut shares = Vec::with_capacity(alloc, locks)?;
    for _ in 0..locks {
        shares.push(Vec::from_elem(alloc, 0, threads)?)?;
    }
    Ok(shares)
}

/// Copies a row of shares: each thread has as many rights as in the other.
pub(crate) fn copied_shares(
    alloc: Global,
    shares: &[Vec<usize>],
) -> Result<Vec<Vec<usize>>, AllocError>
    ensures { IfOk result (λ copy. map (λ row. row.items) copy.items
        ≡ map (λ row. row.items) shares.now) }
{
    let mut copy = Vec::with_capacity(alloc, shares.len())?;
    for row in shares {
        copy.push(Vec::from_slice(alloc, row.as_slice())?)?;
    }
    Ok(copy)
}
