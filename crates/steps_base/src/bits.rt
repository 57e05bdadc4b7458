//! The bits in the word of a reader-writer lock, and in that of a `Once`.
//!
//! | bits of a reader-writer lock | mean |
//! |---|---|
//! | 1 | somebody may stand in the main queue |
//! | 2 | the writer that waits for the last readers may stand in the second queue |
//! | 4 | somebody has the upgradable right |
//! | 8 | a writer owns, or waits for the last readers |
//! | from 16 on | how many readers there are |
//!
//! | bits of a `Once` | mean |
//! |---|---|
//! | 1 | it is done |
//! | 2 | it is poisoned |
//! | 4 | its closure runs |
//! | 8 | somebody may stand in the queue |
ghost use Rattle.std.specs.Prelude.{◌≡◌};
ghost use Rattle.spec_locks.specs.Codes as codes;

use core_base::Want;

/// Returns how many readers a reader-writer lock has, an upgradable owner among them.
#[inline]
pub fn count_in(word: u64) -> u64
    ensures { result ≡ codes.count_in word }
{
    word / 16
}

#[inline]
pub fn has_writer(word: u64) -> bool
    ensures { result ≡ codes.has_writer word }
{
    word / 8 % 2 == 1
}

#[inline]
pub fn has_upgradable(word: u64) -> bool
    ensures { result ≡ codes.has_upgradable word }
{
    word / 4 % 2 == 1
}

/// Returns whether a writer may stand in the second queue.
#[inline]
pub fn has_aside(word: u64) -> bool
    ensures { result ≡ codes.has_aside word }
{
    word / 2 % 2 == 1
}

/// Returns whether somebody may stand in the main queue.
#[inline]
pub fn has_parked(word: u64) -> bool
    ensures { result ≡ codes.has_parked word }
{
    word % 2 == 1
}

/// Returns whether the owners of a reader-writer lock keep out a thread that wants this. A
/// recursive lock lets readers in beside readers.
#[inline(always)]
pub fn is_blocked(recursive: bool, want: Want, word: u64) -> bool
    ensures { result ≡ codes.is_blocked recursive want word }
{
    match want {
        Want::Shared => has_writer(word) && (!recursive || count_in(word) == 0),
        _ => has_writer(word) || has_upgradable(word),
    }
}

/// Returns whether a `Once` is done.
pub fn is_done(word: u64) -> bool
    ensures { result ≡ codes.is_done word }
{
    word % 2 == 1
}

/// Returns whether the last run of a `Once` failed.
pub fn is_poisoned(word: u64) -> bool
    ensures { result ≡ codes.is_poisoned word }
{
    word / 2 % 2 == 1
}

/// Returns whether some thread runs a `Once`.
pub fn is_running(word: u64) -> bool
    ensures { result ≡ codes.is_running word }
{
    word / 4 % 2 == 1
}

/// Returns whether somebody may stand in the queue of a `Once`.
pub fn is_marked(word: u64) -> bool
    ensures { result ≡ codes.is_marked word }
{
    word / 8 == 1
}
