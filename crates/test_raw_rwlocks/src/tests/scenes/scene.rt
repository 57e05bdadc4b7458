//! Threads that come to a lock that is held, and how they are let in.
use super::super::fixtures::{Inside, TURNS};
use std::sync::atomic::Ordering::SeqCst;
use std::sync::atomic::{AtomicBool, AtomicUsize};
use std::thread::yield_now;

/// For what a thread comes.
#[derive(Clone, Copy)]
pub(super) enum Coming {
    Reader,
    Upgradable,
    Writer,
    /// A reader whose wait has a deadline, which never comes.
    TimedReader,
    TimedUpgradable,
    TimedWriter,
}

/// How a thread that holds the lock lets the others in.
#[derive(Clone, Copy)]
pub(super) enum Manner {
    /// A writer goes.
    Unlocked,
    /// A writer goes on as a reader.
    Downgraded,
    /// A writer goes on with the upgradable right.
    ToUpgradable,
    /// The owner of the upgradable right goes on as a reader.
    UpgradableToReader,
    /// The owner of the upgradable right goes.
    UpgradableGone,
    /// A reader goes.
    ReaderGone,
    /// A reader reads once more beside the writer that waits for it, and goes twice.
    ReaderAgain,
    /// A writer hands the lock over.
    Handed,
    /// A writer bumps.
    Bumped,
    /// The owner of the upgradable right hands the lock over.
    UpgradableHanded,
    /// The owner bumps.
    UpgradableBumped,
    /// A reader bumps.
    ReaderBumped,
}

/// The threads that come to a lock that is held, how many of them stand in its queues then, and how
/// many come in beside the one that goes on.
#[derive(Drop)]
pub(super) struct Scene {
    pub(super) manner: Manner,
    pub(super) coming: [Coming; 3],
    pub(super) main: usize,
    pub(super) second: usize,
    pub(super) beside: usize,
}

/// The flags and counts that the threads of a scene share.
#[derive(Drop)]
pub(super) struct Told {
    // How many have begun their parts.
    begun: AtomicUsize,
    /// Whether somebody holds the lock.
    pub(super) held: AtomicBool,
    /// How many have taken their roles.
    pub(super) roles: AtomicUsize,
    /// How many have come in.
    pub(super) came: AtomicUsize,
    // Whether a thread that has come in stays.
    keeps_rights: AtomicBool,
    pub(super) inside: Inside,
}

impl Told {
    pub(super) fn new() -> Told {
        Told {
            begun: AtomicUsize::new(0),
            held: AtomicBool::new(false),
            roles: AtomicUsize::new(0),
            came: AtomicUsize::new(0),
            keeps_rights: AtomicBool::new(false),
            inside: Inside::new(),
        }
    }

    /// Returns whether a thread that asks is the first that does.
    pub(super) fn comes_first(&self) -> bool {
        self.begun.fetch_add(1, SeqCst) == 0
    }

    /// Returns whether anybody has come in.
    pub(super) fn has_come(&self) -> bool {
        self.came.load(SeqCst) != 0
    }

    /// A thread that has come in stays from now on, or goes.
    pub(super) fn keep_inside(&self, keeps_rights: bool) {
        self.keeps_rights.store(keeps_rights, SeqCst);
    }

    /// Tells that it has come in, and goes once it may.
    pub(super) fn note_coming(&self) {
        self.came.fetch_add(1, SeqCst);
        for _ in 0..TURNS {
            if !self.keeps_rights.load(SeqCst) {
                return;
            }
            yield_now();
        }
    }
}

pub(super) const ALL: [Coming; 3] = [Coming::Reader, Coming::Upgradable, Coming::Writer];

pub(super) const READERS: [Coming; 3] = [Coming::Reader, Coming::Reader, Coming::Upgradable];

pub(super) const WRITERS: [Coming; 3] = [Coming::Writer, Coming::Writer, Coming::Writer];
