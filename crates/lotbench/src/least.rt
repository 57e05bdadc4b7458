//! A lock that is one word of a table that is shared, under no rule.
ghost use Rattle.std.specs.Prelude.{◌≡◌, ◌<◌, [], IfOk, IfSome};
ghost use Rattle.std.specs.Arc.{arc_value};

use atomic_table::{Join, Play, Seat, Split, Table, TableRule};
use std::alloc::{AllocError, Global};
use std::sync::Arc;

/// Anything may be in the table.
pub(crate) struct NoRule;

impl TableRule<(), (), ()> for NoRule {
    ghost holds = { λ _ _. Unit {0} };

    ghost first = { λ _. tt };
}

/// A step that tells nothing.
pub(crate) struct AnyStep;

impl Play<(), ()> for AnyStep {
    ghost then = { λ _ _ _ _. Unit {0} };
}

/// A seat is split off, or joined, for nothing.
pub(crate) struct Same;

impl Split<()> for Same {
    ghost left = { λ v. v };

    ghost right = { λ v. v };
}

impl Join<()> for Same {
    ghost both = { λ v _. v };

    ghost spent = { tt };
}

type Words = Table<(), (), (), NoRule, Global>;

/// One word of a table that locks share.
#[derive(Drop)]
pub(crate) struct LeastLock {
    words: Arc<Words>,
    at: usize,
    ghost within: { at < (arc_value words).shared.table_id.words },
}

impl LeastLock {
    ghost use Rattle.lotbench.specs.Seats.{IsSeatOfLeast};

    /// Makes a lock over the first word of a new table, and a thread that steps on it.
    pub(crate) fn new(alloc: Global) -> Result<(LeastLock, Seat<(), ()>), AllocError>
        ensures { IfOk result (λ made. IsSeatOfLeast made.0 made.1) }
    {
        let (words, seat) = Table::of_words(alloc, &[0, 0], &())?;
        let Ok(words) = Arc::new(alloc, words) else {
            return Err(AllocError);
        };
        Ok((LeastLock { words, at: 1 }, seat))
    }

    #[inline]
    pub(crate) fn load(&self, seat: &mut Seat<(), ()>) -> u64
        requires { IsSeatOfLeast self.now seat.old }
        ensures { IsSeatOfLeast self.now seat.new }
    {
        self.words.shared.load::<AnyStep>(seat, self.at)
    }

    // Returns whether the word was 0, and is 1 now.
    #[inline]
    pub(crate) fn take(&self, seat: &mut Seat<(), ()>) -> bool
        requires { IsSeatOfLeast self.now seat.old }
        ensures { IsSeatOfLeast self.now seat.new }
    {
        self.words
            .shared
            .compare_exchange::<AnyStep>(seat, self.at, 0, 1)
            == 0
    }

    // Returns whether the word was 1, and is 0 now.
    #[inline]
    pub(crate) fn give(&self, seat: &mut Seat<(), ()>) -> bool
        requires { IsSeatOfLeast self.now seat.old }
        ensures { IsSeatOfLeast self.now seat.new }
    {
        self.words.shared.fetch_sub::<AnyStep>(seat, self.at, 1) == 1
    }

    // Splits off the part that an owner has apart from its thread.
    #[inline]
    pub(crate) fn split(&self, seat: &mut Seat<(), ()>) -> Seat<(), ()>
        requires { IsSeatOfLeast self.now seat.old }
        ensures { IsSeatOfLeast self.now seat.new × IsSeatOfLeast self.now result × (result.me.1 ≡ []) }
    {
        self.words.shared.split_seat::<Same>(seat)
    }

    // Takes the word, and what its owner has apart from its thread: none where the word was not 0.
    // The table is found once.
    #[inline]
    pub(crate) fn enter(&self, seat: &mut Seat<(), ()>) -> Option<Seat<(), ()>>
        requires { IsSeatOfLeast self.now seat.old }
        ensures seat { IsSeatOfLeast self.now seat.new }
        ensures owner { IfSome result (λ owner. IsSeatOfLeast self.now owner × (owner.me.1 ≡ [])) }
    {
        let words: &Words = &self.words;
        if words
            .shared
            .compare_exchange::<AnyStep>(seat, self.at, 0, 1)
            != 0
        {
            return None;
        }
        Some(words.shared.split_seat::<Same>(seat))
    }

    // Gives it up, and joins that. Whether the word was 1.
    #[inline]
    pub(crate) fn leave(&self, seat: &mut Seat<(), ()>, owner: Seat<(), ()>) -> bool
        requires { IsSeatOfLeast self.now seat.old × IsSeatOfLeast self.now owner × (owner.me.1 ≡ []) }
        ensures { IsSeatOfLeast self.now seat.new }
    {
        let words: &Words = &self.words;
        let last = words.shared.fetch_sub::<AnyStep>(seat, self.at, 1);
        words.shared.join_seat::<Same>(seat, owner);
        last == 1
    }

    // Returns whether the word is 0, for a thread that has no seat.
    pub(crate) fn is_free(&self) -> bool {
        self.words.shared.peek(self.at) == 0
    }
}
