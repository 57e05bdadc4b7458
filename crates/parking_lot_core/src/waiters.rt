//! The records by which a thread that takes a waiter wakes it.
//!
//! A record is found by a try: its value is out for a few plain steps. A thread that finds it out looks
//! for a microsecond and then parks on the record's word, where it leaves a mark; the thread that gives
//! the value back sees the mark and wakes one. A second right for a thread puts the first out of its
//! record, and that one goes with the lot. Leaving swaps where it stored: on x86-64 a sequentially
//! consistent store is an exchange anyway.
ghost use Rattle.std.specs.Prelude.{◌≡◌, IfSome, None};
ghost use Rattle.core_words.specs.RightsOf.{IsRightOf, IsFor};

use crate::lot::ParkingLot;
use crate::wakes::WakeNote;
use core_base::Want;
use core_parts::Keyed;
use core_words::{LotWords, Right, Word};
use std::sync::Wait;

/// A waiter's record: its wake note, and a right that was handed to it.
pub struct WakeRecord {
    pub(crate) note: Option<WakeNote>,
    pub(crate) right: Option<Right>,
}

impl WakeRecord {
    ghost use Rattle.std.specs.Prelude.{Some, MatchOption};

    pub(crate) fn empty() -> WakeRecord
        ensures { result.right ≡ None }
    {
        WakeRecord {
            note: None,
            right: None,
        }
    }

    // Takes the right out, if it is what its thread waits for.
    pub(crate) fn take_right(&mut self, word: Word, want: Want) -> Option<Right>
        ensures taken { IfSome result
            (λ right. (self.old.right ≡ Some right) × IsFor word want right) }
        ensures left { MatchOption result (self.new.right ≡ self.old.right)
            (λ _. self.new.right ≡ None) }
    {
        let right = self.right.take()?;
        if right.is_for(word, want) {
            return Some(right);
        }
        if let Some(before) = self.right.replace(right) {
            before.forget();
        }
        None
    }
}

// A right that lies in a record goes with the lot.
impl Drop for WakeRecord {
    fn drop(self) {
        let Self { note: _, right } = self;
        if let Some(right) = right {
            right.forget();
        }
    }
}

// The key is the words of the lot whose rights may lie here.
impl Keyed<LotWords> for WakeRecord {
    ghost fits = { λ words wake_record. IfSome wake_record.right (IsRightOf words) };
}

impl ParkingLot {
    // Lays a right in the record of a thread.
    pub(crate) fn lay<R: Wait>(&self, rt: &R, thread: usize, right: Right)
        requires { IsRightOf self.now.words right }
    {
        if thread >= self.records.len() {
            right.forget();
            return;
        }
        let (mut wake_record, held) = self.records.take(rt, thread);
        if let Some(before) = wake_record.right.replace(right) {
            before.forget();
        }
        self.records.give_back(wake_record, held);
    }
}
