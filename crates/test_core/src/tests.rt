//! Each call of the lot once, and of the queues.
mod deadlines;
mod doubled;
mod lots;
mod queues;
mod requeues;
mod single;

ghost use Rattle.std.specs.Prelude.{◌≡◌, ◌≤◌, ◌<◌, All};
ghost use Rattle.std.specs.Arc.{arc_value};
ghost use Rattle.core_words.specs.Indices.{permits_in};
ghost use Rattle.core_words.specs.Lots.{IsWordOf};
ghost use Rattle.core_words.specs.declared.words.WordKind.TheVariants.{Mutex};
ghost use Rattle.parking_lot_core.specs.Tokens.{IsNewTicketOf, IsSameThread, IsTokenOf};

use crate::lines::next_of;
use parking_lot_core::{ParkingLot, Ticket, Token, Word, WordKind};
use std::alloc::Global;
use std::fmt::Debug;
use std::process::Abort;
use std::sync::Arc;

// Asserts that the thing found is the thing wanted. All tests share this one assertion, since each
// is proved where it stands.
fn check_eq<T: PartialEq + Debug + Drop>(rt: &impl Abort, found: T, wanted: T) {
    assert_eq!(rt; found, wanted);
}

// Asserts that a condition holds.
fn check(rt: &impl Abort, truth: bool) {
    assert!(rt; truth);
}

// A maker of lots and words gives up where memory is refused, so that no test has anything to drop
// in its midst.
fn new_lot<A: Abort>(
    rt: &A,
    alloc: Global,
    words: usize,
    seats: usize,
) -> (Arc<ParkingLot>, Vec<Ticket>)
    requires { (0 < words) × (words ≤ 1048576) × (0 < seats) × (seats ≤ 1024) }
    ensures lot { (arc_value result.0).records.count ≡ seats }
    ensures seats { All (IsNewTicketOf (arc_value result.0)) result.1.items }
{
    match ParkingLot::new(alloc, words, seats) {
        Ok(made) => made,
        Err(_) => panic!(rt; "no lot"),
    }
}

// A lot, and the token of the last of its seats.
fn lot_of<A: Abort>(rt: &A, alloc: Global, words: usize, seats: usize) -> (Arc<ParkingLot>, Token)
    requires { (0 < words) × (words ≤ 1048576) × (0 < seats) × (seats ≤ 1024) }
    ensures lot { (arc_value result.0).records.count ≡ seats }
    ensures seat { IsTokenOf (arc_value result.0) result.1 }
{
    let (lot, mut tickets) = new_lot(rt, alloc, words, seats);
    match next_of(&lot, &mut tickets) {
        Some(ticket) => (lot, ticket.enter()),
        None => panic!(rt; "no ticket"),
    }
}

// A word of a lot.
fn word_of<A: Abort>(rt: &A, lot: &ParkingLot, token: &mut Token, kind: WordKind) -> Word
    requires own { IsTokenOf lot.now token.old }
    requires bare { permits_in kind ≡ 0 }
    ensures own { IsSameThread lot.now token.old token.new }
    ensures word { IsWordOf lot.now.words result × (result.kind ≡ kind) }
{
    match lot.new_word(token, kind) {
        Ok(word) => word,
        Err(_) => panic!(rt; "no word"),
    }
}

// A lot of one seat and so many words, its token, and a mutex.
fn mutex_of<A: Abort>(rt: &A, alloc: Global, words: usize) -> (Arc<ParkingLot>, Token, Word)
    requires { (0 < words) × (words ≤ 1048576) }
    ensures { IsTokenOf (arc_value result.0) result.1
        × IsWordOf (arc_value result.0).words result.2 × (result.2.kind ≡ Mutex) }
{
    let (lot, mut token) = lot_of(rt, alloc, words, 1);
    let word = word_of(rt, &lot, &mut token, WordKind::Mutex);
    (lot, token, word)
}
