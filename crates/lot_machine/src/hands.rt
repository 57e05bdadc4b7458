//! The threads that a thread has in hand: it has taken them from queues, and has not woken them
//! yet.
ghost use Rattle.std.specs.Prelude.{◌≡◌, ◌≤◌, vec_capacity, length, map};
ghost use Rattle.lot_machine.specs.Machine.{places_told, listed, moved_threads, held, shares_in_hand};
ghost use Rattle.lot_machine.specs.Machine.{sharers_in_hand, wants_more_in_hand, successor_from};
ghost use Rattle.lot_machine.specs.Machine.{want_of_successor, place_after_telling};

use core_base::{Requeue, Want};
use lot_steps::{Place, Reply};

/// The one of those in a hand that wants more than to share.
#[derive(Clone, Copy)]
pub struct Successor {
    pub thread: usize,
    pub want: Want,
}

/// Tells something to this one, where a thread has it in hand.
fn tell_if_taken(place: &mut Place, thread: usize, reply: Reply)
    ensures { place.new ≡ place_after_telling thread reply place.old }
{
    if place.taker() == Some(thread) {
        place.step(reply);
    }
}

pub(crate) fn tell_taken(places: &mut [Place], thread: usize, reply: Reply)
    ensures { places.new ≡ map (place_after_telling thread reply) places.old }
{
    for place in places.iter_mut() {
        tell_if_taken(place, thread, reply);
    }
}

/// Tells something to threads asleep. One that isn't there is told nothing.
pub(crate) fn tell_each(places: &mut [Place], threads: &[usize], reply: Reply)
    ensures { places.new ≡ places_told reply threads.now places.old }
{
    for thread in threads {
        if *thread < places.len() {
            places[*thread].step(reply);
        }
    }
}

/// Tells something to a thread asleep, if there is one.
pub(crate) fn tell_one(places: &mut [Place], thread: Option<usize>, reply: Reply)
    ensures { places.new ≡ places_told reply (listed thread) places.old }
{
    if let Some(thread) = thread {
        tell_each(places, &[thread], reply);
    }
}

pub(crate) fn one_if_some(thread: Option<usize>) -> usize
    ensures number { result ≡ length (listed thread) }
    ensures one { result ≤ 1 }
{
    match thread {
        Some(_) => 1,
        None => 0,
    }
}

/// Keeps those waiters of a line that a requeue moves.
pub(crate) fn keep_moved(whom: &mut Vec<usize>, how: Requeue)
    ensures moved { whom.new.items ≡ moved_threads how whom.old.items }
    ensures room { vec_capacity whom.new ≡ vec_capacity whom.old }
{
    match how {
        Requeue::One => whom.truncate(1),
        Requeue::All => {}
        Requeue::TakeOneMoveRest => {
            if !whom.is_empty() {
                whom.remove(0);
            }
        }
    }
}

/// Returns whether a thread has this one in hand, and it wants to share.
pub(crate) fn shares_in_hand(thread: usize, place: &Place) -> bool
    ensures { result ≡ shares_in_hand thread (held place.now) }
{
    place.taker() == Some(thread) && place.wants() == Some(Want::Shared)
}

/// Returns how many a thread has in hand that want to share.
pub(crate) fn sharers(thread: usize, places: &[Place]) -> usize
    ensures { result ≡ sharers_in_hand thread places.now }
{
    places
        .iter()
        .filter(|place| shares_in_hand(thread, place))
        .count()
}

/// Returns what the waiter at this place wants, where the thread has it in hand and it wants more
/// than to share.
pub(crate) fn wants_more_in_hand(thread: usize, place: &Place) -> Option<Want>
    ensures { result ≡ wants_more_in_hand thread (held place.now) }
{
    match (place.taker(), place.wants()) {
        (Some(by), Some(want)) if by == thread && want != Want::Shared => Some(want),
        _ => None,
    }
}

/// Returns the first that a thread has in hand and that wants more than to share.
pub(crate) fn find_successor(places: &[Place], thread: usize) -> Option<Successor>
    ensures { result ≡ successor_from thread 0 places.now }
{
    for other in 0..places.len() {
        if let Some(want) = wants_more_in_hand(thread, &places[other]) {
            return Some(Successor {
                thread: other,
                want,
            });
        }
    }
    None
}

pub(crate) fn want_of_successor(successor: Option<Successor>) -> Option<Want>
    ensures { result ≡ want_of_successor successor }
{
    match successor {
        Some(Successor { want, .. }) => Some(want),
        None => None,
    }
}
