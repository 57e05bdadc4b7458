//! Threads that line up in the queues of a lot.
ghost use Rattle.std.specs.Prelude.{◌≡◌, ◌≤◌, ◌<◌, All, IfSome};
ghost use Rattle.parking_lot_core.specs.Keys.{IsKeyOf};
ghost use Rattle.parking_lot_core.specs.Places.{IsPlaceOf};
ghost use Rattle.parking_lot_core.specs.Sections.{StaysIn, TookAs, rightless_in};
ghost use Rattle.parking_lot_core.specs.Tokens.{IsNewTicketOf, IsSameThread, IsTicketOf, IsTokenOf};

use core_queues::{bits_for, bucket_among};
use parking_lot_core::{Key, Keys, Note, ParkingLot, QueuePlace, Section, Ticket, Token, Want};
use std::sync::Wait;

/// Returns whether two keys have different buckets in a lot of so many seats.
pub fn lie_apart(seats: usize, one: Key, other: Key) -> bool
    requires { seats ≤ 1024 }
{
    let bits = bits_for(seats);
    bucket_among(bits, one) != bucket_among(bits, other)
}

/// A ticket of those that are left.
pub fn next_of(lot: &ParkingLot, tickets: &mut Vec<Ticket>) -> Option<Ticket>
    requires { All (IsNewTicketOf lot.now) tickets.old.items }
    ensures one { IfSome result (IsTicketOf lot.now) }
    ensures left { All (IsNewTicketOf lot.now) tickets.new.items }
{
    tickets.pop()
}

/// Stands after the last under a key. It gives the thread's place there.
pub fn line_up<'a, R: Wait>(
    rt: &R,
    lot: &'a ParkingLot,
    token: &mut Token,
    key: Key,
    want: Want,
) -> QueuePlace<'a>
    requires { IsTokenOf lot.now token.old }
    ensures own { IsSameThread lot.now token.old token.new }
    ensures place { IsPlaceOf lot.now token.old.number result }
{
    let mut section = lot.enter(rt, token, Keys::One(key));
    let place = section.append(key, token.number(), want);
    section.leave(rt, token, Note::Normal).unwrap();
    place
}

/// The places of three threads.
pub type Three<'a> = (QueuePlace<'a>, QueuePlace<'a>, QueuePlace<'a>);

/// Three threads line up in a section, under one of its keys. It gives their places.
pub fn append_three<'a>(
    section: &mut Section<'a>,
    key: Key,
    threads: (usize, usize, usize),
    wants: (Want, Want, Want),
) -> Three<'a>
    requires key { IsKeyOf section.old.keys key }
    requires threads { (threads.0 < section.old.lot.now.records.count)
        × (threads.1 < section.old.lot.now.records.count)
        × (threads.2 < section.old.lot.now.records.count) }
    ensures same { StaysIn section.old section.new × TookAs section.old section.new
        × (rightless_in section.new ≡ rightless_in section.old) }
    ensures places { (result.0.lot.now ≡ section.old.lot.now)
        × (result.1.lot.now ≡ section.old.lot.now) × (result.2.lot.now ≡ section.old.lot.now) }
{
    let first = section.append(key, threads.0, wants.0);
    let second = section.append(key, threads.1, wants.1);
    let third = section.append(key, threads.2, wants.2);
    (first, second, third)
}
