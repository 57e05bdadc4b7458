//! Takes and moves of waiters, as acts.
ghost use Rattle.std.specs.Prelude.{◌≡◌, ◌≢◌, ◌<◌, ◌+◌, ◌++◌, ◌^◌, ◌==◌, not, length};
ghost use Rattle.std.specs.List.{filter};
ghost use Rattle.core_base.specs.Lines.{line, lines, without_first, without_key};
ghost use Rattle.core_base.specs.Picks.{lock_picked, without_lock_picked};
ghost use Rattle.core_base.specs.Requeues.{moved_by, requeued};
ghost use Rattle.core_queues.specs.Wants.{wants_of};
ghost use Rattle.parking_lot_core.specs.declared.tokens.Did.TheVariants.{TakeFirst, TakeAll, TakePicked};
ghost use Rattle.parking_lot_core.specs.declared.tokens.Did.TheVariants as did;
ghost use Rattle.run_base.specs.Stages.{HasKey, IsFresh, IsSectionOf, front_waiter, section_view, is_there};
ghost use Rattle.run_base.specs.Stages.{listed, with_moved, taken_waiter, threads_taken, took_as};
ghost use Rattle.run_base.specs.Stages.{waiting_of, wants_taken};
ghost use Rattle.run_base.specs.Telling.{AreQueued, WereTaken, MayTakeAt, is_empty_at, line_in};
ghost use Rattle.run_base.specs.Courses.{moving, taking, told_within, visit_within};
ghost use Rattle.steps_base.specs.declared.acts.TakeWhich.TheVariants as whom;
ghost use Rattle.run_base.specs.Takes.{shares, sharers_in, successor_in};

use parking_lot_core::{Key, ParkingLot, Requeue, Section, Want};

fn shares(want: Want) -> bool
    ensures { result ≡ shares want }
{
    match want {
        Want::Shared => true,
        _ => false,
    }
}

fn sharers(wants: &[Want]) -> usize
    ensures { result ≡ sharers_in wants.now }
{
    wants.iter().filter(|want| shares(**want)).count()
}

fn successor(wants: &[Want]) -> Option<Want>
    ensures { result ≡ successor_in wants.now }
{
    for k in 0..wants.len() {
        if !shares(wants[k]) {
            return Some(wants[k]);
        }
    }
    None
}

/// Returns whether it took one, and whether none is left.
pub(crate) fn take_first(_lot: &ParkingLot, section: &mut Option<Section>, key: Key) -> (bool, bool)
    requires { MayTakeAt _lot.now key section.old }
    ensures did { WereTaken _lot.now (TakeFirst key) (listed (front_waiter (line_in key section.old)))
        section.old section.new }
    ensures any { result.0 ≡ is_there (front_waiter (line_in key section.old)) }
    ensures left { AreQueued (without_first key (waiting_of section.old)) section.new
        × (result.1 ≡ is_empty_at key section.new) }
    ensures told { (told_within section.new ≡ told_within section.old
        ++ taking key whom.First (length (threads_taken section.new))
        (length (line_in key section.new)))
        × (visit_within section.new ≡ visit_within section.old) }
{
    match section {
        Some(inside) => {
            let first = inside.take_first(key);
            (first.is_some(), inside.tell_count(key) == 0)
        }
        None => unreachable!(),
    }
}

/// Returns whether it took any, and whether none is left.
pub(crate) fn take_all(_lot: &ParkingLot, section: &mut Option<Section>, key: Key) -> (bool, bool)
    requires { MayTakeAt _lot.now key section.old }
    ensures did { WereTaken _lot.now (TakeAll key)
        (line_in key section.old) section.old section.new }
    ensures any { result.0 ≡ not (is_empty_at key section.old) }
    ensures left { AreQueued (without_key key (waiting_of section.old)) section.new
        × (result.1 ≡ is_empty_at key section.new) }
    ensures told { (told_within section.new ≡ told_within section.old
        ++ taking key whom.All (length (threads_taken section.new))
        (length (line_in key section.new)))
        × (visit_within section.new ≡ visit_within section.old) }
{
    match section {
        Some(inside) => {
            inside.take_all(key);
            (inside.taken().len() != 0, inside.tell_count(key) == 0)
        }
        None => unreachable!(),
    }
}

/// Returns whether none is left.
pub(crate) fn take_picked(
    _lot: &ParkingLot,
    section: &mut Option<Section>,
    key: Key,
    start: Option<Want>,
    recursive: bool,
) -> bool
    requires { MayTakeAt _lot.now key section.old }
    ensures did { WereTaken _lot.now (TakePicked key start recursive)
        (lock_picked start recursive (line_in key section.old)) section.old section.new }
    ensures wants { wants_taken section.new
        ≡ wants_of (lock_picked start recursive (line_in key section.old)) }
    ensures left { AreQueued
        (without_lock_picked start recursive key (waiting_of section.old)) section.new
        × (result ≡ is_empty_at key section.new) }
    ensures told { (told_within section.new ≡ told_within section.old
        ++ taking key (whom.Picked start recursive) (length (threads_taken section.new))
        (length (line_in key section.new)))
        × (visit_within section.new ≡ visit_within section.old) }
{
    match section {
        Some(inside) => {
            inside.take_picked(key, start, recursive);
            inside.tell_count(key) == 0
        }
        None => unreachable!(),
    }
}

/// Returns how many of those that it took want to share, and what the first of them wants that
/// wants more.
pub(crate) fn tell_wants(section: &Option<Section>) -> (usize, Option<Want>)
    ensures sharers { result.0 ≡ sharers_in (wants_taken section.now) }
    ensures successor { result.1 ≡ successor_in (wants_taken section.now) }
    ensures few { length (threads_taken section.now) < 2 ^ 60 }
{
    match section {
        Some(inside) => {
            // The count fits, since no more threads are taken than a list holds.
            let _taken = inside.taken();
            (sharers(inside.wants()), successor(inside.wants()))
        }
        None => (0, None),
    }
}

/// Returns how many it took and moved, and whether none is left where they stood.
pub(crate) fn requeue(
    _lot: &ParkingLot,
    section: &mut Option<Section>,
    from: Key,
    to: Key,
    how: Requeue,
) -> (usize, bool)
    requires { MayTakeAt _lot.now from section.old × HasKey to (section_view section.old)
        × (from ≢ to) }
    ensures did { IsSectionOf _lot.now section.new × (section_view section.new
        ≡ with_moved (length (moved_by how (line_in from section.old)))
        (took_as (did.Requeue from to how) (listed (taken_waiter how (line_in from section.old)))
        (section_view section.old))) }
    ensures number { result.0 ≡ length (listed (taken_waiter how (line_in from section.old)))
        + length (moved_by how (line_in from section.old)) }
    ensures left { AreQueued (requeued how from to (waiting_of section.old)) section.new
        × (result.1 ≡ is_empty_at from section.new) }
    ensures told { (told_within section.new ≡ told_within section.old
        ++ moving from to how (length (threads_taken section.new))
        (length (moved_by how (line_in from section.old))) (length (line_in from section.new)))
        × (visit_within section.new ≡ visit_within section.old)
        × (result.0 ≡ length (threads_taken section.new)
        + length (moved_by how (line_in from section.old))) }
{
    match section {
        Some(inside) => {
            inside.requeue(from, to, how);
            (inside.number(), inside.tell_count(from) == 0)
        }
        None => unreachable!(),
    }
}
