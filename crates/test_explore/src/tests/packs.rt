//! States that are packed by tables as they are.

use super::check_eq;
use core_base::ListQueues;
use lot_explore::{Explorer, Walk};
use lot_program::Tables;
use lot_program_text::parse;
use state_search::{NoRoom, System};
use std::alloc::Global;
use std::process::Abort;
use std::test::Fail;

/// Returns the row of a state, if tables as they are have all of it.
fn known_row<S: System>(
    alloc: Global,
    system: &S,
    state: &S::State,
) -> Result<Option<Vec<u32>>, NoRoom>
    requires { S.fits system.now state.now }
{
    let width = system.width();
    let Ok(mut row) = Vec::from_elem(alloc, 0u32, width) else {
        return Err(NoRoom);
    };
    if system.pack_known(state, row.as_mut_slice()) {
        Ok(Some(row))
    } else {
        Ok(None)
    }
}

/// Returns whether the start of a system is known before it is packed, and is packed into the same
/// row after.
fn known_start<S: System>(alloc: Global, system: &mut S) -> Result<[bool; 2], NoRoom> {
    let start = system.start(alloc)?;
    let before = known_row(alloc, system, &start)?;
    let width = system.width();
    let Ok(mut row) = Vec::from_elem(alloc, 0u32, width) else {
        return Err(NoRoom);
    };
    system.pack(&start, row.as_mut_slice())?;
    let after = known_row(alloc, system, &start)?;
    let is_same = match after {
        Some(known) => known.as_slice() == row.as_slice(),
        None => false,
    };
    Ok([before.is_some(), is_same])
}

/// Tries the start of a program so.
fn known_start_of(alloc: Global, text: &str) -> Option<[bool; 2]> {
    let parsed = parse(alloc, text).ok()?;
    let program = &parsed.program;
    if !program.is_fit() {
        return None;
    }
    let walk = Walk::<ListQueues>::new(alloc, program).ok()?;
    let mut explorer = Explorer {
        alloc,
        walk: &walk,
        tables: Tables::new(alloc).ok()?,
    };
    known_start(alloc, &mut explorer).ok()
}

#[test]
fn a_state_is_known_once_it_was_packed(rt: HostRuntime) {
    let text = "threads 2\nlock m mutex\nvar x 3\nthread 0 1\nlock m\nunlock m\n";
    let known = known_start_of(rt.alloc(), text);
    check_eq(&rt, known, Some([false, true]));
}
