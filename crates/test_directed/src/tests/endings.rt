//! How runs end.
use super::{check_eq, crosswise, search_by, search_of};
use lock_explore::{Ending, Policy, Summary, explore};
use parking_lot::{Director, Fault, Team};
use std::alloc::{AllocError, Global};
use std::sync::{Arc, Wait};
use std::test::Fail;
use std::thread::Threads;

fn run_by<R: Threads + Wait + Copy + Send + Sync + 'static>(
    rt: &R,
    alloc: Global,
    policy: Policy,
    most_turns: u64,
) -> Result<Summary, AllocError> {
    let mut runs = search_by(alloc, policy, 20);
    runs.most_turns = most_turns;
    explore(
        rt,
        alloc,
        &runs,
        move |rt: &R, director: &Arc<Director>| crosswise(rt, alloc, director),
    )
}

#[test]
fn runs_that_were_too_long_are_no_measure(rt: HostRuntime) -> Result<(), Fail> {
    let policy = Policy::Priorities { depth: 3 };
    let cut = run_by(&rt, rt.alloc(), policy, 3)?;
    check_eq(&rt, (cut.too_long.runs, cut.longest), (20, 0));
    let whole = run_by(&rt, rt.alloc(), policy, 100)?;
    check_eq(&rt, (whole.too_long.runs, whole.longest >= 8), (0, true));
    Ok(())
}

#[test]
fn a_program_that_returns_an_error_has_failed(rt: HostRuntime) -> Result<(), Fail> {
    let alloc = rt.alloc();
    let runs = search_by(alloc, Policy::Random, 3);
    let found = explore(
        &rt,
        alloc,
        &runs,
        move |_rt: &HostRuntime, director: &Arc<Director>| {
            Team::directed(alloc, 1, director)?;
            Err(Fault::LotFull)
        },
    )?;
    check_eq(&rt, (found.failed.runs, found.failed.first), (3, Some(0)));
    let Some(failure) = &found.failure else {
        panic!(rt; "no failure");
    };
    check_eq(&rt, failure.ending, Ending::Failed);
    check_eq(&rt, failure.log.fault.as_str(), "no word left in the lot");
    Ok(())
}

#[test]
fn a_script_that_no_thread_can_follow(rt: HostRuntime) -> Result<(), Fail> {
    let alloc = rt.alloc();
    let runs = search_of(alloc, vec![in alloc; 1, 0, 1, 1]?);
    let found = explore(
        &rt,
        alloc,
        &runs,
        move |rt: &HostRuntime, director: &Arc<Director>| { crosswise(rt, alloc, director) },
    )?;
    check_eq(&rt, (found.strayed.runs, found.turns), (1, 4));
    Ok(())
}
