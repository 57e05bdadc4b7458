//! How a run is told.
use super::{check_eq, crosswise, search_of};
use lock_explore::{Summary, explore, script_from, script_text};
use parking_lot::Director;
use std::alloc::{AllocError, Global};
use std::sync::{Arc, Wait};
use std::test::Fail;
use std::thread::Threads;

// Searches the run in which each of two threads has a mutex that the other waits for.
fn deadlock<R: Threads + Wait + Copy + Send + Sync + 'static>(
    rt: &R,
    alloc: Global,
) -> Result<Summary, AllocError> {
    let runs = search_of(alloc, vec![in alloc; 1, 0, 1, 0]?);
    explore(rt, alloc, &runs, move |rt: &R, director: &Arc<Director>| {
        crosswise(rt, alloc, director)
    })
}

#[test]
fn who_waits_for_what_of_whom(rt: HostRuntime) -> Result<(), Fail> {
    let alloc = rt.alloc();
    let found = deadlock(&rt, alloc)?;
    let Some(failure) = &found.failure else {
        panic!(rt; "no deadlock");
    };
    check_eq(
        &rt,
        failure.verdict(alloc)?.as_str(),
        "deadlock after 4 turns",
    );
    let waits = failure.waits(alloc)?.join(alloc, "\n")?;
    check_eq(
        &rt,
        waits.as_str(),
        "thread 0 sleeps in lock of w1, waits for w1 of thread 1, has w0\n\
         thread 1 sleeps in lock of w0, waits for w0 of thread 0, has w1",
    );
    check_eq(&rt, failure.script(alloc)?.as_str(), "1,0,1,0");
    Ok(())
}

#[test]
fn a_run_is_a_schedule_of_the_simulator(rt: HostRuntime) -> Result<(), Fail> {
    let alloc = rt.alloc();
    let found = deadlock(&rt, alloc)?;
    let Some(failure) = &found.failure else {
        panic!(rt; "no deadlock");
    };
    let lines = failure.schedule(alloc)?.unwrap_or(Vec::new(alloc));
    check_eq(
        &rt,
        lines.join(alloc, "\n")?.as_str(),
        "threads 2\nlock w0 mutex\nlock w1 mutex\n1 do lock w1\n0 do lock w0\n1 do lock w0\n\
         0 do lock w1\nshow",
    );
    check_eq(&rt, failure.is_taken(alloc)?, true);
    Ok(())
}

#[test]
fn scripts_as_text(rt: HostRuntime) -> Result<(), Fail> {
    let alloc = rt.alloc();
    let threads = [0usize, 0, 0, 1, 0, 0];
    check_eq(
        &rt,
        script_text(alloc, threads.as_slice())?.as_str(),
        "0:3,1,0:2",
    );
    check_eq(
        &rt,
        script_from(alloc, "0:3,1,0:2")?.ok(),
        Some(threads.to_vec(alloc)?),
    );
    for wrong in ["x", "0,,1", "0:", "1024", "0:1000001", ""] {
        check_eq(&rt, script_from(alloc, wrong)?.is_err(), true);
    }
    Ok(())
}
