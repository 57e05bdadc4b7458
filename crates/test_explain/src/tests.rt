//! Schedules, and what is said of their lines.
mod causes;
mod devices;
mod texts;

use core_queues::BucketQueues;
use lot_explain::{Explanation, Failure, explain};
use std::alloc::Global;
use std::fmt::Debug;
use std::process::Abort;
use std::test::Fail;

// Asserts that the thing found is the thing wanted. All tests share this one assertion, since each
// is proved where it stands.
fn check_eq<T: PartialEq + Debug + Drop>(rt: &impl Abort, found: T, wanted: T) {
    assert_eq!(rt; found, wanted);
}

/// Returns what is printed of a schedule, and the status.
fn told(alloc: Global, schedule: &[u8]) -> Result<(String, u8), Failure> {
    let mut reader = schedule;
    let told = explain::<BucketQueues, _>(alloc, &mut reader)?;
    let mut text = Vec::new(alloc);
    told.write(&mut text)?;
    match String::from_utf8(text) {
        Ok(text) => Ok((text, told.status)),
        Err(_) => Err(Failure::Unread),
    }
}
