//! What no contract of the queues says, some values of their formula, and the texts of faults.
use super::check_eq;
use core_base::{Fault, Key, ListQueues, Queues};
use core_queues::BucketQueues;
use std::alloc::Global;
use std::process::Abort;
use std::test::Fail;

fn refuses_too_much_memory<Q: Queues + Drop>(rt: &impl Abort, alloc: Global) {
    let refused = Q::with_capacity(alloc, usize::MAX).err();
    check_eq(rt, refused, Some(Fault::NoMemory));
}

#[test]
fn both_kinds_refuse_too_much_memory(rt: HostRuntime) {
    refuses_too_much_memory::<ListQueues>(&rt, rt.alloc());
    refuses_too_much_memory::<BucketQueues>(&rt, rt.alloc());
}

/// How many buckets there are for so many threads, and the bucket of a key.
const BUCKETS: &[(usize, usize, Key, usize)] = &[
    (1, 1, 77, 0),
    (4, 4, 0, 0),
    (4, 4, 1, 2),
    (4, 4, 2, 0),
    (9, 16, 0, 0),
    (1024, 1024, 3, 874),
];

#[test]
fn tells_the_bucket_of_a_key(rt: HostRuntime) -> Result<(), Fail> {
    for row in BUCKETS {
        let (threads, _, key, _) = *row;
        let queues = BucketQueues::with_capacity(rt.alloc(), threads)?;
        let found = (threads, queues.buckets(), key, queues.bucket(key));
        check_eq(&rt, found, *row);
    }
    Ok(())
}

const FAULTS: &[(Fault, &str)] = &[
    (Fault::LotFull, "no word left in the lot"),
    (Fault::NoMemory, "no memory"),
    (Fault::ReadersFull, "RwLock reader count overflow"),
    (
        Fault::Poisoned,
        "Once instance has previously been poisoned",
    ),
    (
        Fault::TwoMutexes,
        "attempted to use a condition variable with more than one mutex",
    ),
    (Fault::LockCountFull, "ReentrantMutex lock count overflow"),
];

fn tells(rt: &impl Abort, alloc: Global, fault: Fault, text: &str) {
    match fault.to_string(alloc) {
        Ok(told) => check_eq(rt, told.as_str(), text),
        Err(_) => panic!(rt; "no memory"),
    }
}

#[test]
fn tells_faults(rt: HostRuntime) {
    for (fault, text) in FAULTS {
        tells(&rt, rt.alloc(), *fault, text);
    }
}
