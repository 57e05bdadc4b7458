//! What is printed of a schedule, whole.

use super::{check_eq, told};
use core_queues::BucketQueues;
use lot_replay::replay::replay;
use std::alloc::Global;
use std::process::Abort;
use std::test::Fail;

const SCHEDULE: &str =
    "threads 2\nlock m mutex\n0 do lock m\n1 do lock m\n1 go\n0 begin unlock m\n0 go\n\
    0 solo\nshow\ndrain\n1 do lock n\n";

const TOLD: &str =
    "0 end ok\n    line 3: 0 do lock m\n    m 1 own=0x\n1 sleep\n    line 4: 1 do lock m\n\
    \x20   m 3 own=0x queue=1x\n1 not now\n    line 5: 1 go\n\
    \x20   not now: the thread sleeps till another wakes it\n0 step\n\
    \x20   line 6: 0 begin unlock m\n0 step\n    line 7: 0 go\n    m 2 queue=1x owe=0\n\
    0 end ok\n    line 8: 0 solo\n    m 0 retry=1\nm 0 retry=1\ndrain 1 go\ndrain 1 go\n\
    drain 1 begin unlock m\ndrain 1 go\n    line 10: drain\n    m 0\nline 11 malformed\n\
    \x20   line 11: `n`: no lock has this name\n";

#[test]
fn each_answer_has_its_words(rt: HostRuntime) {
    match told(rt.alloc(), SCHEDULE.as_bytes()) {
        Ok((text, status)) => {
            check_eq(&rt, text.as_str(), TOLD);
            check_eq(&rt, status, 2);
        }
        Err(_) => check_eq(&rt, "no explanation", ""),
    }
}

/// Asserts that what is told, without its words, is what a replay answers.
fn is_replayed(rt: &impl Abort, alloc: Global, schedule: &str) {
    let mut reader = schedule.as_bytes();
    let mut answers = Vec::new(alloc);
    let status = replay::<BucketQueues, _, _>(alloc, &mut reader, &mut answers);
    let Ok((text, told_status)) = told(alloc, schedule.as_bytes()) else {
        return check_eq(rt, "no explanation", schedule);
    };
    let mut lines = text.lines().filter(|line| !line.starts_with("    "));
    for answer in std::str::from_utf8(answers.as_slice())
        .unwrap_or("?")
        .lines()
    {
        check_eq(rt, lines.next(), Some(answer));
    }
    check_eq(rt, lines.next(), None);
    check_eq(rt, told_status, status);
}

#[test]
fn without_its_words_it_is_the_replay(rt: HostRuntime) {
    is_replayed(&rt, rt.alloc(), SCHEDULE);
    is_replayed(
        &rt,
        rt.alloc(),
        "threads 3\nlock s semaphore 2\n0 do acquire s\n1 do acquire s\n2 do acquire s\nshow\n",
    );
    is_replayed(
        &rt,
        rt.alloc(),
        "threads 1\nlock m mutex\nshow\nlock n mutex\n",
    );
    is_replayed(&rt, rt.alloc(), "");
}
