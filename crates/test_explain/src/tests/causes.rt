//! Why a line is malformed, and why a turn is not possible.

use super::{check_eq, told};
use core_queues::BucketQueues;
use lot_explain::{Obstacle, obstacle_of};
use lot_world::{Call, Kind, MutexCall, Step, Turn, World};
use std::alloc::Global;
use std::process::Abort;
use std::test::Fail;

/// The lines that schedules here begin with.
const HEAD: &str = "threads 3\nlock m mutex\nlock f fair\nlock c condvar\nlock o once\n";

/// First lines of a replay that is refused, and the last line that is said of them.
const FIRST_LINES: &[(&str, &str)] = &[
    (
        "show\n",
        "line 1: the first line is `threads N`, as in `threads 3`",
    ),
    ("threads 0\n", "line 1: threads are 1 to 1024"),
    ("threads 1025\n", "line 1: threads are 1 to 1024"),
    (
        "threads 2\nthreads 2\n",
        "line 2: the number of threads is said once, in the first line",
    ),
    (
        "threads 2\nlock m mutex\nlock m mutex\n",
        "line 3: `m`: a lock has this name",
    ),
    (
        "threads 3\nlock r rwlock 2\n",
        "line 2: readers are as many as the threads or more, at most 2^60 - 2; permits 1 to 2^62",
    ),
];

/// Lines that are refused after `HEAD`, and what is said of them.
const MALFORMED: &[(&str, &str)] = &[
    ("", "a line has words, and one space between two of them"),
    (
        "0  go",
        "a line has words, and one space between two of them",
    ),
    (
        " show",
        "a line has words, and one space between two of them",
    ),
    (
        "\u{e9}",
        "`\u{e9}`: a line begins with threads, lock, show, drain or a thread's number",
    ),
    (
        "shows",
        "`shows`: a line begins with threads, lock, show, drain or a thread's number",
    ),
    (
        "01 go",
        "`01`: a line begins with threads, lock, show, drain or a thread's number",
    ),
    (
        "threads",
        "the line ends too soon: it is like `threads 3`, `lock m mutex`, `0 go` or `0 do lock m`",
    ),
    (
        "threads x",
        "`x`: a number has 1 to 19 digits, and no 0 before others",
    ),
    (
        "threads 02 x",
        "`02`: a number has 1 to 19 digits, and no 0 before others",
    ),
    ("threads 2 2", "`2`: the end of the line is expected"),
    ("show m", "`m`: the end of the line is expected"),
    (
        "lock",
        "the line ends too soon: it is like `threads 3`, `lock m mutex`, `0 go` or `0 do lock m`",
    ),
    (
        "lock n",
        "the line ends too soon: it is like `threads 3`, `lock m mutex`, `0 go` or `0 do lock m`",
    ),
    (
        "lock N mutex",
        "`N`: a name is a lower-case letter and up to 15 letters or digits",
    ),
    (
        "lock n mutexx",
        "`mutexx`: a kind is mutex, fair, condvar, once, rwlock [READERS], recursive [READERS] or \
         semaphore PERMITS",
    ),
    (
        "lock n semaphore",
        "a semaphore says its permits, as in `lock s semaphore 2`",
    ),
    (
        "lock n mutex 2",
        "`2`: only rwlock, recursive and semaphore have a number",
    ),
    (
        "lock n rwlock x",
        "`x`: a number has 1 to 19 digits, and no 0 before others",
    ),
    ("lock n rwlock 2 2", "`2`: the end of the line is expected"),
    (
        "lock n semaphore y 2",
        "`y`: a number has 1 to 19 digits, and no 0 before others",
    ),
    (
        "0",
        "the line ends too soon: it is like `threads 3`, `lock m mutex`, `0 go` or `0 do lock m`",
    ),
    (
        "0 goes",
        "`goes`: a turn is begin, do, go, solo, spin, late, ok or err",
    ),
    (
        "0 go m",
        "`m`: after go, solo, spin, late, ok and err the line ends",
    ),
    (
        "0 do",
        "the line ends too soon: it is like `threads 3`, `lock m mutex`, `0 go` or `0 do lock m`",
    ),
    ("0 do locks m", "`locks`: no lock has such a call"),
    (
        "0 do lock",
        "the line ends too soon: it is like `threads 3`, `lock m mutex`, `0 go` or `0 do lock m`",
    ),
    (
        "0 do lock M",
        "`M`: a name is a lower-case letter and up to 15 letters or digits",
    ),
    (
        "0 do lock m c",
        "`c`: only wait and wait_timed name a mutex after the lock",
    ),
    (
        "0 do wait c M",
        "`M`: a name is a lower-case letter and up to 15 letters or digits",
    ),
    ("0 do wait c m m", "`m`: the end of the line is expected"),
    ("0 do lock n", "`n`: no lock has this name"),
    ("0 begin wait c n", "`n`: no lock has this name"),
    (
        "0 do wait c",
        "a wait on a condition variable names its mutex, as in `0 do wait c m`",
    ),
    (
        "0 do wait m m",
        "only a wait on a condition variable names a mutex",
    ),
];

/// Lines after `HEAD`, of which the last is not possible, and why.
const NOT_NOW: &[(&str, &str)] = &[
    ("3 go\n", "there is no such thread"),
    (
        "0 begin lock m\n0 begin lock m\n",
        "the thread is in a call, which has to end first",
    ),
    (
        "0 begin lock m\n0 do lock m\n",
        "the thread is in a call, which has to end first",
    ),
    ("0 go\n", "the thread is in no call"),
    ("0 solo\n", "the thread is in no call"),
    ("0 spin\n", "the thread is in no call"),
    ("0 late\n", "the thread is in no call"),
    ("0 err\n", "the thread is in no call"),
    (
        "0 do lock m\n1 do lock m\n1 go\n",
        "the thread sleeps till another wakes it",
    ),
    (
        "0 do lock m\n1 do lock m\n1 solo\n",
        "the thread sleeps till another wakes it",
    ),
    (
        "0 do lock m\n1 do lock m\n1 late\n",
        "the thread sleeps without a deadline",
    ),
    ("0 begin lock m\n0 late\n", "the thread does not sleep"),
    ("0 begin lock m\n0 ok\n", "the thread runs no closure"),
    (
        "0 begin lock m\n0 spin\n",
        "the thread has no word to look at once more",
    ),
    ("0 do read m\n", "the lock has no such call"),
    (
        "0 do lock f\n0 do wait c f\n",
        "a condition variable works with a plain mutex alone",
    ),
    (
        "0 do unlock m\n",
        "the thread lacks the right that the call needs",
    ),
    (
        "0 do wait c m\n",
        "the thread lacks the right that the call needs",
    ),
    (
        "0 do call_once o\n0 go\n",
        "the thread runs its closure, which answers by ok or err",
    ),
    (
        "0 do lock m\n1 do lock_timed m\n0 begin unlock m\n0 go\n0 go\n1 late\n",
        "another thread is inside the section of the queue",
    ),
    (
        "0 do lock m\n0 do wait c m\n1 begin notify_one c\n1 go\n1 go\n2 begin notify_one c\n2 go\n2 go\n",
        "another thread is inside the section of the queue",
    ),
    (
        "0 do lock m\n1 do lock m\n0 begin unlock m\n0 go\n0 go\n2 do notify_one c\n2 do read m\n",
        "the lock has no such call",
    ),
    (
        "0 do lock m\n1 do lock_timed m\n0 begin unlock m\n0 go\n0 go\n0 go\n1 late\n",
        "another thread has taken it off the queue, and is to wake it",
    ),
];

/// Schedules that end in a drain which is refused, and why.
const UNDRAINED: &[(&str, &str)] = &[
    ("threads 2\ndrain\n", "a drain is of one lock"),
    (
        "threads 2\nlock m mutex\nlock n mutex\ndrain\n",
        "a drain is of one lock",
    ),
    (
        "threads 2\nlock s semaphore 2\ndrain\n",
        "a drain is of a mutex or a reader-writer lock",
    ),
    (
        "threads 2\nlock c condvar\nshow\ndrain\n",
        "a drain is of a mutex or a reader-writer lock",
    ),
    (
        "threads 2\nlock o once\ndrain\n",
        "a drain is of a mutex or a reader-writer lock",
    ),
    (
        "threads 2\nlock r recursive\n0 do read r\n0 do read r\ndrain\n",
        "a thread has two rights, or one and a call that gets one, or readers came to the limit",
    ),
];

/// Asserts that the last line of what is said of a schedule is this, after the words of its line.
fn check_last(rt: &impl Abort, alloc: Global, schedule: &str, beginning: &str, wanted: &str) {
    let Ok((text, _)) = told(alloc, schedule.as_bytes()) else {
        return check_eq(rt, "no explanation", schedule);
    };
    let last = text.lines().last().unwrap_or("");
    match last.split_once(beginning) {
        Some((_, said)) => check_eq(rt, said, wanted),
        None => check_eq(rt, last, wanted),
    }
}

fn schedule_of(alloc: Global, lines: &str) -> String {
    let mut schedule = String::new(alloc);
    let _ = schedule.push_str(HEAD);
    let _ = schedule.push_str(lines);
    schedule
}

#[test]
fn a_malformed_line_says_why(rt: HostRuntime) {
    for (lines, wanted) in FIRST_LINES {
        check_last(&rt, rt.alloc(), lines, "    ", wanted);
    }
    for (line, wanted) in MALFORMED {
        let mut schedule = schedule_of(rt.alloc(), line);
        let _ = schedule.push('\n');
        check_last(&rt, rt.alloc(), schedule.as_str(), "    line 6: ", wanted);
    }
}

#[test]
fn a_line_that_is_no_text_says_so(rt: HostRuntime) {
    let mut schedule = schedule_of(rt.alloc(), "").into_bytes();
    let _ = schedule.push(0xff);
    match told(rt.alloc(), schedule.as_slice()) {
        Ok((text, _)) => check_eq(
            &rt,
            text.as_str(),
            "line 6 malformed\n    line 6: a line is text\n",
        ),
        Err(_) => check_eq(&rt, "no explanation", ""),
    }
}

#[test]
fn a_line_that_is_too_long_says_so(rt: HostRuntime) {
    let mut schedule = schedule_of(rt.alloc(), "0 do lock ");
    for _ in 0..119 {
        let _ = schedule.push('a');
    }
    let wanted = "a line has at most 128 bytes";
    check_last(&rt, rt.alloc(), schedule.as_str(), "    line 6: ", wanted);
}

#[test]
fn there_are_256_locks(rt: HostRuntime) {
    let mut schedule = String::new(rt.alloc());
    let _ = schedule.push_str("threads 1\n");
    for number in 0..257 {
        let _ = writeln!(schedule, "lock m{number} mutex");
    }
    let wanted = "there are 256 locks, and no more";
    check_last(&rt, rt.alloc(), schedule.as_str(), "    line 258: ", wanted);
}

#[test]
fn no_lock_has_such_a_number(rt: HostRuntime) {
    let Ok(world) = World::<BucketQueues>::new(rt.alloc(), &[Kind::Mutex], 1) else {
        return check_eq(&rt, "no world", "");
    };
    let call = Call::Mutex {
        lock: 1,
        call: MutexCall::TryLock,
    };
    let step = Step {
        thread: 0,
        turn: Turn::Begin(call),
    };
    check_eq(&rt, obstacle_of(&world, step), Obstacle::NoLock);
}

#[test]
fn a_lock_comes_too_late(rt: HostRuntime) {
    let schedule = schedule_of(rt.alloc(), "show\nlock n mutex\n");
    let wanted = "a lock is declared before the first turn, show or drain";
    check_last(&rt, rt.alloc(), schedule.as_str(), "    line 7: ", wanted);
}

#[test]
fn a_turn_that_is_not_possible_says_why(rt: HostRuntime) {
    for (lines, wanted) in NOT_NOW {
        let schedule = schedule_of(rt.alloc(), lines);
        check_last(&rt, rt.alloc(), schedule.as_str(), "    not now: ", wanted);
    }
}

#[test]
fn a_drain_that_is_refused_says_why(rt: HostRuntime) {
    for (schedule, wanted) in UNDRAINED {
        check_last(&rt, rt.alloc(), schedule, "    refused: ", wanted);
    }
}
