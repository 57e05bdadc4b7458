//! Inputs through `start`: what they answer, and what a broken device leaves.
mod bad_input;
mod broken;
mod devices;
mod text;

use core_base::{ListQueues, Queues};
use core_queues::BucketQueues;
use devices::{Pieces, Refusal, Short};
use lot_replay::start::start;
use lot_world::{Answer, Call, Kind, MutexCall, Outcome, Step, Turn, World};
use std::alloc::{AllocError, Global};
use std::fmt::Debug;
use std::io::BufRead;
use std::process::Abort;
use std::test::Fail;

// Asserts that the thing found is the thing wanted. All tests share this one assertion, since each
// is proved where it stands.
fn check_eq<T: PartialEq + Debug + Drop>(rt: &impl Abort, found: T, wanted: T) {
    assert_eq!(rt; found, wanted);
}

// Asserts that a condition holds.
fn check(rt: &impl Abort, truth: bool) {
    assert!(rt; truth);
}

/// Returns the text and the status to which an input leads over a kind of queues.
fn replayed_over<Q: Queues + Drop, R: BufRead + Drop>(
    alloc: Global,
    mut reader: R,
) -> (Vec<u8>, u8) {
    let mut text = Vec::new(alloc);
    let mut errors = Vec::new(alloc);
    let args = ["replay"];
    let status = start::<Q, _, _, _>(alloc, &args, &mut reader, &mut text, &mut errors);
    (text, status)
}

/// Returns the text and the status to which an input leads over buckets.
fn replayed<R: BufRead + Drop>(alloc: Global, reader: R) -> (Vec<u8>, u8) {
    replayed_over::<BucketQueues, R>(alloc, reader)
}

/// An input leads to this text, and to this status, over each kind of queues.
fn leads_both_to(rt: &impl Abort, alloc: Global, input: &[u8], text: &[u8], status: u8) {
    leads_to(
        rt,
        replayed_over::<ListQueues, _>(alloc, input),
        text,
        status,
    );
    leads_to(
        rt,
        replayed_over::<BucketQueues, _>(alloc, input),
        text,
        status,
    );
}

/// An input leads to this text, and to this status.
fn leads_to(rt: &impl Abort, replayed: (Vec<u8>, u8), text: &[u8], status: u8) {
    let (told, ended) = replayed;
    check_eq(rt, told.as_slice(), text);
    check_eq(rt, ended, status);
}

/// An input, and what its replay prints.
struct Input {
    lines: &'static [u8],
    told: &'static [u8],
    status: u8,
}

/// Inputs that are read in pieces, and written in pieces.
const INPUTS: &[Input] = &[
    Input {
        lines: b"",
        told: b"",
        status: 0,
    },
    Input {
        lines: b"threads 1\nlock m mutex\nshow\n0 fly\nshow\n",
        told: b"m 0\nline 4 malformed\n",
        status: 2,
    },
    Input {
        lines: b"threads 1\nlock m mutex\nsho",
        told: b"line 3 malformed\n",
        status: 2,
    },
    Input {
        lines: b"threads 1\nlock m mutex\nshow",
        told: b"m 0\n",
        status: 0,
    },
    Input {
        lines: b"threads 2\nlock m fair\n0 do lock m\n1 do lock m\nshow\n0 do unlock m\n1 solo\nshow\n",
        told: b"0 end ok\n1 sleep\nm 3 own=0x queue=1x\n0 end ok\n1 end ok\nm 1 own=1x\n",
        status: 0,
    },
];

/// Returns the end of a replay whose input comes in pieces, and breaks off after them, if it is
/// to.
fn replayed_in_pieces(alloc: Global, bytes: &[u8], len: usize, is_broken: bool) -> (Vec<u8>, u8) {
    let pieces = Pieces {
        bytes,
        len,
        is_broken,
        looks: 0,
    };
    replayed(alloc, pieces)
}

#[test]
fn reads_pieces(rt: HostRuntime) {
    for input in INPUTS {
        for len in [1, 2, 3, 127, 128, 129, 130] {
            let (text, ended) = replayed_in_pieces(rt.alloc(), input.lines, len, false);
            check_eq(&rt, (len, ended), (len, input.status));
            check_eq(&rt, (len, text.as_slice()), (len, input.told));
        }
    }
}

const STRANGERS: &[u8] = b"threads 1024
lock abcdefghijklmno9 mutex
1023 do lock abcdefghijklmno9
1024 go
9999999999999999999 spin
9999999999999999999 solo
9999999999999999999 do lock abcdefghijklmno9
show
";

const STRANGERS_TOLD: &[u8] = b"1023 end ok
1024 not now
9999999999999999999 not now
9999999999999999999 not now
9999999999999999999 not now
abcdefghijklmno9 1 own=1023x
";

#[test]
fn answers_threads_that_are_not_there(rt: HostRuntime) {
    leads_both_to(&rt, rt.alloc(), STRANGERS, STRANGERS_TOLD, 0);
}

const KINDS: [&str; 6] = ["mutex", "fair", "rwlock", "recursive", "condvar", "once"];

/// An input that declares this many locks, of each kind in turn, and what `show` prints of them.
fn many_locks(alloc: Global, count: usize) -> Result<(String, String), AllocError> {
    let mut input = String::from_str(alloc, "threads 1024\n")?;
    let mut shown = String::new(alloc);
    for lock in 0..count {
        let kind = KINDS[lock % KINDS.len()];
        write!(input, "lock m{lock} {kind}\n")?;
        write!(shown, "m{lock} 0\n")?;
    }
    input.push_str("show\n")?;
    Ok((input, shown))
}

#[test]
fn takes_256_locks_of_1024_threads(rt: HostRuntime) -> Result<(), Fail> {
    let (input, shown) = many_locks(rt.alloc(), 256)?;
    leads_both_to(&rt, rt.alloc(), input.as_bytes(), shown.as_bytes(), 0);
    Ok(())
}

#[test]
fn refuses_257_locks(rt: HostRuntime) -> Result<(), Fail> {
    let (input, _) = many_locks(rt.alloc(), 257)?;
    leads_both_to(
        &rt,
        rt.alloc(),
        input.as_bytes(),
        b"line 258 malformed\n",
        2,
    );
    Ok(())
}

/// An input in which one thread gets each of so many locks, and another is refused, and what it
/// prints.
fn many_tries(alloc: Global, count: u32) -> Result<(String, String), AllocError> {
    let mut input = String::from_str(alloc, "threads 2\n")?;
    let mut told = String::new(alloc);
    for lock in 0..count {
        write!(input, "lock m{lock} mutex\n")?;
    }
    for lock in 0..count {
        write!(input, "0 do try_lock m{lock}\n1 do try_lock m{lock}\n")?;
        told.push_str("0 end yes\n1 end no\n")?;
    }
    Ok((input, told))
}

#[test]
fn gets_each_lock_once(rt: HostRuntime) -> Result<(), Fail> {
    for count in [4, 256] {
        let (input, told) = many_tries(rt.alloc(), count)?;
        leads_both_to(&rt, rt.alloc(), input.as_bytes(), told.as_bytes(), 0);
    }
    Ok(())
}

/// An input that looks at a lock this often, and what it prints.
fn many_looks(alloc: Global, count: u32) -> Result<(String, String), AllocError> {
    let mut input = String::from_str(alloc, "threads 1\nlock m mutex\n")?;
    let mut shown = String::new(alloc);
    for _ in 0..count {
        input.push_str("show\n")?;
        shown.push_str("m 0\n")?;
    }
    Ok((input, shown))
}

#[test]
fn answers_100_000_lines(rt: HostRuntime) -> Result<(), Fail> {
    let (input, shown) = many_looks(rt.alloc(), 99_998)?;
    leads_both_to(&rt, rt.alloc(), input.as_bytes(), shown.as_bytes(), 0);
    Ok(())
}

fn begin(call: MutexCall) -> Step {
    Step {
        thread: 0,
        turn: Turn::Begin(Call::Mutex { lock: 0, call }),
    }
}

const GO: Step = Step {
    thread: 0,
    turn: Turn::Go,
};

const TOLD: &[Outcome] = &[
    Outcome::Step,
    Outcome::End(Answer::Yes),
    Outcome::Step,
    Outcome::End(Answer::No),
    Outcome::Step,
    Outcome::End(Answer::Ok),
];

fn runs_over<Q: Queues + Drop>(rt: &impl Abort, alloc: Global) -> Result<(), Fail> {
    let mut world = World::<Q>::new(alloc, &[Kind::Mutex], 1)?;
    let tries = begin(MutexCall::TryLock);
    let steps = [tries, GO, tries, GO, begin(MutexCall::Unlock), GO];
    let mut outcomes = Vec::new(alloc);
    check_eq(rt, world.run(&steps, &mut outcomes), Ok(()));
    check_eq(rt, outcomes.as_slice(), TOLD);
    Ok(())
}

#[test]
fn runs_the_steps_of_an_input(rt: HostRuntime) -> Result<(), Fail> {
    runs_over::<ListQueues>(&rt, rt.alloc())?;
    runs_over::<BucketQueues>(&rt, rt.alloc())
}

const BROKEN_OFF: [&[u8]; 2] = [
    b"threads 1\nlock m mutex\n0 begin try_lock m\n",
    b"threads 1\nlock m mutex\n0 begin try_lock m\n0 g",
];

#[test]
fn a_failing_read_leaves_the_lines_before(rt: HostRuntime) {
    for part in BROKEN_OFF {
        let found = replayed_in_pieces(rt.alloc(), part, 7, true);
        leads_to(&rt, found, b"0 step\n", 4);
    }
}

/// Returns the end of a replay where only so many bytes can be written before a write is refused.
fn replayed_into(alloc: Global, mut input: &[u8], room: usize, refusal: Refusal) -> (Vec<u8>, u8) {
    let mut writer = Short::new(alloc, room, refusal, 3);
    let mut errors = Vec::new(alloc);
    let args = ["replay"];
    let status = start::<BucketQueues, _, _, _>(alloc, &args, &mut input, &mut writer, &mut errors);
    (writer.taken, status)
}

/// How often an input looks at a lock, and how many bytes can be written of what it prints.
const ROOMS: &[(u32, usize)] = &[
    (1, 3),
    (1, 0),
    (1500, 5000),
    (1500, 5999),
    (3000, 4096),
    (3000, 5000),
];

#[test]
fn a_failing_write_leaves_a_beginning(rt: HostRuntime) -> Result<(), Fail> {
    for (looks, room) in ROOMS {
        let (input, shown) = many_looks(rt.alloc(), *looks)?;
        let beginning = shown.as_bytes().get(..*room);
        for refusal in [Refusal::Fails, Refusal::TakesNothing] {
            let (text, status) = replayed_into(rt.alloc(), input.as_bytes(), *room, refusal);
            check_eq(&rt, (*room, refusal, status), (*room, refusal, 4));
            check_eq(&rt, (*room, Some(text.as_slice())), (*room, beginning));
        }
    }
    Ok(())
}

#[test]
fn a_slow_write_loses_nothing(rt: HostRuntime) {
    for input in INPUTS {
        let found = replayed_into(rt.alloc(), input.lines, 9999, Refusal::Fails);
        leads_to(&rt, found, input.told, input.status);
    }
}

/// Arguments that name no job.
const WRONG: &[&[&str]] = &[
    &[],
    &["live"],
    &[""],
    &["Replay"],
    &["replay", "live"],
    &["replay", "replay"],
];

#[test]
fn tells_the_usage(rt: HostRuntime) {
    for args in WRONG {
        let mut text = Vec::new(rt.alloc());
        let mut errors = Vec::new(rt.alloc());
        let mut reader = STRANGERS;
        let status = start::<BucketQueues, _, _, _>(
            rt.alloc(),
            args,
            &mut reader,
            &mut text,
            &mut errors,
        );
        let usage = b"usage: lotsim replay | lotsim live\n".as_slice();
        check_eq(&rt, (*args, errors.as_slice()), (*args, usage));
        check_eq(&rt, (*args, text.as_slice()), (*args, b"".as_slice()));
        check_eq(&rt, (*args, status), (*args, 2));
    }
}
