//! Bad input, with the exact text and the status that it leads to.

use super::{check_eq, leads_both_to, replayed_over};
use core_base::{ListQueues, Queues};
use core_queues::BucketQueues;
use std::alloc::{AllocError, Global};
use std::process::Abort;
use std::test::Fail;

/// Inputs, their texts and their statuses.
const INPUTS: &[(&[u8], &[u8], u8)] = &[
    // No line, and a last line without its line feed, or cut off.
    (b"", b"", 0),
    (b"threads 1\nlock m mutex\nshow", b"m 0\n", 0),
    (b"threads 1\nlock m mutex\nsh", b"line 3 malformed\n", 2),
    (b"threads 01\nshow\n", b"line 1 malformed\n", 2),
    (b"show\n", b"line 1 malformed\n", 2),
    // A carriage return before a line feed, after answered lines, and alone.
    (
        b"threads 1\nlock m mutex\nshow\nshow\r\n",
        b"m 0\nline 4 malformed\n",
        2,
    ),
    (b"threads 1\nlock m mutex\r\n", b"line 2 malformed\n", 2),
    (b"threads 1\rlock m mutex\rshow\r", b"line 1 malformed\n", 2),
    // Bytes that aren't ASCII: of a letter, and of none.
    (
        b"threads 1\nlock m mutex\n0 do lock \xc3\xa9\n",
        b"line 3 malformed\n",
        2,
    ),
    (b"\xef\xbb\xbfthreads 1\n", b"line 1 malformed\n", 2),
    // A number of 19 digits, of 20, and one that no word holds.
    (
        b"threads 1\n9223372036854775807 go\n10000000000000000000 go\n",
        b"9223372036854775807 not now\nline 3 malformed\n",
        2,
    ),
    (b"threads 18446744073709551617\n", b"line 1 malformed\n", 2),
    // A `lock` line after each other sort of line.
    (
        b"threads 1\nlock m mutex\ndrain\nlock n mutex\n",
        b"line 4 malformed\n",
        2,
    ),
    (
        b"threads 1\nlock m mutex\n0 solo\nlock n mutex\n",
        b"0 not now\nline 4 malformed\n",
        2,
    ),
    (
        b"threads 1\nlock m mutex\n0 do lock m\nlock n mutex\n",
        b"0 end ok\nline 4 malformed\n",
        2,
    ),
    (
        b"threads 1\nlock m mutex\n0 ok\nlock n mutex\n",
        b"0 not now\nline 4 malformed\n",
        2,
    ),
    // Limits and permits at their bounds.
    (
        b"threads 3\nlock r recursive 3\nlock q rwlock 1152921504606846974\nshow\n",
        b"r 0\nq 0\n",
        0,
    ),
    (
        b"threads 9\nlock s semaphore 1\nlock t semaphore 4611686018427387904\nshow\n",
        b"s 2\nt 9223372036854775808\n",
        0,
    ),
    // The form of a line.
    (b"\n", b"line 1 malformed\n", 2),
    (b"threads 1\n\nlock m mutex\n", b"line 2 malformed\n", 2),
    (
        b"threads 1\nlock \xc3\xa9 mutex\n",
        b"line 2 malformed\n",
        2,
    ),
    (b"threads 1\nlock m latch\n", b"line 2 malformed\n", 2),
    (b"threads 2\nlock m rwlock 1\n", b"line 2 malformed\n", 2),
    (
        b"threads 1\n12345678901234567890 go\n",
        b"line 2 malformed\n",
        2,
    ),
    (
        b"threads 1\nlock m mutex\n0 lately\n",
        b"line 3 malformed\n",
        2,
    ),
    (
        b"threads 1\nlock m mutex\nshow m\n",
        b"line 3 malformed\n",
        2,
    ),
    // The first line.
    (b"lock m mutex\n", b"line 1 malformed\n", 2),
    (b"0 go\n", b"line 1 malformed\n", 2),
    (b"threads 0\n", b"line 1 malformed\n", 2),
    (b"threads 1025\n", b"line 1 malformed\n", 2),
    (b"threads 9999999999999999999\n", b"line 1 malformed\n", 2),
    (b"threads 1\nthreads 1\n", b"line 2 malformed\n", 2),
    (b"threads 1\nshow\nthreads 1\n", b"line 3 malformed\n", 2),
    // Locks.
    (
        b"threads 1\nlock m mutex\nlock m mutex\n",
        b"line 3 malformed\n",
        2,
    ),
    (
        b"threads 1\nlock m mutex\nshow\nlock n mutex\n",
        b"m 0\nline 4 malformed\n",
        2,
    ),
    (
        b"threads 1\n0 go\nlock m mutex\n",
        b"0 not now\nline 3 malformed\n",
        2,
    ),
    (
        b"threads 1\nlock m mutex\n0 begin lock n\n",
        b"line 3 malformed\n",
        2,
    ),
    (
        b"threads 1\nlock m mutex\n0 do lock mm\n",
        b"line 3 malformed\n",
        2,
    ),
    // A line before.
    (
        b"threads 1\nlock m mutex\nshow\n0 fly\n0 go\n",
        b"m 0\nline 4 malformed\n",
        2,
    ),
    // Only a wait on a condition variable has a second name. A call that its lock lacks is a
    // possible line.
    (
        b"threads 1\nlock m mutex\n0 do wait m m\n",
        b"line 3 malformed\n",
        2,
    ),
    (
        b"threads 1\nlock m mutex\n0 do notify_one m m\n",
        b"line 3 malformed\n",
        2,
    ),
    (
        b"threads 1\nlock m mutex\n0 begin wait m\n0 begin wait_timed m\n0 begin notify_one m\n!\n",
        b"0 not now\n0 not now\n0 not now\nline 6 malformed\n",
        2,
    ),
    (
        b"threads 1\nlock m mutex\nlock o once\n0 do wait_timed o m\n",
        b"line 4 malformed\n",
        2,
    ),
    // A semaphore says its permits.
    (b"threads 1\nlock s semaphore\n", b"line 2 malformed\n", 2),
    // A wait on a condition variable names its mutex alone.
    (
        b"threads 1\nlock m mutex\nlock c condvar\n0 do lock m\n0 do wait c\n0 do wait c m\n",
        b"0 end ok\nline 5 malformed\n",
        2,
    ),
    (
        b"threads 1\nlock m mutex\nlock c condvar\n0 do wait_timed c\n",
        b"line 4 malformed\n",
        2,
    ),
    (
        b"threads 1\nlock m mutex\nlock c condvar\n0 do wait c m m\n",
        b"line 4 malformed\n",
        2,
    ),
    (
        b"threads 1\nlock m mutex\nlock c condvar\n0 do wait c n\n",
        b"line 4 malformed\n",
        2,
    ),
    (
        b"threads 1\nlock m mutex\nlock c condvar\n0 do wait m c\n",
        b"line 4 malformed\n",
        2,
    ),
    (
        b"threads 1\nlock m mutex\nlock c condvar\n0 do notify_one c\n0 do notify_all c m\n",
        b"0 end no\nline 5 malformed\n",
        2,
    ),
];

#[test]
fn bad_inputs_have_their_texts(rt: HostRuntime) {
    for (input, wanted, status) in INPUTS {
        ends::<ListQueues>(&rt, rt.alloc(), input, wanted, *status);
        ends::<BucketQueues>(&rt, rt.alloc(), input, wanted, *status);
    }
}

/// An input leads to this text and this status over a kind of queues.
fn ends<Q: Queues + Drop>(rt: &impl Abort, alloc: Global, input: &[u8], wanted: &[u8], ended: u8) {
    let (text, status) = replayed_over::<Q, _>(alloc, input);
    check_eq(rt, (input, text.as_slice()), (input, wanted));
    check_eq(rt, (input, status), (input, ended));
}

/// A lock of a kind after three threads, with a number.
fn lock_line(alloc: Global, kind: &str, number: &str) -> Result<String, AllocError> {
    let mut input = String::new(alloc);
    write!(input, "threads 3\nlock l {kind} {number}\nshow\n")?;
    Ok(input)
}

/// Kinds, and numbers that no lock of them has beside three threads.
const NO_LIMITS: [(&str, &[&str]); 7] = [
    (
        "rwlock",
        &["", "0", "2", "1152921504606846975", "4611686018427387904"],
    ),
    (
        "recursive",
        &["", "0", "2", "1152921504606846975", "4611686018427387904"],
    ),
    (
        "semaphore",
        &["", "0", "4611686018427387905", "9999999999999999999"],
    ),
    ("mutex", &["", "0", "3", "1152921504606846974"]),
    ("fair", &["", "0", "3", "1152921504606846974"]),
    ("condvar", &["", "0", "3", "1152921504606846974"]),
    ("once", &["", "0", "3", "1152921504606846974"]),
];

/// Numbers that no kind has: not as they are printed, of 20 digits, and no numbers.
const NO_NUMBERS: [&str; 9] = [
    "03",
    "+3",
    "-1",
    "3 ",
    "3 4",
    "3x",
    "10000000000000000000",
    "00000000000000000003",
    "18446744073709551616",
];

#[test]
fn limits_that_a_kind_lacks_are_malformed(rt: HostRuntime) -> Result<(), Fail> {
    for (kind, numbers) in NO_LIMITS {
        for number in numbers.iter().chain(NO_NUMBERS.iter()) {
            let input = lock_line(rt.alloc(), kind, number)?;
            leads_both_to(&rt, rt.alloc(), input.as_bytes(), b"line 2 malformed\n", 2);
        }
    }
    Ok(())
}

/// The least and the greatest numbers that kinds allow beside three threads, and what is shown then.
const LIMITS: [(&str, &str, &[u8]); 8] = [
    ("rwlock", "3", b"l 0\n"),
    ("rwlock", "4", b"l 0\n"),
    ("rwlock", "1152921504606846974", b"l 0\n"),
    ("recursive", "3", b"l 0\n"),
    ("recursive", "1152921504606846974", b"l 0\n"),
    ("semaphore", "1", b"l 2\n"),
    ("semaphore", "2", b"l 4\n"),
    (
        "semaphore",
        "4611686018427387904",
        b"l 9223372036854775808\n",
    ),
];

#[test]
fn limits_that_a_kind_allows_are_read(rt: HostRuntime) -> Result<(), Fail> {
    for (kind, number, shown) in LIMITS {
        let input = lock_line(rt.alloc(), kind, number)?;
        leads_both_to(&rt, rt.alloc(), input.as_bytes(), shown, 0);
    }
    Ok(())
}

/// Two lines that are answered, and a third of so many bytes.
fn long_line(alloc: Global, len: usize, byte: u8) -> Result<Vec<u8>, AllocError> {
    let mut input = Vec::new(alloc);
    input.extend_from_slice(b"threads 1\nlock m mutex\nshow\n")?;
    for _ in 0..len {
        input.extend_from_slice(&[byte])?;
    }
    input.extend_from_slice(b"\nshow\n")?;
    Ok(input)
}

#[test]
fn long_lines_are_malformed(rt: HostRuntime) -> Result<(), Fail> {
    for len in [0, 127, 128, 129, 130, 5000] {
        for byte in [b' ', b'0', b's', 0xff] {
            let input = long_line(rt.alloc(), len, byte)?;
            let wanted = b"m 0\nline 4 malformed\n";
            leads_both_to(&rt, rt.alloc(), input.as_slice(), wanted, 2);
        }
    }
    Ok(())
}

#[test]
fn blank_lines_are_malformed_at_the_first(rt: HostRuntime) -> Result<(), Fail> {
    let mut input = Vec::new(rt.alloc());
    for _ in 0..1_000_000 {
        input.extend_from_slice(b"\n")?;
    }
    let wanted = b"line 1 malformed\n";
    leads_both_to(&rt, rt.alloc(), input.as_slice(), wanted, 2);
    Ok(())
}
