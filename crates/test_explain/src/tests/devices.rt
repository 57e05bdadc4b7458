//! Readers and writers that fail at each byte.

use super::check_eq;
use core_queues::BucketQueues;
use lot_explain::{Failure, explain};
use std::alloc::Global;
use std::io;
use std::io::{BufRead, ErrorKind, Read, Write};
use std::process::Abort;
use std::test::Fail;

const SCHEDULE: &str = "threads 2\nlock m mutex\n0 do lock m\n1 do lock m\n1 go\nshow\ndrain\nx\n";

/// Shows one byte after another, and fails after so many.
#[derive(Drop)]
struct Broken<'a> {
    bytes: &'a [u8],
    left: usize,
}

impl Read for Broken<'_> {
    fn read(&mut self, _buf: &mut [u8]) -> io::Result<usize> {
        Err(io::Error::from(ErrorKind::Unsupported))
    }
}

impl BufRead for Broken<'_> {
    fn fill_buf(&mut self) -> io::Result<&[u8]> {
        if self.left == 0 {
            return Err(io::Error::from(ErrorKind::BrokenPipe));
        }
        Ok(&self.bytes[..self.bytes.len().min(1)])
    }

    fn consume(&mut self, n: usize) {
        self.bytes = &self.bytes[n.min(self.bytes.len())..];
        self.left = self.left.saturating_sub(n);
    }
}

/// Has room for so many bytes, and fails then.
#[derive(Drop)]
struct Full {
    room: usize,
}

impl Write for Full {
    fn write(&mut self, buf: &[u8]) -> io::Result<usize> {
        let n = buf.len().min(self.room);
        if n == 0 && !buf.is_empty() {
            return Err(io::Error::from(ErrorKind::StorageFull));
        }
        self.room -= n;
        Ok(n)
    }

    fn flush(&mut self) -> io::Result<()> {
        Ok(())
    }
}

/// Returns the failure of an explanation whose reader fails after so many bytes.
fn failure_after(alloc: Global, bytes: usize) -> Option<Failure> {
    let mut reader = Broken {
        bytes: SCHEDULE.as_bytes(),
        left: bytes,
    };
    explain::<BucketQueues, _>(alloc, &mut reader).err()
}

#[test]
fn a_schedule_that_cannot_be_read_has_no_explanation(rt: HostRuntime) {
    for bytes in 0..SCHEDULE.len() {
        check_eq(&rt, failure_after(rt.alloc(), bytes), Some(Failure::Unread));
    }
    check_eq(&rt, failure_after(rt.alloc(), SCHEDULE.len()), None);
}

#[test]
fn an_explanation_that_cannot_be_written_says_so(rt: HostRuntime) {
    let mut reader = SCHEDULE.as_bytes();
    let Ok(told) = explain::<BucketQueues, _>(rt.alloc(), &mut reader) else {
        return check_eq(&rt, "no explanation", "");
    };
    let mut whole = Vec::new(rt.alloc());
    let _ = told.write(&mut whole);
    for room in 0..whole.len() {
        check_eq(&rt, told.write(&mut Full { room }).is_err(), true);
    }
    let mut last = Full { room: whole.len() };
    check_eq(&rt, told.write(&mut last).is_ok(), true);
}
