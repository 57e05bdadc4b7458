//! Readers and writers that work in pieces, are interrupted, and fail.
use std::alloc::Global;
use std::io;
use std::io::{BufRead, ErrorKind, Read, Write};

/// How a writer that has no room refuses a write.
#[derive(Clone, Copy, Debug, PartialEq, Eq)]
pub enum Refusal {
    Fails,
    TakesNothing,
}

/// Takes `room` bytes, so many at a time, and is interrupted at each third write. It refuses one
/// write, and has room again.
#[derive(Drop)]
pub struct Short {
    pub taken: Vec<u8>,
    room: usize,
    refusal: Refusal,
    width: usize,
    calls: u8,
}

impl Short {
    pub fn new(alloc: Global, room: usize, refusal: Refusal, width: usize) -> Short {
        Short {
            taken: Vec::new(alloc),
            room,
            refusal,
            width,
            calls: 0,
        }
    }

    fn refuse(&mut self) -> io::Result<()> {
        self.room = usize::MAX;
        match self.refusal {
            Refusal::Fails => Err(io::Error::from(ErrorKind::BrokenPipe)),
            Refusal::TakesNothing => Ok(()),
        }
    }
}

impl Write for Short {
    fn write(&mut self, buf: &[u8]) -> io::Result<usize> {
        self.calls = self.calls.wrapping_add(1);
        if self.calls % 3 == 0 {
            return Err(io::Error::from(ErrorKind::Interrupted));
        }
        let n = buf.len().min(self.room).min(self.width);
        if n == 0 {
            self.refuse()?;
            return Ok(0);
        }
        self.taken.extend_from_slice(&buf[..n])?;
        self.room -= n;
        Ok(n)
    }

    fn flush(&mut self) -> io::Result<()> {
        Ok(())
    }
}

/// Shows a piece of its bytes at a time, is interrupted at most looks, and fails after them once,
/// if it is to.
#[derive(Drop)]
pub struct Pieces<'a> {
    pub bytes: &'a [u8],
    pub len: usize,
    pub is_broken: bool,
    pub looks: u8,
}

impl Read for Pieces<'_> {
    fn read(&mut self, _buf: &mut [u8]) -> io::Result<usize> {
        Err(io::Error::from(ErrorKind::Unsupported))
    }
}

impl BufRead for Pieces<'_> {
    fn fill_buf(&mut self) -> io::Result<&[u8]> {
        self.looks = self.looks.wrapping_add(1);
        if self.looks % 64 > 2 {
            return Err(io::Error::from(ErrorKind::Interrupted));
        }
        if self.bytes.is_empty() && self.is_broken {
            self.is_broken = false;
            return Err(io::Error::from(ErrorKind::ConnectionReset));
        }
        let n = self.bytes.len().min(self.len);
        Ok(&self.bytes[..n])
    }

    fn consume(&mut self, amount: usize) {
        let n = amount.min(self.bytes.len());
        self.bytes = &self.bytes[n..];
    }
}

/// Shows its bytes up to a place, refuses one look there, and shows the rest from then on.
#[derive(Drop)]
pub struct Stumbling<'a> {
    pub bytes: &'a [u8],
    pub before: usize,
    /// How it refuses the look, until it has done so.
    pub refusal: Option<ErrorKind>,
}

impl Read for Stumbling<'_> {
    fn read(&mut self, _buf: &mut [u8]) -> io::Result<usize> {
        Err(io::Error::from(ErrorKind::Unsupported))
    }
}

impl BufRead for Stumbling<'_> {
    fn fill_buf(&mut self) -> io::Result<&[u8]> {
        let Some(kind) = self.refusal else {
            return Ok(self.bytes);
        };
        if self.before == 0 {
            self.refusal = None;
            return Err(io::Error::from(kind));
        }
        let n = self.bytes.len().min(self.before);
        Ok(&self.bytes[..n])
    }

    fn consume(&mut self, amount: usize) {
        let n = amount.min(self.bytes.len());
        self.bytes = &self.bytes[n..];
        self.before = self.before.saturating_sub(n);
    }
}
