//! Output through a page of bytes.
//!
//! The page remembers a failed write, and `put` returns nothing. There is no `BufWriter`, which
//! promises nothing on an error and loses one when it is dropped.
ghost use Rattle.std.specs.Prelude.{◌≡◌, ℕ, ◌≤◌, List, [], ◌++◌, true, false, length, take, decimal};
ghost use Rattle.std.specs.Io.KnownBytes.{Appends};
ghost use Rattle.lot_text.specs.Sent.{Held, Puts, Sends, SendsFront};

use arrayvec::ArrayVec;
use itoa::Buffer;
use std::io::{ErrorKind, Write};
use std::marker::Model;

const PAGE_LEN: usize = 4096;

/// Bytes that are still to go out. Once a write fails, nothing more goes out.
#[derive(Drop)]
pub struct Page {
    bytes: ArrayVec<u8, PAGE_LEN>,
    is_lost: bool,
}

impl Model for Page {
    ghost use Rattle.lot_text.specs.Sent.{Held};

    ghost Value = { Held };

    ghost view = { λ p. record { bytes = p.bytes.items; lost = p.is_lost } };
}

impl Page {
    /// Nothing is held, and no write failed.
    pub fn new() -> Page
        ensures { result ≡ record { bytes = []; lost = false } }
    {
        Page {
            bytes: ArrayVec::new(),
            is_lost: false,
        }
    }

    /// Returns whether a write failed.
    pub fn is_lost(&self) -> bool
        ensures { result ≡ self.now.lost }
    {
        self.is_lost
    }

    /// Adds a text, and sends what has no room. Most texts are literals, which are short moves
    /// where this is inlined.
    #[inline]
    pub fn put<W: Write>(&mut self, writer: &mut W, text: &[u8])
        ensures { Puts (W.contents writer.old) (W.contents writer.new) self.old self.new text.now }
    {
        if self.is_lost {
            return;
        }
        if self.bytes.try_extend_from_slice(text).is_ok() {
            return;
        }
        self.put_cold(writer, text);
    }

    /// Adds a number, which is mostly a short one.
    #[inline]
    pub fn put_number<W: Write>(&mut self, writer: &mut W, n: u64)
        ensures { Puts (W.contents writer.old) (W.contents writer.new) self.old self.new (decimal n) }
    {
        if n < 10 {
            self.put(writer, &[b'0' + n as u8]);
        } else {
            self.put_long(writer, n);
        }
    }

    #[inline(never)]
    fn put_long<W: Write>(&mut self, writer: &mut W, n: u64)
        ensures { Puts (W.contents writer.old) (W.contents writer.new) self.old self.new (decimal n) }
    {
        self.put(writer, Buffer::new().format(n).as_bytes());
    }

    /// Sends all that is held.
    pub fn finish<W: Write>(&mut self, writer: &mut W)
        ensures puts { Puts (W.contents writer.old) (W.contents writer.new) self.old self.new [] }
        ensures empty { self.new.lost ≡ false → self.new.bytes ≡ [] }
    {
        self.put_cold(writer, b"");
    }

    #[cold]
    #[inline(never)]
    fn put_cold<W: Write>(&mut self, writer: &mut W, text: &[u8])
        ensures puts { Puts (W.contents writer.old) (W.contents writer.new) self.old self.new
            text.now }
        ensures empty { self.new.lost ≡ false → text.now ≡ [] → self.new.bytes ≡ [] }
    {
        if self.is_lost {
            return;
        }
        if !send_all(writer, self.bytes.as_slice()) {
            self.is_lost = true;
            return;
        }
        self.bytes.clear();
        if self.bytes.try_extend_from_slice(text).is_ok() {
            return;
        }
        if !send_all(writer, text) {
            self.is_lost = true;
        }
    }
}

/// Sends the bytes, and says whether all were taken.
pub fn send_all<W: Write>(writer: &mut W, bytes: &[u8]) -> bool
    ensures sent { result ≡ true → Sends (W.contents writer.old) (W.contents writer.new) bytes.now
        [] }
    ensures failed { result ≡ false → SendsFront (W.contents writer.old) (W.contents writer.new)
        bytes.now }
{
    send_front(writer, bytes) == bytes.len()
}

/// Sends the bytes until all are taken or a write fails, and says how many were.
fn send_front<W: Write>(writer: &mut W, bytes: &[u8]) -> usize
    ensures within { result ≤ length bytes.now }
    ensures bytes { Appends (W.contents writer.old) (W.contents writer.new) (take result bytes.now) }
{
    let mut sent = 0;
    for _ in 0..u64::MAX {
        if sent == bytes.len() {
            return sent;
        }
        match writer.write(&bytes[sent..]) {
            Ok(0) => return sent,
            Ok(n) => sent += n,
            Err(e) => {
                if e.kind() != ErrorKind::Interrupted {
                    return sent;
                }
            }
        }
    }
    sent
}
