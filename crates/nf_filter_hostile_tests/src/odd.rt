//! A text, and a reader and a writer of it, of which one call fails, or gives or takes nothing.
ghost use Rattle.std.specs.Prelude.{◌≡◌, IfOk};

use std::alloc::Global;
use std::io::{self, ErrorKind, Read, Write};

/// 14 bytes: what composes across two reads, and a long decomposition.
pub const TEXT: &str = "q\u{301}\u{C5}\u{301}\u{FDFA}\u{D55C}a";

/// What happens at one call.
#[derive(Clone, Copy, Debug)]
pub struct Odd {
    /// How many calls there are before it.
    pub call: usize,
    /// How it fails; otherwise it moves nothing.
    pub fails: Option<ErrorKind>,
}

pub const FAILS: [Option<ErrorKind>; 3] = [
    Some(ErrorKind::Interrupted),
    Some(ErrorKind::TimedOut),
    None,
];

impl Odd {
    fn answer(self) -> io::Result<usize>
        ensures { IfOk result (λ n. n ≡ 0) }
    {
        match self.fails {
            Some(kind) => Err(io::Error::from(kind)),
            None => Ok(0),
        }
    }
}

/// A reader that gives two bytes in a call.
#[derive(Drop)]
pub struct Reads<'a> {
    rest: &'a [u8],
    pub calls: usize,
    odd: Odd,
}

impl Reads<'_> {
    pub fn new(odd: Odd) -> Reads<'static> {
        Reads {
            rest: TEXT.as_bytes(),
            calls: 0,
            odd,
        }
    }
}

impl Read for Reads<'_> {
    fn read(&mut self, buf: &mut [u8]) -> io::Result<usize> {
        let call = self.calls;
        self.calls = call.saturating_add(1);
        if call == self.odd.call {
            return self.odd.answer();
        }
        let len = buf.len().min(self.rest.len()).min(2);
        let (given, rest) = self.rest.split_at(len);
        buf[..len].copy_from_slice(given);
        self.rest = rest;
        Ok(len)
    }
}

/// A writer that takes a byte in a call.
#[derive(Drop)]
pub struct Writes {
    pub bytes: Vec<u8>,
    pub calls: usize,
    odd: Odd,
}

impl Writes {
    pub fn new(alloc: Global, odd: Odd) -> Writes {
        Writes {
            bytes: Vec::new(alloc),
            calls: 0,
            odd,
        }
    }
}

impl Write for Writes {
    fn write(&mut self, buf: &[u8]) -> io::Result<usize> {
        let call = self.calls;
        self.calls = call.saturating_add(1);
        if call == self.odd.call {
            return self.odd.answer();
        }
        let len = buf.len().min(1);
        if self.bytes.extend_from_slice(&buf[..len]).is_err() {
            return Err(io::Error::from(ErrorKind::OutOfMemory));
        }
        Ok(len)
    }

    fn flush(&mut self) -> io::Result<()> {
        Ok(())
    }
}
