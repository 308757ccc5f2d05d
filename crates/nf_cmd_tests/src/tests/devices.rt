//! Devices that fail, and one that gives much.
use std::alloc::Global;
use std::io::{self, ErrorKind, Read, Write};

/// Calls of a device. One of them, counted from 0, fails, and those after it work.
#[derive(Clone, Copy, Debug)]
pub(super) struct Calls {
    pub(super) fails_at: usize,
    pub(super) kind: ErrorKind,
    pub(super) made: usize,
}

impl Calls {
    pub(super) fn new(fails_at: usize, kind: ErrorKind) -> Calls {
        Calls {
            fails_at,
            kind,
            made: 0,
        }
    }

    fn make(&mut self) -> io::Result<()> {
        let call = self.made;
        self.made = call.saturating_add(1);
        if call == self.fails_at {
            Err(io::Error::from(self.kind))
        } else {
            Ok(())
        }
    }
}

/// A reader that gives at most two bytes at a time, of whose calls one fails.
#[derive(Debug, Drop)]
pub(super) struct Reading<'a> {
    pub(super) rest: &'a [u8],
    pub(super) calls: Calls,
}

impl Read for Reading<'_> {
    fn read(&mut self, buf: &mut [u8]) -> io::Result<usize> {
        self.calls.make()?;
        let len = buf.len().min(self.rest.len()).min(2);
        let (given, rest) = self.rest.split_at(len);
        buf[..len].copy_from_slice(given);
        self.rest = rest;
        Ok(len)
    }
}

/// A writer that takes at most so many bytes at a time, of whose writes and flushes one fails. A write that fails by
/// `WriteZero` answers that it took nothing, which is what std calls by that name.
#[derive(Debug, Drop)]
pub(super) struct Writing {
    pub(super) held: Vec<u8>,
    pub(super) most: usize,
    pub(super) calls: Calls,
}

impl Writing {
    pub(super) fn new(alloc: Global, most: usize, calls: Calls) -> Writing {
        Writing {
            held: Vec::new(alloc),
            most,
            calls,
        }
    }
}

impl Write for Writing {
    fn write(&mut self, buf: &[u8]) -> io::Result<usize> {
        if let Err(error) = self.calls.make() {
            return match error.kind() {
                ErrorKind::WriteZero => Ok(0),
                _ => Err(error),
            };
        }
        let len = buf.len().min(self.most);
        self.held.extend_from_slice(&buf[..len])?;
        Ok(len)
    }

    fn flush(&mut self) -> io::Result<()> {
        self.calls.make()
    }
}

/// A reader that gives so many line ends.
#[derive(Debug, Drop)]
pub(super) struct LineEnds {
    pub(super) left: usize,
}

impl Read for LineEnds {
    fn read(&mut self, buf: &mut [u8]) -> io::Result<usize> {
        let len = buf.len().min(self.left);
        buf[..len].fill(b'\n');
        self.left -= len;
        Ok(len)
    }
}

/// A reader that gives a piece at a time, of whose calls one fails.
#[derive(Debug, Drop)]
pub(super) struct Pieces<'a> {
    pieces: &'a [&'a [u8]],
    next: usize,
    calls: Calls,
}

impl<'a> Pieces<'a> {
    pub(super) fn new(pieces: &'a [&'a [u8]], calls: Calls) -> Pieces<'a> {
        Pieces {
            pieces,
            next: 0,
            calls,
        }
    }
}

impl Read for Pieces<'_> {
    fn read(&mut self, buf: &mut [u8]) -> io::Result<usize> {
        self.calls.make()?;
        let Some(piece) = self.pieces.get(self.next) else {
            return Ok(0);
        };
        self.next += 1;
        let len = buf.len().min(piece.len());
        buf[..len].copy_from_slice(&piece[..len]);
        Ok(len)
    }
}
