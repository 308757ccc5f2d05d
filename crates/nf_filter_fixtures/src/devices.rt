//! A sink and a source of which each call can be made to fail, and which count what they are asked.
use nf_filter::{Failed, Sink, Source};
use std::alloc::Global;

/// A sink that keeps the bytes that it takes, at most `step` in a call, and fails where it has no room for more, or takes
/// no more calls.
#[derive(Drop)]
pub struct Kept {
    pub bytes: Vec<u8>,
    pub room: usize,
    pub step: usize,
    /// How many calls it still takes.
    pub calls: usize,
    /// The longest slice that it was given.
    pub longest: usize,
    /// How many calls it refused.
    pub refused: usize,
    /// Whether it stands failed.
    pub failed: bool,
}

impl Kept {
    /// A sink with room for all that a test writes.
    pub fn new(alloc: Global) -> Kept {
        Kept::with_room(alloc, usize::MAX)
    }

    pub fn with_room(alloc: Global, room: usize) -> Kept {
        Kept::with_step(alloc, room, usize::MAX)
    }

    pub fn with_step(alloc: Global, room: usize, step: usize) -> Kept {
        Kept {
            bytes: Vec::new(alloc),
            room,
            step,
            calls: usize::MAX,
            longest: 0,
            refused: 0,
            failed: false,
        }
    }

    pub fn with_calls(alloc: Global, calls: usize, step: usize) -> Kept {
        Kept {
            calls,
            ..Kept::with_step(alloc, usize::MAX, step)
        }
    }
}

impl Sink for Kept {
    ghost use Rattle.std.specs.Prelude.{None};

    ghost state = { λ sink. record { taken = None; is_failed = sink.failed; lender = 0 } };

    fn put(&mut self, bytes: &[u8]) -> Result<usize, Failed> {
        if bytes.is_empty() {
            return Ok(0);
        }
        self.longest = self.longest.max(bytes.len());
        let n = bytes.len().min(self.room).min(self.step);
        let is_full = n == 0 || self.calls == 0;
        if self.failed || is_full || self.bytes.extend_from_slice(&bytes[..n]).is_err() {
            self.refused = self.refused.saturating_add(1);
            self.failed = true;
            return Err(Failed);
        }
        self.room -= n;
        self.calls -= 1;
        Ok(n)
    }
}

/// A source that gives a piece in a call, as much of it as the buffer has room for, and then ends or fails. An empty
/// piece is its end too, whatever it gives after that.
#[derive(Drop)]
pub struct Pieces<'a> {
    pieces: &'a [&'a [u8]],
    /// How many it has given.
    pub given: usize,
    /// How many calls it refused.
    pub refused: usize,
    fails: bool,
    /// Whether it stands failed, or at its end.
    pub failed: bool,
    pub at_end: bool,
}

impl<'a> Pieces<'a> {
    pub fn new(pieces: &'a [&'a [u8]], fails: bool) -> Pieces<'a> {
        Pieces {
            pieces,
            given: 0,
            refused: 0,
            fails,
            failed: false,
            at_end: false,
        }
    }
}

impl Source for Pieces<'_> {
    ghost use Rattle.std.specs.Prelude.{None};

    ghost state = { λ source. record { coming = None; is_failed = source.failed; is_at_end = source.at_end; lender = 0 } };

    fn get(&mut self, buf: &mut [u8]) -> Result<usize, Failed> {
        self.at_end = false;
        if self.failed {
            self.refused = self.refused.saturating_add(1);
            return Err(Failed);
        }
        let Some(piece) = self.pieces.get(self.given) else {
            self.failed = self.fails;
            self.at_end = !self.fails;
            if !self.fails {
                return Ok(0);
            }
            self.refused = self.refused.saturating_add(1);
            return Err(Failed);
        };
        let n = piece.len().min(buf.len());
        buf[..n].copy_from_slice(&piece[..n]);
        self.given = self.given.saturating_add(1);
        self.at_end = n == 0;
        Ok(n)
    }
}
