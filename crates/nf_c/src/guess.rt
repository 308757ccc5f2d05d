//! How much to feed at once, where the output has to take all that it settles. A wrong guess costs time alone.
ghost use Rattle.std.specs.Prelude.{◌≡◌, ◌<◌, ◌≤◌};

/// What is pending, a joiner and a decomposition, 4 bytes a code point: room that one byte of input never fills.
const LEAST: usize = 256;

/// So many bytes are tried first, and where it is not sure that they find room.
const CHUNK: usize = 1024;

/// What an earlier piece may have left: a code point that is pending, and a begun one.
const CARRY: usize = 16;

/// How the text seems to go.
#[derive(Clone, Copy)]
enum Pace {
    New,
    Quiet,
    Grows,
}

/// A guess, by what the call has seen.
#[derive(Clone, Copy)]
pub struct Guess {
    /// How many bytes one byte becomes at most, when it is settled (UAX #15, section 9).
    growth: usize,
    pace: Pace,
    /// At most so many: some more were refused, where there was no less room.
    pub most: usize,
    ghost some: { 0 < most },
    ghost grows: { 0 < growth },
}

impl Guess {
    /// By the form's number: 1 and 2 are canonical.
    pub fn new(form: u8) -> Guess {
        Guess {
            growth: if form <= 2 { 3 } else { 11 },
            pace: Pace::New,
            most: usize::MAX,
        }
    }

    /// How many of the bytes that are there to feed into the room.
    pub fn len(&self, room: usize, there: usize) -> usize
        requires { 0 < there }
        ensures some { 0 < result }
        ensures within { result ≤ there }
        ensures most { result ≤ self.now.most }
    {
        let sure = room.saturating_sub(LEAST) / self.growth;
        let wanted = match self.pace {
            Pace::New => 0,
            Pace::Quiet => room.saturating_sub(CARRY),
            Pace::Grows => sure,
        };
        let wanted = wanted.max(room.min(CHUNK));
        wanted.min(there).min(self.most).max(1)
    }

    /// So many bytes, of which more than one, found no room.
    pub fn refused(&mut self, len: usize)
        requires { 1 < len }
        ensures { self.new.most < len }
    {
        self.most = len / 2;
        self.pace = Pace::Grows;
    }

    /// So many bytes were fed, and became so many. If twice as many were refused, as many again will be.
    pub fn fed(&mut self, len: usize, written: usize)
        ensures { self.new.most ≤ self.old.most }
    {
        self.pace = if self.most == usize::MAX && written <= len {
            Pace::Quiet
        } else {
            Pace::Grows
        };
        if len == self.most {
            self.most = (len / 2).max(1);
        }
    }
}
