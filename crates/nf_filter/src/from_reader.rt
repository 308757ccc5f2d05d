ghost use Rattle.std.specs.Prelude.{◌≡◌, ◌==◌, ◌<◌, ◌≤◌, [], false, true, length, take, IfOk, OnOk, OnErr};
ghost use Rattle.std.specs.Io.KnownBytes.{Consumes, IsAtEnd, Keeps};

use crate::devices::{Failed, Source};
use std::io::Read;

/// A reader as a source. A read that was interrupted is a failure.
#[derive(Debug, Drop)]
pub struct FromReader<R> {
    reader: R,
    stands: Stands,
}

/// The same of a reader that is lent to it.
#[derive(Drop)]
pub struct LentReader<'r, R> {
    reader: &'r mut R,
    stands: Stands,
}

/// Where a source stands.
#[derive(Clone, Copy, Debug, Default)]
struct Stands {
    failed: bool,
    at_end: bool,
}

impl<R> FromReader<R> {
    ghost use Rattle.nf_filter.specs.FromReader.{reader_of, has_failed, has_ended};

    /// A source that stands neither failed nor at its end.
    pub fn new(reader: R) -> FromReader<R>
        ensures reader { reader_of result ≡ reader }
        ensures stands { has_failed result ≡ false }
        ensures before_end { has_ended result ≡ false }
    {
        FromReader {
            reader,
            stands: Stands::default(),
        }
    }

    /// The reader.
    pub fn into_inner(self) -> R
        ensures { result ≡ reader_of self }
    {
        let FromReader { reader, stands: _ } = self;
        reader
    }
}

impl<'r, R> LentReader<'r, R> {
    ghost use Rattle.nf_filter.specs.FromReader.{lent_reader_of, lent_has_failed, lent_has_ended};

    /// A source that stands neither failed nor at its end.
    pub fn new(reader: &'r mut R) -> LentReader<'r, R>
        ensures lent { result.reader.ghost_name ≡ reader.entry.ghost_name }
        ensures reader { lent_reader_of result ≡ reader.old }
        ensures stands { lent_has_failed result ≡ false }
        ensures before_end { lent_has_ended result ≡ false }
    {
        LentReader {
            reader,
            stands: Stands::default(),
        }
    }
}

impl<R: Read> Source for FromReader<R> {
    ghost use Rattle.nf_filter.specs.FromReader.{reader_of, has_failed, has_ended};

    ghost state = { λ source. record { coming = R.remaining (reader_of source); is_failed = has_failed source; is_at_end = has_ended source; lender = 0 } };

    fn get(&mut self, buf: &mut [u8]) -> Result<usize, Failed> {
        self.stands.read(&mut self.reader, buf)
    }
}

impl<R: Read> Source for LentReader<'_, R> {
    ghost use Rattle.nf_filter.specs.FromReader.{lent_reader_of, lent_has_failed, lent_has_ended};

    ghost state = { λ source. record { coming = R.remaining (lent_reader_of source); is_failed = lent_has_failed source; is_at_end = lent_has_ended source; lender = source.reader.ghost_name } };

    fn get(&mut self, buf: &mut [u8]) -> Result<usize, Failed> {
        self.stands.read(self.reader, buf)
    }
}

impl Stands {
    /// Reads once, and never again once that failed.
    fn read<R: Read>(&mut self, reader: &mut R, buf: &mut [u8]) -> Result<usize, Failed>
        requires { 0 < length buf.old }
        ensures count { IfOk result (λ n. n ≤ length buf.new) }
        ensures given { IfOk result (λ n. Consumes (R.remaining reader.old) (R.remaining reader.new) (take n buf.new)) }
        ensures end { IfOk result (λ n. self.new.at_end ≡ (n == 0)) }
        ensures read_out { IfOk result (λ n. n ≡ 0 → IsAtEnd (R.remaining reader.new)) }
        ensures stands { OnOk result ((self.old.failed ≡ false) × (self.new.failed ≡ false)) }
        ensures kept { OnErr result (Keeps (R.remaining reader.old) (R.remaining reader.new)) }
        ensures failed { OnErr result ((self.new.failed ≡ true) × (self.new.at_end ≡ false)) }
        ensures for_good { self.old.failed ≡ true → reader.new ≡ reader.old }
    {
        if !self.failed {
            if let Ok(n) = reader.read(buf) {
                self.at_end = n == 0;
                return Ok(n);
            }
        }
        self.failed = true;
        self.at_end = false;
        Err(Failed)
    }
}
