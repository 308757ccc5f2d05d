ghost use Rattle.std.specs.Prelude.{◌≡◌, ◌<◌, ◌≤◌, [], false, true, length, take, IfOk, OnOk, OnErr, IsErr};
ghost use Rattle.std.specs.Io.KnownBytes.{Appends, Keeps};

use crate::devices::{Failed, Sink};
use std::io::Write;

/// A writer as a sink. A write that takes nothing of a nonempty slice, or that was interrupted, is a failure.
#[derive(Debug, Drop)]
pub struct ToWriter<W> {
    writer: W,
    failed: bool,
}

/// The same of a writer that is lent to it.
#[derive(Drop)]
pub struct LentWriter<'w, W> {
    writer: &'w mut W,
    failed: bool,
}

impl<W> ToWriter<W> {
    ghost use Rattle.nf_filter.specs.ToWriter.{writer_of, has_failed};

    /// A sink that does not stand failed.
    pub fn new(writer: W) -> ToWriter<W>
        ensures writer { writer_of result ≡ writer }
        ensures stands { has_failed result ≡ false }
    {
        ToWriter {
            writer,
            failed: false,
        }
    }

    /// The writer.
    pub fn into_inner(self) -> W
        ensures { result ≡ writer_of self }
    {
        let ToWriter { writer, failed: _ } = self;
        writer
    }
}

impl<'w, W> LentWriter<'w, W> {
    ghost use Rattle.nf_filter.specs.ToWriter.{lent_writer_of, lent_has_failed};

    /// A sink that does not stand failed.
    pub fn new(writer: &'w mut W) -> LentWriter<'w, W>
        ensures lent { result.writer.ghost_name ≡ writer.entry.ghost_name }
        ensures writer { lent_writer_of result ≡ writer.old }
        ensures stands { lent_has_failed result ≡ false }
    {
        LentWriter {
            writer,
            failed: false,
        }
    }
}

impl<W: Write> Sink for ToWriter<W> {
    ghost use Rattle.nf_filter.specs.ToWriter.{writer_of, has_failed};

    ghost state = { λ sink. record { taken = W.contents (writer_of sink); is_failed = has_failed sink; lender = 0 } };

    fn put(&mut self, bytes: &[u8]) -> Result<usize, Failed> {
        write(&mut self.writer, &mut self.failed, bytes)
    }
}

impl<W: Write> Sink for LentWriter<'_, W> {
    ghost use Rattle.nf_filter.specs.ToWriter.{lent_writer_of, lent_has_failed};

    ghost state = { λ sink. record { taken = W.contents (lent_writer_of sink); is_failed = lent_has_failed sink; lender = sink.writer.ghost_name } };

    fn put(&mut self, bytes: &[u8]) -> Result<usize, Failed> {
        write(self.writer, &mut self.failed, bytes)
    }
}

/// Writes once, and never again once that failed.
fn write<W: Write>(writer: &mut W, failed: &mut bool, bytes: &[u8]) -> Result<usize, Failed>
    ensures count { IfOk result (λ n. (n ≤ length bytes.now) × (0 < length bytes.now → 0 < n)) }
    ensures taken { IfOk result (λ n. Appends (W.contents writer.old) (W.contents writer.new) (take n bytes.now)) }
    ensures stands { OnOk result (failed.new ≡ failed.old) }
    ensures kept { OnErr result (Keeps (W.contents writer.old) (W.contents writer.new)) }
    ensures failed { OnErr result (failed.new ≡ true) }
    ensures for_good { failed.old ≡ true → 0 < length bytes.now → IsErr result × (writer.new ≡ writer.old) }
    ensures empty { bytes.now ≡ [] → (result ≡ Ok 0) × (writer.new ≡ writer.old) }
{
    if bytes.is_empty() {
        return Ok(0);
    }
    if !*failed {
        if let Ok(n) = writer.write(bytes) {
            if n > 0 {
                return Ok(n);
            }
        }
    }
    *failed = true;
    Err(Failed)
}
