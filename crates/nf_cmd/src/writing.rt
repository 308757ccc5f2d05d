//! Bytes to a writer. An interrupted write is a failure like any other.
ghost use Rattle.std.specs.Prelude.{◌≡◌, ◌<◌, length, IfErr, OnErr, OnOk};
ghost use Rattle.std.specs.Io.KnownBytes.{Appends, Keeps};
ghost use Rattle.nf_cmd.specs.Fronts.{AppendsFront};

use crate::fault::Fault;
use std::io::Write;

/// Writes all the bytes, and flushes. Where that fails the writer may have taken some of them.
pub(crate) fn write_whole<O: Write>(out: &mut O, bytes: &[u8]) -> Result<(), Fault>
    ensures whole { OnOk result (Appends (O.contents out.old) (O.contents out.new) bytes.now) }
    ensures front { AppendsFront (O.contents out.old) (O.contents out.new) bytes.now }
    ensures fault { IfErr result (λ fault. fault ≡ Fault.Write) }
{
    write_front(out, bytes)?;
    flush(out)
}

/// Writes the bytes, or as many as the writer takes before it fails.
pub(crate) fn write_front<O: Write>(out: &mut O, bytes: &[u8]) -> Result<(), Fault>
    ensures all { OnOk result (Appends (O.contents out.old) (O.contents out.new) bytes.now) }
    ensures front { AppendsFront (O.contents out.old) (O.contents out.new) bytes.now }
    ensures short { OnErr result (0 < length bytes.now) }
    ensures fault { IfErr result (λ fault. fault ≡ Fault.Write) }
{
    let mut at = 0;
    while at < bytes.len() {
        match out.write(&bytes[at..]) {
            Ok(0) => return Err(Fault::Write),
            Ok(n) => at += n,
            Err(_) => return Err(Fault::Write),
        }
    }
    Ok(())
}

/// Flushes.
pub(crate) fn flush<O: Write>(out: &mut O) -> Result<(), Fault>
    ensures kept { Keeps (O.contents out.old) (O.contents out.new) }
    ensures fault { IfErr result (λ fault. fault ≡ Fault.Write) }
{
    out.flush().map_err(|_| Fault::Write)
}
