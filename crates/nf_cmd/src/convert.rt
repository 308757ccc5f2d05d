//! `convert`.
ghost use Rattle.std.specs.Prelude.{◌≡◌, ◌⊎◌};
ghost use Rattle.std.specs.Io.KnownBytes.{Keeps};
ghost use Rattle.nf_forms.specs.Ucd.{ucd};
ghost use Rattle.nf_filter.specs.declared.fault.Fault.TheVariants.{Spent};
ghost use Rattle.nf_cmd.specs.Converts.{Converts, ConvertsLines, end_of};

use crate::BUFFER;
use crate::fault::Fault;
use crate::writing::flush;
use nf_filter::{Filter, LentReader, LentWriter, Policy, drive_buffered};
use nf_lines::drive_lines;
use nf_row::{Form, Ucd};
use std::io::{Read, Write};

/// Writes the form of the stream-safe text that the reader gives under the policy, or what had settled before a fault,
/// and flushes.
pub(crate) fn convert<I: Read, O: Write>(
    form: Form,
    policy: Policy,
    input: &mut I,
    out: &mut O,
) -> Result<u8, Fault>
    ensures { Converts form policy ucd (I.remaining input.old) (I.remaining input.new) (O.contents out.old) (O.contents out.new) result }
{
    let filter = Filter::quickest(&Ucd, form, 0).policy(policy);
    let mut source = LentReader::new(input);
    let mut sink = LentWriter::new(out);
    let mut buffer = [0; BUFFER];
    let answer = drive_buffered(filter, &mut source, &mut sink, &mut buffer);
    ended(answer, out)
}

/// The same with `--line-buffered`: each line is written once its line feed was read.
pub(crate) fn convert_lines<I: Read, O: Write>(
    form: Form,
    policy: Policy,
    input: &mut I,
    out: &mut O,
) -> Result<u8, Fault>
    ensures { ConvertsLines form policy ucd (I.remaining input.old) (I.remaining input.new) (O.contents out.old) (O.contents out.new) result }
{
    let mut source = LentReader::new(input);
    let mut sink = LentWriter::new(out);
    let mut buffer = [0; BUFFER];
    let answer = drive_lines(form, policy, &mut source, &mut sink, &mut buffer);
    ended(answer, out)
}

// Flushes, and ends by the library's answer. A writer that failed is not touched again.
fn ended<T: Copy, O: Write>(answer: Result<T, nf_filter::Fault>, out: &mut O) -> Result<u8, Fault>
    requires { ¬ (answer ≡ Err Spent) }
    ensures flushed { Keeps (O.contents out.old) (O.contents out.new) }
    ensures found { (Some result ≡ end_of answer) ⊎ (result ≡ Err Fault.Write) }
{
    let found = match answer {
        Err(nf_filter::Fault::Write) => return Err(Fault::Write),
        Err(fault) => Err(Fault::told(fault)),
        Ok(_) => Ok(0),
    };
    flush(out)?;
    found
}
