//! Texts that stand in memory whole.
ghost use Rattle.std.specs.Prelude.{◌≡◌, IfOk, IfErr, OnOk};
ghost use Rattle.std.specs.Result.{result_err};
ghost use Rattle.nf_filter.specs.declared.fault.Fault.TheVariants.{Write};
ghost use Rattle.nf_filter.specs.Laws.Soundness.{AreSound, RefusesNone};
ghost use Rattle.nf_filter.specs.Whole.{Converts, IsFormOf, IsOfWhole, whole_answer};
ghost use Rattle.nf_forms.specs.Twice.{ChangesOnce};
ghost use Rattle.nf_filter.specs.Again.{AddsWhatStays, StaysAsItIs};

use crate::devices::Sink;
use crate::fault::Fault;
use crate::filter::Filter;
use crate::laws::what_was_finished_stays;
use crate::tally::Tally;
use crate::to_writer::ToWriter;
use nf_row::{Form, Rows};
use nf_utf8::laws::longest_text;
use std::alloc::Global;

/// Gives the sink the form of the stream-safe text whose UTF-8 these bytes are (UAX #15, section 13). At a fault the sink
/// was given what is settled before it; places count from the first byte. `Spent`, `TooLong` and `Read` never come, and
/// `Row` does not over Unicode's data. Without a fault a second filter changes nothing of what was written, where the form
/// changes a text once, as over Unicode's data.
pub fn convert<R: Rows, S: Sink>(
    rows: &R,
    form: Form,
    bytes: &[u8],
    sink: &mut S,
) -> Result<Tally, Fault>
    ensures converts { Converts form (R.properties rows.now) bytes.now (S.state sink.old) (S.state sink.new) result }
    ensures again { ChangesOnce form (R.properties rows.now) → OnOk result (AddsWhatStays form (R.properties rows.now) (S.state sink.old).taken (S.state sink.new).taken) }
    ensures faults { IfErr result IsOfWhole }
    ensures sound { AreSound (R.properties rows.now) → RefusesNone result }
    ensures lender { (S.state sink.new).lender ≡ (S.state sink.old).lender }
{
    what_was_finished_stays();
    let mut filter = Filter::quickest(rows, form, 0);
    if let Err(fault) = filter.feed(bytes, sink) {
        return Err(fault);
    }
    filter.finish(sink)
}

/// The form in memory of its own. `Write` says that memory ran out.
pub fn converted<R: Rows>(
    alloc: Global,
    rows: &R,
    form: Form,
    bytes: &[u8],
) -> Result<Vec<u8>, Fault>
    ensures form { IfOk result (λ out. IsFormOf form (R.properties rows.now) bytes.now out.items) }
    ensures again { ChangesOnce form (R.properties rows.now) → IfOk result (λ out. StaysAsItIs form (R.properties rows.now) out.items) }
    ensures fault { ¬ (result ≡ Err Write) → result_err result ≡ result_err (whole_answer (R.properties rows.now) bytes.now) }
    ensures faults { IfErr result IsOfWhole }
    ensures sound { AreSound (R.properties rows.now) → RefusesNone result }
{
    longest_text();
    let mut sink = ToWriter::new(Vec::new(alloc));
    match convert(rows, form, bytes, &mut sink) {
        Ok(_) => Ok(sink.into_inner()),
        Err(fault) => Err(fault),
    }
}
