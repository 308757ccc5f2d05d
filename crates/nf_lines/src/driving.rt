//! Driving a filter line by line.
ghost use Rattle.std.specs.Prelude.{◌≡◌, ◌+◌, ◌<◌, ◌↔◌, ◌++◌, length, IsTrue, IsFalse, OnOk, Ok};
ghost use Rattle.nf_forms.specs.Ucd.{ucd};
ghost use Rattle.nf_filter.specs.Devices.{SinkState};
ghost use Rattle.nf_filter.specs.Filter.{state_of, offset_of, is_spent};
ghost use Rattle.nf_filter.specs.declared.fault.Fault.TheVariants.{Spent, TooLong, Read};
ghost use Rattle.nf_lines.specs.Drives.{Lines, bytes_of, TakesLines, FeedsLines, DrivesLines};

use crate::cutting::lines_len;
use crate::laws::lines_stand_alone;
use nf_filter::{Failed, Fault, Filter, Policy, Sink, Source};
use nf_row::{Form, Ucd};
use std::mem;

/// Feeds what the source gives to a new filter, in pieces of at most as many bytes as the buffer has, which is not empty,
/// and begins a new one after the last line feed of each piece: so each line is written whole once its line feed was
/// read. What stands in the buffer is overwritten.
pub fn drive_lines<I: Source, S: Sink>(
    form: Form,
    policy: Policy,
    source: &mut I,
    sink: &mut S,
    buffer: &mut [u8],
) -> Result<(), Fault>
    requires { 0 < length buffer.old }
    ensures unspent { ¬ (result ≡ Err Spent) }
    ensures read { (result ≡ Err Read) ↔ IsTrue (I.state source.new).is_failed }
    ensures end { OnOk result (IsTrue (I.state source.new).is_at_end) }
    ensures drives { DrivesLines (length buffer.old) policy form ucd (I.state source.old) (I.state source.new) (S.state sink.old) (S.state sink.new) result }
    ensures lenders { ((I.state source.new).lender ≡ (I.state source.old).lender) × ((S.state sink.new).lender ≡ (S.state sink.old).lender) }
{
    lines_stand_alone();
    let mut filter = Filter::quickest(&Ucd, form, 0).policy(policy);
    loop {
        let given = match source.get(buffer) {
            Ok(given) => given,
            Err(Failed) => return Err(Fault::Read),
        };
        if given == 0 {
            break;
        }
        if let Err(fault) = feed_lines(form, policy, &mut filter, &buffer[..given], sink) {
            return Err(fault);
        }
    }
    match filter.finish(sink) {
        Ok(_) => Ok(()),
        Err(fault) => Err(fault),
    }
}

// Takes the next bytes: the lines that they end are written whole, and a new filter is begun after them; of the rest what it
// settles is written.
fn feed_lines<S: Sink>(
    form: Form,
    policy: Policy,
    filter: &mut Filter<'_, Ucd>,
    piece: &[u8],
    sink: &mut S,
) -> Result<(), Fault>
    requires unspent { IsFalse (is_spent (state_of filter.old)) }
    ensures not_spent { ¬ (result ≡ Err Spent) }
    ensures not_read { ¬ (result ≡ Err Read) }
    ensures too_long { result ≡ Err TooLong → u64.MAX < offset_of (state_of filter.old) + length piece.now }
    ensures unspent { OnOk result (IsFalse (is_spent (state_of filter.new))) }
    ensures offset { OnOk result (offset_of (state_of filter.new) ≡ offset_of (state_of filter.old) + length piece.now) }
    ensures feeds { (first : SinkState) (l : Lines) → TakesLines policy form ucd (state_of filter.old) l first (S.state sink.old) (Ok tt)
        → FeedsLines policy form ucd (state_of filter.new) (length piece.now) (bytes_of l ++ piece.now) first (S.state sink.new) result }
    ensures lender { (S.state sink.new).lender ≡ (S.state sink.old).lender }
{
    lines_stand_alone();
    let n = lines_len(piece);
    if n == 0 {
        return filter.feed(piece, sink);
    }
    if let Err(fault) = filter.feed(&piece[..n], sink) {
        return Err(fault);
    }
    let next = Filter::quickest(&Ucd, form, filter.offset()).policy(policy);
    if let Err(fault) = mem::replace(filter, next).finish(sink) {
        return Err(fault);
    }
    filter.feed(&piece[n..], sink)
}
