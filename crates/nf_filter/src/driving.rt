ghost use Rattle.std.specs.Prelude.{◌≡◌, ◌<◌, ◌↔◌, ℕ, List, [], length, IsTrue, IsFalse, OnOk};
ghost use Rattle.nf_forms.specs.declared.form.Form.{Form};
ghost use Rattle.nf_filter.specs.Filter.{rows_of, state_of, base_of, is_spent, StandsAfter};
ghost use Rattle.nf_filter.specs.declared.policy.Policy.{Policy};
ghost use Rattle.nf_filter.specs.Policy.{as_is};
ghost use Rattle.nf_filter.specs.Drives.{Drives};
ghost use Rattle.nf_forms.specs.Twice.{ChangesOnce};
ghost use Rattle.nf_filter.specs.Again.{AddsWhatStays, DrivesOnce};
ghost use Rattle.nf_filter.specs.Joined.{DrivesPieces};

use crate::devices::{Failed, Sink, Source};
use crate::fault::Fault;
use crate::filter::Filter;
use crate::laws::what_was_finished_stays;
use crate::sources::BLOCK;
use crate::tally::Tally;
use nf_row::{Form, Rows};

/// Feeds what the source gives, in pieces of at most 4,096 bytes, and finishes the filter at the source's end. Where the
/// form changes a text once, as over Unicode's data, a second filter changes nothing of all that the filter wrote.
pub fn drive<R: Rows, I: Source, S: Sink>(
    filter: Filter<'_, R>,
    source: &mut I,
    sink: &mut S,
) -> Result<Tally, Fault>
    ensures spent { (result ≡ Err Fault.Spent) ↔ IsTrue (is_spent (state_of filter.entry)) }
    ensures kept { IsTrue (is_spent (state_of filter.entry)) → (source.new ≡ source.old) × (sink.new ≡ sink.old) }
    ensures read { IsFalse (is_spent (state_of filter.entry)) → ((result ≡ Err Fault.Read) ↔ IsTrue (I.state source.new).is_failed) }
    ensures end { OnOk result (IsTrue (I.state source.new).is_at_end) }
    ensures drives { let p = R.properties (rows_of filter.entry) in
        (policy : Policy) (f : Form) (bytes : List ℕ) → StandsAfter policy f p (state_of filter.entry) bytes
        → Drives 4096 policy f p (base_of (state_of filter.entry)) bytes (I.state source.old) (I.state source.new) (S.state sink.old) (S.state sink.new) result }
    ensures again { let p = R.properties (rows_of filter.entry) in
        (policy : Policy) (f : Form) (bytes : List ℕ) → StandsAfter policy f p (state_of filter.entry) bytes → ChangesOnce f p
        → OnOk result (DrivesOnce policy f p bytes (I.state source.old) (I.state source.new) (S.state sink.old) (S.state sink.new)) }
    ensures joined { let p = R.properties (rows_of filter.entry) in
        (policy : Policy) (f : Form) (bytes : List ℕ) → StandsAfter policy f p (state_of filter.entry) bytes
        → OnOk result (DrivesPieces policy f p bytes (I.state source.old) (I.state source.new) (S.state sink.old) (S.state sink.new)) }
    ensures lenders { ((I.state source.new).lender ≡ (I.state source.old).lender) × ((S.state sink.new).lender ≡ (S.state sink.old).lender) }
{
    let mut buffer = [0; BLOCK];
    drive_buffered(filter, source, sink, &mut buffer)
}

/// The same in pieces of at most as many bytes as the buffer has, which is not empty. What stands in it is overwritten.
pub fn drive_buffered<R: Rows, I: Source, S: Sink>(
    mut filter: Filter<'_, R>,
    source: &mut I,
    sink: &mut S,
    buffer: &mut [u8],
) -> Result<Tally, Fault>
    requires { 0 < length buffer.old }
    ensures spent { (result ≡ Err Fault.Spent) ↔ IsTrue (is_spent (state_of filter.entry)) }
    ensures kept { IsTrue (is_spent (state_of filter.entry)) → (source.new ≡ source.old) × (sink.new ≡ sink.old) }
    ensures read { IsFalse (is_spent (state_of filter.entry)) → ((result ≡ Err Fault.Read) ↔ IsTrue (I.state source.new).is_failed) }
    ensures end { OnOk result (IsTrue (I.state source.new).is_at_end) }
    ensures drives { let p = R.properties (rows_of filter.entry) in
        (policy : Policy) (f : Form) (bytes : List ℕ) → StandsAfter policy f p (state_of filter.entry) bytes
        → Drives (length buffer.old) policy f p (base_of (state_of filter.entry)) bytes (I.state source.old) (I.state source.new) (S.state sink.old) (S.state sink.new) result }
    ensures again { let p = R.properties (rows_of filter.entry) in
        (policy : Policy) (f : Form) (bytes : List ℕ) → StandsAfter policy f p (state_of filter.entry) bytes → ChangesOnce f p
        → OnOk result (DrivesOnce policy f p bytes (I.state source.old) (I.state source.new) (S.state sink.old) (S.state sink.new)) }
    ensures joined { let p = R.properties (rows_of filter.entry) in
        (policy : Policy) (f : Form) (bytes : List ℕ) → StandsAfter policy f p (state_of filter.entry) bytes
        → OnOk result (DrivesPieces policy f p bytes (I.state source.old) (I.state source.new) (S.state sink.old) (S.state sink.new)) }
    ensures lenders { ((I.state source.new).lender ≡ (I.state source.old).lender) × ((S.state sink.new).lender ≡ (S.state sink.old).lender) }
{
    what_was_finished_stays();
    if filter.spent() {
        return Err(Fault::Spent);
    }
    loop {
        let given = match source.get(buffer) {
            Ok(given) => given,
            Err(Failed) => return Err(Fault::Read),
        };
        if given == 0 {
            return filter.finish(sink);
        }
        if let Err(fault) = filter.feed(&buffer[..given], sink) {
            return Err(fault);
        }
    }
}

/// Drives a new filter.
pub fn run<R: Rows, I: Source, S: Sink>(
    rows: &R,
    form: Form,
    base: u64,
    source: &mut I,
    sink: &mut S,
) -> Result<Tally, Fault>
    ensures unspent { ¬ (result ≡ Err Fault.Spent) }
    ensures read { (result ≡ Err Fault.Read) ↔ IsTrue (I.state source.new).is_failed }
    ensures end { OnOk result (IsTrue (I.state source.new).is_at_end) }
    ensures drives { Drives 4096 as_is form (R.properties rows.now) base [] (I.state source.old) (I.state source.new) (S.state sink.old) (S.state sink.new) result }
    ensures again { ChangesOnce form (R.properties rows.now) → OnOk result (AddsWhatStays form (R.properties rows.now) (S.state sink.old).taken (S.state sink.new).taken) }
    ensures joined { OnOk result (DrivesPieces as_is form (R.properties rows.now) [] (I.state source.old) (I.state source.new) (S.state sink.old) (S.state sink.new)) }
    ensures lenders { ((I.state source.new).lender ≡ (I.state source.old).lender) × ((S.state sink.new).lender ≡ (S.state sink.old).lender) }
{
    drive(Filter::new(rows, form, base), source, sink)
}
