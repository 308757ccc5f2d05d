ghost use Rattle.std.specs.Prelude.{◌≡◌, ◌≤◌, false};
ghost use Rattle.nf_filter.specs.Counted.{ends_at};
ghost use Rattle.nf_filter.specs.Taker.{IsReady};

use crate::block::Block;
use crate::counted::Counted;
use crate::devices::Sink;
use crate::fault::Fault;
use crate::held::Held;
use crate::laws::what_was_finished_stays;
use crate::policy::Policy;
use crate::reading::Reading;
use crate::tally::Tally;
use nf_normalizer::Normalizer;
use nf_row::{Form, Plain, Rows};

/// Makes the stream-safe text of UTF-8 that comes in pieces, in one normalization form.
pub struct Filter<'r, R> {
    pub(crate) rows: &'r R,
    pub(crate) state: State,
}

/// Where a filter stands.
#[derive(Drop)]
pub struct State {
    pub(crate) base: u64,
    pub(crate) spent: bool,
    pub(crate) policy: Policy,
    pub(crate) reading: Reading,
    pub(crate) counted: Counted,
    ghost base_within: { base ≤ reading.offset },
    ghost ready: { spent ≡ false → IsReady (ends_at counted) reading },
}

impl State {
    ghost use Rattle.std.specs.Prelude.{◌≡◌, [], false};
    ghost use Rattle.nf_forms.specs.Properties.{Properties};
    ghost use Rattle.nf_forms.specs.declared.form.Form.{Form};
    ghost use Rattle.nf_normalizer.specs.Normalizer.{HasTaken, IsWithin};
    ghost use Rattle.nf_filter.specs.Policy.{as_is};
    ghost use Rattle.nf_filter.specs.Filter.{StandsAfter};

    /// Nothing was taken yet. Nothing is replaced, and characters that are not assigned are taken.
    fn new(base: u64, normalizer: Normalizer) -> State
        requires within { IsWithin normalizer }
        ensures base { result.base ≡ base }
        ensures offset { result.reading.offset ≡ base }
        ensures unspent { result.spent ≡ false }
        ensures stands { (f : Form) (p : Properties) → HasTaken f p normalizer [] → StandsAfter as_is f p result [] }
    {
        State {
            base,
            spent: false,
            policy: Policy {
                replace: false,
                assigned: false,
            },
            reading: Reading::new(base),
            counted: Counted {
                normalizer,
                chars: 0,
                put: 0,
            },
        }
    }
}

impl<'r, R: Rows> Filter<'r, R> {
    ghost use Rattle.std.specs.Prelude.{◌≡◌, ◌+◌, ◌<◌, ◌≤◌, ◌↔◌, ◌⊎◌, false, ℕ, List, [], ◌++◌, length, if◌then◌else◌, IsTrue, IsFalse, IsErr, OnOk, IfErr, is_ok};
    ghost use Rattle.nf_forms.specs.declared.form.Form.{Form};
    ghost use Rattle.nf_forms.specs.Runs.{has_starter, trail};
    ghost use Rattle.nf_row.specs.Plain.{rows_of as plain_rows};
    ghost use Rattle.nf_forms.specs.Forms.{decomposed};
    ghost use Rattle.nf_forms.specs.StreamSafe.{stream_safe};
    ghost use Rattle.nf_filter.specs.declared.policy.Policy.{Policy};
    ghost use Rattle.nf_filter.specs.Policy.{as_is, len_under, text_under};
    ghost use Rattle.nf_filter.specs.Faults.{IsOfFeeding, IsOfFinishing};
    ghost use Rattle.nf_filter.specs.Filter.{rows_of, state_of, base_of, offset_of, is_spent, StandsAfter};
    ghost use Rattle.nf_filter.specs.Feeds.{Feeds};
    ghost use Rattle.nf_filter.specs.Finishes.{Finishes, final_utf8};
    ghost use Rattle.nf_forms.specs.Twice.{ChangesOnce};
    ghost use Rattle.nf_filter.specs.Again.{StaysAsItIs};
    ghost use Rattle.nf_filter.specs.Joined.{JoinsPieces};

    /// A filter that has taken nothing. The first byte to come has the offset `base`.
    pub fn new(rows: &'r R, form: Form, base: u64) -> Filter<'r, R>
        ensures rows { rows_of result ≡ rows.now }
        ensures base { base_of (state_of result) ≡ base }
        ensures offset { offset_of (state_of result) ≡ base }
        ensures unspent { IsFalse (is_spent (state_of result)) }
        ensures stands { StandsAfter as_is form (R.properties rows.now) (state_of result) [] }
    {
        Filter {
            rows,
            state: State::new(base, Normalizer::new(form)),
        }
    }

    /// The same over data of which ASCII is plain. It may give the sink slices of any length.
    pub fn fast(plain: Plain<'r, R>, form: Form, base: u64) -> Filter<'r, R>
        ensures rows { rows_of result ≡ plain_rows plain.entry }
        ensures base { base_of (state_of result) ≡ base }
        ensures offset { offset_of (state_of result) ≡ base }
        ensures unspent { IsFalse (is_spent (state_of result)) }
        ensures stands { StandsAfter as_is form (R.properties (rows_of result)) (state_of result) [] }
    {
        Filter {
            rows: plain.rows(),
            state: State::new(base, Normalizer::fast(plain, form)),
        }
    }

    /// The quickest of both: as `fast` where the data is known to be Unicode's, else as `new`.
    pub fn quickest(rows: &'r R, form: Form, base: u64) -> Filter<'r, R>
        ensures rows { rows_of result ≡ rows.now }
        ensures base { base_of (state_of result) ≡ base }
        ensures offset { offset_of (state_of result) ≡ base }
        ensures unspent { IsFalse (is_spent (state_of result)) }
        ensures stands { StandsAfter as_is form (R.properties rows.now) (state_of result) [] }
    {
        if rows.is_ucd()
            && let Some(plain) = Plain::of(rows)
        {
            return Filter::fast(plain, form, base);
        }
        Filter::new(rows, form, base)
    }

    /// The same filter, which has taken no byte yet, under this policy.
    pub fn policy(self, policy: Policy) -> Filter<'r, R>
        requires unspent { IsFalse (is_spent (state_of self)) }
        requires fresh { offset_of (state_of self) ≡ base_of (state_of self) }
        ensures rows { rows_of result ≡ rows_of self.entry }
        ensures base { base_of (state_of result) ≡ base_of (state_of self.entry) }
        ensures offset { offset_of (state_of result) ≡ offset_of (state_of self.entry) }
        ensures unspent { is_spent (state_of result) ≡ false }
        ensures stands { let p = R.properties (rows_of self.entry) in
            (before : Policy) (f : Form) (bytes : List ℕ) → StandsAfter before f p (state_of self.entry) bytes
            → StandsAfter policy f p (state_of result) [] }
    {
        let Filter { rows, mut state } = self;
        state.policy = policy;
        Filter { rows, state }
    }

    /// Takes the next bytes, and gives the sink what they settle. `TooLong` leaves the filter as it was; after any other
    /// refusal it is spent.
    pub fn feed<S: Sink>(&mut self, piece: &[u8], sink: &mut S) -> Result<(), Fault>
        ensures rows { rows_of self.new ≡ rows_of self.old }
        ensures base { base_of (state_of self.new) ≡ base_of (state_of self.old) }
        ensures spent { (result ≡ Err Fault.Spent) ↔ IsTrue (is_spent (state_of self.old)) }
        ensures too_long { (result ≡ Err Fault.TooLong) ↔ (IsFalse (is_spent (state_of self.old)) × (u64.MAX < offset_of (state_of self.old) + length piece.now)) }
        ensures kept { IsTrue (is_spent (state_of self.old)) ⊎ (result ≡ Err Fault.TooLong) → (state_of self.new ≡ state_of self.old) × (sink.new ≡ sink.old) }
        ensures spends { IsTrue (is_spent (state_of self.new)) ↔ (IsErr result × ¬ (result ≡ Err Fault.TooLong)) }
        ensures offset { offset_of (state_of self.new) ≡ (if is_ok result then offset_of (state_of self.old) + length piece.now else offset_of (state_of self.old)) }
        ensures faults { IfErr result IsOfFeeding }
        ensures feeds { let p = R.properties (rows_of self.old) in
            (policy : Policy) (f : Form) (bytes : List ℕ) → StandsAfter policy f p (state_of self.old) bytes → ¬ (result ≡ Err Fault.TooLong)
            → Feeds policy f p (base_of (state_of self.old)) bytes piece.now (S.state sink.old) (S.state sink.new) result }
        ensures stands { let p = R.properties (rows_of self.old) in
            (policy : Policy) (f : Form) (bytes : List ℕ) → StandsAfter policy f p (state_of self.old) bytes → OnOk result (StandsAfter policy f p (state_of self.new) (bytes ++ piece.now)) }
        ensures lender { (S.state sink.new).lender ≡ (S.state sink.old).lender }
    {
        let state = &mut self.state;
        if state.spent {
            return Err(Fault::Spent);
        }
        if state.reading.is_too_long(piece) {
            return Err(Fault::TooLong);
        }
        let mut reading = state.reading;
        match reading.feed(state.policy, self.rows, piece, &mut state.counted, sink) {
            Ok(()) => {
                state.reading = reading;
                Ok(())
            }
            Err(fault) => {
                state.spent = true;
                Err(fault)
            }
        }
    }

    /// Gives the sink the rest, and answers what was taken. Where the form changes a text once, as over Unicode's data, a
    /// second filter changes nothing of all that was written.
    pub fn finish<S: Sink>(self, sink: &mut S) -> Result<Tally, Fault>
        ensures spent { (result ≡ Err Fault.Spent) ↔ IsTrue (is_spent (state_of self.entry)) }
        ensures kept { IsTrue (is_spent (state_of self.entry)) → sink.new ≡ sink.old }
        ensures faults { IfErr result IsOfFinishing }
        ensures finishes { let p = R.properties (rows_of self.entry) in
            (policy : Policy) (f : Form) (bytes : List ℕ) → StandsAfter policy f p (state_of self.entry) bytes
            → Finishes policy f p (base_of (state_of self.entry)) bytes (S.state sink.old) (S.state sink.new) result }
        ensures again { let p = R.properties (rows_of self.entry) in
            (policy : Policy) (f : Form) (bytes : List ℕ) → StandsAfter policy f p (state_of self.entry) bytes → ChangesOnce f p
            → OnOk result (StaysAsItIs f p (final_utf8 policy f p bytes)) }
        ensures joined { let p = R.properties (rows_of self.entry) in
            (policy : Policy) (f : Form) (bytes : List ℕ) → StandsAfter policy f p (state_of self.entry) bytes → OnOk result (JoinsPieces policy f p bytes) }
        ensures lender { (S.state sink.new).lender ≡ (S.state sink.old).lender }
    {
        let Filter { rows, state } = self;
        let State {
            base,
            spent,
            policy,
            reading,
            mut counted,
        } = state;
        if spent {
            return Err(Fault::Spent);
        }
        if let Err(fault) = reading.close(policy, rows, &mut counted, sink) {
            return Err(fault);
        }
        what_was_finished_stays();
        let tally = Tally {
            bytes: reading.offset - base,
            chars: counted.chars,
            put: counted.put,
        };
        let mut block = Block::new(false);
        counted.normalizer.settle(rows, &mut block.room);
        match block.close(Ok(()), sink) {
            Ok(()) => Ok(tally),
            Err(fault) => Err(fault),
        }
    }

    /// What it holds back: nothing once it is spent.
    pub fn held(&self) -> Held
        ensures few { (result.bytes ≤ 3) × (result.pending ≤ 31) }
        ensures nothing { IsTrue (is_spent (state_of self.now)) → (result.bytes ≡ 0) × (result.pending ≡ 0) }
        ensures bytes { (policy : Policy) (f : Form) (bytes : List ℕ) → StandsAfter policy f (R.properties (rows_of self.now)) (state_of self.now) bytes
            → len_under policy.replace bytes (text_under policy.replace bytes) + result.bytes ≡ length bytes }
        ensures pending { let p = R.properties (rows_of self.now) in
            (policy : Policy) (f : Form) (bytes : List ℕ) → StandsAfter policy f p (state_of self.now) bytes → let w = decomposed f p (stream_safe p (text_under policy.replace bytes)) in
            result.pending ≡ trail p w + (if has_starter p w then 1 else 0) }
    {
        if self.state.spent {
            return Held {
                bytes: 0,
                pending: 0,
            };
        }
        Held {
            bytes: self.state.reading.decoder.carried(),
            pending: self.state.counted.normalizer.pending(),
        }
    }

    /// How many characters it has taken.
    #[inline]
    pub fn chars(&self) -> u64
        ensures { (policy : Policy) (f : Form) (bytes : List ℕ) → StandsAfter policy f (R.properties (rows_of self.now)) (state_of self.now) bytes
            → result ≡ length (text_under policy.replace bytes) }
    {
        self.state.counted.chars
    }

    /// The offset of the next byte.
    #[inline]
    pub fn offset(&self) -> u64
        ensures { result ≡ offset_of (state_of self.now) }
    {
        self.state.reading.offset
    }

    /// Whether an earlier call was refused, so that every later one is.
    #[inline]
    pub fn spent(&self) -> bool
        ensures { result ≡ is_spent (state_of self.now) }
    {
        self.state.spent
    }
}

impl<R> Drop for Filter<'_, R> {
    fn drop(self) {
        let Filter { rows: _, state: _ } = self;
    }
}
