//! A filter as plain data, and made of that again.
ghost use Rattle.std.specs.Prelude.{◌≡◌, ◌↔◌, IsTrue};
ghost use Rattle.nf_filter.specs.Saved.{CountsFit, IsPending};

use crate::counted::Counted;
use crate::filter::{Filter, State};
use crate::policy::Policy;
use crate::reading::Reading;
use arrayvec::ArrayVec;
use nf_normalizer::Normalizer;
use nf_pending::{Mark, Pending, Run};
use nf_row::{Form, Plain, Rows};
use nf_safe::Counter;
use nf_utf8::Decoder;

/// Where a filter stands, all of it but the character data.
#[derive(Debug, Drop)]
pub struct Saved {
    pub form: Form,
    pub policy: Policy,
    pub spent: bool,
    /// The offset of the first byte, and that of the next.
    pub base: u64,
    pub offset: u64,
    /// The characters taken, and how many U+034F were put.
    pub chars: u64,
    pub put: u64,
    /// The non-starters that the NFKD of the stream-safe text ends in, 0 to 30.
    pub count: u8,
    /// The bytes of a begun character.
    pub held: ArrayVec<u8, 3>,
    /// What is not settled: a starter, and marks after it in order of class.
    pub starter: Option<char>,
    pub marks: Run,
}

impl<'r, R: Rows> Filter<'r, R> {
    ghost use Rattle.std.specs.Prelude.{◌≡◌, ◌↔◌, ℕ, List, IsSome, IfSome, IsTrue};
    ghost use Rattle.nf_forms.specs.declared.form.Form.{Form};
    ghost use Rattle.nf_row.specs.Plain.{rows_of as plain_rows};
    ghost use Rattle.nf_filter.specs.declared.policy.Policy.{Policy};
    ghost use Rattle.nf_filter.specs.declared.filter.State.{State};
    ghost use Rattle.nf_filter.specs.Filter.{rows_of, state_of, is_spent, StandsAfter};
    ghost use Rattle.nf_filter.specs.Saved.{saved_of, IsRestorable};

    /// Where it stands.
    pub fn save(&self) -> Saved
        ensures saved { result ≡ saved_of (state_of self.now) }
        ensures spent { IsTrue (is_spent (state_of self.now)) → IsRestorable (R.properties (rows_of self.now)) result }
        ensures restorable { let p = R.properties (rows_of self.now) in
            (policy : Policy) (f : Form) (bytes : List ℕ) → StandsAfter policy f p (state_of self.now) bytes → IsRestorable p result }
    {
        let state = &self.state;
        let normalizer = &state.counted.normalizer;
        let (bytes, len) = state.reading.decoder.held();
        let mut held = ArrayVec::new();
        held.try_extend_from_slice(&bytes[..len]).unwrap();
        let mut marks = Run::new();
        marks
            .try_extend_from_slice(normalizer.pending.marks())
            .unwrap();
        Saved {
            form: normalizer.form,
            policy: state.policy,
            spent: state.spent,
            base: state.base,
            offset: state.reading.offset,
            chars: state.counted.chars,
            put: state.counted.put,
            count: normalizer.counter.count(),
            held,
            starter: normalizer.pending.starter(),
            marks,
        }
    }

    /// The filter that stands there, over data of which ASCII is plain; none where by what is counted and pending no filter can.
    pub fn restore(plain: Plain<'r, R>, saved: Saved) -> Option<Filter<'r, R>>
        ensures some { IsSome result ↔ IsRestorable (R.properties (plain_rows plain.entry)) saved }
        ensures rows { IfSome result (λ filter. rows_of filter ≡ plain_rows plain.entry) }
        ensures saved { IfSome result (λ filter. saved_of (state_of filter) ≡ saved) }
        ensures stands { let p = R.properties (plain_rows plain.entry) in
            (policy : Policy) (f : Form) (state : State) (bytes : List ℕ) → StandsAfter policy f p state bytes → saved_of state ≡ saved
            → IfSome result (λ filter. StandsAfter policy f p (state_of filter) bytes) }
    {
        let rows = plain.rows();
        let decoder = Decoder::holding(saved.held.as_slice())?;
        let counter = Counter::at(saved.count)?;
        if saved.base > saved.offset {
            return None;
        }
        if !saved.spent && !(do_counts_fit(&saved) && is_pending(rows, &saved)) {
            return None;
        }
        Some(Filter {
            rows,
            state: State {
                base: saved.base,
                spent: saved.spent,
                policy: saved.policy,
                reading: Reading {
                    decoder,
                    offset: saved.offset,
                },
                counted: Counted {
                    normalizer: Normalizer {
                        form: saved.form,
                        is_plain: true,
                        counter,
                        pending: Pending::holding(saved.form, saved.starter, saved.marks),
                    },
                    chars: saved.chars,
                    put: saved.put,
                },
            },
        })
    }
}

/// Whether what was counted fits the bytes that were read.
fn do_counts_fit(saved: &Saved) -> bool
    ensures { IsTrue result ↔ CountsFit saved.now }
{
    let read = saved.offset.saturating_sub(saved.base);
    let held = saved.held.len() as u64;
    let marks = saved.marks.len() as u64;
    if held > read || saved.chars > read - held || saved.put > saved.chars {
        return false;
    }
    if saved.chars == 0 && (saved.count > 0 || saved.starter.is_some()) {
        return false;
    }
    if saved.starter.is_none() && (saved.chars > marks || saved.put > marks - saved.chars) {
        return false;
    }
    let count = u64::from(saved.count);
    match saved.form {
        Form::Nfc | Form::Nfd => marks <= count,
        Form::Nfkc | Form::Nfkd => marks == count,
    }
}

/// Whether it is a starter that is pending, and marks in order of class, each of the class of its character, and none of
/// class 0.
fn is_pending<R: Rows>(rows: &R, saved: &Saved) -> bool
    ensures { IsTrue result ↔ IsPending (R.properties rows.now) saved.now }
{
    if let Some(starter) = saved.starter
        && rows.class(starter) != 0
    {
        return false;
    }
    let marks = saved.marks.as_slice();
    let mut least = 1;
    for mark in marks {
        if rows.class(mark.character) != mark.class || mark.class < least {
            return false;
        }
        least = mark.class;
    }
    true
}
