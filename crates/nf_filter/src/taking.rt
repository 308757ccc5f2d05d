//! How text goes through a normalizer to a sink, step by step.
ghost use Rattle.std.specs.Prelude.{◌≡◌, ◌<◌, ◌≤◌, ◌++◌, true, [], length, take, chars, take_while};
ghost use Rattle.std.specs.List.{list_all};
ghost use Rattle.std.specs.Str.{IsCharBoundary};
ghost use Rattle.nf_filter.specs.Policy.{allowed, IsAfterAssigned};

use crate::block::Block;
use crate::counted::Counted;
use crate::devices::{Failed, Sink};
use crate::fault::Fault;
use crate::origin::Origin;
use nf_boundary::Formed;
use nf_normalizer::{STEP, Step};
use nf_row::Rows;
use nf_utf8::char_count;

impl Counted {
    ghost use Rattle.std.specs.Prelude.{◌≡◌, ◌+◌, ◌<◌, ◌≤◌, Bool, false, ℕ, List, [], ◌∷◌, ◌++◌, length, chars, Err, IfErr, OnOk, MatchResult};
    ghost use Rattle.nf_forms.specs.declared.form.Form.{Form};
    ghost use Rattle.nf_normalizer.specs.Normalizer.{IsWithin as IsReady};
    ghost use Rattle.nf_filter.specs.Block.{Start, block_state};
    ghost use Rattle.nf_filter.specs.Counted.{IsPlacedAt, IsWithin};
    ghost use Rattle.nf_filter.specs.Faults.{IsOfTaking};
    ghost use Rattle.nf_filter.specs.Feeding.{TakesAllowed, TakesAfter, TakesAsIs};
    ghost use Rattle.nf_filter.specs.Stepping.{HasStepped, Standing, StandsInFront};

    /// Takes a text. Where only assigned characters are allowed, the first other is refused.
    pub(crate) fn take_allowed<R: Rows, S: Sink>(
        &mut self,
        rows: &R,
        assigned: bool,
        origin: Origin<'_>,
        text: &str,
        block: &mut Block,
        sink: &mut S,
    ) -> Result<(), Fault>
        requires within { IsWithin self.old }
        requires counts { self.old.chars + length (chars text.now) ≤ u64.MAX }
        ensures within { OnOk result (IsWithin self.new) }
        ensures chars { OnOk result (self.new.chars ≡ self.old.chars + length (chars text.now)) }
        ensures faults { IfErr result IsOfTaking }
        ensures takes { TakesAfter assigned (R.properties rows.now) self.old (block_state (S.state sink.old) block.old) self.new (block_state (S.state sink.new) block.new) origin.entry.begin origin.entry.bytes.now (chars text.now) result }
        ensures lender { (S.state sink.new).lender ≡ (S.state sink.old).lender }
    {
        let (front, rest) = split_allowed(rows, assigned, text);
        if let Err(fault) = self.take_text(rows, origin, front, block, sink) {
            return Err(fault);
        }
        if rest.is_empty() {
            return Ok(());
        }
        Err(Fault::Unassigned {
            at: origin.at(front.len()),
        })
    }

    /// Takes a text.
    fn take_text<R: Rows, S: Sink>(
        &mut self,
        rows: &R,
        origin: Origin<'_>,
        text: &str,
        block: &mut Block,
        sink: &mut S,
    ) -> Result<(), Fault>
        requires within { IsWithin self.old }
        requires counts { self.old.chars + length (chars text.now) ≤ u64.MAX }
        ensures within { OnOk result (IsWithin self.new) }
        ensures chars { OnOk result (self.new.chars ≡ self.old.chars + length (chars text.now)) }
        ensures faults { IfErr result IsOfTaking }
        ensures takes { TakesAsIs (R.properties rows.now) self.old (block_state (S.state sink.old) block.old) self.new (block_state (S.state sink.new) block.new) origin.entry.begin origin.entry.bytes.now (chars text.now) result }
        ensures lender { (S.state sink.new).lender ≡ (S.state sink.old).lender }
    {
        let mut rest = text;
        let mut formed = Formed::new();
        while !rest.is_empty() {
            let seen = text.len() - rest.len();
            match self.step(rows, origin, seen, rest, &mut formed, block, sink) {
                Ok(after) => rest = after,
                Err(fault) => return Err(fault),
            }
        }
        self.chars += char_count(text) as u64;
        Ok(())
    }

    /// Takes a front of the text, before which `seen` bytes of it were taken, and writes what that settles. Answers what
    /// stands after it.
    /// What `formed` holds is lost: it is room that each step uses anew.
    fn step<'t, R: Rows, S: Sink>(
        &mut self,
        rows: &R,
        origin: Origin<'_>,
        seen: usize,
        text: &'t str,
        formed: &mut Formed,
        block: &mut Block,
        sink: &mut S,
    ) -> Result<&'t str, Fault>
        requires some { 0 < length text.now }
        requires within { IsReady self.old.normalizer }
        requires counts { self.old.put + length (chars text.now) ≤ u64.MAX }
        requires fits { seen + length text.now ≤ usize.MAX }
        ensures passes { MatchResult result (λ rest. HasStepped self.old self.new text.now rest.now) IsOfTaking }
        ensures steps { let p = R.properties rows.now in
            (f : Form) (place : List ℕ → ℕ) (x : List ℕ) (start : Start) → Standing f p self.old start (block_state (S.state sink.old) block.old) x (chars text.now)
            → IsPlacedAt place origin.entry.begin origin.entry.bytes.now seen x (chars text.now) → MatchResult result (λ rest. StandsInFront f p self.new start (block_state (S.state sink.new) block.new) x text.now rest.now)
            (λ fault. TakesAllowed false f p self.new start (block_state (S.state sink.new) block.new) place (x ++ chars text.now) (Err fault)) }
        ensures lender { (S.state sink.new).lender ≡ (S.state sink.old).lender }
    {
        if let Err(Failed) = block.make_room(STEP, sink) {
            return Err(Fault::Write);
        }
        match self.normalizer.step(rows, text, &mut block.room, formed) {
            Step::Taken { same, rest, put } => {
                self.put += put;
                match block.push_form(same, formed, sink) {
                    Ok(()) => Ok(rest),
                    Err(Failed) => Err(Fault::Write),
                }
            }
            Step::Unsound { rest } => Err(Fault::Row {
                at: origin.at(seen + text.len() - rest.len()),
            }),
        }
    }
}

/// The characters at the front of the text that are taken, all or the assigned ones, and what stands after them.
fn split_allowed<'t, R: Rows>(rows: &R, assigned: bool, text: &'t str) -> (&'t str, &'t str)
    ensures front { chars result.0.now ≡ allowed assigned (R.properties rows.now) (chars text.now) }
    ensures whole { chars text.now ≡ chars result.0.now ++ chars result.1.now }
{
    if !assigned {
        return (text, "");
    }
    let rest = past_assigned(rows, text);
    text.split_at(text.len() - rest.len())
}

/// What stands after the assigned characters at the front of the text (general category other than Cn).
fn past_assigned<'t, R: Rows>(rows: &R, text: &'t str) -> &'t str
    ensures after { IsAfterAssigned (R.properties rows.now) text.now result.now }
    ensures stops { take_while (R.properties rows.now).assigned (chars result.now) ≡ [] }
{
    let mut rest = &text[assigned_front(rows, text)..];
    loop {
        let mut chars = rest.chars();
        let Some(c) = chars.next() else {
            return rest;
        };
        if !rows.assigned(c) {
            return rest;
        }
        rest = chars.as_str();
    }
}

/// How many bytes at the front of the text are of characters that are known to be assigned, without asking for each: of Unicode's
/// own data all but some before the first other, or before the end.
#[inline]
fn assigned_front<R: Rows>(rows: &R, text: &str) -> usize
    ensures boundary { IsCharBoundary text.now result }
    ensures assigned { list_all (R.properties rows.now).assigned (chars (take result text.now)) ≡ true }
{
    if rows.is_ucd() {
        nf_assigned::assigned_front(text)
    } else {
        0
    }
}
