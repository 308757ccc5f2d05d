ghost use Rattle.std.specs.Prelude.{◌≤◌, ◌*◌};

use crate::counter::Counter;
use crate::measure::Measure;
use crate::runs::Runs;
use nf_counts::counted_front;
use nf_row::{JOINER, Rows, Rule, Unsound, sound};
use nf_utf8::char_count;

/// Measures a text, character by character. The text need not be in the Stream-Safe Text Format: its runs are counted
/// whole.
#[derive(Clone, Copy, Debug)]
pub struct Measurer {
    /// What the process counts, and what the text has.
    counter: Counter,
    runs: Runs,
    bytes: u64,
    chars: u64,
    put: u64,
    unassigned: u64,
    ghost chars_within: { chars ≤ bytes },
    ghost put_within: { put ≤ chars },
    ghost unassigned_within: { unassigned ≤ chars },
    ghost nonstarters_within: { runs.nonstarters ≤ 18 * chars },
}

impl Measurer {
    ghost use Rattle.std.specs.Prelude.{◌≡◌, ◌+◌, ◌<◌, ◌≤◌, ℕ, true, List, [], ◌∷◌, ◌++◌, length, None, IsErr, IsNone, IsTrue, IsFalse, IfSome, OnOk, option_map, encode_utf8, encode_utf8_all};
    ghost use Rattle.std.specs.List.{list_all};
    ghost use Rattle.std.specs.Result.{result_err};
    ghost use Rattle.nf_forms.specs.Properties.{Properties};
    ghost use Rattle.nf_safe.specs.Measurer.{values_of, refusal, unsound_at, StandsAfter, HasSeen};

    /// A measurer that has seen nothing.
    pub const fn new() -> Measurer
        ensures { (p : Properties) → StandsAfter p result [] }
    {
        Measurer {
            counter: Counter::new(),
            runs: Runs::new(),
            bytes: 0,
            chars: 0,
            put: 0,
            unassigned: 0,
        }
    }

    /// Sees the next character. It is refused (`Rule::A1`) where it is unsound, and so is U+034F by name where the
    /// Stream-Safe Text Process puts it before the character and it is unsound; nothing changes then.
    #[inline]
    pub fn see<R: Rows>(&mut self, rows: &R, c: char) -> Result<(), Unsound>
        requires { (values_of self.old).bytes + length (encode_utf8 c) ≤ u64.MAX }
        ensures refuses { let p = R.properties rows.now in
            (x : List ℕ) → StandsAfter p self.old x → result_err result ≡ option_map refusal (unsound_at p x c) }
        ensures refused { IsErr result → self.new ≡ self.old }
        ensures bytes { OnOk result ((values_of self.new).bytes ≡ (values_of self.old).bytes + length (encode_utf8 c)) }
        ensures stands { let p = R.properties rows.now in
            (x : List ℕ) → StandsAfter p self.old x → OnOk result (StandsAfter p self.new (x ++ c ∷ [])) }
    {
        let Some((runs, ends)) = self.runs.with_char(rows, c) else {
            return Err(Unsound { c, rule: Rule::A1 });
        };
        let mut counter = self.counter;
        let is_too_long = counter.step_by(ends);
        if is_too_long && !sound(rows, JOINER) {
            return Err(Unsound {
                c: JOINER,
                rule: Rule::A1,
            });
        }
        self.runs = runs;
        self.counter = counter;
        self.bytes += c.len_utf8() as u64;
        self.chars += 1;
        self.put += u64::from(is_too_long);
        self.unassigned += u64::from(!rows.assigned(c));
        Ok(())
    }

    /// Sees the front of the text of which the non-starters are known by one look-up for each character (`counted_front`), for
    /// Unicode's data, and answers what follows.
    #[inline]
    pub fn see_counted<'t, R: Rows>(&mut self, rows: &R, text: &'t str) -> &'t str
        requires { (values_of self.old).bytes + length text.now ≤ u64.MAX }
        ensures shorter { length result.now ≤ length text.now }
        ensures counts { (values_of self.new).bytes + length result.now ≡ (values_of self.old).bytes + length text.now }
        ensures sees { let p = R.properties rows.now in
            (x : List ℕ) → StandsAfter p self.old x → HasSeen p self.new x text.now result.now }
    {
        if !rows.is_ucd() {
            return text;
        }
        let counted = counted_front(self.counter.room(), text);
        self.runs.push_counts(&counted.counts);
        self.counter.pass(&counted.counts);
        self.bytes += counted.front.len() as u64;
        self.chars += char_count(counted.front) as u64;
        self.unassigned += counted.counts.unassigned;
        counted.rest
    }

    /// What it has measured.
    #[inline]
    pub fn values(&self) -> Measure
        ensures { result ≡ values_of self.now }
    {
        Measure {
            bytes: self.bytes,
            chars: self.chars,
            nonstarters: self.runs.nonstarters,
            longest: self.runs.longest,
            put: self.put,
            unassigned: self.unassigned,
        }
    }
}

impl Default for Measurer {
    ghost use Rattle.nf_forms.specs.Properties.{Properties};
    ghost use Rattle.std.specs.Prelude.{[]};
    ghost use Rattle.nf_safe.specs.Measurer.{StandsAfter};

    ghost is_default = { λ measurer. (p : Properties) → StandsAfter p measurer [] };

    fn default() -> Measurer {
        Measurer::new()
    }
}
