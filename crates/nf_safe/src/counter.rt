ghost use Rattle.std.specs.Prelude.{◌≡◌, ◌≤◌, ◌+◌, ◌-◌, ◌↔◌, List, ℕ, [], ◌∷◌, ◌++◌, IsSome, IfSome, if◌then◌else◌};
ghost use Rattle.nf_forms.specs.Properties.{Properties};
ghost use Rattle.nf_row.specs.NonStarters.{HasNonStarters};
ghost use Rattle.nf_forms.specs.StreamSafe.{max_run};
ghost use Rattle.nf_safe.specs.Count.{passes, count_step};
ghost use Rattle.nf_safe.specs.Counter.{StandsAfter};

use nf_counts::Counts;
use nf_forms::MAX_RUN;
use nf_row::{NonStarters, Row, Rows};
use std::marker::Model;

/// Counts the non-starters that the NFKD of a text ends in, and tells where the Stream-Safe Text Process puts U+034F
/// (UAX #15, section 13).
#[derive(Clone, Copy, Debug)]
pub struct Counter {
    count: u8,
}

impl Model for Counter {
    ghost Value = { ℕ };

    ghost view = { λ counter. counter.count };

    ghost invariant = { λ counter. counter.count ≤ max_run };

    ghost inverse = { λ n. record { count = n } };
}

impl Counter {
    /// A counter at the start of a text.
    #[inline]
    pub const fn new() -> Counter
        ensures count { result ≡ 0 }
        ensures stands { (p : Properties) → StandsAfter p result [] }
    {
        Counter { count: 0 }
    }

    /// A counter that has counted so many non-starters; none for more than 30.
    #[inline]
    pub fn at(count: u8) -> Option<Counter>
        ensures some { IsSome result ↔ (count ≤ max_run) }
        ensures count { IfSome result (λ counter. counter ≡ count) }
    {
        if count <= MAX_RUN {
            Some(Counter { count })
        } else {
            None
        }
    }

    /// Takes `k`, the compatibility decomposition of the next character, and answers whether U+034F is to be put before
    /// that character: the run would have more than 30 non-starters. The count begins anew there.
    #[inline]
    pub fn step<R: Rows>(&mut self, rows: &R, k: &Row) -> bool
        ensures answer { result ≡ passes (R.properties rows.now) self.old k.now.items }
        ensures count { self.new ≡ count_step (R.properties rows.now) self.old k.now.items }
        ensures stands { (ks : List (List ℕ)) → StandsAfter (R.properties rows.now) self.old ks
            → StandsAfter (R.properties rows.now) self.new (ks ++ k.now.items ∷ []) }
    {
        self.step_by(NonStarters::of_members(rows, k.as_slice()))
    }

    /// The same for a row of which `k` are the ends: they are all that a step asks of it.
    #[inline]
    pub fn step_by(&mut self, k: NonStarters) -> bool
        ensures answer { (p : Properties) (row : List ℕ) → HasNonStarters p row k → result ≡ passes p self.old row }
        ensures count { (p : Properties) (row : List ℕ) → HasNonStarters p row k → self.new ≡ count_step p self.old row }
        ensures stands { (p : Properties) (row : List ℕ) → HasNonStarters p row k → (rows : List (List ℕ)) → StandsAfter p self.old rows
            → StandsAfter p self.new (rows ++ row ∷ []) }
    {
        let is_too_long = self.count as usize + k.lead > usize::from(MAX_RUN);
        self.count = if k.has_starter {
            k.trail as u8
        } else if is_too_long {
            k.lead as u8
        } else {
            self.count + k.lead as u8
        };
        is_too_long
    }

    /// How many non-starters may follow before U+034F is put.
    #[inline]
    pub(crate) fn room(&self) -> u32
        ensures room { result ≡ max_run - self.now }
        ensures within { self.now ≤ max_run }
    {
        u32::from(MAX_RUN - self.count)
    }

    /// Goes on over text of which these are the counts, where no U+034F is put.
    #[inline]
    pub(crate) fn pass(&mut self, counts: &Counts)
        requires { self.old + counts.now.lead ≤ max_run }
        ensures { self.new ≡ (if counts.now.has_starter then counts.now.trail else self.old + counts.now.lead) }
    {
        self.count = if counts.has_starter {
            counts.trail as u8
        } else {
            self.count + counts.lead as u8
        };
    }

    /// The non-starters, 0 to 30, that the decompositions end in which were taken since the last step that answered
    /// true, that one included.
    #[inline]
    pub fn count(&self) -> u8
        ensures value { result ≡ self.now }
        ensures bound { result ≤ max_run }
    {
        self.count
    }
}

impl Default for Counter {
    ghost is_default = { λ counter. counter ≡ 0 };

    #[inline]
    fn default() -> Counter {
        Counter::new()
    }
}
