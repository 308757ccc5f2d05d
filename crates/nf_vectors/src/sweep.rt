ghost use Rattle.std.specs.Prelude.{IsTrue, ◌≡◌, ◌<◌, ℕ, IfOk, false, length, slice_index_or};
ghost use Rattle.nf_vectors.specs.Sweep.{is_listed, is_unchanged};
ghost use Rattle.nf_row.specs.Own.{IsOwn};

use crate::columns::Columns;
use crate::comparison::holds;
use crate::fault::Memory;
use crate::suite::Suite;
use nf_row::{Form, Rows, is_own_row, sound};
use std::alloc::{AllocError, Global};

/// The least number that is above every scalar value.
const CODES: usize = 0x11_0000;

/// What normalization does to the characters that Part 1 of a vector file does not list.
#[derive(Clone, Copy, Debug, PartialEq, Eq)]
pub struct Sweep {
    /// How many scalar values, of 1,112,064, no row of Part 1 has as the only code point of its first column.
    pub unlisted: u32,
    /// How many of these some form changes, each as a text of one character.
    pub failed: u32,
    /// The least of those.
    pub first: Option<char>,
}

impl Suite {
    ghost use Rattle.nf_vectors.specs.SuiteView.{rows_of};
    ghost use Rattle.nf_vectors.specs.Sweep.{sweep_of};

    /// Looks for a change of a character that Part 1 does not list. Takes memory for the set of those that it lists alone.
    pub fn sweep<R: Rows>(&self, alloc: Global, rows: &R) -> Result<Sweep, Memory>
        ensures { IfOk result (λ sweep. sweep ≡ sweep_of (R.properties rows.now) (rows_of self.now)) }
    {
        let Ok(listed) = self.listed(alloc) else {
            return Err(Memory);
        };
        let mut sweep = Sweep {
            unlisted: 0,
            failed: 0,
            first: None,
        };
        for (code, is_listed) in listed.as_slice().iter().enumerate() {
            let Some(c) = char::from_u32(code as u32) else {
                continue;
            };
            if *is_listed {
                continue;
            }
            sweep.unlisted += 1;
            if is_unchanged(rows, c) {
                continue;
            }
            sweep.failed += 1;
            sweep.first = sweep.first.or(Some(c));
        }
        Ok(sweep)
    }

    /// The set of the characters that Part 1 lists: for each code whether it is among them.
    #[tactic(auto, using(std::proofs::lemmas::List::take_all), unfolding(crate::specs::SuiteView::rows_of))]
    fn listed(&self, alloc: Global) -> Result<Vec<bool>, AllocError>
        ensures size { IfOk result (λ listed. length listed.items ≡ 1114112) }
        ensures listed { IfOk result (λ listed. (c : ℕ) → c < 1114112 → slice_index_or listed.items c false ≡ is_listed (rows_of self.now) c) }
    {
        let mut listed = none_of(alloc, CODES)?;
        for entry in self.entries.as_slice() {
            let columns = Columns::<&[char]>::of(self.text.as_slice(), entry.columns);
            if entry.in_part1 && columns.source.len() == 1 {
                listed[columns.source[0] as usize] = true;
            }
        }
        Ok(listed)
    }
}

/// The empty set of codes below `codes`.
fn none_of(alloc: Global, codes: usize) -> Result<Vec<bool>, AllocError>
    ensures size { IfOk result (λ listed. length listed.items ≡ codes) }
    ensures none { IfOk result (λ listed. (c : ℕ) → c < codes → slice_index_or listed.items c false ≡ false) }
{
    vec![in alloc; false; codes]
}

/// Whether no form changes the text of `c` alone.
#[tactic(auto, using(crate::proofs::PlainLemmas::plain_is_unchanged))]
fn is_unchanged<R: Rows>(rows: &R, c: char) -> bool
    ensures { result ≡ is_unchanged (R.properties rows.now) c }
{
    if is_plain(rows, c) {
        return true;
    }
    let mut room = [0; 4];
    let text = c.encode_utf8(&mut room);
    let nfc = holds(rows, Form::Nfc, text, text);
    let nfd = holds(rows, Form::Nfd, text, text);
    let nfkc = holds(rows, Form::Nfkc, text, text);
    let nfkd = holds(rows, Form::Nfkd, text, text);
    // All four are known by now: `&`, since each `&&` would be a case of its own to prove.
    nfc & nfd & nfkc & nfkd
}

/// Whether `c` is a sound starter whose decompositions are `c` alone, as most characters are: no form changes it.
fn is_plain<R: Rows>(rows: &R, c: char) -> bool
    ensures { IsTrue result → IsOwn (R.properties rows.now) c 0 }
{
    sound(rows, c)
        && is_own_row(rows, Form::Nfd, c)
        && is_own_row(rows, Form::Nfkd, c)
        && rows.class(c) == 0
}
