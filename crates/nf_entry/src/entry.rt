ghost use Rattle.std.specs.Prelude.{◌≡◌, ◌↔◌, ◌||◌, ℕ, IsTrue};
ghost use Rattle.ucd_normal.specs.declared.forms.QuickCheck.TheVariants.{Yes, No};
ghost use Rattle.ucd_normal.specs.CanonicalCombiningClass.{canonical_combining_class};
ghost use Rattle.ucd_normal.specs.QuickCheck.{quick_check, quick_check_number};
ghost use Rattle.nf_forms.specs.declared.form.Form.{Form};
ghost use Rattle.nf_facts.specs.KitForm.{kit_form};
ghost use Rattle.nf_facts.specs.Passing.{is_among, halfwidth_marks, vowel_signs, passes_check};
ghost use Rattle.nf_entry.specs.Entry.{IsEntry};

use crate::rows::{BLOCKS, INDEX};
use nf_forms::Form;

/// What one look-up tells of a character. No bit is set of most: of a starter that passes in each form.
#[derive(Clone, Copy, Debug)]
pub struct Entry {
    bits: u16,
}

impl Entry {
    /// That of `c`.
    #[inline(always)]
    pub fn of(c: char) -> Entry
        ensures { IsEntry c result }
    {
        let code = c as usize;
        if code / 64 >= INDEX.len() {
            return Entry { bits: 0 };
        }
        Entry {
            bits: BLOCKS[INDEX[code / 64] as usize][code % 64],
        }
    }

    /// That of a character which is known to pass in each form, with no look-up.
    #[inline(always)]
    pub const fn of_passing(_c: char) -> Entry
        requires { (f : Form) → IsTrue (passes_check f _c) }
        ensures { IsEntry _c result }
    {
        Entry { bits: 0 }
    }

    /// The canonical combining class, 0 to 255.
    #[inline(always)]
    pub const fn class(self) -> u8
        ensures { (c : ℕ) → IsEntry c self → result ≡ canonical_combining_class c }
    {
        (self.bits % 0x100) as u8
    }

    /// Whether the answer of the form's quick check is Yes.
    #[inline(always)]
    pub const fn is_yes(self, form: Form) -> bool
        ensures { (c : ℕ) → IsEntry c self → (IsTrue result ↔ (quick_check (kit_form form) c ≡ Yes)) }
    {
        self.answer(form) == 0
    }

    /// Whether the answer of the form's quick check is No.
    #[inline(always)]
    pub const fn is_no(self, form: Form) -> bool
        ensures { (c : ℕ) → IsEntry c self → (IsTrue result ↔ (quick_check (kit_form form) c ≡ No)) }
    {
        self.answer(form) == 1
    }

    /// Whether it is one of the five starters whose compatibility decompositions begin with a non-starter, and have no starter:
    /// U+FF9E, U+FF9F and three vowel signs of Tibetan.
    #[inline(always)]
    pub const fn begins_with_mark(self) -> bool
        ensures { (c : ℕ) → IsEntry c self → result ≡ (is_among halfwidth_marks c || is_among vowel_signs c) }
    {
        self.bits / 0x200 % 2 == 1
    }

    /// Whether it is a starter of which the answer is Yes, and no halfwidth mark.
    #[inline(always)]
    pub const fn passes(self, form: Form) -> bool
        ensures { (c : ℕ) → IsEntry c self → result ≡ passes_check form c }
    {
        self.class() == 0 && self.is_yes(form) && !self.begins_with_mark()
    }

    /// The number of the answer: 0 for Yes, 1 for No, 2 for Maybe.
    #[inline(always)]
    const fn answer(self, form: Form) -> u16
        ensures { (c : ℕ) → IsEntry c self → result ≡ quick_check_number (quick_check (kit_form form) c) }
    {
        match form {
            Form::Nfd => self.bits / 0x100 % 2,
            Form::Nfkd => self.bits / 0x400 % 4,
            Form::Nfc => self.bits / 0x1000 % 4,
            Form::Nfkc => self.bits / 0x4000 % 4,
        }
    }
}
