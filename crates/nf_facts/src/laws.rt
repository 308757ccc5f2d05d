//! Facts of Unicode's data, each the contract of a function without a body. `ucd` is that data, in the words of
//! `nf_forms`; `kit_form` names a form as `unicode_normalization` does.
ghost use Rattle.std.specs.Prelude.{◌≡◌, ◌≢◌, ◌<◌, ◌≤◌, ℕ, false, List, [], ◌∷◌, ◌++◌, ◌||◌, length, flat_map, IsTrue, Some, None};
ghost use Rattle.std.specs.Char.{IsScalar};
ghost use Rattle.std.specs.List.{All};
ghost use Rattle.std.specs.Str.{all_scalars};
ghost use Rattle.ucd_table.specs.Rows.{in_ranges};
ghost use Rattle.ucd_normal.specs.CanonicalCombiningClass.{canonical_combining_class};
ghost use Rattle.ucd_normal.specs.QuickCheck.{quick_check};
ghost use Rattle.ucd_normal.specs.declared.forms.QuickCheck.TheVariants.{Yes, No};
ghost use Rattle.unicode_normalization.specs.Forms.{normalize};
ghost use Rattle.unicode_normalization.specs.StreamSafe.{stream_safe as kit_stream_safe};
ghost use Rattle.nf_forms.specs.Properties.{is_nonstarter};
ghost use Rattle.nf_forms.specs.Runs.{has_starter, lead};
ghost use Rattle.nf_forms.specs.declared.form.Form.{Form};
ghost use Rattle.nf_forms.specs.declared.form.Form.TheVariants.{Nfkd};
ghost use Rattle.nf_forms.specs.Forms.{normal_form, IsOwnRow};
ghost use Rattle.nf_forms.specs.Ordering.{is_ordered};
ghost use Rattle.nf_forms.specs.Compose.{composite};
ghost use Rattle.nf_forms.specs.StreamSafe.{stream_safe};
ghost use Rattle.nf_forms.specs.SafeForm.{safe_form};
ghost use Rattle.nf_forms.specs.Sound.{is_sound};
ghost use Rattle.nf_forms.specs.Audit.{IsAudited};
ghost use Rattle.nf_forms.specs.Twice.{HasScalarRows, ChangesOnce};
ghost use Rattle.nf_forms.specs.Ucd.{ucd};
ghost use Rattle.nf_forms.specs.Boundary.{NeverSecond, HasBoundaryBefore, IsOwnBoundary};
ghost use Rattle.nf_forms.specs.Closing.{IsClosing};
ghost use Rattle.nf_forms.specs.Span.{IsMark};
ghost use Rattle.nf_forms.specs.Laws.Sound.{IsSoundText};
ghost use Rattle.nf_facts.specs.KitForm.{kit_form};
ghost use Rattle.nf_facts.specs.After.{after};
ghost use Rattle.nf_facts.specs.LineFeed.{line_feed};
ghost use Rattle.nf_facts.specs.Passing.{is_among, halfwidth_marks, vowel_signs, mapped_marks, composing_classes, passes_check};
ghost use Rattle.nf_facts.specs.Plain.{IsPlain};
ghost use Rattle.nf_facts.specs.PlainRanges.{plain_ranges};

/// Every character is sound, and so is every text.
#[inline]
pub fn every_character_is_sound()
    ensures character { (c : ℕ) → IsTrue (is_sound ucd c) }
    ensures text { (x : List ℕ) → IsSoundText ucd x }
{}

/// Each member of a decomposition decomposes no further (The Unicode Standard, section 3.7, D65 and D68). The
/// compatibility decompositions of the members of a canonical one make up the compatibility decomposition, in this
/// order; the non-starters among these members are their own.
#[inline]
pub fn rows_are_full()
    ensures canonical { (c : ℕ) → All (λ x. ucd.canonical x ≡ x ∷ []) (ucd.canonical c) }
    ensures compat { (c : ℕ) → All (λ x. ucd.compat x ≡ x ∷ []) (ucd.compat c) }
    ensures joined { (c : ℕ) → flat_map ucd.compat (ucd.canonical c) ≡ ucd.compat c }
    ensures marks { (c : ℕ) → All (λ x. IsTrue (is_nonstarter ucd x) → ucd.compat x ≡ x ∷ []) (ucd.canonical c) }
{}

/// The compatibility decomposition of a starter begins with a starter, and a non-starter is its own canonical and
/// compatibility decomposition, but for five starters and four non-starters.
#[inline]
pub fn exceptions_are_few()
    ensures starter { (c : ℕ) → canonical_combining_class c ≡ 0 → is_among vowel_signs c ≡ false → is_among halfwidth_marks c ≡ false
        → lead ucd (ucd.compat c) ≡ 0 }
    ensures mark { (c : ℕ) → 0 < canonical_combining_class c → is_among mapped_marks c ≡ false → IsMark ucd c (canonical_combining_class c) }
{}

/// What the class and the quick check of a character tell (UAX #15, section 9): before a starter that passes, U+FF9E
/// and U+FF9F aside, a text may be cut; a non-starter whose answer is not No is its own decomposition; and what
/// passes composes with nothing before it.
#[inline]
pub fn the_quick_check_tells()
    ensures own_boundary { (f : Form) (c : ℕ) → IsTrue (passes_check f c) → IsOwnBoundary ucd f c }
    ensures mark { (f : Form) (c : ℕ) → 0 < canonical_combining_class c → quick_check (kit_form f) c ≢ No → IsMark ucd c (canonical_combining_class c) }
    ensures never_second { (f : Form) (c : ℕ) → quick_check (kit_form f) c ≡ Yes → NeverSecond ucd f c }
{}

/// A starter that passes the quick check has a boundary before it, and alone is its own form (UAX #15, section 9), a halfwidth
/// mark too.
#[inline]
pub fn what_passes_has_a_boundary_before()
    ensures boundary_before { (f : Form) (c : ℕ) → canonical_combining_class c ≡ 0 → quick_check (kit_form f) c ≡ Yes → HasBoundaryBefore ucd f c }
    ensures alone { (f : Form) (c : ℕ) → quick_check (kit_form f) c ≡ Yes → normal_form f ucd (c ∷ []) ≡ c ∷ [] }
{}

/// The compatibility rows of the five starters that begin with a non-starter have no starter; that of a halfwidth mark is one
/// character, and its canonical row is itself.
#[inline]
pub fn some_starters_count_as_marks()
    ensures none { (c : ℕ) → IsTrue (is_among halfwidth_marks c || is_among vowel_signs c) → has_starter ucd (ucd.compat c) ≡ false }
    ensures once { (c : ℕ) → IsTrue (is_among halfwidth_marks c) → length (ucd.compat c) ≡ 1 }
    ensures own { (c : ℕ) → IsTrue (is_among halfwidth_marks c) → ucd.canonical c ≡ c ∷ [] }
{}

/// In these ranges, which the first bytes of a character in UTF-8 can tell, every character passes: a list for each form.
#[inline]
pub fn plain_ranges_pass()
    ensures { (f : Form) (c : ℕ) → IsTrue (in_ranges (plain_ranges f) c) → IsTrue (passes_check f c) }
{}

/// An ASCII character is a starter, its own decomposition, assigned, and second in no pair of the table of composites.
#[inline]
pub fn ascii_is_plain()
    ensures { (c : ℕ) → c < 0x80 → IsPlain ucd c }
{}

/// The forms and the Stream-Safe Text Process are those of `unicode_normalization`, whose own laws so hold of them.
#[inline]
pub fn forms_are_those_of_the_kit()
    ensures form { (f : Form) (x : List ℕ) → normal_form f ucd x ≡ normalize (kit_form f) x }
    ensures safe { (x : List ℕ) → stream_safe ucd x ≡ kit_stream_safe x }
{}

/// Two forms one after the other are one form, also of stream-safe text.
#[inline]
pub fn two_forms_are_one()
    ensures form { (f g : Form) (x : List ℕ) → normal_form g ucd (normal_form f ucd x) ≡ normal_form (after g f) ucd x }
    ensures safe { (f g : Form) (x : List ℕ) → safe_form g ucd (safe_form f ucd x) ≡ safe_form (after g f) ucd x }
{}

/// The form of the stream-safe text is stream-safe, and unchanged when it is brought into that form again: a second
/// filter changes nothing.
#[inline]
pub fn a_second_filter_changes_nothing()
    ensures safe { (f : Form) (x : List ℕ) → stream_safe ucd (safe_form f ucd x) ≡ safe_form f ucd x }
    ensures form { (f : Form) (x : List ℕ) → safe_form f ucd (safe_form f ucd x) ≡ safe_form f ucd x }
{}

/// What the data has for scalar values are scalar values (The Unicode Standard, section 3.9, D76): the members of their
/// decompositions, and what two of them compose to. So the form of a text is a text.
#[inline]
pub fn the_form_of_a_text_is_a_text()
    ensures rows { HasScalarRows ucd }
    ensures pair { (a b c : ℕ) → ucd.pair a b ≡ Some c → IsScalar c }
    ensures form { (f : Form) (x : List ℕ) → IsTrue (all_scalars x) → IsTrue (all_scalars (normal_form f ucd x)) }
{}

/// So what a filter writes is a text again, and a second filter changes nothing of it, in all four forms.
#[inline]
pub fn each_form_changes_a_text_once()
    ensures { (f : Form) → ChangesOnce f ucd }
{}

/// Unicode's data passes the audit: every character is sound, its rows are full, and the canonical one lies within the
/// compatibility one.
#[inline]
pub fn the_data_is_audited()
    ensures { IsAudited ucd }
{}

/// Each decomposition is in canonical order (The Unicode Standard, section 3.11, D109).
#[inline]
pub fn rows_are_ordered()
    ensures canonical { (c : ℕ) → IsTrue (is_ordered ucd (ucd.canonical c)) }
    ensures compat { (c : ℕ) → IsTrue (is_ordered ucd (ucd.compat c)) }
{}

/// What passes the quick check of NFKD decomposes no further, in any form (UAX #15, section 9).
#[inline]
pub fn what_passes_in_nfkd_is_its_own_row()
    ensures { (c : ℕ) → quick_check (kit_form Nfkd) c ≡ Yes → IsOwnRow ucd c }
{}

/// Whatever the table of composites has for two characters is a starter, and so their primary composite (The Unicode
/// Standard, section 3.11, D114).
#[inline]
pub fn each_pair_has_a_primary_composite()
    ensures { (a b : ℕ) → composite ucd a b ≡ ucd.pair a b }
{}

/// What composes with a character before it is of one of eleven classes, 0 among them.
#[inline]
pub fn few_classes_compose()
    ensures { (a c : ℕ) → is_among composing_classes (canonical_combining_class c) ≡ false → composite ucd a c ≡ None }
{}

/// A text may be cut after each line feed (U+000A), and each part brought into the form by itself, whatever the parts are.
#[inline]
pub fn lines_are_formed_alone()
    ensures closing { (f : Form) → IsClosing ucd f line_feed }
    ensures form { (f : Form) (x y : List ℕ)
        → safe_form f ucd ((x ++ line_feed ∷ []) ++ y) ≡ safe_form f ucd (x ++ line_feed ∷ []) ++ safe_form f ucd y }
{}

/// After a canonical form each form can be had as of the source, and after any form the compatibility forms can. After
/// NFKC and NFKD the canonical forms cannot: some text comes out otherwise, as U+FB01, of which they have two letters.
#[inline]
pub fn a_later_form_may_come_too_late()
    ensures direct { (f g : Form) → after g f ≡ g → (x : List ℕ) → safe_form g ucd (safe_form f ucd x) ≡ safe_form g ucd x }
    ensures lost { (f g : Form) → after g f ≢ g → (x : List ℕ) × (safe_form g ucd (safe_form f ucd x) ≢ safe_form g ucd x) }
{}

/// The conjoining Hangul letters (The Unicode Standard, section 3.12) are starters, and decompose no further.
#[inline]
pub fn hangul_letters_are_their_own_rows()
    ensures starter { (c : ℕ) → 0x1100 ≤ c → c < 0x1200 → canonical_combining_class c ≡ 0 }
    ensures own { (c : ℕ) → 0x1100 ≤ c → c < 0x1200 → IsOwnRow ucd c }
{}
