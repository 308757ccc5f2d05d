//! Laws of the definitions, each the contract of a function without a body.
ghost use Rattle.std.specs.Prelude.{◌≡◌, ◌≤◌, ℕ, false, List, [], ◌∷◌, ◌++◌, IsTrue};
ghost use Rattle.std.specs.Str.{all_scalars};
ghost use Rattle.nf_forms.specs.Properties.{Properties};
ghost use Rattle.nf_forms.specs.Runs.{trail};
ghost use Rattle.nf_forms.specs.Front.{front};
ghost use Rattle.nf_forms.specs.Order.{order};
ghost use Rattle.nf_forms.specs.Ordering.{IsOrderingOf};
ghost use Rattle.nf_forms.specs.declared.form.Form.{Form};
ghost use Rattle.nf_forms.specs.declared.form.Form.TheVariants.{Nfd, Nfkd};
ghost use Rattle.nf_forms.specs.Forms.{row_of, decomposed, composes, finished, normal_form};
ghost use Rattle.nf_forms.specs.StreamSafe.{stream_safe};
ghost use Rattle.nf_forms.specs.SafeForm.{safe_form};
ghost use Rattle.nf_forms.specs.Boundary.{HasBoundaryBefore, IsOwnBoundary};
ghost use Rattle.nf_forms.specs.Closing.{IsClosing};
ghost use Rattle.nf_forms.specs.Span.{IsSpan};
ghost use Rattle.nf_forms.specs.Audit.{IsAudited};
ghost use Rattle.nf_forms.specs.Twice.{ChangesOnce};
ghost use Rattle.nf_forms.specs.Laws.Sound.{IsSoundText};

/// Canonical ordering makes of a text an ordered one in which the starters, and the non-starters of each class between
/// them, follow one another as they did; no other text is so (The Unicode Standard, section 3.11, D109).
pub fn ordering_is_stable()
    ensures ordering { (p : Properties) (w : List ℕ) → IsOrderingOf p w (order p w) }
    ensures only { (p : Properties) (w v : List ℕ) → IsOrderingOf p w v → v ≡ order p w }
{}

/// A text may be cut before an own boundary, and each piece brought into the form by itself. Alone that
/// character is its own form, and it settles all that stands before it (UAX #15, section 9).
pub fn a_text_may_be_cut()
    ensures row { (p : Properties) (f : Form) (c : ℕ) → HasBoundaryBefore p f c → (w v : List ℕ)
        → finished f p (w ++ (row_of f p c ++ v)) ≡ finished f p w ++ finished f p (row_of f p c ++ v) }
    ensures cut { (p : Properties) (f : Form) (c : ℕ) → IsOwnBoundary p f c → (x y : List ℕ) → IsSoundText p (stream_safe p x)
        → safe_form f p (x ++ c ∷ y) ≡ safe_form f p x ++ safe_form f p (c ∷ y) }
    ensures alone { (p : Properties) (f : Form) (c : ℕ) → IsOwnBoundary p f c → safe_form f p (c ∷ []) ≡ c ∷ [] }
    ensures settles { (p : Properties) (f : Form) (c : ℕ) → IsOwnBoundary p f c → (x : List ℕ) → IsSoundText p (stream_safe p x)
        → front p (safe_form f p (x ++ c ∷ [])) ≡ safe_form f p x }
{}

/// A span goes into the stream-safe text and into the form as it is, whatever stands before it. It settles what
/// stood before it, and its own front.
pub fn a_span_is_its_own_form()
    ensures safe { (p : Properties) (f : Form) (cs : List ℕ) (class count : ℕ) → IsSpan p f cs class count → (x : List ℕ)
        → IsSoundText p (stream_safe p x) → stream_safe p (x ++ cs) ≡ stream_safe p x ++ cs }
    ensures form { (p : Properties) (f : Form) (cs : List ℕ) (class count : ℕ) → IsSpan p f cs class count → (x : List ℕ)
        → IsSoundText p (stream_safe p x) → safe_form f p (x ++ cs) ≡ safe_form f p x ++ cs }
    ensures settled { (p : Properties) (f : Form) (c : ℕ) (cs : List ℕ) (class count : ℕ) → IsSpan p f (c ∷ cs) class count → (x : List ℕ)
        → IsSoundText p (stream_safe p x) → front p (safe_form f p (x ++ c ∷ cs)) ≡ safe_form f p x ++ front p (c ∷ cs) }
    ensures bound { (p : Properties) (f : Form) (c : ℕ) (cs : List ℕ) (class count : ℕ) → IsSpan p f (c ∷ cs) class count → (x : List ℕ)
        → IsSoundText p (stream_safe p x) → trail p (decomposed Nfkd p (stream_safe p (x ++ c ∷ cs))) ≤ count }
{}

/// Over audited data a text of scalar values and its NFD have one NFKD, and what a filter writes in NFD or NFKD is
/// stream-safe and unchanged when it is brought into that form again: a second filter changes nothing.
pub fn a_second_decomposition_changes_nothing()
    ensures nfkd { (p : Properties) → IsAudited p → (x : List ℕ) → IsTrue (all_scalars x)
        → normal_form Nfkd p (normal_form Nfd p x) ≡ normal_form Nfkd p x }
    ensures safe { (p : Properties) → IsAudited p → (f : Form) → composes f ≡ false → (x : List ℕ) → IsTrue (all_scalars x)
        → stream_safe p (safe_form f p x) ≡ safe_form f p x }
    ensures form { (p : Properties) → IsAudited p → (f : Form) → composes f ≡ false → (x : List ℕ) → IsTrue (all_scalars x)
        → safe_form f p (safe_form f p x) ≡ safe_form f p x }
{}

/// So over audited data what a filter writes in NFD or NFKD is a text again, and a second filter changes nothing of it.
pub fn decompositions_change_a_text_once()
    ensures { (p : Properties) → IsAudited p → (f : Form) → composes f ≡ false → ChangesOnce f p }
{}

/// A text may be cut after a character that closes it, as at the end of a line, and each part brought into the form by
/// itself, whatever the parts are.
pub fn a_text_may_be_cut_after()
    ensures safe { (p : Properties) (f : Form) (c : ℕ) → IsClosing p f c → (x y : List ℕ)
        → stream_safe p ((x ++ c ∷ []) ++ y) ≡ stream_safe p (x ++ c ∷ []) ++ stream_safe p y }
    ensures form { (p : Properties) (f : Form) (c : ℕ) → IsClosing p f c → (x y : List ℕ)
        → safe_form f p ((x ++ c ∷ []) ++ y) ≡ safe_form f p (x ++ c ∷ []) ++ safe_form f p y }
{}
