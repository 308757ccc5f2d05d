//! Laws of what is settled, each the contract of a function without a body.
ghost use Rattle.std.specs.Prelude.{◌≡◌, ℕ, ◌+◌, ◌≤◌, List, ◌++◌, length};
ghost use Rattle.nf_forms.specs.Properties.{Properties};
ghost use Rattle.nf_forms.specs.Runs.{trail};
ghost use Rattle.nf_forms.specs.Front.{front};
ghost use Rattle.nf_forms.specs.declared.form.Form.{Form};
ghost use Rattle.nf_forms.specs.Forms.{row_of, finished};
ghost use Rattle.nf_forms.specs.Boundary.{HasBoundaryBefore};
ghost use Rattle.nf_pending.specs.declared.pending.Pending.{Pending};
ghost use Rattle.nf_pending.specs.StandsAfter.{StandsAfter};

/// What has settled is never taken back: whatever comes after a decomposed text, the front of its form stays as a
/// beginning of the front.
pub fn front_only_grows()
    ensures { (f : Form) (p : Properties) (w v : List ℕ)
        → (more : List ℕ) × (front p (finished f p (w ++ v)) ≡ front p (finished f p w) ++ more) }
{}

/// Of a decomposed text that ends in at most 30 non-starters, at most 31 code points of the form are not settled.
pub fn pending_is_bounded()
    ensures { (f : Form) (p : Properties) (w : List ℕ)
        → trail p w ≤ 30 → length (finished f p w) ≤ length (front p (finished f p w)) + 31 }
{}

/// A machine that has taken the decomposition of a character with a boundary before it, and what came after that, stands after
/// any text with these at its end: so a new machine can go on there (UAX #15, section 9).
pub fn a_machine_may_begin_anew()
    ensures { (f : Form) (p : Properties) (pending : Pending) (w v : List ℕ) (c : ℕ) → HasBoundaryBefore p f c
        → StandsAfter f p pending (row_of f p c ++ v) → StandsAfter f p pending (w ++ (row_of f p c ++ v)) }
{}
