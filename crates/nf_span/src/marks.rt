ghost use Rattle.std.specs.Prelude.{◌≡◌, ◌≤◌, ◌+◌, false, IfSome, IsNone};
ghost use Rattle.nf_forms.specs.Ucd.{ucd};
ghost use Rattle.nf_forms.specs.Span.{GoesOn};
ghost use Rattle.nf_entry.specs.Entry.{IsEntry};
ghost use Rattle.nf_span.specs.Going.{goes_on};

use nf_entry::Entry;
use nf_facts::laws;
use nf_forms::{Form, MAX_RUN};

/// No decomposition has more members, so that after one character this is a bound of how many there are.
const MAX_ROW: u8 = 18;

/// The marks that a span ends in.
#[derive(Clone, Copy)]
pub(crate) struct Marks {
    /// The class of the last, the greatest of them, and 0 where none stands there, or a starter of which NFKD has a mark.
    pub class: u8,
    /// A bound of how many non-starters the NFKD of the text ends in.
    pub count: u8,
}

impl Marks {
    /// Where no text stands: after a full run no mark can come, so that a span begins with a character before which
    /// a text may be cut.
    pub const FULL: Marks = Marks {
        class: 0,
        count: MAX_RUN,
    };

    /// After a character before which a text may be cut.
    pub const NONE: Marks = Marks {
        class: 0,
        count: MAX_ROW,
    };

    /// The marks after one character more, where its entry tells that the text goes on as a span with it.
    #[inline(always)]
    pub fn after(self, form: Form, _c: char, entry: Entry) -> Option<Marks>
        requires { IsEntry _c entry }
        ensures goes_on { IfSome result (λ next. GoesOn ucd form self.class self.count _c next.class next.count) }
        ensures stops { IsNone result → goes_on form self.class self.count _c ≡ false }
    {
        laws::every_character_is_sound();
        laws::the_quick_check_tells();
        laws::what_passes_has_a_boundary_before();
        laws::some_starters_count_as_marks();
        if entry.passes(form) {
            return Some(Marks::NONE);
        }
        let class = entry.class();
        if !entry.is_yes(form) || class != 0 && class < self.class {
            return None;
        }
        self.counted(class)
    }

    /// With one non-starter more, where one may come.
    #[inline(always)]
    fn counted(self, class: u8) -> Option<Marks>
        ensures counts { IfSome result (λ next. (next.class ≡ class) × (next.count ≡ self.count + 1) × (next.count ≤ 30)) }
        ensures full { IsNone result → 30 ≤ self.count }
    {
        if self.count >= MAX_RUN {
            return None;
        }
        Some(Marks {
            class,
            count: self.count + 1,
        })
    }
}
