use crate::cut::split_last_starter;
use nf_entry::Entry;
use nf_facts::laws;

/// A text in three, by the span that it begins with: such text goes into the form, and into the stream-safe text, as it is
/// (UAX #15, sections 9 and 13).
#[derive(Clone, Copy, Debug)]
pub struct Span<'t> {
    /// What of the span can change no more, whatever follows.
    pub settled: &'t str,
    /// The last character of it before which a text may be cut, and the marks after that. Empty only where nothing is
    /// a span.
    pub tail: &'t str,
    /// The entry of that character.
    pub known: Option<Entry>,
    /// What stands after it.
    pub rest: &'t str,
}

/// A text in two, by the span that it begins with.
#[derive(Clone, Copy, Debug)]
pub struct SpanText<'t> {
    pub span: &'t str,
    /// What stands after it.
    pub rest: &'t str,
    /// The entry of the first character of that, where it was looked up.
    pub next: Option<Entry>,
}

impl<'t> SpanText<'t> {
    ghost use Rattle.std.specs.Prelude.{ℕ, List, IfSome};
    ghost use Rattle.nf_entry.specs.Entry.{IsOfFirst};
    ghost use Rattle.nf_forms.specs.declared.form.Form.{Form};
    ghost use Rattle.nf_forms.specs.Ucd.{ucd};
    ghost use Rattle.nf_span.specs.Front.{IsSpanText, IsFirstSpan};

    /// The same in three, before the last character of it before which a text may be cut.
    #[inline(always)]
    pub fn split(self) -> Span<'t>
        ensures known { IfSome result.known (IsOfFirst result.tail.now) }
        ensures span { (f : Form) (whole : List ℕ) → IsSpanText ucd f whole self.entry.span.now self.entry.rest.now
            → IsFirstSpan ucd f whole result.settled.now result.tail.now result.rest.now }
    {
        laws::exceptions_are_few();
        laws::some_starters_count_as_marks();
        let (settled, tail, known) = split_last_starter(self.span);
        Span {
            settled,
            tail,
            known,
            rest: self.rest,
        }
    }
}
