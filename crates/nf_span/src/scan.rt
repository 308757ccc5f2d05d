ghost use Rattle.std.specs.Prelude.{◌≡◌};
ghost use Rattle.nf_span.specs.Scan.{form_of};
ghost use Rattle.nf_span.specs.Window.{IsPlainFront};

use crate::blocks::plain_blocks;
use crate::lanes::next_look;
use crate::leads::wants_look;
use crate::marks::Marks;
use crate::window::Window;
use nf_entry::Entry;
use nf_facts::laws;
use nf_forms::Form;

/// The form of a number, for what has a copy for each: NFC, NFD and NFKC of 0, 1 and 2, and NFKD of any other.
#[inline(always)]
pub fn form_of(number: usize) -> Form
    ensures { result ≡ form_of number }
{
    match number {
        0 => Form::Nfc,
        1 => Form::Nfd,
        2 => Form::Nfkc,
        _ => Form::Nfkd,
    }
}

/// A place in a text whose front, up to there, is a span.
#[derive(Clone, Copy)]
pub(crate) struct Scan<'t> {
    /// What stands after it.
    pub rest: &'t str,
    /// The marks right before it.
    pub marks: Marks,
}

/// Where a span ends.
#[derive(Clone, Copy)]
pub(crate) struct End<'t> {
    pub scan: Scan<'t>,
    /// The entry of the character that comes next, if there is one.
    pub next: Option<Entry>,
}

impl<'t> Scan<'t> {
    ghost use Rattle.std.specs.Prelude.{◌≡◌, ◌<◌, ℕ, List, drop, length, IfSome, IfOk, IfErr, IsErr};
    ghost use Rattle.nf_entry.specs.Entry.{IsOfFirst};
    ghost use Rattle.nf_forms.specs.declared.form.Form.{Form};
    ghost use Rattle.nf_span.specs.Scan.{form_of, Reaches, ReachesEnd, Ends, IsAfterCharacter};
    ghost use Rattle.nf_span.specs.Window.{IsPlain, IsPlainFront, IsWindow};

    /// The front of the text.
    #[inline]
    pub fn new(text: &'t str) -> Scan<'t>
        ensures rest { result.rest.now ≡ text.now }
        ensures reaches { (form : Form) → Reaches form text.now result }
    {
        Scan {
            rest: text,
            marks: Marks::FULL,
        }
    }

    /// As far as the text is known to go on as a span, in the form of this number: each form has a copy of the loops of its own.
    pub fn to_end<const FORM: usize>(text: &'t str) -> End<'t>
        ensures ends { Ends (form_of FORM) result.scan }
        ensures span { ReachesEnd (form_of FORM) text.now result }
    {
        let form = form_of(FORM);
        let mut scan = Scan::new(text);
        let mut plain = first_plain(form, text.as_bytes());
        loop {
            let ahead = next_look(form, scan.rest.as_bytes(), plain);
            match scan.past(form, ahead.len).over_window(form, ahead.window) {
                Ok(next) => (scan, plain) = next,
                Err(end) => return end,
            }
        }
    }

    /// After the characters of a window that have to be looked up, and how many bytes there are then of which none begins such a
    /// character; or where the span ends before.
    #[inline(always)]
    fn over_window(self, form: Form, window: Window) -> Result<(Scan<'t>, usize), End<'t>>
        requires { IsWindow form self.rest.now window }
        ensures span { IfOk result (λ next. (text : List ℕ) → Reaches form text self.entry → Reaches form text next.0) }
        ensures shorter { IfOk result (λ next. length next.0.rest.now < length self.entry.rest.now) }
        ensures plain { IfOk result (λ next. IsPlainFront form next.0.rest.now next.1) }
        ensures ends { IfErr result (λ end. Ends form end.scan) }
        ensures reaches { IfErr result (λ end. (text : List ℕ) → Reaches form text self.entry → ReachesEnd form text end) }
    {
        let mut scan = self;
        let mut left = window;
        loop {
            let next = match scan.step(form) {
                Ok(next) => next,
                Err(next) => return Err(End { scan, next }),
            };
            left = left.past(scan.rest.len() - next.rest.len());
            let Some(run) = left.before_next() else {
                return Ok((next, next.rest.len().saturating_sub(left.after)));
            };
            scan = next.past(form, run);
            left = left.past(run);
        }
    }

    /// After so many bytes that begin no character that has to be looked up.
    #[inline(always)]
    pub fn past(self, form: Form, len: usize) -> Scan<'t>
        requires { IsPlain form self.rest.now len }
        ensures rest { result.rest.now ≡ drop len self.entry.rest.now }
        ensures span { (text : List ℕ) → Reaches form text self.entry → Reaches form text result }
    {
        laws::every_character_is_sound();
        laws::the_quick_check_tells();
        laws::plain_ranges_pass();
        if len == 0 {
            return self;
        }
        Scan {
            rest: &self.rest[len..],
            marks: Marks::NONE,
        }
    }

    /// After the next character, where the text goes on as a span with it; else the entry of that, if there is one.
    #[inline(always)]
    fn step(self, form: Form) -> Result<Scan<'t>, Option<Entry>>
        ensures span { IfOk result (λ next. (text : List ℕ) → Reaches form text self.entry → Reaches form text next) }
        ensures rest { IfOk result (λ next. IsAfterCharacter self.entry.rest.now next.rest.now) }
        ensures stops { IsErr result → Ends form self.entry }
        ensures next { (text : List ℕ) → Reaches form text self.entry → IfErr result (λ next. IfSome next (IsOfFirst self.entry.rest.now)) }
    {
        let mut chars = self.rest.chars();
        let Some(c) = chars.next() else {
            return Err(None);
        };
        let known = Entry::of(c);
        match self.marks.after(form, c, known) {
            Some(marks) => Ok(Scan {
                rest: chars.as_str(),
                marks,
            }),
            None => Err(Some(known)),
        }
    }
}

/// How many bytes there are in front of which none begins a character that has to be looked up, by blocks.
#[inline(always)]
fn first_plain(form: Form, bytes: &[u8]) -> usize
    ensures { IsPlainFront form bytes.now result }
{
    if bytes.is_empty() || wants_look(form, bytes[0]) {
        return 0;
    }
    plain_blocks(form, bytes)
}
