ghost use Rattle.std.specs.Prelude.{◌≡◌};
ghost use Rattle.nf_entry.specs.Entry.{IsEntry};

use nf_entry::Entry;
use nf_facts::laws;
use nf_forms::Form;

/// The first character of a text, as one look-up sees it.
#[derive(Clone, Copy)]
pub(crate) struct Seen<'t> {
    /// The text that it begins.
    pub text: &'t str,
    pub character: char,
    pub known: Entry,
    /// What stands after it.
    pub after: &'t str,
}

impl<'t> Seen<'t> {
    ghost use Rattle.std.specs.Prelude.{IsTrue, IfSome};
    ghost use Rattle.nf_entry.specs.Entry.{IsOfFirst};
    ghost use Rattle.nf_boundary.specs.Seen.{Sees, IsAtBoundary};

    #[inline(always)]
    pub fn first(text: &'t str) -> Option<Seen<'t>>
        ensures { IfSome result (λ seen. (seen.text.now ≡ text.now) × Sees seen) }
    {
        let mut chars = text.chars();
        let character = chars.next()?;
        Some(Seen {
            text,
            character,
            known: look_up(character),
            after: chars.as_str(),
        })
    }

    /// The same, where its entry is at hand: with no look-up.
    #[inline(always)]
    pub fn known_first(text: &'t str, known: Entry) -> Option<Seen<'t>>
        requires { IsOfFirst text.now known }
        ensures { IfSome result (λ seen. (seen.text.now ≡ text.now) × Sees seen) }
    {
        let mut chars = text.chars();
        let character = chars.next()?;
        Some(Seen {
            text,
            character,
            known,
            after: chars.as_str(),
        })
    }

    /// The first character, where a text may be cut before it.
    #[inline(always)]
    pub fn boundary(form: Form, text: &'t str) -> Option<Seen<'t>>
        ensures { IfSome result (λ seen. (seen.text.now ≡ text.now) × IsAtBoundary form seen) }
    {
        let seen = Seen::first(text)?;
        if !seen.is_boundary(form) {
            return None;
        }
        Some(seen)
    }

    /// Whether a span comes, as far as it and the next character tell: both are left as they are, and a text may be cut between
    /// them. In a form that composes, after what that changed, a character with one mark is one too, but none is where the
    /// character after it composes.
    #[inline(always)]
    pub fn is_span_before(self, form: Form, next: Seen<'_>, is_after_changed: bool) -> bool
        requires { Sees next }
    {
        if !self.known.is_yes(form) || !next.known.is_yes(form) {
            return false;
        }
        if !form.composes() || !is_after_changed {
            return next.is_boundary(form);
        }
        if next.is_boundary(form) {
            !composes_on(next.text)
        } else {
            !may_begin_with_mark(next.after) && !composes_on(next.after)
        }
    }

    /// Whether one look-up tells that a text may be cut before it: a starter whose compatibility decomposition begins with
    /// a starter, and which in a form that composes passes the quick check.
    #[inline(always)]
    pub fn is_boundary(self, form: Form) -> bool
        requires { Sees self }
        ensures { IsTrue result → IsAtBoundary form self.entry }
    {
        laws::every_character_is_sound();
        laws::exceptions_are_few();
        laws::the_quick_check_tells();
        if self.known.class() != 0 {
            return false;
        }
        if self.known.begins_with_mark() {
            return false;
        }
        !form.composes() || self.known.is_yes(form)
    }
}

/// The entry of `c`: of ASCII with no look-up.
#[inline(always)]
pub(crate) fn look_up(c: char) -> Entry
    ensures { IsEntry c result }
{
    laws::plain_ranges_pass();
    if c < '\u{80}' {
        return Entry::of_passing(c);
    }
    Entry::of(c)
}

/// Whether the first character composes with the one after it, by all that is likely: a leading consonant of Hangul that modern
/// syllables have, or any other where the first bytes after it begin many that compose with what stands before them.
#[inline(always)]
fn composes_on(text: &str) -> bool {
    let mut chars = text.chars();
    let Some(first) = chars.next() else {
        return false;
    };
    let after = chars.as_str().as_bytes();
    if matches!(first, '\u{1100}'..='\u{1112}') {
        return true;
    }
    if after.len() < 2 {
        return false;
    }
    match after[0] {
        0xCC | 0xCD | 0xE0 | 0xE1 | 0xF0 => true,
        0xD9 => matches!(after[1], 0x93..=0x95),
        0xE3 => after[1] == 0x82,
        _ => false,
    }
}

/// Whether the first bytes leave it open that a mark comes first: none comes before U+0300, nor where most letters of Greek,
/// Cyrillic, Hebrew, Arabic, Chinese and Japanese stand.
#[inline(always)]
pub(crate) fn may_begin_with_mark(text: &str) -> bool {
    let bytes = text.as_bytes();
    if bytes.len() < 2 {
        return false;
    }
    match bytes[0] {
        0x00..=0xCB | 0xCE..=0xD1 | 0xE4..=0xE9 => false,
        0xD7 => bytes[1] < 0x90,
        0xD8 => bytes[1] < 0xA0,
        0xD9 => bytes[1] > 0x8A,
        0xE3 => bytes[1] == 0x80 || bytes[1] == 0x82,
        _ => true,
    }
}
