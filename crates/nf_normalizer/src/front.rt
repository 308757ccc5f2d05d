//! What of a text is taken at once: segments, or a run of plain ASCII, or a character.
use crate::normalizer::Normalizer;
use crate::room::Room;
use nf_boundary::{Formed, Segments, first_segments};
use nf_entry::Entry;
use nf_row::{Form, Rows, known_entry};
use nf_utf8::ascii_prefix;

/// The least bytes of a text of which segments are asked for: each character of a shorter one goes the ordinary way for less.
const MIN_SEGMENT_LEN: usize = 5;

/// The same of one that begins with plain ASCII, most of which is a run of that.
const MIN_ASCII_SEGMENT_LEN: usize = 129;

/// What was taken of a text. For it goes out first what the room holds, then `same`, which stands in the text as it is, and
/// then what was put into the caller's `Formed`.
#[derive(Debug, Drop)]
pub(crate) struct Front<'t> {
    pub same: &'t str,
    /// What is left of the text.
    pub rest: &'t str,
    /// Whether U+034F was put.
    pub joined: bool,
}

/// The refusal of a text whose first character is unsound, or has U+034F before it, which is unsound.
#[derive(Clone, Copy, Debug, PartialEq, Eq)]
pub(crate) struct Unsound;

impl Normalizer {
    ghost use Rattle.std.specs.Prelude.{◌≡◌, ◌+◌, ◌<◌, ◌≤◌, ℕ, List, [], length, Ok, IfSome, IsNone, IfOk, OnOk};
    ghost use Rattle.nf_forms.specs.declared.form.Form.{Form};
    ghost use Rattle.nf_boundary.specs.Front.{IsFirstSegments};
    ghost use Rattle.nf_row.specs.Own.{IsKnownFirst};
    ghost use Rattle.nf_normalizer.specs.Room.{Start, Holds};
    ghost use Rattle.nf_normalizer.specs.Normalizer.{HasTaken, IsWithin, TakesNext, settled_text};
    ghost use Rattle.nf_normalizer.specs.Front.{Passes, Takes};

    /// Takes a front of a text, and puts what that settles into the room.
    #[inline(always)]
    pub(crate) fn take_front<'t, R: Rows>(
        &mut self,
        rows: &R,
        text: &'t str,
        room: &mut Room,
        formed: &mut Formed,
    ) -> Result<Front<'t>, Unsound>
        requires some { 0 < length text.now }
        requires within { IsWithin self.old }
        requires room { length room.old.items + 200 ≤ 4096 }
        requires empty { formed.old.items ≡ [] }
        ensures passes { IfOk result (Passes text.now) }
        ensures within { OnOk result (IsWithin self.new) }
        ensures takes { let p = R.properties rows.now in
            (f : Form) (x : List ℕ) (start : Start) → HasTaken f p self.old x → Holds start room.old.items (settled_text f p x)
            → Takes f p self.new start room.new.items formed.new.items x text.now result }
    {
        let mut chars = text.chars();
        let c = chars.next().unwrap();
        let known = known_entry(rows, c);
        if self.may_begin_segments(known)
            && let Some(front) = self.take_many(rows, text, known, room, formed)
        {
            return Ok(front);
        }
        match self.take_char(rows, c, known, room) {
            Ok(joined) => Ok(Front {
                same: "",
                rest: chars.as_str(),
                joined,
            }),
            Err(unsound) => Err(unsound),
        }
    }

    /// Whether segments may begin with a character, by its entry: they do not with a mark that is its own row, nor with such a
    /// starter that may compose with the one before.
    #[inline(always)]
    fn may_begin_segments(&self, known: Option<Entry>) -> bool {
        let Some(entry) = known else {
            return true;
        };
        if !entry.is_yes(Form::Nfkd) {
            return true;
        }
        entry.class() == 0 && (!self.form.composes() || entry.is_yes(Form::Nfc))
    }

    /// Takes segments, where to ask for them costs less than to do without, or a run of plain ASCII after one
    /// such character that is pending alone.
    #[inline(always)]
    fn take_many<'t, R: Rows>(
        &mut self,
        rows: &R,
        text: &'t str,
        known: Option<Entry>,
        room: &mut Room,
        formed: &mut Formed,
    ) -> Option<Front<'t>>
        requires known { IfSome known (IsKnownFirst (R.properties rows.now) text.now) }
        requires some { 0 < length text.now }
        requires within { IsWithin self.old }
        requires room { length room.old.items + 200 ≤ 4096 }
        ensures none { IsNone result → (self.new ≡ self.old) × (room.new ≡ room.old) × (formed.new.items ≡ []) }
        ensures passes { IfSome result (Passes text.now) }
        ensures within { IsWithin self.new }
        ensures takes { let p = R.properties rows.now in
            (f : Form) (x : List ℕ) (start : Start) → HasTaken f p self.old x → Holds start room.old.items (settled_text f p x)
            → IfSome result (λ front. Takes f p self.new start room.new.items formed.new.items x text.now (Ok front)) }
    {
        if let Some(Segments { same, rest }) = self.first_segments(rows, text, known, formed) {
            self.settle(rows, room);
            return Some(Front {
                same,
                rest,
                joined: false,
            });
        }
        formed.clear();
        let Some(starter) = self.plain_starter() else {
            return None;
        };
        let len = ascii_prefix(text.as_bytes());
        if len == 0 {
            return None;
        }
        let (same, rest) = self.take_ascii(rows, starter, text, len, room);
        Some(Front {
            same,
            rest,
            joined: false,
        })
    }

    /// The segments that a text begins with, where to ask for them costs less than to do without.
    #[inline(always)]
    fn first_segments<'t, R: Rows>(
        &self,
        _rows: &R,
        text: &'t str,
        known: Option<Entry>,
        formed: &mut Formed,
    ) -> Option<Segments<'t>>
        requires some { 0 < length text.now }
        requires known { IfSome known (IsKnownFirst (R.properties _rows.now) text.now) }
        ensures { IfSome result (λ segments. IsFirstSegments (R.properties _rows.now) self.now.form text.now segments.same.now formed.new.items segments.rest.now) }
    {
        let least = if self.is_plain && text.as_bytes()[0] < 0x80 {
            MIN_ASCII_SEGMENT_LEN
        } else {
            MIN_SEGMENT_LEN
        };
        if text.len() < least {
            return None;
        }
        first_segments(self.form, text, known?, formed)
    }
}
