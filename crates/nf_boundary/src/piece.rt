//! A piece of text from one boundary to the next, whatever it is made of: by the decompositions of its characters.
ghost use Rattle.std.specs.Prelude.{◌≡◌, ◌≢◌, ◌+◌, ℕ, true, List, [], ◌∷◌, ◌++◌, take, length, encode_utf8_all, IfSome, IsSome, IsNone};
ghost use Rattle.ucd_normal.specs.CanonicalCombiningClass.{canonical_combining_class};
ghost use Rattle.nf_forms.specs.declared.form.Form.{Form};
ghost use Rattle.nf_forms.specs.Compose.{joined};
ghost use Rattle.nf_forms.specs.Forms.{row_of, finished, composes};
ghost use Rattle.nf_forms.specs.Ucd.{ucd};
ghost use Rattle.nf_boundary.specs.Seen.{Sees};
ghost use Rattle.nf_boundary.specs.Rows.{IsRow};
ghost use Rattle.nf_boundary.specs.Piece.{Becomes, Leaves};

use crate::closing::{Segment, close_off};
use crate::encoding::{append, append_one, put_utf8};
use crate::mark::{Mark, Run, hold};
use crate::rows::Row;
use crate::seen::{Seen, look_up};
use crate::segments::Formed;
use nf_entry::Entry;
use nf_facts::{in_tables, laws};
use nf_forms::{Form, MAX_RUN};
use nf_row::{Ucd, composite};
use unicode_normalization::char::decomposition;

/// So many may stand after any character, whose compatibility decomposition has at most 18 members.
const MAX_MARKS: u8 = 12;

/// So many bytes have a starter and the marks of a run at most.
const MOST_BYTES: usize = 124;

/// What the characters from a boundary on have become: their last starter, and the non-starters after it in order of class.
/// What comes before that starter is appended.
#[derive(Drop)]
pub(crate) struct Piece {
    starter: char,
    run: Run,
    /// So many non-starters more may come.
    room: u8,
}

impl Piece {
    /// Room for the pieces of a front, one after the other.
    #[inline(always)]
    pub fn new() -> Piece {
        Piece {
            starter: ' ',
            run: Run::new(),
            room: 0,
        }
    }

    /// Begins with the first character, in place of what there was. What its decomposition has before its last starter is
    /// appended.
    #[inline(always)]
    pub fn begin(&mut self, form: Form, first: Row<'_>, formed: &mut Formed) -> Option<()>
        requires { IsRow form first }
        ensures becomes { IsSome result → Becomes form (row_of form ucd first.entry.seen.character) self.new.starter self.new.run.items formed.old.items formed.new.items }
        ensures leaves { IsSome result → Leaves (first.entry.seen.character ∷ []) self.new.room }
        ensures keeps { IsNone result → take (length formed.old.items) formed.new.items ≡ formed.old.items }
    {
        laws::every_character_is_sound();
        laws::what_passes_in_nfkd_is_its_own_row();
        self.starter = first.seen.character;
        self.run.clear();
        self.room = MAX_RUN;
        if first.members.is_empty() && first.seen.known.is_yes(Form::Nfkd) {
            return Some(());
        }
        let mut place = [first.seen.character; 3];
        let (starter, others) = first.decomposition(form, &mut place).split_first()?;
        self.starter = *starter;
        for member in others {
            self.push(form, *member, formed)?;
        }
        self.room = MAX_MARKS;
        Some(())
    }

    /// A member more of a decomposition: a non-starter is held, and a starter that composes with nothing before it ends what
    /// stands there.
    #[inline(always)]
    fn push(&mut self, form: Form, member: char, formed: &mut Formed) -> Option<()>
        ensures becomes { IsSome result → (w before : List ℕ) → Becomes form w self.old.starter self.old.run.items before formed.old.items → Becomes form (w ++ member ∷ []) self.new.starter self.new.run.items before formed.new.items }
        ensures stays { IsNone result → formed.new ≡ formed.old }
    {
        laws::the_quick_check_tells();
        let known = look_up(member);
        if !known.passes(form) {
            self.room = hold_one(&mut self.run, self.room, member, known.class())?;
            return Some(());
        }
        self.close(form, formed)?;
        self.starter = member;
        self.run.clear();
        Some(())
    }

    /// A character more before which the text may not be cut: a non-starter, one that decomposes to non-starters, or, in a form
    /// that composes, a starter that may compose with what stands there.
    #[inline(always)]
    pub fn join(&mut self, form: Form, seen: Seen<'_>, formed: &mut Formed) -> Option<()>
        requires { Sees seen }
        ensures becomes { IsSome result → (w before : List ℕ) → Becomes form w self.old.starter self.old.run.items before formed.old.items → Becomes form (w ++ row_of form ucd seen.entry.character) self.new.starter self.new.run.items before formed.new.items }
        ensures leaves { IsSome result → (cs : List ℕ) → Leaves cs self.old.room → Leaves (cs ++ seen.entry.character ∷ []) self.new.room }
        ensures stays { IsNone result → formed.new ≡ formed.old }
    {
        laws::the_quick_check_tells();
        laws::what_passes_in_nfkd_is_its_own_row();
        let class = seen.known.class();
        if class != 0 && !seen.known.is_no(form) {
            self.room = hold_one(&mut self.run, self.room, seen.character, class)?;
            return Some(());
        }
        if class == 0 && form.composes() && seen.known.is_yes(Form::Nfkd) {
            return self.join_starter(form, seen.character, formed);
        }
        self.room = hold_row(form, &mut self.run, self.room, seen.character)?;
        Some(())
    }

    /// A starter more, in a form that composes: where it does not compose with what stands there, that is appended.
    fn join_starter(&mut self, _form: Form, c: char, formed: &mut Formed) -> Option<()>
        requires composing { composes _form ≡ true }
        requires class { canonical_combining_class c ≡ 0 }
        ensures becomes { IsSome result → (w before : List ℕ) → Becomes _form w self.old.starter self.old.run.items before formed.old.items → Becomes _form (w ++ c ∷ []) self.new.starter self.new.run.items before formed.new.items }
        ensures room { IsSome result → self.new.room ≡ 30 }
        ensures stays { IsNone result → formed.new ≡ formed.old }
    {
        let mut text = Segment::new();
        close_off(
            &Ucd,
            true,
            Some(self.starter),
            self.run.as_slice(),
            &mut text,
        );
        self.run.clear();
        self.room = MAX_RUN;
        match joined_to(text.as_slice(), c) {
            Some(composite) => self.starter = composite,
            None => {
                append(formed, text.as_slice())?;
                self.starter = c;
            }
        }
        Some(())
    }

    /// Appends the starter and the non-starters after it, where there is room.
    #[inline(always)]
    pub fn close(&self, form: Form, formed: &mut Formed) -> Option<()>
        ensures closes { IsSome result → (w before : List ℕ) → Becomes form w self.now.starter self.now.run.items before formed.old.items → formed.new.items ≡ before ++ encode_utf8_all (finished form ucd w) }
        ensures stays { IsNone result → formed.new ≡ formed.old }
    {
        if self.run.is_empty() {
            return append_one(formed, self.starter);
        }
        if formed.remaining_capacity() < MOST_BYTES {
            return None;
        }
        let mut text = Segment::new();
        close_off(
            &Ucd,
            form.composes(),
            Some(self.starter),
            self.run.as_slice(),
            &mut text,
        );
        put_utf8(formed, text.as_slice());
        Some(())
    }
}

/// What a starter composes to with what stands before it, closed off, where that is a starter alone.
#[inline]
fn joined_to(text: &[char], c: char) -> Option<char>
    requires { canonical_combining_class c ≡ 0 }
    ensures { (starter : ℕ) (marks : List ℕ) → text.now ≡ starter ∷ marks → result ≡ joined ucd starter marks c }
{
    if text.len() == 1 {
        composite(&Ucd, text[0], c)
    } else {
        None
    }
}

/// A non-starter more, where one may come; answers how many more may come.
#[inline(always)]
fn hold_one(run: &mut Run, room: u8, character: char, class: u8) -> Option<u8>
    requires { class ≡ canonical_combining_class character }
    ensures becomes { IsSome result → (f : Form) (w : List ℕ) (starter : ℕ) (before now : List ℕ)
        → Becomes f w starter run.old.items before now → Becomes f (w ++ character ∷ []) starter run.new.items before now }
    ensures room { IfSome result (λ left. left + 1 ≡ room) }
    ensures class { IsSome result → class ≢ 0 }
{
    if class == 0 || room == 0 || run.is_full() {
        return None;
    }
    hold(run, Mark { character, class });
    Some(room - 1)
}

/// The same of a character that decomposes to non-starters. It stands out of line, since few do.
#[inline(never)]
fn hold_row(form: Form, run: &mut Run, room: u8, c: char) -> Option<u8>
    ensures becomes { IsSome result → (w : List ℕ) (starter : ℕ) (before now : List ℕ)
        → Becomes form w starter run.old.items before now → Becomes form (w ++ row_of form ucd c) starter run.new.items before now }
    ensures leaves { IfSome result (λ left. (cs : List ℕ) → Leaves cs room → Leaves (cs ++ c ∷ []) left) }
{
    laws::rows_are_full();
    let mut place = [c; 3];
    let mut left = room;
    let members = decomposition(c, in_tables(form), &mut place);
    for member in members {
        left = hold_one(run, left, *member, Entry::of(*member).class())?;
    }
    Some(left)
}
