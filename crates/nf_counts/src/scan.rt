ghost use Rattle.std.specs.Prelude.{◌≤◌};

use crate::counts::Counts;
use crate::piece::{Piece, first_character, first_piece};
use crate::table::UNASSIGNED;
use crate::window::Window;
use nf_facts::laws;

/// So many bytes at the front of a text are asked piece by piece: where a run soon gets too long, no window is read.
const PIECEWISE_LEN: usize = 16;

/// A place in a text, up to which its non-starters are counted.
#[derive(Clone, Copy)]
pub(crate) struct Scan<'t> {
    text: &'t str,
    /// So many bytes stand before it.
    pub at: usize,
    pub counts: Counts,
}

impl<'t> Scan<'t> {
    ghost use Rattle.std.specs.Prelude.{◌≡◌, ◌<◌, ◌+◌, ◌-◌, ℕ, length, drop, true, IsTrue};
    ghost use Rattle.std.specs.Str.{IsCharBoundary};
    ghost use Rattle.nf_forms.specs.Ucd.{ucd};
    ghost use Rattle.nf_counts.specs.Piece.{IsPiece};
    ghost use Rattle.nf_counts.specs.Scan.{Reaches};
    ghost use Rattle.nf_counts.specs.Window.{AreAsked, AreTold};

    /// The front of the text.
    #[inline(always)]
    pub fn new(text: &'t str) -> Scan<'t>
        ensures text { result.text.now ≡ text.now }
        ensures reaches { (room : ℕ) → Reaches ucd room result }
    {
        Scan {
            text,
            at: 0,
            counts: Counts::new(),
        }
    }

    /// Goes on as far as no run gets too long, and no more than `room` non-starters stand before the first starter.
    #[inline(always)]
    pub fn pass_front(&mut self, room: u32)
        requires { Reaches ucd room self.old }
        ensures text { self.new.text.now ≡ self.old.text.now }
        ensures reaches { Reaches ucd room self.new }
    {
        let len = self.text.len();
        if self.pass_pieces(PIECEWISE_LEN.min(len), room) && self.pass_windows(room) {
            self.pass_pieces(len, room);
        }
    }

    /// Goes on piece by piece, until so many bytes stand before the place; answers whether there may be more.
    #[inline(always)]
    fn pass_pieces(&mut self, to: usize, room: u32) -> bool
        requires reaches { Reaches ucd room self.old }
        requires within { to ≤ length self.old.text.now }
        ensures text { self.new.text.now ≡ self.old.text.now }
        ensures reaches { Reaches ucd room self.new }
    {
        while self.at < to {
            let Piece { len, value } = first_piece(&self.text[self.at..]);
            if !self.pass(self.at + len, value, room) {
                return false;
            }
        }
        true
    }

    /// Goes on by windows, as far as there are bytes for one; answers whether there may be more.
    #[inline(always)]
    fn pass_windows(&mut self, room: u32) -> bool
        requires { Reaches ucd room self.old }
        ensures text { self.new.text.now ≡ self.old.text.now }
        ensures reaches { Reaches ucd room self.new }
    {
        let text = self.text;
        let mut base = self.at;
        while text.len().saturating_sub(base) > 65 {
            if !self.pass_window(base, room) {
                return false;
            }
            base += 63;
        }
        self.pass_plain(text.ceil_char_boundary(base.max(self.at)), room);
        true
    }

    /// Goes on after the last character that is looked up of those that begin in the 63 bytes from `base` on.
    #[inline(always)]
    fn pass_window(&mut self, base: usize, room: u32) -> bool
        requires reaches { Reaches ucd room self.old }
        requires asked { AreAsked self.old.text.now self.old.at base }
        requires fits { base + 65 < length self.old.text.now }
        ensures text { self.new.text.now ≡ self.old.text.now }
        ensures asked { IsTrue result → AreAsked self.new.text.now self.new.at (base + 63) }
        ensures reaches { Reaches ucd room self.new }
    {
        let text = self.text;
        let mut window = Window::new(text, base);
        while let Some(place) = window.next() {
            let third = text.as_bytes()[place + 2];
            let character = first_character(&text[place..], third);
            if !self.pass_both(place, character, room) {
                return false;
            }
        }
        true
    }

    /// Goes on after a place before which none is looked up, and the character there, if it may. What stands between is starters,
    /// that count nothing: marks after them are as those of a starter.
    #[inline(always)]
    fn pass_both(&mut self, place: usize, character: Piece, room: u32) -> bool
        requires reaches { Reaches ucd room self.old }
        requires order { self.old.at ≤ place }
        requires boundary { IsCharBoundary self.old.text.now place }
        requires told { AreTold self.old.text.now self.old.at place }
        requires piece { IsPiece ucd (drop place self.old.text.now) character }
        ensures text { self.new.text.now ≡ self.old.text.now }
        ensures further { IsTrue result → self.new.at ≡ place + character.len }
        ensures reaches { Reaches ucd room self.new }
    {
        laws::every_character_is_sound();
        let end = place + character.len;
        let value = character.value;
        if value < 4 {
            return self.pass(end, value, room);
        }
        let value = if self.at < place && value < UNASSIGNED {
            value % 4
        } else {
            value
        };
        self.pass(end, value, room)
    }

    /// Goes on to a place before which none is looked up.
    #[inline(always)]
    fn pass_plain(&mut self, place: usize, room: u32)
        requires reaches { Reaches ucd room self.old }
        requires order { self.old.at ≤ place }
        requires boundary { IsCharBoundary self.old.text.now place }
        requires told { AreTold self.old.text.now self.old.at place }
        ensures text { self.new.text.now ≡ self.old.text.now }
        ensures at { self.new.at ≡ place }
        ensures reaches { Reaches ucd room self.new }
    {
        laws::every_character_is_sound();
        if self.at < place {
            self.pass(place, 0, room);
        }
    }

    /// Goes on after what ends there, of this value, if it may.
    #[inline(always)]
    fn pass(&mut self, end: usize, value: u32, room: u32) -> bool
        requires reaches { Reaches ucd room self.old }
        requires order { self.old.at ≤ end }
        requires piece { IsPiece ucd (drop self.old.at self.old.text.now) (record { len = end - self.old.at; value = value }) }
        ensures text { self.new.text.now ≡ self.old.text.now }
        ensures further { IsTrue result → self.new.at ≡ end }
        ensures passes { value ≡ 0 → result ≡ true }
        ensures reaches { Reaches ucd room self.new }
    {
        if !self.counts.add(value, room) {
            return false;
        }
        self.at = end;
        true
    }
}
