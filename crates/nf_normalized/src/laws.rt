//! Laws of where a form changes a text, each the contract of a function.
ghost use Rattle.std.specs.Prelude.{◌≡◌, ℕ, ◌≤◌, ◌↔◌, List, ◌++◌, length, None, Some};
ghost use Rattle.nf_forms.specs.Ucd.{ucd};
ghost use Rattle.nf_forms.specs.declared.form.Form.{Form};
ghost use Rattle.nf_forms.specs.SafeForm.{safe_form};
ghost use Rattle.nf_filter.specs.Settled.{settled};
ghost use Rattle.nf_safe.specs.declared.place.Place.{Place};
ghost use Rattle.nf_normalized.specs.Change.{change_at, settled_change_at};

use nf_facts::laws::{
    a_second_filter_changes_nothing, each_pair_has_a_primary_composite, every_character_is_sound,
    exceptions_are_few, forms_are_those_of_the_kit, some_starters_count_as_marks,
    the_quick_check_tells, two_forms_are_one,
};
use nf_filter::laws::{little_is_held_back, settled_only_grows};
use nf_safe::laws::{place_is_longest_front, the_process_joins_the_longest_pieces};

/// There is no place exactly where a text is the form of its stream-safe text: where a filter leaves it as it is.
pub fn no_place_tells_the_form()
    ensures { (base : ℕ) (f : Form) (x : List ℕ) → (change_at base f x ≡ None) ↔ (safe_form f ucd x ≡ x) }
{}

/// A place that is settled is that of the whole text, whatever follows.
pub fn a_settled_place_stays()
    ensures { (base : ℕ) (f : Form) (x y : List ℕ) (place : Place) → settled_change_at base x (settled f ucd x) ≡ Some place → change_at base f (x ++ y) ≡ Some place }
{
    every_character_is_sound();
    a_second_filter_changes_nothing();
    two_forms_are_one();
    place_is_longest_front();
    the_process_joins_the_longest_pieces();
    settled_only_grows();
}

/// As long as a text begins with what is settled of its form, at most 78 characters stand after that: a decomposition of 18 and
/// 30 non-starters, of which the longest is of 2.
pub fn little_is_kept()
    ensures { (f : Form) (x u : List ℕ) → x ≡ settled f ucd x ++ u → length u ≤ 78 }
{
    every_character_is_sound();
    exceptions_are_few();
    two_forms_are_one();
    little_is_held_back();
}

/// Every front of a text that is its own form is its own form.
pub fn fronts_of_a_form_are_in_it()
    ensures { (f : Form) (x y : List ℕ) → safe_form f ucd (x ++ y) ≡ x ++ y → safe_form f ucd x ≡ x }
{
    every_character_is_sound();
    a_second_filter_changes_nothing();
    two_forms_are_one();
    exceptions_are_few();
    some_starters_count_as_marks();
    the_quick_check_tells();
    each_pair_has_a_primary_composite();
    forms_are_those_of_the_kit();
    place_is_longest_front();
    the_process_joins_the_longest_pieces();
}
