//! Whole text in memory.
ghost use Rattle.std.specs.Prelude.{◌≡◌, IfOk, IfErr};
ghost use Rattle.std.specs.Result.{result_err};
ghost use Rattle.nf_forms.specs.Ucd.{ucd};
ghost use Rattle.nf_forms.specs.declared.form.Form.TheVariants.{Nfkc};
ghost use Rattle.nf_filter.specs.declared.fault.Fault.TheVariants.{Write};
ghost use Rattle.nf_filter.specs.Again.{StaysAsItIs};
ghost use Rattle.nf_filter.specs.Whole.{IsFormOf, whole_answer};
ghost use Rattle.uses.specs.Faults.{IsOfMemory};

use nf_facts::laws::{each_form_changes_a_text_once, every_character_is_sound};
use nf_filter::{Fault, converted};
use nf_row::{Form, Ucd};
use std::alloc::Global;

/// The key by which names are compared: NFKC of the stream-safe name. A key is its own key. `Write` says that memory ran
/// out; else a fault says at which byte the name is no UTF-8.
pub fn name_key(alloc: Global, name: &[u8]) -> Result<Vec<u8>, Fault>
    ensures key { IfOk result (λ key. IsFormOf Nfkc ucd name.now key.items) }
    ensures again { IfOk result (λ key. StaysAsItIs Nfkc ucd key.items) }
    ensures fault { ¬ (result ≡ Err Write) → result_err result ≡ result_err (whole_answer ucd name.now) }
    ensures faults { IfErr result IsOfMemory }
{
    every_character_is_sound();
    each_form_changes_a_text_once();
    converted(alloc, &Ucd, Form::Nfkc, name)
}
