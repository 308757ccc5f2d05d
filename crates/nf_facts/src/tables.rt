//! How the tables of `ucd_normal` are asked.
ghost use Rattle.std.specs.Prelude.{◌≡◌};
ghost use Rattle.nf_facts.specs.KitForm.{kit_form};

use nf_forms::Form;

/// The form in the words of the tables.
#[inline]
pub const fn in_tables(form: Form) -> ucd_normal::Form
    ensures { result ≡ kit_form form }
{
    match form {
        Form::Nfc => ucd_normal::Form::Nfc,
        Form::Nfd => ucd_normal::Form::Nfd,
        Form::Nfkc => ucd_normal::Form::Nfkc,
        Form::Nfkd => ucd_normal::Form::Nfkd,
    }
}
