//! Which lead bytes of UTF-8 tell that a character passes, whatever follows them.

ghost use Rattle.std.specs.Prelude.{◌≡◌};
ghost use Rattle.nf_span.specs.Leads.{columns, wants_look};

use nf_forms::Form;

/// By the high half of a byte, a bit for each row of lead bytes: C0 to CF, D0 to DF, E0 to EF and F0 to FF.
pub(crate) static ROWS: [u8; 16] = [0, 0, 0, 0, 0, 0, 0, 0, 0, 0, 0, 0, 1, 2, 4, 8];

// By its low half, the rows in which it begins a character that has to be looked up. The others lie in the plain ranges of
// `nf_facts`, whole.
static NFC: [u8; 16] = [13, 13, 14, 12, 8, 8, 10, 10, 10, 10, 12, 10, 11, 11, 9, 14];

static NFD: [u8; 16] = [15, 15, 14, 15, 9, 9, 11, 11, 11, 10, 12, 14, 15, 15, 9, 15];

static NFKC: [u8; 16] = [13, 13, 15, 12, 9, 11, 10, 11, 10, 10, 13, 11, 11, 11, 9, 15];

static NFKD: [u8; 16] = [15, 15, 15, 15, 9, 11, 11, 11, 11, 10, 13, 15, 15, 15, 9, 15];

#[inline(always)]
pub(crate) fn columns(form: Form) -> &'static [u8; 16]
    ensures { result.now ≡ columns form }
{
    match form {
        Form::Nfc => &NFC,
        Form::Nfd => &NFD,
        Form::Nfkc => &NFKC,
        Form::Nfkd => &NFKD,
    }
}

/// Whether a character that begins with this byte has to be looked up.
#[inline(always)]
pub(crate) fn wants_look(form: Form, byte: u8) -> bool
    ensures { result ≡ wants_look form byte }
{
    ROWS[(byte / 16) as usize] & columns(form)[(byte & 15) as usize] != 0
}
