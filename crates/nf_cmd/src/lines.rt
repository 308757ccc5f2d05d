//! The lines that a run writes on its output, gathered so that they go out at once.
ghost use Rattle.std.specs.Prelude.{◌≡◌, ◌+◌, ◌%◌, ◌≤◌, ◌++◌, [], true, length, decimal};
ghost use Rattle.std.specs.Fmt.{digit_glyph};
ghost use Rattle.nf_cmd.specs.Text.{code_digits, line, name_of};

use arrayvec::ArrayVec;
use itoa::Buffer;
use nf_row::Form;

/// What the lines of a run may take, in bytes: more than any of the program do.
const ROOM: usize = 512;

#[derive(Drop)]
pub(crate) struct Lines {
    bytes: ArrayVec<u8, ROOM>,
}

impl Lines {
    pub(crate) fn new() -> Lines
        ensures { result.bytes.items ≡ [] }
    {
        Lines {
            bytes: ArrayVec::new(),
        }
    }

    pub(crate) fn text(&mut self, text: &str)
        requires { length self.old.bytes.items + length text.now ≤ 512 }
        ensures bytes { self.new.bytes.items ≡ self.old.bytes.items ++ text.now }
        ensures len { length self.new.bytes.items ≡ length self.old.bytes.items + length text.now }
    {
        self.bytes.try_extend_from_slice(text.as_bytes()).unwrap();
    }

    /// A number in decimal digits, of which it has 40 at most.
    pub(crate) fn number(&mut self, number: u128)
        requires { length self.old.bytes.items + 40 ≤ 512 }
        ensures bytes { self.new.bytes.items ≡ self.old.bytes.items ++ decimal number }
        ensures len { length self.new.bytes.items ≤ length self.old.bytes.items + 40 }
    {
        self.text(Buffer::new().format(number));
    }

    /// A line of a name and a number.
    pub(crate) fn named(&mut self, name: &str, number: u128)
        requires { length self.old.bytes.items + length name.now + 42 ≤ 512 }
        ensures bytes { self.new.bytes.items ≡ self.old.bytes.items ++ line name.now number }
        ensures len { length self.new.bytes.items ≤ length self.old.bytes.items + length name.now + 42 }
    {
        self.text(name);
        self.text(" ");
        self.number(number);
        self.text("\n");
    }

    /// A code point in hexadecimal digits, at least four (The Unicode Standard, appendix A).
    pub(crate) fn code(&mut self, c: char)
        requires { length self.old.bytes.items + 6 ≤ 512 }
        ensures bytes { self.new.bytes.items ≡ self.old.bytes.items ++ code_digits c }
        ensures len { length self.new.bytes.items ≤ length self.old.bytes.items + 6 }
    {
        let mut digits = [b'0'; 6];
        let mut at = 6;
        let mut rest = u32::from(c);
        while rest > 0 {
            at -= 1;
            digits[at] = digit(rest);
            rest /= 16;
        }
        let shown = &digits[at.min(2)..];
        self.bytes.try_extend_from_slice(shown).unwrap();
    }

    pub(crate) fn as_slice(&self) -> &[u8]
        ensures { result.now ≡ self.now.bytes.items }
    {
        self.bytes.as_slice()
    }
}

/// The name of a form.
pub(crate) fn form_name(form: Form) -> &'static str
    ensures name { result.now ≡ name_of form }
    ensures len { length result.now ≤ 4 }
{
    match form {
        Form::Nfc => "nfc",
        Form::Nfd => "nfd",
        Form::Nfkc => "nfkc",
        Form::Nfkd => "nfkd",
    }
}

// The last hexadecimal digit.
fn digit(n: u32) -> u8
    ensures { result ≡ digit_glyph true (n % 16) }
{
    let digit = (n % 16) as u8;
    if digit < 10 {
        b'0' + digit
    } else {
        b'A' + (digit - 10)
    }
}
