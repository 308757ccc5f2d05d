//! `check`.
ghost use Rattle.std.specs.Prelude.{◌≡◌, ◌⊎◌, ◌≤◌, length};
ghost use Rattle.std.specs.Io.KnownBytes.{Appends};
ghost use Rattle.nf_forms.specs.Ucd.{ucd};
ghost use Rattle.nf_filter.specs.declared.fault.Fault.TheVariants.{Spent};
ghost use Rattle.nf_cmd.specs.Fronts.{AppendsFront};
ghost use Rattle.nf_cmd.specs.Checks.{Checks, ChecksForm, check_end, check_line};

use crate::BUFFER;
use crate::fault::Fault;
use crate::lines::{Lines, form_name};
use crate::writing::write_whole;
use nf_filter::{LentReader, check_buffered};
use nf_normalized::check_form_buffered;
use nf_row::{Form, Ucd};
use nf_safe::Place;
use std::io::{Read, Write};

/// Says on the output whether the text that the reader gives is in the Stream-Safe Text Format, and where it is not;
/// status 1 then. At a fault before that place it says nothing.
pub(crate) fn check<I: Read, O: Write>(input: &mut I, out: &mut O) -> Result<u8, Fault>
    ensures { Checks ucd (I.remaining input.old) (I.remaining input.new) (O.contents out.old) (O.contents out.new) result }
{
    let mut source = LentReader::new(input);
    let mut buffer = [0; BUFFER];
    let answer = check_buffered(&Ucd, 0, &mut source, &mut buffer);
    tell("stream-safe", answer, out)
}

/// Says whether it is stream-safe and in this form, and where it is not.
pub(crate) fn check_form<I: Read, O: Write>(
    form: Form,
    assigned: bool,
    input: &mut I,
    out: &mut O,
) -> Result<u8, Fault>
    ensures { ChecksForm form assigned (I.remaining input.old) (I.remaining input.new) (O.contents out.old) (O.contents out.new) result }
{
    let mut source = LentReader::new(input);
    let mut buffer = [0; BUFFER];
    let answer = check_form_buffered(form, assigned, 0, &mut source, &mut buffer);
    tell(form_name(form), answer, out)
}

// Writes the line of that answer, and ends by it.
fn tell<O: Write>(
    so: &str,
    answer: Result<Option<Place>, nf_filter::Fault>,
    out: &mut O,
) -> Result<u8, Fault>
    requires short { length so.now ≤ 11 }
    requires unspent { ¬ (answer ≡ Err Spent) }
    ensures front { AppendsFront (O.contents out.old) (O.contents out.new) (check_line so.now answer) }
    ensures output { ¬ (result ≡ Err Fault.Write) → Appends (O.contents out.old) (O.contents out.new) (check_line so.now answer) }
    ensures found { (Some result ≡ check_end answer) ⊎ (result ≡ Err Fault.Write) }
{
    write_whole(out, lines(so, answer).as_slice())?;
    match answer {
        Ok(None) => Ok(0),
        Ok(Some(_)) => Ok(1),
        Err(fault) => Err(Fault::told(fault)),
    }
}

// The line that says whether it is so, and none where the input was refused.
fn lines(so: &str, answer: Result<Option<Place>, nf_filter::Fault>) -> Lines
    requires { length so.now ≤ 11 }
    ensures { result.bytes.items ≡ check_line so.now answer }
{
    let mut lines = Lines::new();
    let Ok(found) = answer else {
        return lines;
    };
    let Some(place) = found else {
        lines.text(so);
        lines.text("\n");
        return lines;
    };
    let Place { chars, bytes } = place;
    lines.text("not ");
    lines.text(so);
    lines.text(" at character ");
    lines.number(chars as u128);
    lines.text(" byte ");
    lines.number(bytes as u128);
    lines.text("\n");
    lines
}
