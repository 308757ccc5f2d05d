ghost use Rattle.std.specs.Prelude.{OnOk, IfErr};
ghost use Rattle.nf_forms.specs.Ucd.{ucd};
ghost use Rattle.nf_filter.specs.Again.{AddsWhatStays};
ghost use Rattle.nf_text.specs.Whole.{IsOfText, Passes, PassesWhole};

use nf_facts::laws::{each_form_changes_a_text_once, every_character_is_sound};
use nf_filter::laws::{no_sound_character_is_refused, unassigned_is_told_where_asked};
use nf_filter::{Fault, FromReader, Tally, ToWriter, run};
use nf_row::{Form, Ucd};
use nf_utf8::laws::longest_text;
use std::io::{Read, Write};

/// A reader and a writer after what went from one to the other, and how that ended.
#[derive(Drop)]
pub struct Passed<R, W> {
    pub reader: R,
    pub writer: W,
    pub answer: Result<Tally, Fault>,
}

/// Writes the form of the stream-safe text that the reader gives (UAX #15, section 13). Where there is no fault, all that
/// the reader had was well-formed UTF-8, and all of its form is written: of that a second pass in this form changes nothing.
/// At a fault what is settled before it is written; it is the first in what was read, or that of a device. Over Unicode's
/// data no character is unsound, so `Row` is never answered. The writer is not flushed.
pub fn pass<R: Read, W: Write>(form: Form, reader: R, writer: W) -> Passed<R, W>
    ensures faults { IfErr result.answer IsOfText }
    ensures passes { Passes form ucd (R.remaining reader) (R.remaining result.reader) (W.contents writer) (W.contents result.writer) result.answer }
    ensures whole { OnOk result.answer (PassesWhole form ucd (R.remaining reader) (W.contents writer) (W.contents result.writer)) }
    ensures again { OnOk result.answer (AddsWhatStays form ucd (W.contents writer) (W.contents result.writer)) }
{
    longest_text();
    every_character_is_sound();
    each_form_changes_a_text_once();
    no_sound_character_is_refused();
    unassigned_is_told_where_asked();
    let mut source = FromReader::new(reader);
    let mut sink = ToWriter::new(writer);
    let answer = run(&Ucd, form, 0, &mut source, &mut sink);
    Passed {
        reader: source.into_inner(),
        writer: sink.into_inner(),
        answer,
    }
}
