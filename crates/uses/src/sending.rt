//! Through a sink that counts.
ghost use Rattle.std.specs.Prelude.{◌≡◌, [], List, ℕ, OnOk};
ghost use Rattle.nf_forms.specs.Ucd.{ucd};
ghost use Rattle.nf_forms.specs.declared.form.Form.TheVariants.{Nfc};
ghost use Rattle.nf_filter.specs.Whole.{IsFormOf};
ghost use Rattle.uses.specs.Sends.{Sends};
ghost use Rattle.uses.specs.Count.{AlwaysTells, IsCountOf, IsEmpty};

use crate::counting::Counting;
use nf_filter::{Fault, Tally, ToWriter, convert};
use nf_row::{Form, Ucd};
use nf_utf8::laws::longest_text;
use std::io::Write;

/// A writer, what it was sent, and how that ended.
#[derive(Drop)]
pub struct Sent<W> {
    pub writer: W,
    pub bytes: u64,
    pub answer: Result<Tally, Fault>,
}

/// Sends the NFC of the stream-safe text to a writer that has taken nothing, and counts the bytes, also where a fault or
/// the writer ended it: before a fault goes what is settled, and of that a front where the writer failed.
pub fn send<W: Write>(text: &[u8], writer: W) -> Sent<W>
    requires { IsEmpty (W.contents writer) }
    ensures count { AlwaysTells W.contents → IsCountOf result.bytes (W.contents result.writer) }
    ensures sends { Sends Nfc ucd text.now (W.contents writer) (W.contents result.writer) result.answer }
    ensures form { OnOk result.answer ((out : List ℕ) → W.contents writer ≡ Some [] → W.contents result.writer ≡ Some out → IsFormOf Nfc ucd text.now out) }
{
    longest_text();
    let mut sink = Counting::new(ToWriter::new(writer));
    let answer = convert(&Ucd, Form::Nfc, text, &mut sink);
    let (sink, bytes) = sink.into_parts();
    Sent {
        writer: sink.into_inner(),
        bytes,
        answer,
    }
}
