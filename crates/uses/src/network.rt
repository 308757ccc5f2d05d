//! Pieces, as a connection gives them.
ghost use Rattle.std.specs.Prelude.{◌≡◌, OnOk};
ghost use Rattle.nf_forms.specs.Ucd.{ucd};
ghost use Rattle.nf_forms.specs.declared.form.Form.TheVariants.{Nfc};
ghost use Rattle.nf_filter.specs.declared.fault.Fault.TheVariants.{Read as ReadFault};
ghost use Rattle.nf_text.specs.Whole.{PassesWhole};
ghost use Rattle.uses.specs.Network.{HasRelayed, Relays};

use nf_filter::{Fault, Filter, Sink, Tally};
use nf_row::{Form, Ucd};
use nf_utf8::laws::longest_text;
use std::io::Read;

/// The most bytes that are taken off the connection at once.
const PACKET: usize = 1500;

/// Gives the sink the NFC of the stream-safe text that comes over the connection, each time as much as is settled. Where
/// the connection breaks, all that had come and was settled is with the sink; where a fault stands in what came, what is
/// settled before it. Nothing goes out after that, and `Write` is answered only where the sink failed.
pub fn relay<C: Read, S: Sink>(connection: &mut C, sink: &mut S) -> Result<Tally, Fault>
    ensures whole { OnOk result (PassesWhole Nfc ucd (C.remaining connection.old) (S.state sink.old).taken (S.state sink.new).taken) }
    ensures relays { Relays Nfc ucd (C.remaining connection.old) (C.remaining connection.new) (S.state sink.old) (S.state sink.new) result }
    ensures broken { result ≡ Err ReadFault → HasRelayed Nfc ucd (C.remaining connection.old) (C.remaining connection.new) (S.state sink.old).taken (S.state sink.new).taken }
    ensures lender { (S.state sink.new).lender ≡ (S.state sink.old).lender }
{
    longest_text();
    let mut filter = Filter::new(&Ucd, Form::Nfc, 0);
    let mut packet = [0; PACKET];
    loop {
        let Ok(come) = connection.read(&mut packet) else {
            return Err(Fault::Read);
        };
        if come == 0 {
            return filter.finish(sink);
        }
        if let Err(fault) = filter.feed(&packet[..come], sink) {
            return Err(fault);
        }
    }
}
