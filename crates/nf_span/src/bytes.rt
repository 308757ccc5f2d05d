ghost use Rattle.nf_span.specs.Window.{IsPlain, IsPlainFront};

use crate::leads::wants_look;
use nf_forms::Form;

/// How many bytes there are before the first that begins a character that has to be looked up, byte by byte from `from`
/// on.
pub(crate) fn by_bytes(form: Form, bytes: &[u8], from: usize) -> usize
    requires { IsPlainFront form bytes.now from }
    ensures { IsPlain form bytes.now result }
{
    let mut at = from;
    while at < bytes.len() && !wants_look(form, bytes[at]) {
        at += 1;
    }
    at
}
