//! Characters in bytes.
ghost use Rattle.std.specs.Prelude.{◌≡◌, ◌+◌, ◌≤◌, ◌++◌, length, encode_utf8_all, chars, IsUtf8};
ghost use Rattle.nf_utf8.specs.Reading.{text_of};
ghost use Rattle.nf_utf8.specs.Taking.{first_text, first_bytes};

use nf_safe::Place;
use nf_utf8::{Chunk, Decoder, End, char_count, laws};

/// How many characters the bytes of both slices, one after the other, begin with, and of how many bytes these are.
pub(crate) fn text_in(first: &[u8], second: &[u8]) -> Place
    requires { length first.now + length second.now ≤ u64.MAX }
    ensures chars { result.chars ≡ length (text_of (first.now ++ second.now)) }
    ensures bytes { result.bytes ≡ length (encode_utf8_all (text_of (first.now ++ second.now))) }
{
    laws::pieces();
    laws::split();
    let mut decoder = Decoder::new();
    let chunk = decoder.take(first);
    let front = counted(chunk);
    if let End::Bad { .. } = chunk.end {
        return front;
    }
    let after = counted(decoder.take(second));
    Place {
        chars: front.chars + after.chars,
        bytes: front.bytes + after.bytes,
    }
}

/// How many characters a chunk has, and of how many bytes these are.
fn counted(chunk: Chunk<'_>) -> Place
    requires utf8 { IsUtf8 chunk.text.now }
    requires fits { length (first_bytes chunk.first) + length chunk.text.now ≤ u64.MAX }
    ensures chars { result.chars ≡ length (first_text chunk.entry.first ++ chars chunk.entry.text.now) }
    ensures bytes { result.bytes ≡ length (encode_utf8_all (first_text chunk.entry.first ++ chars chunk.entry.text.now)) }
{
    let (count, len) = match chunk.first {
        Some(c) => (1, c.len_utf8()),
        None => (0, 0),
    };
    Place {
        chars: (count + char_count(chunk.text)) as u64,
        bytes: (len + chunk.text.len()) as u64,
    }
}
