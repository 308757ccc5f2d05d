//! Bytes read as plainly as can be, by The Unicode Standard, section 3.9: Table 3-7, and "Substitution of Maximal
//! Subparts".
use nf_filter::{Fault, Policy, Tally};
use nf_row::{Rows, Ucd};
use std::alloc::{AllocError, Global};
use std::str;

/// Of the sequences that begin with this byte the length, and the range of the second byte (Table 3-7).
fn sequences_of(first: u8) -> Option<(usize, u8, u8)> {
    match first {
        0x00..=0x7F => Some((1, 0x80, 0xBF)),
        0xC2..=0xDF => Some((2, 0x80, 0xBF)),
        0xE0 => Some((3, 0xA0, 0xBF)),
        0xED => Some((3, 0x80, 0x9F)),
        0xE1..=0xEF => Some((3, 0x80, 0xBF)),
        0xF0 => Some((4, 0x90, 0xBF)),
        0xF4 => Some((4, 0x80, 0x8F)),
        0xF1..=0xF3 => Some((4, 0x80, 0xBF)),
        _ => None,
    }
}

/// How many bytes at the front begin a well-formed sequence, and whether they are all of one.
fn begun(bytes: &[u8]) -> (usize, bool) {
    let Some(first) = bytes.first() else {
        return (0, false);
    };
    let Some((len, low, high)) = sequences_of(*first) else {
        return (0, false);
    };
    for (n, byte) in bytes.iter().enumerate().take(len).skip(1) {
        let range = if n == 1 { low..=high } else { 0x80..=0xBF };
        if !range.contains(byte) {
            return (n, false);
        }
    }
    (len.min(bytes.len()), len <= bytes.len())
}

/// The text that the bytes give under the policy, up to the fault, and the answer. No U+034F is put in a text as short as
/// those of these tests.
pub fn read(
    alloc: Global,
    policy: Policy,
    bytes: &[u8],
) -> Result<(String, Result<Tally, Fault>), AllocError> {
    let mut text = String::new(alloc);
    let mut chars = 0;
    let mut rest = bytes;
    for _ in 0..bytes.len() {
        if rest.is_empty() {
            break;
        }
        let start = bytes.len().saturating_sub(rest.len()) as u64;
        let (n, is_whole) = begun(rest);
        // A byte that begins nothing is a part by itself.
        let (part, after) = rest.split_at(n.max(1).min(rest.len()));
        if !is_whole && !policy.replace {
            let at = start.saturating_add(n as u64);
            let fault = if n > 0 && after.is_empty() {
                Fault::Cut { at, start }
            } else {
                Fault::BadByte { at, start }
            };
            return Ok((text, Err(fault)));
        }
        let c = if is_whole {
            first_char(part)
        } else {
            '\u{FFFD}'
        };
        if policy.assigned && !Ucd.assigned(c) {
            return Ok((text, Err(Fault::Unassigned { at: start })));
        }
        text.push(c)?;
        chars = u64::saturating_add(chars, 1);
        rest = after;
    }
    let tally = Tally {
        bytes: bytes.len() as u64,
        chars,
        put: 0,
    };
    Ok((text, Ok(tally)))
}

/// The character that a well-formed sequence is.
fn first_char(sequence: &[u8]) -> char {
    match str::from_utf8(sequence) {
        Ok(text) => text.chars().next().unwrap_or_default(),
        Err(_) => '\0',
    }
}
