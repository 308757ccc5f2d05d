//! Made-up mixtures of hostile kinds, many of them in the form but for one part, cut at every place.
ghost use Rattle.std.specs.Prelude.{◌<◌};

use crate::both::{answer, due};
use nf_filter::{Fault, converted};
use nf_filter_fixtures::{BASE, FORMS, Pieces};
use nf_normalized::check_form;
use nf_row::{Form, Ucd};
use nf_safe::Place;
use nf_seeded::Seeded;
use std::alloc::{AllocError, Global};
use std::process::Abort;
use std::test::Fail;

/// Letters that some form leaves, and such as it does not.
const LETTERS: [&str; 16] = [
    "a",
    "q ",
    "\u{E9}",
    "e\u{301}",
    "\u{1EC7}",
    "e\u{323}\u{302}",
    "\u{43B}",
    "\u{6F22}",
    "\u{D55C}",
    "\u{1112}\u{1161}\u{11AB}",
    "\u{AC00}\u{11A8}",
    "\u{628}\u{650}\u{651}",
    "\u{915}\u{93C}",
    "\u{9CB}",
    "\u{9C7}\u{9BE}",
    "\u{1F600}",
];

/// Marks of many classes, half-width ones, and such as have other rows.
const MARKS: [&str; 16] = [
    "\u{301}",
    "\u{302}",
    "\u{308}",
    "\u{316}",
    "\u{323}",
    "\u{327}",
    "\u{345}",
    "\u{5B0}",
    "\u{651}",
    "\u{94D}",
    "\u{F74}",
    "\u{3099}",
    "\u{FF9E}",
    "\u{F73}",
    "\u{344}",
    "\u{1D165}",
];

/// Characters with other rows, the joiner, letters that compose with what stands before them, and one that is not assigned.
const OTHERS: [&str; 14] = [
    "\u{212B}",
    "\u{FB01}",
    "\u{FDFA}",
    "\u{958}",
    "\u{1E9B}\u{323}",
    "\u{B4}",
    "\u{34F}",
    "\u{1161}",
    "\u{11A8}",
    "\u{9BE}",
    "\u{FF76}\u{FF9E}",
    "\u{2126}",
    "\u{378}",
    "\u{1D15E}",
];

/// Appends letters, a run of one mark, marks, or any characters.
fn push_part(text: &mut String, seeded: &mut Seeded) -> Result<(), AllocError> {
    match seeded.below(8) {
        0..=3 => {
            for _ in 0..=seeded.below(6) {
                text.push_str(seeded.pick(&LETTERS))?;
            }
        }
        4 => {
            let mark = seeded.pick(&MARKS);
            for _ in 0..=seeded.below(36) {
                text.push_str(mark)?;
            }
        }
        5 => {
            for _ in 0..=seeded.below(6) {
                text.push_str(seeded.pick(&MARKS))?;
            }
        }
        6 => text.push_str(seeded.pick(&OTHERS))?,
        _ => {
            if let Some(c) = seeded.char_in(0, 0x3_4000) {
                text.push(c)?;
            }
        }
    }
    Ok(())
}

fn push_parts(text: &mut String, seeded: &mut Seeded, most: u32) -> Result<(), AllocError>
    requires { 0 < most }
{
    for _ in 0..=seeded.below(most) {
        push_part(text, seeded)?;
    }
    Ok(())
}

/// A text that is in the form, but for what may stand between its two halves.
fn nearly_formed(alloc: Global, seeded: &mut Seeded, form: Form) -> Result<Vec<u8>, Fail> {
    let mut text = String::new(alloc);
    push_parts(&mut text, seeded, 8)?;
    let Ok(mut bytes) = converted(alloc, &Ucd, form, text.as_bytes()) else {
        return Err(Fail::from("no form"));
    };
    let mut between = String::new(alloc);
    if seeded.below(3) > 0 {
        push_part(&mut between, seeded)?;
    }
    let mut after = String::new(alloc);
    push_parts(&mut after, seeded, 4)?;
    let Ok(after) = converted(alloc, &Ucd, form, after.as_bytes()) else {
        return Err(Fail::from("no form"));
    };
    bytes.extend_from_slice(between.as_bytes())?;
    bytes.extend_from_slice(after.as_slice())?;
    Ok(bytes)
}

/// A mixture: any text, or one that is nearly in the form; some with a byte that is ill-formed, some with an end that is cut.
fn mixture(alloc: Global, seeded: &mut Seeded, form: Form) -> Result<Vec<u8>, Fail> {
    let mut bytes = if seeded.below(4) == 0 {
        let mut text = String::new(alloc);
        push_parts(&mut text, seeded, 8)?;
        text.into_bytes()
    } else {
        nearly_formed(alloc, seeded, form)?
    };
    match seeded.below(8) {
        0 => {
            let at = seeded.place(bytes.len());
            bytes.insert(at, 0xFF)?;
        }
        1 => {
            bytes.pop();
        }
        _ => {}
    }
    Ok(bytes)
}

/// The answer with its place counted from `BASE` on.
fn based(answer: Result<Option<Place>, Fault>) -> Result<Option<Place>, Fault> {
    match answer {
        Ok(Some(place)) => Ok(Some(Place {
            chars: place.chars,
            bytes: place.bytes.saturating_add(BASE),
        })),
        other => other,
    }
}

/// Lets the bytes be checked in two pieces, cut at each place, and a byte at a time.
fn assert_cut(
    rt: &impl Abort,
    alloc: Global,
    form: Form,
    assigned: bool,
    bytes: &[u8],
) -> Result<(), AllocError> {
    let due = due(alloc, form, assigned, bytes);
    for at in 0..=bytes.len() {
        let (front, after) = bytes.split_at(at);
        let told = answer(rt, form, assigned, &[front, after]);
        assert_eq!(rt; told, due, "{form:?}, cut at {at}: {bytes:?}");
    }
    let mut pieces = Vec::new(alloc);
    for at in 0..bytes.len() {
        pieces.push(&bytes[at..at + 1])?;
    }
    let told = answer(rt, form, assigned, pieces.as_slice());
    assert_eq!(rt; told, due, "{form:?}: {bytes:?}");
    if let Ok(place) = due {
        let mut source = Pieces::new(pieces.as_slice(), false);
        let told = check_form(form, assigned, BASE, &mut source);
        assert_eq!(rt; told, based(Ok(place)), "{form:?}: {bytes:?}");
    }
    Ok(())
}

/// Each front of a text that is in the form is in it.
fn assert_fronts(rt: &impl Abort, alloc: Global, form: Form, assigned: bool, bytes: &[u8]) {
    if due(alloc, form, assigned, bytes) != Ok(None) {
        return;
    }
    let Ok(text) = std::str::from_utf8(bytes) else {
        return;
    };
    for (at, _) in text.char_indices() {
        let front = bytes.get(..at).unwrap_or_default();
        let told = due(alloc, form, assigned, front);
        assert_eq!(rt; told, Ok(None), "{form:?}: {bytes:?}");
    }
}

fn assert_seeds(rt: &impl Abort, alloc: Global, first: u64, end: u64) -> Result<(), Fail>
    requires { 0 < first }
{
    for seed in first..end {
        let mut seeded = Seeded::new(seed);
        let form = FORMS[(seed % 4) as usize];
        let bytes = mixture(alloc, &mut seeded, form)?;
        let assigned = seeded.below(3) == 0;
        assert_cut(rt, alloc, form, assigned, bytes.as_slice())?;
        assert_fronts(rt, alloc, form, assigned, bytes.as_slice());
    }
    Ok(())
}

#[test]
fn mixtures_are_checked_wherever_they_are_cut(rt: HostRuntime) -> Result<(), Fail> {
    assert_seeds(&rt, rt.alloc(), 1, 10_000)?;
    Ok(())
}

#[test]
fn so_are_more_mixtures(rt: HostRuntime) -> Result<(), Fail> {
    assert_seeds(&rt, rt.alloc(), 10_000, 20_000)?;
    Ok(())
}
