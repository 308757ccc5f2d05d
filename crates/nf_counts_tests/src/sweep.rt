//! Every scalar value against the look-ups that are made one by one.
use nf_counts::{Counted, counted_front};
use nf_seeded::Seeded;
use std::test::Fail;
use unicode::properties::GeneralCategory;
use unicode_normalization::{Form, char as lookup};

/// The non-starters of a front, its longest run, those before the first starter and after the last one, whether there is a
/// starter, and the unassigned characters.
type Counts = (u128, u32, u32, u32, bool, u64);

fn counts_of(counted: &Counted) -> Counts {
    let counts = counted.counts;
    (
        counts.nonstarters,
        counts.longest,
        counts.lead,
        counts.trail,
        counts.has_starter,
        counts.unassigned,
    )
}

/// The same with the character `c` more, by each member of its compatibility decomposition.
fn with_char(now: Counts, c: char) -> Counts {
    let (mut nonstarters, mut longest, mut lead, mut trail, mut has_starter, unassigned) = now;
    let mut room = [c; 3];
    for member in lookup::decomposition(c, Form::Nfkd, &mut room) {
        if lookup::canonical_combining_class(*member) == 0 {
            has_starter = true;
            trail = 0;
            continue;
        }
        nonstarters = nonstarters.saturating_add(1);
        trail = trail.saturating_add(1);
        longest = longest.max(trail);
        lead = if has_starter { lead } else { trail };
    }
    let is_unassigned = GeneralCategory::for_char(c) == GeneralCategory::Unassigned;
    let unassigned = unassigned.saturating_add(u64::from(is_unassigned));
    (nonstarters, longest, lead, trail, has_starter, unassigned)
}

/// What is counted of the characters, one by one, and how many they are.
fn counted_plainly(room: u32, chars: &[char]) -> (usize, Counts) {
    let mut now: Counts = (0, 0, 0, 0, false, 0);
    let mut count = 0usize;
    for c in chars {
        let next = with_char(now, *c);
        if next.1 > 30 || next.2 > room {
            break;
        }
        now = next;
        count = count.saturating_add(1);
    }
    (count, now)
}

/// Each alone: all are counted.
#[test]
fn characters_are_counted_by_their_decompositions(rt: HostRuntime) -> Result<(), Fail> {
    for code in 0..0x11_0000u32 {
        let Some(c) = char::from_u32(code) else {
            continue;
        };
        let mut room = [0; 4];
        let text: &str = c.encode_utf8(&mut room);
        let counted = counted_front(30, text);
        let (count, counts) = counted_plainly(30, &[c]);
        let is_whole = counted.front.len() == text.len() && counted.rest.is_empty();
        assert_eq!(rt; is_whole, count == 1, "{code:x}");
        assert_eq!(rt; counts_of(&counted), counts, "{code:x}");
    }
    Ok(())
}

/// Each among letters, at one of 64 places after 16 bytes.
#[test]
fn characters_are_counted_among_letters(rt: HostRuntime) -> Result<(), Fail> {
    for code in 0..0x11_0000u32 {
        let Some(c) = char::from_u32(code) else {
            continue;
        };
        let mut bytes = [b'a'; 160];
        for at in 0..8usize {
            bytes[2 * at] = 0xD0;
            bytes[2 * at + 1] = 0xB4;
        }
        let mut room = [0; 4];
        let place = 16 + (code % 64) as usize;
        let mut at = place;
        for byte in c.encode_utf8(&mut room).as_bytes() {
            assert!(rt; at < 160);
            bytes[at] = *byte;
            at += 1;
        }
        let text = str::from_utf8(&bytes).expect(&rt, "text");
        let counted = counted_front(30, text);
        let letters: Counts = (0, 0, 0, 0, true, 0);
        assert_eq!(rt; counted.front.len(), 160, "{code:x}");
        let (nonstarters, longest, lead, _, has_starter, unassigned) = with_char(letters, c);
        assert_eq!(rt;
            counts_of(&counted),
            (nonstarters, longest, lead, 0, has_starter, unassigned),
            "{code:x}"
        );
    }
    Ok(())
}

/// Each of three bytes after the first ones among letters of a script, where the bytes after a lead byte are asked: of India, Thai,
/// Georgian and kana.
#[test]
fn characters_are_counted_in_rows(rt: HostRuntime) -> Result<(), Fail> {
    for letter in ['\u{B95}', '\u{E01}', '\u{10D0}', '\u{30AB}'] {
        for code in 0x800..0x4000u32 {
            let Some(c) = char::from_u32(code) else {
                continue;
            };
            let place = 6 + (code % 24) as usize;
            let mut chars = [letter; 60];
            chars[place] = c;
            let mut bytes = [0; 180];
            for at in 0..60usize {
                let mut room = [0; 4];
                let three = chars[at].encode_utf8(&mut room).as_bytes();
                for k in 0..three.len().min(3) {
                    bytes[3 * at + k] = three[k];
                }
            }
            let text = str::from_utf8(&bytes).expect(&rt, "text");
            let counted = counted_front(30, text);
            let (count, counts) = counted_plainly(30, &chars);
            assert_eq!(rt; counted.front.chars().count(), count, "{letter} {code:x}");
            assert_eq!(rt; counts_of(&counted), counts, "{letter} {code:x}");
        }
    }
    Ok(())
}

const SOME: [char; 32] = [
    'a',
    ' ',
    'b',
    '\n',
    '\u{E9}',
    '\u{1EBF}',
    '\u{301}',
    '\u{301}',
    '\u{316}',
    '\u{5B8}',
    '\u{5D0}',
    '\u{430}',
    '\u{439}',
    '\u{93F}',
    '\u{E48}',
    '\u{AC01}',
    '\u{1161}',
    '\u{4E2D}',
    '\u{304C}',
    '\u{FF9E}',
    '\u{FDFA}',
    '\u{344}',
    '\u{378}',
    '\u{1F600}',
    '\u{1D15E}',
    '\u{20000}',
    '\u{3300}',
    '\u{3310}',
    '\u{40000}',
    '\u{E0100}',
    '\u{F0000}',
    '\u{10FFFF}',
];

/// Up to 200 characters, drawn from some, each a few times in a row, so that there are runs of ASCII and of marks.
#[test]
fn fronts_are_counted_as_their_characters(rt: HostRuntime) -> Result<(), Fail> {
    let mut seeded = Seeded::new(26);
    for turn in 0..3000u32 {
        let mut chars = ['a'; 200];
        let kinds = 1 + seeded.below(32);
        let mut c = 'a';
        for at in 0..200usize {
            if seeded.below(9) < 2 + turn % 7 {
                c = SOME[seeded.below(kinds) as usize];
            }
            chars[at] = c;
        }
        let mut bytes = [0; 800];
        let mut len = 0usize;
        for c in chars {
            let mut room = [0; 4];
            for byte in c.encode_utf8(&mut room).as_bytes() {
                assert!(rt; len < 800);
                bytes[len] = *byte;
                len += 1;
            }
        }
        assert!(rt; len <= 800);
        let text = str::from_utf8(&bytes[..len]).expect(&rt, "text");
        let room = seeded.below(31);
        let counted = counted_front(room, text);
        let (count, counts) = counted_plainly(room, &chars);
        assert_eq!(rt; counted.front.chars().count(), count, "{turn} {text}");
        assert_eq!(rt; counts_of(&counted), counts, "{turn} {text}");
        assert_eq!(rt; counted.front.len().saturating_add(counted.rest.len()), len);
    }
    Ok(())
}
