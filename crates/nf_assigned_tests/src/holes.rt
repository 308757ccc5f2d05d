//! A character that is unassigned, and letters of many scripts, at each place in a block.
use crate::sweep::LETTERS;
use nf_assigned::assigned_front;
use std::test::Fail;

/// Unassigned in Unicode 18 (DerivedGeneralCategory.txt): of two bytes; of three, by the second or the third; and of four.
const HOLES: [char; 8] = [
    '\u{378}',
    '\u{590}',
    '\u{2065}',
    '\u{3040}',
    '\u{3097}',
    '\u{D7FF}',
    '\u{FF00}',
    '\u{1FFFF}',
];

/// Letters of many scripts, and characters of which no bytes tell.
const ASSIGNED: [char; 33] = [
    'a',
    '\u{E9}',
    '\u{44F}',
    '\u{5D0}',
    '\u{628}',
    '\u{915}',
    '\u{995}',
    '\u{A15}',
    '\u{A95}',
    '\u{BA4}',
    '\u{C15}',
    '\u{C95}',
    '\u{D24}',
    '\u{E01}',
    '\u{F42}',
    '\u{1019}',
    '\u{10D0}',
    '\u{1780}',
    '\u{1EBF}',
    '\u{2019}',
    '\u{3002}',
    '\u{3042}',
    '\u{30A2}',
    '\u{4E2D}',
    '\u{AC00}',
    '\u{D55C}',
    '\u{FF0C}',
    '\u{FF61}',
    '\u{1FB7}',
    '\u{2192}',
    '\u{FDFA}',
    '\u{1F600}',
    '\u{10FFFD}',
];

/// The front of letters of one, two and three bytes ends right before it.
#[test]
fn the_front_ends_before_a_hole(rt: HostRuntime) -> Result<(), Fail> {
    for hole in HOLES {
        for letter in ['a', '\u{E9}', '\u{44F}', '\u{4E2D}'] {
            let mut letters = String::new(rt.alloc());
            for _ in 0..70u8 {
                let text = format!(in rt.alloc(); "{letters}{hole}{LETTERS}")?;
                assert_eq!(rt; assigned_front(&text), letters.len(), "{hole:?} {letter}");
                letters.push(letter)?;
            }
        }
    }
    Ok(())
}

/// It goes on over them to the last 65 bytes, and ends between two characters.
#[test]
fn the_front_goes_on_over_letters(rt: HostRuntime) -> Result<(), Fail> {
    for letter in ASSIGNED {
        let mut letters = String::new(rt.alloc());
        for _ in 0..150u8 {
            letters.push(letter)?;
            let front = assigned_front(&letters);
            let left = letters.len().saturating_sub(front);
            assert!(rt; left <= 68 && letters.is_char_boundary(front), "{letter}");
        }
    }
    Ok(())
}
