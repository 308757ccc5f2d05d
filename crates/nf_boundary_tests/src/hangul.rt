//! All Hangul syllables, by the arithmetic of The Unicode Standard, section 3.12.
use crate::reference::{checked, segments_of, text_of};
use nf_boundary::Formed;
use nf_forms::Form;
use std::test::Fail;

const VOWELS: u32 = 21;

const TRAILING: u32 = 28;

#[test]
fn each_syllable_both_ways(rt: HostRuntime) -> Result<(), Fail> {
    for index in 0..19 * VOWELS * TRAILING {
        let trailing = index % TRAILING;
        let syllable = char::from_u32(0xAC00 + index).unwrap_or('?');
        let mut letters = String::new(rt.alloc());
        letters.push(char::from_u32(0x1100 + index / (VOWELS * TRAILING)).unwrap_or('?'))?;
        letters.push(char::from_u32(0x1161 + index / TRAILING % VOWELS).unwrap_or('?'))?;
        if trailing > 0 {
            letters.push(char::from_u32(0x11A7 + trailing).unwrap_or('?'))?;
        }
        let mut formed = Formed::new();
        let text = format!(in rt.alloc(); "{letters}\u{1100}")?;
        let segments = segments_of(Form::Nfc, &text, &mut formed);
        assert!(rt; segments.is_some(), "{index}");
        assert_eq!(rt; text_of(&formed).chars().next(), Some(syllable), "{index}");
        let text = format!(in rt.alloc(); "{syllable}\u{1100}")?;
        let segments = segments_of(Form::Nfd, &text, &mut formed);
        assert!(rt; segments.is_some(), "{index}");
        assert_eq!(rt; text_of(&formed), letters.as_str(), "{index}");
    }
    Ok(())
}

/// As many syllables as there is room for.
#[test]
fn syllables_up_to_the_room(rt: HostRuntime) -> Result<(), Fail> {
    let letters = "\u{1112}\u{1161}\u{11AB}";
    let many = letters.repeat(rt.alloc(), 400)?;
    let text = format!(in rt.alloc(); "{many}b")?;
    let left = letters.repeat(rt.alloc(), 59)?;
    let after = format!(in rt.alloc(); "{left}b")?;
    assert_eq!(rt;
        checked(&rt, rt.alloc(), Form::Nfc, &text)?,
        Some(after.as_str())
    );
    Ok(())
}
