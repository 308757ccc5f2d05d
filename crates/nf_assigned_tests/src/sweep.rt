//! Every scalar value, among letters, against its general category.
use nf_assigned::assigned_front;
use std::test::Fail;
use unicode::properties::GeneralCategory;

/// 160 letters.
pub(crate) const LETTERS: &str =
    "abcdefghijklmnopqrstuvwxyzabcdefghijklmnopqrstuvwxyzabcdefghijklmnopqrstuvwxyzabcdefghijklmnopqrstuvwxyzabcdefghijklmnopqrstuvwxyzabcdefghijklmnopqrstuvwxyzabcd";

pub(crate) fn is_assigned(c: char) -> bool {
    GeneralCategory::for_char(c) != GeneralCategory::Unassigned
}

/// The front of so many bytes is right: it ends before the character after `before` if that is unassigned, and else at most 68
/// bytes before the end: the last 65 are not asked, and the first of those may be the last of a character.
fn is_right(front: usize, before: &str, c: char, text: &str) -> bool {
    if is_assigned(c) {
        text.len().saturating_sub(front) <= 68
    } else {
        front == before.len()
    }
}

/// The front goes on over each assigned character, and over no other. The place in a block is another for each.
#[test]
fn the_front_ends_before_an_unassigned_character(rt: HostRuntime) -> Result<(), Fail> {
    for code in 0..0x11_0000u32 {
        let Some(c) = char::from_u32(code) else {
            continue;
        };
        let before = LETTERS.get(..(code % 131) as usize).unwrap_or_default();
        let text = format!(in rt.alloc(); "{before}{c}{LETTERS}")?;
        assert!(rt;
            is_right(assigned_front(&text), before, c, &text),
            "{code:x}"
        );
    }
    Ok(())
}

/// The same among letters of three bytes of which pairs do not tell.
#[test]
fn the_front_ends_before_an_unassigned_character_of_a_script(rt: HostRuntime) -> Result<(), Fail> {
    for letter in ['\u{B95}', '\u{E01}', '\u{10D0}', '\u{30AB}'] {
        let mut letters = String::new(rt.alloc());
        for _ in 0..44u8 {
            letters.push(letter)?;
        }
        for code in 0x800..0x4000u32 {
            let Some(c) = char::from_u32(code) else {
                continue;
            };
            let before = letters.get(..3 * (code % 43) as usize).unwrap_or_default();
            let text = format!(in rt.alloc(); "{before}{c}{letters}")?;
            assert!(rt;
                is_right(assigned_front(&text), before, c, &text),
                "{letter} {code:x}"
            );
        }
    }
    Ok(())
}
