//! Made-up texts, taken front by front.
use crate::reference::{FORMS, checked};
use nf_seeded::Seeded;
use std::test::Fail;

/// Letters and marks of which the forms make many different things.
const PARTS: [&str; 33] = [
    "a", "e", "x", " ", "\u{E9}", "\u{EA}", "\u{1EC7}", "\u{301}", "\u{302}", "\u{323}", "\u{316}",
    "\u{334}", "\u{344}", "\u{1100}", "\u{1161}", "\u{11A8}", "\u{AC00}", "\u{AC01}", "\u{9C7}",
    "\u{9BE}", "\u{30AB}", "\u{3099}", "\u{FF76}", "\u{FF9E}", "\u{FB01}", "\u{FDFA}", "\u{F73}",
    "\u{212B}", "\u{FF21}", "\u{FF9F}", "\u{2126}", "\u{3131}", "\u{FFC2}",
];

#[test]
fn each_front_of_a_mixture(rt: HostRuntime) -> Result<(), Fail> {
    let mut seeded = Seeded::new(1);
    for _ in 0..500u32 {
        let mut text = String::new(rt.alloc());
        for _ in 0..40u32 {
            text.push_str(seeded.pick(&PARTS))?;
        }
        for form in FORMS {
            let mut rest = text.as_str();
            for _ in 0..200u32 {
                if let Some(after) = checked(&rt, rt.alloc(), form, rest)? {
                    rest = after;
                    continue;
                }
                let mut chars = rest.chars();
                if chars.next().is_none() {
                    break;
                }
                rest = chars.as_str();
            }
        }
    }
    Ok(())
}
