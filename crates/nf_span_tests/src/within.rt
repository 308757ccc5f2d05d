//! Every scalar value among letters that are looked at many at a time: the bytes after a lead byte are asked there.
use crate::sweep::{Role, role_of};
use nf_forms::Form;
use nf_span::span_text;
use std::test::Fail;

/// Each letter passes in each form, and its lead byte, of two bytes and of three, does not tell it; E1, E3 and EF
/// have sets of their own.
const LETTERS: [&str; 5] = ["\u{628}", "\u{915}", "\u{10D0}", "\u{306E}", "\u{FFFD}"];

#[test]
fn each_scalar_value_among_letters(rt: HostRuntime) -> Result<(), Fail> {
    for letter in LETTERS {
        let mut letters = String::new(rt.alloc());
        for _ in 0..9u8 {
            letters.push_str(letter)?;
        }
        for form in [Form::Nfc, Form::Nfd, Form::Nfkc, Form::Nfkd] {
            for code in 0..0x11_0000u32 {
                let Some(c) = char::from_u32(code) else {
                    continue;
                };
                let text = format!(in rt.alloc(); "{letters}{c}{letters}")?;
                let end = if role_of(form, c) == Role::Ends {
                    letters.len()
                } else {
                    text.len()
                };
                let span = span_text(form, &text).split();
                assert_eq!(rt;
                    (span.settled.len(), span.tail, span.rest.len()),
                    (
                        end.saturating_sub(letter.len()),
                        letter,
                        text.len().saturating_sub(end)
                    ),
                    "{form:?}, {code:x}"
                );
            }
        }
    }
    Ok(())
}
