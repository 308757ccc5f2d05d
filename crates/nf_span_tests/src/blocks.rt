//! A character that ends the front, at each place in a block of bytes.
use nf_forms::Form;
use nf_span::span_text;
use std::test::Fail;

/// After letters of one, two and three bytes, which need no look in NFC, stands a mark that may compose.
#[test]
fn the_end_is_found_at_each_place(rt: HostRuntime) -> Result<(), Fail> {
    for letter in ["a", "\u{E9}", "\u{4E2D}"] {
        let mut letters = String::new(rt.alloc());
        for count in 0..70usize {
            letters.push_str(letter)?;
            let text = format!(in rt.alloc(); "{letters}\u{301}{letters}")?;
            let span = span_text(Form::Nfc, &text).split();
            assert_eq!(rt;
                (span.settled.len(), span.tail, span.rest.len()),
                (letters.len() - letter.len(), letter, letters.len() + 2),
                "{letter} {count}"
            );
            let whole = span_text(Form::Nfc, &letters).split();
            assert_eq!(rt; (whole.tail, whole.rest), (letter, ""), "{letter} {count}");
        }
    }
    Ok(())
}
