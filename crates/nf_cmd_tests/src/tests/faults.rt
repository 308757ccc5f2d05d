//! Bytes that are no text.
use super::{CHECK, FORMS, MEASURE, assert_shown, converted, run};

#[test]
fn the_first_bad_byte_is_told(rt: HostRuntime) {
    let alloc = rt.alloc();
    for (input, line) in [
        (
            b"ab\xC3(".as_slice(),
            "nfstream: ill-formed byte at 3, character begun at 2\n",
        ),
        (
            b"ab\xC3",
            "nfstream: input ends at 3 inside a character begun at 2\n",
        ),
    ] {
        // A mark might have followed the b.
        for form in FORMS {
            assert_shown(&rt, &converted(alloc, form, input), 3, b"a", line);
        }
        for words in [CHECK, MEASURE] {
            let mut rest = input;
            assert_shown(&rt, &run(alloc, &words, &mut rest), 3, b"", line);
        }
    }
}
