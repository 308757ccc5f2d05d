use nf_filter::{FromReader, run};
use nf_filter_fixtures::{FORMS, Kept, filter_of};
use nf_row::{Form, Ucd, sound};
use std::alloc::{AllocError, Global};
use std::test::Fail;
use unicode_normalization::{to_nfc, to_nfd, to_nfkc, to_nfkd};

/// The form of the whole text as the kit has it.
pub fn whole_form(alloc: Global, form: Form, text: &str) -> Result<String, AllocError> {
    match form {
        Form::Nfc => to_nfc(alloc, text),
        Form::Nfd => to_nfd(alloc, text),
        Form::Nfkc => to_nfkc(alloc, text),
        Form::Nfkd => to_nfkd(alloc, text),
    }
}

/// Whether `run` makes of the text what the kit makes of it.
fn agrees(alloc: Global, form: Form, text: &str) -> Result<bool, AllocError> {
    let mut sink = Kept::new(alloc);
    let mut source = FromReader::new(text.as_bytes());
    if run(&Ucd, form, 0, &mut source, &mut sink).is_err() {
        return Ok(false);
    }
    let whole = whole_form(alloc, form, text)?;
    Ok(sink.bytes.as_slice() == whole.as_bytes())
}

#[test]
fn each_sound_character_alone_has_its_form(rt: HostRuntime) -> Result<(), Fail> {
    let alloc = rt.alloc();
    for code in 0..0x11_0000u32 {
        let Some(c) = char::from_u32(code) else {
            continue;
        };
        if !sound(&Ucd, c) {
            continue;
        }
        let mut room = [0; 4];
        let text = &*c.encode_utf8(&mut room);
        for form in FORMS {
            assert!(rt; agrees(alloc, form, text)?, "at {code:X}");
        }
    }
    Ok(())
}

#[test]
fn short_texts_have_their_form(rt: HostRuntime) -> Result<(), Fail> {
    let alloc = rt.alloc();
    let letters = [
        "", "a", "\u{301}", "\u{302}", "\u{323}", "\u{1EA1}", "\u{1100}", "\u{1161}", "\u{11A8}",
        "\u{AC00}", "\u{FF9E}",
    ];
    let mut texts: u32 = 0;
    for first in letters {
        for second in letters {
            for third in letters {
                for fourth in letters {
                    // Each text once: the empty places stand at its end.
                    let gap = (first.is_empty() && !second.is_empty())
                        || (second.is_empty() && !third.is_empty())
                        || (third.is_empty() && !fourth.is_empty());
                    if gap {
                        continue;
                    }
                    let mut text = String::new(alloc);
                    text.push_str(first)?;
                    text.push_str(second)?;
                    text.push_str(third)?;
                    text.push_str(fourth)?;
                    for form in FORMS {
                        assert!(rt; agrees(alloc, form, text.as_str())?, "{text}");
                    }
                    texts = u32::saturating_add(texts, 1);
                }
            }
        }
    }
    assert_eq!(rt; texts, 11_111);
    Ok(())
}

#[test]
fn syllables_are_made_and_taken_apart(rt: HostRuntime) -> Result<(), Fail> {
    let alloc = rt.alloc();
    for index in 0..11_172u32 {
        let syllable = char::from_u32(0xAC00 + index).ok_or("no character")?;
        let parts = [
            0x1100 + index / 588,
            0x1161 + index % 588 / 28,
            0x11A7 + index % 28,
        ];
        let mut jamo = String::new(alloc);
        for part in parts {
            if part != 0x11A7 {
                jamo.push(char::from_u32(part).ok_or("no character")?)?;
            }
        }
        let mut room = [0; 4];
        let whole = &*syllable.encode_utf8(&mut room);
        for (form, input, output) in [
            (Form::Nfd, whole, jamo.as_str()),
            (Form::Nfc, jamo.as_str(), whole),
        ] {
            for is_fast in [false, true] {
                let mut sink = Kept::new(alloc);
                let mut filter = filter_of(&Ucd, form, 0, is_fast);
                assert_eq!(rt; filter.feed(input.as_bytes(), &mut sink), Ok(()));
                assert!(rt; filter.finish(&mut sink).is_ok());
                assert_eq!(rt; sink.bytes.as_slice(), output.as_bytes());
            }
        }
    }
    Ok(())
}
