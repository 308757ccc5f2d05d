//! `convert --line-buffered`, over readers that give pieces.
ghost use Rattle.std.specs.Prelude.{◌<◌, length};

use super::devices::{Calls, Pieces};
use super::{FORMS, assert_shown, converted, repeated, run};
use std::io::ErrorKind;
use std::test::Fail;

const LINES: [&str; 5] = ["nfstream", "convert", "--form", "nfc", "--line-buffered"];

/// No call fails.
const NONE: usize = usize::MAX;

/// What a run has written when the reader fails after so many pieces.
#[test]
fn each_line_is_written_once_it_was_read(rt: HostRuntime) {
    let alloc = rt.alloc();
    let pieces: [&[u8]; 6] = [
        b"one\n",
        b"A\xCC\x8A\n",
        b"\xCC\x81x\r\n\n",
        b"two\nthr",
        b"ee\xC3",
        b"\xA9\nend",
    ];
    let written: [&[u8]; 7] = [
        b"",
        b"one\n",
        b"one\n\xC3\x85\n",
        b"one\n\xC3\x85\n\xCC\x81x\r\n\n",
        b"one\n\xC3\x85\n\xCC\x81x\r\n\ntwo\nth",
        b"one\n\xC3\x85\n\xCC\x81x\r\n\ntwo\nthre",
        b"one\n\xC3\x85\n\xCC\x81x\r\n\ntwo\nthree\xC3\xA9\nen",
    ];
    for (fails_at, out) in written.iter().enumerate() {
        let calls = Calls::new(fails_at, ErrorKind::BrokenPipe);
        let mut reader = Pieces::new(pieces.as_slice(), calls);
        let shown = run(alloc, LINES.as_slice(), &mut reader);
        assert_shown(&rt, &shown, 4, *out, "nfstream: read failed\n");
    }
}

#[test]
fn the_output_is_that_of_convert_wherever_reads_end(rt: HostRuntime) -> Result<(), Fail> {
    let alloc = rt.alloc();
    let input = repeated(
        alloc,
        &[
            ("e", 1),
            ("\u{301}", 40),
            ("\r\n\u{323}\u{301}", 1),
            ("\u{301}", 40),
            ("\n\n\u{FF9E}\u{1100}\n\u{1161}\u{11A8}\na", 1),
        ],
    )?;
    for form in FORMS {
        let words = ["nfstream", "convert", "--form", form, "--line-buffered"];
        let whole = converted(alloc, form, input.as_slice());
        for at in 0..=input.len() {
            let (front, rest) = input.as_slice().split_at(at);
            let pieces = [front, rest];
            let from = usize::from(at == 0);
            let mut reader = Pieces::new(&pieces[from..], Calls::new(NONE, ErrorKind::Other));
            let shown = run(alloc, words.as_slice(), &mut reader);
            assert_shown(&rt, &shown, 0, whole.out.as_slice(), "");
        }
    }
    Ok(())
}

#[test]
fn lines_before_a_fault_are_written(rt: HostRuntime) {
    let alloc = rt.alloc();
    let apart: [&[u8]; 3] = [b"a\n", b"b\n", b"c\xFFd\n"];
    let joined: [&[u8]; 1] = [b"a\nb\nc\xFF"];
    for pieces in [apart.as_slice(), joined.as_slice()] {
        let mut reader = Pieces::new(pieces, Calls::new(NONE, ErrorKind::Other));
        let shown = run(alloc, LINES.as_slice(), &mut reader);
        let err = "nfstream: ill-formed byte at 5, character begun at 5\n";
        assert_shown(&rt, &shown, 3, b"a\nb\n", err);
    }
}
