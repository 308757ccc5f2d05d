//! Devices that fail once and then work: the failure is told in its place, and the device is not asked again.
ghost use Rattle.std.specs.Prelude.{◌<◌, length};

use super::devices::{Calls, Reading, Writing};
use super::{CHECK, CHECK_NFC, Case, MEASURE, TEST, assert_shown, repeated, run};
use nf_cmd::command;
use std::alloc::Global;
use std::io::ErrorKind;
use std::process::Abort;
use std::test::Fail;

/// Failures: two that may be taken for a reason to try again, one that may not, and that of a write that takes nothing.
const KINDS: [ErrorKind; 4] = [
    ErrorKind::Interrupted,
    ErrorKind::WouldBlock,
    ErrorKind::BrokenPipe,
    ErrorKind::WriteZero,
];

const CONVERT: [&str; 4] = ["nfstream", "convert", "--form", "nfc"];

/// A vector file that holds.
const ROW: &[u8] = b"0061;0061;0061;0061;0061;\n";

/// Lets each read of a run fail in turn, by a reader that gives two bytes at a time. A command that writes as it reads
/// has then written all but the last character.
fn assert_failed_reads(
    rt: &impl Abort,
    alloc: Global,
    words: &[&str],
    input: &[u8],
    writes: bool,
    kind: ErrorKind,
)
    requires { 0 < length words.now }
{
    let reads = input.len() / 2 + 1;
    for fails_at in 0..reads {
        let calls = Calls::new(fails_at, kind);
        let mut reader = Reading { rest: input, calls };
        let shown = run(alloc, words, &mut reader);
        let settled = if writes {
            (2 * fails_at).saturating_sub(1)
        } else {
            0
        };
        assert_shown(rt, &shown, 4, &input[..settled], "nfstream: read failed\n");
        assert_eq!(rt; reader.calls.made, fails_at + 1);
    }
    let calls = Calls::new(reads, kind);
    let mut reader = Reading { rest: input, calls };
    let shown = run(alloc, words, &mut reader);
    assert_eq!(rt; shown.status, 0);
    assert_eq!(rt; reader.calls.made, reads);
}

#[test]
fn each_read_that_fails_is_told_and_not_tried_again(rt: HostRuntime) {
    let runs: [(&[&str], &[u8], bool); 5] = [
        (&CONVERT, b"abcdefgh", true),
        (&CHECK, b"abcdefgh", false),
        (&CHECK_NFC, b"abcdefgh", false),
        (&MEASURE, b"abcdefgh", false),
        (&TEST, ROW, false),
    ];
    for (words, input, writes) in runs {
        for kind in KINDS {
            assert_failed_reads(&rt, rt.alloc(), words, input, writes, kind);
        }
    }
}

#[test]
fn what_stands_before_a_failed_read_decides(rt: HostRuntime) -> Result<(), Fail> {
    let alloc = rt.alloc();
    let failed = "nfstream: read failed\n";
    let bad = "nfstream: ill-formed byte at 1, character begun at 1\n";
    let place = "not stream-safe at character 31 byte 61\n";
    let first = "not nfc at character 0 byte 0\n";
    // The read that fails, by its number from 0.
    let runs: [(&[&str], usize, Case<'_>); 8] = [
        (&CONVERT, 2, (&[("ab", 1)], b"\xC3", 4, "a", failed)),
        (&CONVERT, 1, (&[("a", 1)], b"\xFF", 3, "", bad)),
        (&CHECK, 1, (&[("a", 1)], b"\xFF", 3, "", bad)),
        (
            &CHECK,
            32,
            (&[("q", 1), ("\u{301}", 31)], b"", 1, place, ""),
        ),
        (&CHECK_NFC, 1, (&[("a", 1)], b"\xFF", 3, "", bad)),
        (&CHECK_NFC, 2, (&[("\u{212B}b", 1)], b"", 1, first, "")),
        (
            &CHECK_NFC,
            2,
            (&[("\u{212B}\u{301}", 1)], b"", 4, "", failed),
        ),
        (
            &MEASURE,
            32,
            (&[("q", 1), ("\u{301}", 31)], b"", 4, "", failed),
        ),
    ];
    for (words, fails_at, (texts, rest, status, out, err)) in runs {
        let mut bytes = repeated(alloc, texts)?;
        bytes.extend_from_slice(rest)?;
        let calls = Calls::new(fails_at, ErrorKind::BrokenPipe);
        let mut reader = Reading {
            rest: bytes.as_slice(),
            calls,
        };
        assert_shown(
            &rt,
            &run(alloc, words, &mut reader),
            status,
            out.as_bytes(),
            err,
        );
    }
    Ok(())
}

/// Lets each write, and the flush, of a run with this output fail in turn, by a writer that takes so many bytes at a
/// time. The `last` bytes of the output come by themselves, at the end of the input.
fn assert_failed_writes(
    rt: &impl Abort,
    alloc: Global,
    words: &[&str],
    input: &[u8],
    output: &[u8],
    last: usize,
    most: usize,
    kind: ErrorKind,
)
    requires words { 0 < length words.now }
    requires most { 0 < most }
{
    let first = output.len().saturating_sub(last);
    let writes = first.div_ceil(most);
    let calls = writes.saturating_add(last.div_ceil(most)).saturating_add(1);
    for fails_at in 0..calls {
        let (mut rest, mut err) = (input, Vec::new(alloc));
        let mut out = Writing::new(alloc, most, Calls::new(fails_at, kind));
        let status = command(alloc, &*words, &mut rest, &mut out, &mut err);
        let mut taken = output.len();
        if fails_at <= writes {
            taken = fails_at.saturating_mul(most).min(first);
        }
        assert_eq!(rt; out.held.as_slice(), &output[..taken]);
        assert_eq!(rt; out.calls.made, fails_at + 1);
        assert_eq!(rt; err.as_slice(), b"nfstream: write failed\n".as_slice());
        assert_eq!(rt; status, 4);
    }
}

#[test]
fn each_write_that_fails_is_told_and_not_tried_again(rt: HostRuntime) {
    let alloc = rt.alloc();
    let help: [&str; 2] = ["nfstream", "help"];
    let helped = run(alloc, &help, &mut b"".as_slice());
    let measured = b"bytes 8\ncharacters 8\nnon-starters 0\nlongest run 0\nput 0\nunassigned 0\n";
    let runs: [(&[&str], &[u8], &[u8], usize); 8] = [
        (&CONVERT, b"abcdefgh", b"abcdefgh", 1),
        (&CONVERT, b"abcd\xFF", b"abc", 0),
        (&CHECK, b"abcdefgh", b"stream-safe\n", 0),
        (&CHECK, b"abcd\xFF", b"", 0),
        (&MEASURE, b"abcdefgh", measured, 0),
        (&MEASURE, b"abcd\xFF", b"", 0),
        (&TEST, ROW, b"rows 1\npassed 1\nfailed 0\nskipped 0\n", 0),
        (&help, b"", helped.out.as_slice(), 0),
    ];
    for (words, input, output, last) in runs {
        for kind in KINDS {
            assert_failed_writes(&rt, alloc, words, input, output, last, 2, kind);
        }
    }
}

#[test]
fn a_block_that_fails_is_not_written_again(rt: HostRuntime) -> Result<(), Fail> {
    let alloc = rt.alloc();
    let text = repeated(alloc, &[("x", 4000)])?;
    let bytes = text.as_slice();
    for kind in KINDS {
        assert_failed_writes(&rt, alloc, &CONVERT, bytes, bytes, 1, 1024, kind);
    }
    Ok(())
}

/// Lets each write of these bytes on standard error fail in turn, by a writer that takes two bytes at a time.
fn assert_failed_lines(
    rt: &impl Abort,
    alloc: Global,
    words: &[&str],
    output: &[u8],
    line: &[u8],
    status: u8,
    kind: ErrorKind,
)
    requires { 0 < length words.now }
{
    for fails_at in 0..line.len().div_ceil(2) {
        let (mut input, mut out) = (b"ab\xFF".as_slice(), Vec::new(alloc));
        let mut err = Writing::new(alloc, 2, Calls::new(fails_at, kind));
        let ended = command(alloc, &*words, &mut input, &mut out, &mut err);
        let taken = fails_at.saturating_mul(2).min(line.len());
        assert_eq!(rt; out.as_slice(), output);
        assert_eq!(rt; err.held.as_slice(), &line[..taken]);
        assert_eq!(rt; err.calls.made, fails_at + 1);
        assert_eq!(rt; ended, status);
    }
}

#[test]
fn standard_error_that_fails_changes_nothing_and_is_not_tried_again(rt: HostRuntime) {
    let alloc = rt.alloc();
    let mistake: [&str; 2] = ["nfstream", "normalize"];
    let refused = run(alloc, &mistake, &mut b"".as_slice());
    let bad = b"nfstream: ill-formed byte at 2, character begun at 2\n";
    for kind in KINDS {
        assert_failed_lines(&rt, alloc, &CONVERT, b"a", bad, 3, kind);
        assert_failed_lines(&rt, alloc, &mistake, b"", refused.err.as_slice(), 2, kind);
    }
}
