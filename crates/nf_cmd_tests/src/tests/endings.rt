//! Each ending of each command, over devices of which one call fails: what stands then on the output and on standard error.
ghost use Rattle.std.specs.Prelude.{◌<◌, length};

use super::devices::{Calls, Writing};
use super::{CHECK, CHECK_NFC, MEASURE, Parts, TEST, repeated};
use nf_cmd::command;
use std::alloc::Global;
use std::io::ErrorKind;
use std::process::Abort;
use std::test::Fail;

const CONVERT: [&str; 4] = ["nfstream", "convert", "--form", "nfd"];

const FAILED: &str = "nfstream: write failed\n";

/// More calls than a run here makes.
const NEVER: usize = 1000;

/// The words and the input of a run; its status, its output and its line where no device fails.
type Ending<'a> = (&'a [&'a str], Parts<'a>, &'a [u8], u8, &'a str, &'a str);

const ENDINGS: [Ending<'static>; 16] = [
    (&CONVERT, &[("\u{C5}b", 1)], b"", 0, "A\u{30A}b", ""),
    (
        &CONVERT,
        &[],
        b"\xC3(",
        3,
        "",
        "nfstream: ill-formed byte at 1, character begun at 0\n",
    ),
    (
        &CONVERT,
        &[("ab", 1)],
        b"\xC3",
        3,
        "a",
        "nfstream: input ends at 3 inside a character begun at 2\n",
    ),
    (&CHECK, &[("ab", 1)], b"", 0, "stream-safe\n", ""),
    (
        &CHECK,
        &[("q", 1), ("\u{301}", 31)],
        b"",
        1,
        "not stream-safe at character 31 byte 61\n",
        "",
    ),
    (
        &CHECK,
        &[("q", 1), ("\u{301}", 30)],
        b"\xFF",
        3,
        "",
        "nfstream: ill-formed byte at 61, character begun at 61\n",
    ),
    (
        &CHECK,
        &[],
        b"\xE2\x82",
        3,
        "",
        "nfstream: input ends at 2 inside a character begun at 0\n",
    ),
    (&CHECK_NFC, &[("ab", 1)], b"", 0, "nfc\n", ""),
    (
        &CHECK_NFC,
        &[("\u{212B}", 1)],
        b"",
        1,
        "not nfc at character 0 byte 0\n",
        "",
    ),
    (
        &CHECK_NFC,
        &[("\u{212B}", 1)],
        b"\xFF",
        3,
        "",
        "nfstream: ill-formed byte at 3, character begun at 3\n",
    ),
    (
        &MEASURE,
        &[("q", 1), ("\u{301}", 31)],
        b"",
        0,
        "bytes 63\ncharacters 32\nnon-starters 31\nlongest run 31\nput 1\nunassigned 0\n",
        "",
    ),
    (
        &MEASURE,
        &[("q", 1), ("\u{301}", 31)],
        b"\xC0",
        3,
        "",
        "nfstream: ill-formed byte at 63, character begun at 63\n",
    ),
    (
        &TEST,
        &[],
        b"",
        0,
        "rows 0\npassed 0\nfailed 0\nskipped 0\n",
        "",
    ),
    (
        &TEST,
        &[("@Part0\n0061;0062;0061;0061;0061;", 1)],
        b"",
        1,
        "rows 1\npassed 0\nfailed 1\nskipped 0\nfirst failure line 2 form nfc column 1\n",
        "",
    ),
    (
        &TEST,
        &[("0061;0062;", 1)],
        b"",
        3,
        "",
        "nfstream: line 1: fields\n",
    ),
    (
        &TEST,
        &[("#\n0061;0061;0061;0061;D800", 1)],
        b"",
        3,
        "",
        "nfstream: line 2: scalar\n",
    ),
];

/// What a run left on writers of which the output fails at the call `out_at` and standard error at the call `err_at`.
#[derive(Debug, Drop)]
struct Left {
    status: u8,
    out: Writing,
    err: Writing,
}

fn left_by(
    alloc: Global,
    words: &[&str],
    mut input: &[u8],
    kind: ErrorKind,
    out_at: usize,
    err_at: usize,
) -> Left
    requires { 0 < length words.now }
{
    let mut out = Writing::new(alloc, 3, Calls::new(out_at, kind));
    let mut err = Writing::new(alloc, 3, Calls::new(err_at, kind));
    let status = command(alloc, words, &mut input, &mut out, &mut err);
    Left { status, out, err }
}

/// The output fails at each of its calls, the last of which is the flush: the status is that of a failed write whatever
/// else was found, no second line is said, and nothing is asked of it again. Where standard error fails too, nothing is
/// said.
fn assert_output_fails(
    rt: &impl Abort,
    alloc: Global,
    words: &[&str],
    input: &[u8],
    output: &str,
    kind: ErrorKind,
) {
    assert!(rt; !words.is_empty());
    let calls = left_by(alloc, words, input, kind, NEVER, NEVER)
        .out
        .calls
        .made;
    for at in 0..calls {
        assert!(rt; !words.is_empty());
        let left = left_by(alloc, words, input, kind, at, NEVER);
        let held = left.out.held.as_slice();
        assert!(rt; output.as_bytes().starts_with(held), "{words:?} call {at}");
        assert_eq!(rt;
            held.len() == output.len(),
            at + 1 == calls,
            "{words:?} call {at}"
        );
        assert_eq!(rt;
            left.err.held.as_slice(),
            FAILED.as_bytes(),
            "{words:?} call {at}"
        );
        assert_eq!(rt;
            (left.status, left.out.calls.made),
            (4, at + 1),
            "{words:?}"
        );
        let left = left_by(alloc, words, input, kind, at, 0);
        assert_eq!(rt; (left.status, left.err.held.len()), (4, 0), "{words:?}");
        assert_eq!(rt; left.err.calls.made, 1, "{words:?}");
    }
}

/// Standard error fails at each of its calls: the status and the output are what they are without that.
fn assert_error_fails(
    rt: &impl Abort,
    alloc: Global,
    words: &[&str],
    input: &[u8],
    due: (u8, &str, &str),
    kind: ErrorKind,
) {
    let (status, output, line) = due;
    for at in 0..line.len().div_ceil(3).saturating_add(1) {
        assert!(rt; !words.is_empty());
        let left = left_by(alloc, words, input, kind, NEVER, at);
        let taken = at.saturating_mul(3).min(line.len());
        assert_eq!(rt; left.status, status, "{words:?}");
        assert_eq!(rt; left.out.held.as_slice(), output.as_bytes());
        assert_eq!(rt; left.err.held.as_slice(), &line.as_bytes()[..taken]);
        assert!(rt; left.err.calls.made <= at + 1, "{words:?}");
    }
}

#[test]
fn each_ending_is_kept_over_devices_that_fail(rt: HostRuntime) -> Result<(), Fail> {
    let alloc = rt.alloc();
    for (words, texts, rest, status, output, line) in ENDINGS {
        let mut bytes = repeated(alloc, texts)?;
        bytes.extend_from_slice(rest)?;
        let input = bytes.as_slice();
        for kind in [ErrorKind::Interrupted, ErrorKind::WriteZero] {
            assert_output_fails(&rt, alloc, words, input, output, kind);
            assert_error_fails(&rt, alloc, words, input, (status, output, line), kind);
        }
    }
    Ok(())
}
