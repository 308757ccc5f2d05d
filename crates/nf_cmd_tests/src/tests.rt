//! Runs of the program over memory.
ghost use Rattle.std.specs.Prelude.{◌<◌, length};

mod by_lines;
mod check;
mod check_form;
mod convert;
mod devices;
mod endings;
mod failures;
mod faults;
mod measure;
mod policies;
mod test;
mod texts;
mod words;

use nf_cmd::command;
use std::alloc::{AllocError, Global};
use std::io::Read;
use std::process::Abort;

/// The names of the forms.
const FORMS: [&str; 4] = ["nfc", "nfd", "nfkc", "nfkd"];

const CHECK: [&str; 2] = ["nfstream", "check"];

const CHECK_NFC: [&str; 4] = ["nfstream", "check", "--form", "nfc"];

const MEASURE: [&str; 2] = ["nfstream", "measure"];

const TEST: [&str; 2] = ["nfstream", "test"];

/// Texts, each with how many times it stands, one after another.
type Parts<'a> = &'a [(&'a str, usize)];

/// What a run showed.
#[derive(Debug, Drop)]
struct Shown {
    status: u8,
    out: Vec<u8>,
    err: Vec<u8>,
}

/// An input, the texts and these bytes after them; and the status, the output and the line that a run must give of it.
type Case<'a> = (Parts<'a>, &'a [u8], u8, &'a str, &'a str);

fn run<I: Read>(alloc: Global, words: &[&str], input: &mut I) -> Shown
    requires { 0 < length words.now }
{
    let (mut out, mut err) = (Vec::new(alloc), Vec::new(alloc));
    let status = command(alloc, words, input, &mut out, &mut err);
    Shown { status, out, err }
}

/// What `convert` makes of these bytes.
fn converted(alloc: Global, form: &str, mut input: &[u8]) -> Shown {
    let words = ["nfstream", "convert", "--form", form];
    run(alloc, words.as_slice(), &mut input)
}

fn repeated(alloc: Global, texts: Parts<'_>) -> Result<Vec<u8>, AllocError> {
    let mut bytes = Vec::new(alloc);
    for (text, times) in texts {
        for _ in 0..*times {
            bytes.extend_from_slice(text.as_bytes())?;
        }
    }
    Ok(bytes)
}

fn assert_shown(rt: &impl Abort, shown: &Shown, status: u8, out: &[u8], err: &str) {
    assert_eq!(rt; shown.out.as_slice(), out);
    assert_eq!(rt; shown.err.as_slice(), err.as_bytes());
    assert_eq!(rt; shown.status, status);
}

fn assert_cases(
    rt: &impl Abort,
    alloc: Global,
    words: &[&str],
    cases: &[Case<'_>],
) -> Result<(), AllocError>
    requires { 0 < length words.now }
{
    for (texts, rest, status, out, err) in cases {
        let mut bytes = repeated(alloc, *texts)?;
        bytes.extend_from_slice(*rest)?;
        let shown = run(alloc, words, &mut bytes.as_slice());
        assert_shown(rt, &shown, *status, out.as_bytes(), *err);
    }
    Ok(())
}
