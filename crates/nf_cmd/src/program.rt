//! The program, over any reader and writers.
ghost use Rattle.std.specs.Prelude.{◌≡◌, ◌<◌, false, length, ℕ, List, Option};
ghost use Rattle.clap.specs.Values.{kind_of};
ghost use Rattle.clap.specs.Walk.{texts};
ghost use Rattle.nf_cmd.specs.Line.{IsRefused as Refused};
ghost use Rattle.nf_cmd.specs.Lines.{line_of, status_of};
ghost use Rattle.nf_cmd.specs.Answers.{Answers, ComesOf, Does};
ghost use Rattle.nf_cmd.specs.Again.{ConvertsOnce};
ghost use Rattle.nf_cmd.specs.Fronts.{AppendsFront};

use crate::check::{check, check_form};
use crate::convert::{convert, convert_lines};
use crate::fault::Fault;
use crate::line::{Request, parse};
use crate::measure::measure;
use crate::test::test;
use crate::writing::{write_front, write_whole};
use arrayvec::ArrayVec;
use clap::Error;
use clap::error::ErrorKind;
use nf_facts::laws::{each_form_changes_a_text_once, every_character_is_sound};
use nf_filter::laws::{no_sound_character_is_refused, what_was_finished_stays};
use std::alloc::Global;
use std::io::{Read, Write};

/// What a line on standard error may take, in bytes: more than any of the program does.
const LINE: usize = 128;

/// Does what `words` ask for, of which the first is the program's name, and answers the status to end with. No character
/// is refused as unsound: of Unicode's none is.
pub fn command<'w, I: Read, O: Write, E: Write>(
    alloc: Global,
    words: &'w [&'w str],
    input: &mut I,
    out: &mut O,
    err: &mut E,
) -> u8
    requires { 0 < length words.now }
    ensures answer { Answers (texts words.entry.now)
        (record { input = I.remaining input.old; out = O.contents out.old; err = E.contents err.old })
        (record { input = I.remaining input.new; out = O.contents out.new; err = E.contents err.new })
        result }

    // The command line is to blame only where clap's definition of it refuses the words, or `--assigned` stands there without
    // the form that it needs.
    ensures refused { result ≡ 2 → Refused (texts words.entry.now) }

    // A second run changes nothing of what `convert` wrote, with `--line-buffered` or without it.
    ensures again { ConvertsOnce (texts words.entry.now)
        (record { input = I.remaining input.old; out = O.contents out.old; err = E.contents err.old })
        (record { input = I.remaining input.new; out = O.contents out.new; err = E.contents err.new })
        result }
{
    every_character_is_sound();
    no_sound_character_is_refused();
    each_form_changes_a_text_once();
    what_was_finished_stays();
    match parse(alloc, words) {
        Ok(request) => report(perform(alloc, request, input, out), err),
        Err(error) => refuse(alloc, &error, out, err),
    }
}

// Does what was asked for. Answers the status of a run that came to its end, or the fault that it ended by.
fn perform<I: Read, O: Write>(
    alloc: Global,
    request: Request,
    input: &mut I,
    out: &mut O,
) -> Result<u8, Fault>
    ensures status { ¬ (status_of result ≡ 2) }
    ensures does { (err err_after : Option (List ℕ)) → Does request
        (record { input = I.remaining input.old; out = O.contents out.old; err = err })
        (record { input = I.remaining input.new; out = O.contents out.new; err = err_after }) result }
{
    match request {
        Request::Convert(form, policy) => convert(form, policy, input, out),
        Request::ConvertLines(form, policy) => convert_lines(form, policy, input, out),
        Request::Check => check(input, out),
        Request::CheckForm(form, assigned) => check_form(form, assigned, input, out),
        Request::Measure => measure(input, out),
        Request::Test => test(alloc, input, out),
    }
}

// Help goes to the output, and a mistake in the words to standard error.
fn refuse<O: Write, E: Write>(alloc: Global, error: &Error, out: &mut O, err: &mut E) -> u8
    ensures { (input input_after : Option (List ℕ)) → ComesOf (kind_of error.now)
        (record { input = input; out = O.contents out.old; err = E.contents err.old })
        (record { input = input_after; out = O.contents out.new; err = E.contents err.new }) result }
{
    let kind = error.kind();
    if kind == ErrorKind::OutOfMemory {
        return report(Err(Fault::Memory), err);
    }
    let Ok(text) = format!(in alloc; "{error}") else {
        return report(Err(Fault::Memory), err);
    };
    if kind != ErrorKind::DisplayHelp {
        let _ = write_front(err, text.as_bytes());
        return 2;
    }
    match write_whole(out, text.as_bytes()) {
        Ok(()) => 0,
        Err(fault) => report(Err(fault), err),
    }
}

// The status of a run that ended so. A fault is said on standard error; where that fails, nothing more is done.
fn report<E: Write>(found: Result<u8, Fault>, err: &mut E) -> u8
    ensures status { result ≡ status_of found }
    ensures line { AppendsFront (E.contents err.old) (E.contents err.new) (line_of found) }
{
    let fault = match found {
        Ok(status) => return status,
        Err(fault) => fault,
    };
    let mut line: ArrayVec<u8, LINE> = ArrayVec::new();
    if writeln!(line, "nfstream: {fault}").is_ok() {
        let _ = write_front(err, line.as_slice());
    }
    fault.status()
}
