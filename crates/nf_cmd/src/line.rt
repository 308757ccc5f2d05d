//! The command line.
ghost use Rattle.std.specs.Prelude.{◌≡◌, IfErr, IfOk, codes, false, option_map, true};
ghost use Rattle.clap.specs.Simple.{on_top};
ghost use Rattle.clap.specs.Words.{app_of, found_of, kind_of, new_app, rows_of, rule_of, subcommand_rows_of, with_subcommand};
ghost use Rattle.clap.specs.declared.builder.command.Command.TheViews.{out-Command};
ghost use Rattle.clap.specs.Walk.{texts};
ghost use Rattle.nf_cmd.specs.Line.{Asks, IsLine, IsRefusal, check, convert, flag_rule, form_named, form_rule, is_set};
ghost use Rattle.nf_cmd.specs.Line.{request_by, request_of};

use crate::help;
use clap::error::ErrorKind;
use clap::{Arg, ArgAction, ArgMatches, Command, Error};
use nf_filter::Policy;
use nf_row::Form;
use std::alloc::{AllocError, Global};

/// What the words ask for.
#[derive(Clone, Copy, Debug, PartialEq, Eq)]
pub(crate) enum Request {
    /// `convert`: the form of the stream-safe text, read by a policy.
    Convert(Form, Policy),
    /// `convert` line by line.
    ConvertLines(Form, Policy),
    /// `check`: whether the text is stream-safe, and where it is not.
    Check,
    /// `check --form`: whether the form leaves the text as it is, and where it does not; and whether a character that is not
    /// assigned is a fault.
    CheckForm(Form, bool),
    /// `measure`: what is measured of the text.
    Measure,
    /// `test`: what the rows of a vector file come to.
    Test,
}

static FORMS: [&str; 4] = ["nfc", "nfd", "nfkc", "nfkd"];

/// What `words` ask for, of which the first is the program's name.
pub(crate) fn parse<'w>(alloc: Global, words: &'w [&'w str]) -> Result<Request, Error>
    ensures asked { IfOk result (Asks (texts words.entry.now)) }
    ensures refused { IfErr result (λ e. IsRefusal (texts words.entry.now) (kind_of e)) }
{
    let matches = line(alloc)?.try_get_matches_from(words)?;
    match requested(&matches) {
        Some(request) => Ok(request),
        None => Err(form_is_missing(alloc)?),
    }
}

// What clap says of an option that is not there. Of a line in which one option requires another clap does not say which words
// it refuses, so that `check --assigned` wants `--form` is no part of the line.
fn form_is_missing(alloc: Global) -> Result<Error, AllocError>
    ensures { IfOk result (λ e. kind_of e ≡ ErrorKind.MissingRequiredArgument) }
{
    let mut check = check(alloc, FORMS.as_slice())?;
    check.error(
        ErrorKind::MissingRequiredArgument,
        "the following required arguments were not provided:\n  --form <FORM>",
    )
}

// The line that the program takes.
fn line<'w>(alloc: Global) -> Result<Command<'w>, AllocError>
    ensures { IfOk result (λ c. IsLine (app_of c)) }
{
    let line = with_forms(alloc, FORMS.as_slice())?;
    let line = line.subcommand(plain(
        alloc,
        "measure",
        "nfstream measure < FILE",
        "Counts the text's characters and non-starters, and what convert would put in",
        help::MEASURE,
    ))?;
    line.subcommand(plain(
        alloc,
        "test",
        "nfstream test < FILE",
        "Tests the forms by a file in the layout of NormalizationTest.txt",
        help::TEST,
    ))
}

// The program, and the two subcommands that take a form. It stands by itself since what a `?` may leave is proved of each step
// before it: all four in one function took the prover a minute more.
fn with_forms<'w>(alloc: Global, names: &'w [&'w str]) -> Result<Command<'w>, AllocError>
    ensures { IfOk result (λ c. app_of c ≡ with_subcommand (with_subcommand
        (on_top (λ s. record s { subcommand_required = true }) (new_app (codes "nfstream"))) (convert names.entry).top) (check names.entry).top) }
{
    let line = program(alloc).subcommand(convert(alloc, names)?)?;
    line.subcommand(check(alloc, names)?)
}

fn program<'w>(alloc: Global) -> Command<'w>
    ensures { app_of result ≡ on_top (λ s. record s { subcommand_required = true }) (new_app (codes "nfstream")) }
{
    Command::new(alloc, "nfstream")
        .override_usage("nfstream <COMMAND> < FILE")
        .about("Makes UTF-8 text on standard input stream-safe, normalizes it, and measures it")
        .after_help(help::PROGRAM)
        .subcommand_required(true)
}

fn convert<'w>(alloc: Global, names: &'w [&'w str]) -> Result<Command<'w>, AllocError>
    ensures shape { IfOk result (λ c. app_of c ≡ convert names.entry) }
    ensures local { IfOk result (λ c. (out-Command c).has_globals ≡ false) }
{
    let convert = plain(
        alloc,
        "convert",
        "nfstream convert [OPTIONS] --form <FORM> < FILE",
        "Writes the normalization form of the stream-safe text",
        help::CONVERT,
    );
    let convert = convert.arg(form(
        alloc,
        names,
        true,
        "The normalization form to write, in lower case",
    ))?;
    let convert = convert.arg(flag(
        alloc,
        "replace",
        "Reads each ill-formed sequence as U+FFFD instead of refusing it",
    ))?;
    let convert = convert.arg(flag(
        alloc,
        "assigned",
        "Refuses characters that Unicode has not assigned",
    ))?;
    convert.arg(flag(
        alloc,
        "line-buffered",
        "Writes each line whole as soon as its line feed is read",
    ))
}

fn check<'w>(alloc: Global, names: &'w [&'w str]) -> Result<Command<'w>, AllocError>
    ensures shape { IfOk result (λ c. app_of c ≡ check names.entry) }
    ensures local { IfOk result (λ c. (out-Command c).has_globals ≡ false) }
{
    let check = plain(
        alloc,
        "check",
        "nfstream check [--form <FORM> [--assigned]] < FILE",
        "Says whether the text is in the Stream-Safe Text Format or in a form, and where it is not",
        help::CHECK,
    );
    let check = check.arg(form(
        alloc,
        names,
        false,
        "The normalization form that the text is to be in, in lower case",
    ))?;
    check.arg(flag(
        alloc,
        "assigned",
        "Refuses characters that Unicode has not assigned; needs --form",
    ))
}

// A command that takes nothing yet, with the usage, and the texts of its help before and after it.
fn plain<'w>(
    alloc: Global,
    name: &'w str,
    usage: &'w str,
    about: &'w str,
    notes: &'w str,
) -> Command<'w>
    ensures shape { app_of result ≡ new_app name.now }
    ensures local { (out-Command result).has_globals ≡ false }
{
    Command::new(alloc, name)
        .override_usage(usage)
        .about(about)
        .after_help(notes)
}

#[tactic(auto, unfolding(crate::specs::Line::form_rule))]
fn form<'w>(alloc: Global, names: &'w [&'w str], required: bool, about: &'w str) -> Arg<'w>
    ensures rule { rule_of result ≡ form_rule names.entry required }
    ensures local { result.global ≡ false }
{
    Arg::new(alloc, "form")
        .long("form")
        .value_name("FORM")
        .value_parser(names)
        .required(required)
        .help(about)
}

#[tactic(auto, unfolding(crate::specs::Line::flag_rule))]
fn flag<'w>(alloc: Global, name: &'w str, about: &'w str) -> Arg<'w>
    ensures rule { rule_of result ≡ flag_rule name.now }
    ensures local { result.global ≡ false }
{
    Arg::new(alloc, name)
        .long(name)
        .action(ArgAction::SetTrue)
        .help(about)
}

// What the subcommand asks for that the words name.
fn requested(matches: &ArgMatches<'_>) -> Option<Request>
    ensures { result ≡ request_of (subcommand_rows_of matches.now) }
{
    let (name, found) = matches.subcommand()?;
    let policy = Policy {
        replace: is_set(found, "replace"),
        assigned: is_set(found, "assigned"),
    };
    let lines = is_set(found, "line-buffered");
    request_by(name, found.get_str("form"), policy, lines)
}

fn request_by(name: &str, form: Option<&str>, policy: Policy, lines: bool) -> Option<Request>
    ensures { result ≡ request_by name.now (option_map (λ s. s.now) form.entry) policy lines }
{
    match name {
        "convert" => {
            let form = form_named(form?)?;
            Some(if lines {
                Request::ConvertLines(form, policy)
            } else {
                Request::Convert(form, policy)
            })
        }
        "check" => match form {
            Some(name) => Some(Request::CheckForm(form_named(name)?, policy.assigned)),
            // `check --assigned` asks for nothing without a form.
            None if policy.assigned => None,
            None => Some(Request::Check),
        },
        "measure" => Some(Request::Measure),
        "test" => Some(Request::Test),
        _ => None,
    }
}

fn form_named(name: &str) -> Option<Form>
    ensures { result ≡ form_named name.now }
{
    match name {
        "nfc" => Some(Form::Nfc),
        "nfd" => Some(Form::Nfd),
        "nfkc" => Some(Form::Nfkc),
        "nfkd" => Some(Form::Nfkd),
        _ => None,
    }
}

// Whether the words have the flag. Clap says what `get_flag` answers of the texts `true` and `false` alone.
fn is_set(found: &ArgMatches<'_>, flag: &str) -> bool
    ensures { result ≡ is_set flag.now (rows_of (found_of found.now)) }
{
    found.get_one(flag) == Some(true)
}
