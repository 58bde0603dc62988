//! The words, by the command of their form.

ghost use Rattle.std.specs.Prelude.{◌≡◌, ◌≤◌, [], Some, true, length, drop, map, option_map, string_bytes, codes};
ghost use Rattle.clap.specs.Words.{app_of, rows_of, found_of, first_of, fault_of, matches_of, is_simple, is_simple_and_free};
ghost use Rattle.xl_words.specs.Words.{number_of, made_by, sets_by, app, pair_app, curve_app, is_on, plain_with, plain_in, pair_in, curve_in, read_by, form_of, form_named, asked, plain_of, pair_of, curve_of, asked_of, Asks, Matches};
ghost use Rattle.xl_words.specs.declared.words.WordsFault.TheVariants as why;

use crate::commands::{command, curve_command, pair_command};
use clap::error::ErrorKind;
use clap::{ArgMatches, Command};
use std::alloc::{AllocError, Global};
use thiserror::Error;

/// What the words of the plain form ask for: the names of the configuration, the script and the
/// trace; for how many records script and trace are made, where they are; whether a line is wanted
/// for each access and command; whether the words of radix tables are; and whether the rows are
/// wanted as JSON.
#[derive(Clone, Copy)]
pub struct Plain<'a> {
    pub config: &'a str,
    pub script: Option<&'a str>,
    pub trace: Option<&'a str>,
    pub made: Option<u32>,
    pub answers: bool,
    pub image: bool,
    pub json: bool,
}

/// What the words of the forms `nested` and `harts` ask for: the names of the script and the trace,
/// and whether a line is wanted for each access.
#[derive(Clone, Copy)]
pub struct Pair<'a> {
    pub script: &'a str,
    pub trace: &'a str,
    pub answers: bool,
}

/// What the words of the form `curve` ask for: how many sets the array of each curve has, and the
/// names of the configuration, the script and the trace.
#[derive(Clone, Copy)]
pub struct CurveWords<'a> {
    pub sets: u32,
    pub config: &'a str,
    pub script: Option<&'a str>,
    pub trace: Option<&'a str>,
}

/// What the words ask for, in each form of the program.
#[derive(Clone, Copy)]
pub enum Words<'a> {
    Plain(Plain<'a>),
    Nested(Pair<'a>),
    Harts(Pair<'a>),
    Curve(CurveWords<'a>),
}

/// The forms of the program.
#[derive(Clone, Copy)]
pub enum Form {
    Plain,
    Nested,
    Harts,
    Curve,
}

/// Why the words ask for nothing.
#[derive(Clone, Copy, Debug, Error)]
pub enum WordsFault {
    /// They are not those of their form's command, or records are to be made beside a script or a
    /// trace.
    #[error("the words are not those of their form's command")]
    Usage,
    /// There is no memory for the command or its matches.
    #[error("no memory")]
    NoMemory,
}

impl From<AllocError> for WordsFault {
    ghost from_gives = { λ _ fault. fault ≡ why.NoMemory };

    fn from(_error: AllocError) -> WordsFault {
        WordsFault::NoMemory
    }
}

/// The most records that are made.
const MOST_RECORDS: u32 = 1 << 20;

/// The most sets of a curve's array.
const MOST_SETS: u32 = 256;

/// What the words ask for, of which the first is the program's name. The second may name a form,
/// whose command reads the words after it; else all words are the plain form's. Usage exactly where
/// that command has no matches for them, or, in the plain form, records are to be made beside a
/// script or a trace; where there is no memory, the answer may be that.
pub fn read<'a>(alloc: Global, words: &'a [String]) -> Result<Words<'a>, WordsFault>
    ensures { Asks asked_of result (asked (map string_bytes words.entry.now)) }
{
    match named_form(words) {
        Form::Plain => Ok(Words::Plain(read_plain(alloc, words)?)),
        Form::Nested => Ok(Words::Nested(read_pair(alloc, later(words))?)),
        Form::Harts => Ok(Words::Harts(read_pair(alloc, later(words))?)),
        Form::Curve => Ok(Words::Curve(read_curve(alloc, later(words))?)),
    }
}

/// The form that the second of the words names.
fn named_form(words: &[String]) -> Form
    ensures { result ≡ form_of (map string_bytes words.now) }
{
    match words.get(1) {
        Some(word) => form_named(word.as_str()),
        None => Form::Plain,
    }
}

/// The form of this name.
fn form_named(word: &str) -> Form
    ensures { result ≡ form_named word.now }
{
    if word == "nested" {
        Form::Nested
    } else if word == "harts" {
        Form::Harts
    } else if word == "curve" {
        Form::Curve
    } else {
        Form::Plain
    }
}

/// The words from the second on.
fn later<'a>(words: &'a [String]) -> &'a [String]
    requires { 1 ≤ length words.now }
    ensures { result.now ≡ drop 1 words.entry.now }
{
    &words[1..]
}

/// What words of the plain form ask for.
fn read_plain<'a>(alloc: Global, words: &'a [String]) -> Result<Plain<'a>, WordsFault>
    ensures { Asks plain_of result (read_by app plain_in (map string_bytes words.entry.now)) }
{
    match matches(command(alloc)?, words) {
        Ok(matches) => plain_matched(&matches),
        Err(fault) => Err(fault),
    }
}

/// What words of the forms `nested` and `harts` ask for.
fn read_pair<'a>(alloc: Global, words: &'a [String]) -> Result<Pair<'a>, WordsFault>
    ensures { Asks pair_of result (read_by pair_app pair_in (map string_bytes words.entry.now)) }
{
    match matches(pair_command(alloc)?, words) {
        Ok(matches) => Ok(pair_matched(&matches)),
        Err(fault) => Err(fault),
    }
}

/// What is asked for by some matches of the forms `nested` and `harts`. The command has none
/// without both files.
fn pair_matched<'a>(matches: &ArgMatches<'a>) -> Pair<'a>
    ensures { Some (pair_of result) ≡ pair_in (rows_of (found_of matches.now)) }
{
    Pair {
        script: value(matches, "script").unwrap_or(""),
        trace: value(matches, "trace").unwrap_or(""),
        answers: is_on(value(matches, "answers")),
    }
}

/// What words of the form `curve` ask for.
fn read_curve<'a>(alloc: Global, words: &'a [String]) -> Result<CurveWords<'a>, WordsFault>
    ensures { Asks curve_of result (read_by curve_app curve_in (map string_bytes words.entry.now)) }
{
    match matches(curve_command(alloc)?, words) {
        Ok(matches) => curve_matched(&matches),
        Err(fault) => Err(fault),
    }
}

/// What is asked for by some matches of the form `curve`. The command has none without a
/// configuration.
fn curve_matched<'a>(matches: &ArgMatches<'a>) -> Result<CurveWords<'a>, WordsFault>
    ensures { Asks curve_of result (curve_in (rows_of (found_of matches.now))) }
{
    match sets(value(matches, "sets")) {
        Some(sets) => Ok(CurveWords {
            sets,
            config: value(matches, "config").unwrap_or(""),
            script: value(matches, "script"),
            trace: value(matches, "trace"),
        }),
        None => Err(WordsFault::Usage),
    }
}

/// The number of sets that is given. The command has no matches without such a number.
fn sets(text: Option<&str>) -> Option<u32>
    ensures { result ≡ sets_by (option_map (λ s. s.now) text.entry) }
{
    match text {
        Some(text) => number(text, MOST_SETS),
        None => None,
    }
}

/// What is asked for by some matches of the plain form. The command has none without a
/// configuration.
fn plain_matched<'a>(matches: &ArgMatches<'a>) -> Result<Plain<'a>, WordsFault>
    ensures { Asks plain_of result (plain_in (rows_of (found_of matches.now))) }
{
    let script = value(matches, "script");
    let trace = value(matches, "trace");
    match made(value(matches, "make"), script, trace) {
        Some(made) => Ok(plain_with(matches, script, trace, made)),
        None => Err(WordsFault::Usage),
    }
}

/// The words of some matches, with these names, and `made` records to be made.
fn plain_with<'a>(
    matches: &ArgMatches<'a>,
    script: Option<&'a str>,
    trace: Option<&'a str>,
    made: Option<u32>,
) -> Plain<'a>
    requires script { option_map (λ s. s.now) script
        ≡ first_of (codes "script") (rows_of (found_of matches.now)) }
    requires trace { option_map (λ s. s.now) trace
        ≡ first_of (codes "trace") (rows_of (found_of matches.now)) }
    ensures { plain_of result ≡ plain_with (rows_of (found_of matches.now)) made }
{
    Plain {
        config: value(matches, "config").unwrap_or(""),
        script,
        trace,
        made,
        answers: is_on(value(matches, "answers")),
        image: is_on(value(matches, "image")),
        json: is_on(value(matches, "json")),
    }
}

/// For how many records script and trace are made, where they are; None where that can't be asked
/// for.
fn made(text: Option<&str>, script: Option<&str>, trace: Option<&str>) -> Option<Option<u32>>
    ensures { result ≡ made_by (option_map (λ s. s.now) text.entry)
        (option_map (λ s. s.now) script.entry) (option_map (λ s. s.now) trace.entry) }
{
    match (text, script, trace) {
        (None, _, _) => Some(None),
        (Some(text), None, None) => match number(text, MOST_RECORDS) {
            Some(number) => Some(Some(number)),
            None => None,
        },
        _ => None,
    }
}

/// The number from 1 to `most` that a text is.
fn number(text: &str, most: u32) -> Option<u32>
    ensures { result ≡ number_of most text.now }
{
    let Ok(number) = text.parse::<u32>() else {
        return None;
    };
    if number < 1 || number > most {
        return None;
    }
    Some(number)
}

/// The value of an option or a flag, where it has one.
fn value<'a>(matches: &ArgMatches<'a>, name: &str) -> Option<&'a str>
    ensures { option_map (λ s. s.now) result ≡ first_of name.now (rows_of (found_of matches.now)) }
{
    matches.get_str(name)
}

/// Whether a flag of this value is among the words.
fn is_on(value: Option<&str>) -> bool
    ensures { result ≡ is_on (option_map (λ s. s.now) value.entry) }
{
    match value {
        Some(text) => text == "true",
        None => false,
    }
}

/// The matches of a simple command for some words.
fn matches<'a>(command: Command<'a>, words: &'a [String]) -> Result<ArgMatches<'a>, WordsFault>
    requires free { is_simple_and_free (app_of command) ≡ true }
    requires simple { is_simple (app_of command) ≡ true }
    ensures { Matches (fault_of (app_of command.entry) (map string_bytes words.entry.now))
        (matches_of (app_of command.entry) (map string_bytes words.entry.now)) result }
{
    match command.try_get_matches_from(words) {
        Ok(matches) => Ok(matches),
        Err(error) => match error.kind() {
            ErrorKind::OutOfMemory => Err(WordsFault::NoMemory),
            _ => Err(WordsFault::Usage),
        },
    }
}
