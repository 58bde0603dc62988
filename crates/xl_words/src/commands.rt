//! The command of each form, by `clap`.

ghost use Rattle.std.specs.Prelude.{◌≡◌, IfOk, false};
ghost use Rattle.clap.specs.Words.{App, Rule, app_of, rule_of, with_rule};
ghost use Rattle.xl_words.specs.Words.{option_rule, needed_rule, number_rule, sets_rule, flag_rule, app, file_app, pair_app, curve_app};

use clap::{Arg, ArgAction, Command};
use std::alloc::{AllocError, Global};

/// The command of the plain form.
pub(crate) fn command<'a>(alloc: Global) -> Result<Command<'a>, AllocError>
    ensures { IfOk result (λ c. app_of c ≡ app) }
{
    let command = file_command(alloc);
    let command = add(command, numbered(alloc, "make"));
    let command = add(command, flag(alloc, "answers"));
    let command = add(command, flag(alloc, "image"));
    add(command, flag(alloc, "json"))
}

/// The command with the options that name a file.
fn file_command<'a>(alloc: Global) -> Result<Command<'a>, AllocError>
    ensures { IfOk result (λ c. app_of c ≡ file_app) }
{
    let command = Ok(Command::new(alloc, "xlate"));
    let command = add(command, needed(alloc, "config"));
    let command = add(command, option(alloc, "script"));
    add(command, option(alloc, "trace"))
}

/// The command of the forms `nested` and `harts`.
pub(crate) fn pair_command<'a>(alloc: Global) -> Result<Command<'a>, AllocError>
    ensures { IfOk result (λ c. app_of c ≡ pair_app) }
{
    let command = Ok(Command::new(alloc, "xlate"));
    let command = add(command, needed(alloc, "script"));
    let command = add(command, needed(alloc, "trace"));
    add(command, flag(alloc, "answers"))
}

/// The command of the form `curve`.
pub(crate) fn curve_command<'a>(alloc: Global) -> Result<Command<'a>, AllocError>
    ensures { IfOk result (λ c. app_of c ≡ curve_app) }
{
    add(file_command(alloc), counted(alloc, "sets"))
}

/// An option that has a value.
fn option<'a>(alloc: Global, name: &'a str) -> Arg<'a>
    ensures rule { rule_of result ≡ option_rule name.entry.now }
    ensures local { result.global ≡ false }
{
    Arg::new(alloc, name).long(name).action(ArgAction::Set)
}

/// An option that has a value, and that may not be left out.
fn needed<'a>(alloc: Global, name: &'a str) -> Arg<'a>
    ensures rule { rule_of result ≡ needed_rule name.entry.now }
    ensures local { result.global ≡ false }
{
    option(alloc, name).required(true)
}

/// An option that has a number in the range of made records.
fn numbered<'a>(alloc: Global, name: &'a str) -> Arg<'a>
    ensures rule { rule_of result ≡ number_rule name.entry.now }
    ensures local { result.global ≡ false }
{
    option(alloc, name).value_parser(clap::value_parser!(u32).range(1..=1_048_576))
}

/// An option that has a number in the range of sets, and that may not be left out.
fn counted<'a>(alloc: Global, name: &'a str) -> Arg<'a>
    ensures rule { rule_of result ≡ sets_rule name.entry.now }
    ensures local { result.global ≡ false }
{
    needed(alloc, name).value_parser(clap::value_parser!(u32).range(1..=256))
}

/// A flag.
fn flag<'a>(alloc: Global, name: &'a str) -> Arg<'a>
    ensures rule { rule_of result ≡ flag_rule name.entry.now }
    ensures local { result.global ≡ false }
{
    Arg::new(alloc, name).long(name).action(ArgAction::SetTrue)
}

/// The command with one argument more; where there is no memory, none.
fn add<'a>(
    command: Result<Command<'a>, AllocError>,
    arg: Arg<'a>,
) -> Result<Command<'a>, AllocError>
    requires { arg.global ≡ false }
    ensures { (app : App) → (rule : Rule) → IfOk command.entry (λ c. app_of c ≡ app)
        → rule_of arg.entry ≡ rule → IfOk result (λ c. app_of c ≡ with_rule app rule) }
{
    match command {
        Ok(command) => command.arg(arg),
        Err(error) => Err(error),
    }
}
