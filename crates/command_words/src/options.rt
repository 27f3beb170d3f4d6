// The arguments behind the first word of each command, and what they are given.
ghost use Rattle.std.specs.Prelude.{◌≡◌, IfOk, true, false, map, option_map, string_bytes};
ghost use Rattle.std.specs.Option.{option_copied};
ghost use Rattle.clap.specs.Walk.{all_of, first_of, rows_of, rule_of};
ghost use Rattle.clap.specs.Matches.{found_of};
ghost use Rattle.clap.specs.Simple.{app_of};
ghost use Rattle.clap.specs.Faults.{is_simple_and_free};
ghost use Rattle.command_words.specs.Options.{accepted, apply_app, drill_app, files_rule, flag_rule, lists_app, number_rule, option_rule, required_rule};

use clap::error::ErrorKind;
use clap::{Arg, ArgAction, ArgMatches, Command};
use std::alloc::{AllocError, Global};

/// What is given to the arguments of a command, unless the words aren't of it. The first word is the
/// command's name.
pub fn read_options<'a>(
    command: Command<'a>,
    words: &'a [String],
) -> Result<Option<ArgMatches<'a>>, AllocError>
    requires { is_simple_and_free (app_of command) ≡ true }
    ensures { IfOk result (λ matches. option_map (λ m. rows_of (found_of m)) matches
        ≡ accepted (app_of command.entry) (map string_bytes words.entry.now)) }
{
    match command.try_get_matches_from(words) {
        Ok(matches) => Ok(Some(matches)),
        Err(error) => match error.kind() {
            ErrorKind::OutOfMemory => Err(AllocError),
            _ => Ok(None),
        },
    }
}

/// The value of an argument, where it has one.
pub fn value<'a>(matches: &ArgMatches<'a>, name: &str) -> Option<&'a str>
    ensures { option_copied result ≡ first_of name.now (rows_of (found_of matches.now)) }
{
    matches.get_str(name)
}

/// All values of an argument, where it has any.
pub fn values<'m, 'a>(matches: &'m ArgMatches<'a>, name: &str) -> Option<&'m [&'a str]>
    ensures { option_map (λ values. map (λ value. value.now) values.now) result
        ≡ all_of name.now (rows_of (found_of matches.now)) }
{
    matches.get_strs(name)
}

/// `apply --url ADDRESS --page FILE [--script FILE] [--suffixes FILE] [--env NAMES] [--brief] LIST..`
pub fn apply_options<'a>(alloc: Global) -> Result<Command<'a>, AllocError>
    ensures { IfOk result (λ command. app_of command ≡ apply_app) }
{
    Command::new(alloc, "apply")
        .arg(required(alloc, "url"))?
        .arg(required(alloc, "page"))?
        .arg(option(alloc, "script"))?
        .arg(option(alloc, "suffixes"))?
        .arg(option(alloc, "env"))?
        .arg(flag(alloc, "brief"))?
        .arg(files(alloc, "list"))
}

/// `lists [--suffixes FILE] [--env NAMES] LIST..`
pub fn lists_options<'a>(alloc: Global) -> Result<Command<'a>, AllocError>
    ensures { IfOk result (λ command. app_of command ≡ lists_app) }
{
    Command::new(alloc, "lists")
        .arg(option(alloc, "suffixes"))?
        .arg(option(alloc, "env"))?
        .arg(files(alloc, "list"))
}

/// `drill [--brief] NUMBER`
pub fn drill_options<'a>(alloc: Global) -> Result<Command<'a>, AllocError>
    ensures { IfOk result (λ command. app_of command ≡ drill_app) }
{
    Command::new(alloc, "drill")
        .arg(flag(alloc, "brief"))?
        .arg(number(alloc, "number"))
}

// `--name VALUE`, which may be left out.
fn option<'a>(alloc: Global, name: &'a str) -> Arg<'a>
    ensures rule { rule_of result ≡ option_rule name.entry.now }
    ensures local { result.global ≡ false }
{
    Arg::new(alloc, name).long(name)
}

// `--name VALUE`.
fn required<'a>(alloc: Global, name: &'a str) -> Arg<'a>
    ensures rule { rule_of result ≡ required_rule name.entry.now }
    ensures local { result.global ≡ false }
{
    Arg::new(alloc, name).long(name).required(true)
}

// `--name` without a value, which may be left out.
fn flag<'a>(alloc: Global, name: &'a str) -> Arg<'a>
    ensures rule { rule_of result ≡ flag_rule name.entry.now }
    ensures local { result.global ≡ false }
{
    Arg::new(alloc, name).long(name).action(ArgAction::SetTrue)
}

// One word.
fn number<'a>(alloc: Global, name: &'a str) -> Arg<'a>
    ensures rule { rule_of result ≡ number_rule name.entry.now }
    ensures local { result.global ≡ false }
{
    Arg::new(alloc, name).required(true)
}

// One word or more.
fn files<'a>(alloc: Global, name: &'a str) -> Arg<'a>
    ensures rule { rule_of result ≡ files_rule name.entry.now }
    ensures local { result.global ≡ false }
{
    Arg::new(alloc, name)
        .required(true)
        .action(ArgAction::Append)
}
