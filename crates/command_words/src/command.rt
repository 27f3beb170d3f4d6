// The commands, and how the words say one.
ghost use Rattle.std.specs.Prelude.{◌≡◌, [], IfOk, map, option_map, string_bytes, unwrap_or};
ghost use Rattle.clap.specs.Walk.{Row, all_of, first_of, rows_of};
ghost use Rattle.clap.specs.Matches.{found_of};
ghost use Rattle.command_words.specs.Commands.{apply_by, apply_of, command_of, drill_by, drill_of, env_by, is_set, lists_by, lists_of, number_by};

use crate::forms::{read_names, read_number};
use crate::options::{apply_options, drill_options, lists_options, read_options, value, values};
use clap::ArgMatches;
use listed::{Names, Text};
use std::alloc::{AllocError, Global};

/// `apply`: reports the hidden elements of a page, and of the page after each line of a script.
#[derive(Debug, Drop)]
pub struct Apply {
    /// The page's address, as given.
    pub url: Text,
    /// The name of the page's file.
    pub page: Text,
    /// The name of the script's file; without one the page is reported as it was opened.
    pub script: Option<Text>,
    /// The name of the file of public suffix rules; without one the rule `*` alone holds.
    pub suffixes: Option<Text>,
    /// Further names that are true in conditions of lists.
    pub env: Names,
    /// Whether numbers stand in place of the filters and the hidden elements.
    pub brief: bool,
    /// The names of the list files, in the order of the words; at least one.
    pub lists: Names,
}

/// `lists`: reports the notices of lists, and how many entries of each kind they have. The fields are those of [`Apply`].
#[derive(Debug, Drop)]
pub struct Lists {
    pub suffixes: Option<Text>,
    pub env: Names,
    pub lists: Names,
}

/// `drill`: runs a page, a list and a script that are made for a size.
#[derive(Debug, Drop)]
pub struct Drill {
    /// Whether only the hidden elements are counted.
    pub brief: bool,
    /// The size, from 1 to 2000.
    pub number: u16,
}

/// What the program is to do.
#[derive(Debug, Drop)]
pub enum Command {
    Apply(Apply),
    Lists(Lists),
    Drill(Drill),
}

/// The command that the words say, if they say one; the first is `apply`, `lists` or `drill`. The options follow `clap`'s reading
/// of a simple command: each at most once, `--name value` or `--name=value`, and `--` before words that begin with `-`.
///
/// # Errors
///
/// Only want of memory.
pub fn read_command(alloc: Global, words: &[String]) -> Result<Option<Command>, AllocError>
    ensures { IfOk result (λ command. command ≡ command_of (map string_bytes words.now)) }
{
    match words {
        [first, ..] if first.as_str() == "apply" => {
            Ok(read_apply(alloc, words)?.map(Command::Apply))
        }
        [first, ..] if first.as_str() == "lists" => {
            Ok(read_lists(alloc, words)?.map(Command::Lists))
        }
        [first, ..] if first.as_str() == "drill" => {
            Ok(read_drill(alloc, words)?.map(Command::Drill))
        }
        _ => Ok(None),
    }
}

fn read_apply(alloc: Global, words: &[String]) -> Result<Option<Apply>, AllocError>
    ensures { IfOk result (λ apply. apply ≡ apply_of (map string_bytes words.now)) }
{
    match read_options(apply_options(alloc)?, words)? {
        Some(matches) => apply_by(alloc, &matches),
        None => Ok(None),
    }
}

fn read_lists(alloc: Global, words: &[String]) -> Result<Option<Lists>, AllocError>
    ensures { IfOk result (λ lists. lists ≡ lists_of (map string_bytes words.now)) }
{
    match read_options(lists_options(alloc)?, words)? {
        Some(matches) => lists_by(alloc, &matches),
        None => Ok(None),
    }
}

fn read_drill(alloc: Global, words: &[String]) -> Result<Option<Drill>, AllocError>
    ensures { IfOk result (λ drill. drill ≡ drill_of (map string_bytes words.now)) }
{
    match read_options(drill_options(alloc)?, words)? {
        Some(matches) => Ok(drill_by(&matches)),
        None => Ok(None),
    }
}

fn apply_by(alloc: Global, matches: &ArgMatches<'_>) -> Result<Option<Apply>, AllocError>
    ensures { IfOk result (λ apply. apply ≡ apply_by (rows_of (found_of matches.now))) }
{
    let Some(env) = env(alloc, matches)? else {
        return Ok(None);
    };
    Ok(Some(Apply {
        url: required(alloc, matches, "url")?,
        page: required(alloc, matches, "page")?,
        script: optional(alloc, matches, "script")?,
        suffixes: optional(alloc, matches, "suffixes")?,
        env,
        brief: is_set(matches, "brief"),
        lists: files(alloc, matches, "list")?,
    }))
}

fn lists_by(alloc: Global, matches: &ArgMatches<'_>) -> Result<Option<Lists>, AllocError>
    ensures { IfOk result (λ lists. lists ≡ lists_by (rows_of (found_of matches.now))) }
{
    let Some(env) = env(alloc, matches)? else {
        return Ok(None);
    };
    Ok(Some(Lists {
        suffixes: optional(alloc, matches, "suffixes")?,
        env,
        lists: files(alloc, matches, "list")?,
    }))
}

fn drill_by(matches: &ArgMatches<'_>) -> Option<Drill>
    ensures { result ≡ drill_by (rows_of (found_of matches.now)) }
{
    match number(matches) {
        Some(number) => Some(Drill {
            brief: is_set(matches, "brief"),
            number,
        }),
        None => None,
    }
}

// The value of an option, where it is given.
fn optional(alloc: Global, matches: &ArgMatches<'_>, name: &str) -> Result<Option<Text>, AllocError>
    ensures { IfOk result (λ value. value ≡ first_of name.now (rows_of (found_of matches.now))) }
{
    match value(matches, name) {
        Some(text) => Ok(Some(Text::of(alloc, text)?)),
        None => Ok(None),
    }
}

// The value of what is required, so that it is given.
fn required(alloc: Global, matches: &ArgMatches<'_>, name: &str) -> Result<Text, AllocError>
    ensures { IfOk result (λ value. value
        ≡ unwrap_or (first_of name.now (rows_of (found_of matches.now))) []) }
{
    Text::of(alloc, value(matches, name).unwrap_or(""))
}

// Whether a flag is set.
fn is_set(matches: &ArgMatches<'_>, name: &str) -> bool
    ensures { result ≡ is_set name.now (rows_of (found_of matches.now)) }
{
    match value(matches, name) {
        Some(text) => text == "true",
        None => false,
    }
}

// The names that the option `env` lists; none without it.
fn env(alloc: Global, matches: &ArgMatches<'_>) -> Result<Option<Names>, AllocError>
    ensures { IfOk result (λ names. names ≡ env_by (rows_of (found_of matches.now))) }
{
    match value(matches, "env") {
        Some(text) => read_names(alloc, text),
        None => Ok(Some(Names::new(alloc))),
    }
}

// All values of what may be given more than once.
fn files(alloc: Global, matches: &ArgMatches<'_>, name: &str) -> Result<Names, AllocError>
    ensures { IfOk result (λ files. files
        ≡ unwrap_or (all_of name.now (rows_of (found_of matches.now))) []) }
{
    match values(matches, name) {
        Some(all) => copies(alloc, all),
        None => Ok(Names::new(alloc)),
    }
}

fn copies(alloc: Global, texts: &[&str]) -> Result<Names, AllocError>
    ensures { IfOk result (λ names. names ≡ map (λ text. text.now) texts.now) }
{
    let mut names = Names::new(alloc);
    'texts: for text in texts {
        names.push(Text::of(alloc, text)?)?;
    }
    Ok(names)
}

// The number that is given, if it has the form of one.
fn number(matches: &ArgMatches<'_>) -> Option<u16>
    ensures { result ≡ number_by (rows_of (found_of matches.now)) }
{
    read_number(value(matches, "number").unwrap_or(""))
}
