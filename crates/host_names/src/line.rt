// A line of a file of public suffix rules.
ghost use Rattle.std.specs.Prelude.{◌≡◌, IfOk, option_and_then, option_map};
ghost use Rattle.host_names.specs.Held.{line_meaning, rule_by};
ghost use Rattle.host_names.specs.Hosts.{host_of};
ghost use Rattle.host_names.specs.SuffixLines.{by_rule, exception_rule, plain_rule, rule_of, suffix_line, text_line};

use crate::Host;
use crate::ends::label_count;
use cos_source::{trim_text, until_space};
use std::alloc::{AllocError, Global};

// What a rule says of its name.
#[derive(Clone, Copy, Drop)]
pub(crate) enum RuleSort {
    // It is a public suffix.
    Plain,
    // With one more label before it, whichever, it is one.
    Star,
    // It isn't one, although another rule says so.
    Exception,
}

// What a line of the file says.
#[derive(Drop)]
pub(crate) enum SpelledLine {
    // Nothing.
    Nothing,
    // The rule `*`.
    Any,
    // A rule with this name.
    Named(RuleSort, Host),
    // It is malformed.
    Bad,
}

// Reads a line.
pub(crate) fn read_line(alloc: Global, line: &[u8]) -> Result<SpelledLine, AllocError>
    ensures { IfOk result (λ read. line_meaning read ≡ suffix_line line.now) }
{
    match str::from_utf8(line) {
        Ok(text) => read_text(alloc, trim_text(text)),
        Err(_) => Ok(SpelledLine::Bad),
    }
}

// Reads a trimmed line.
fn read_text(alloc: Global, text: &str) -> Result<SpelledLine, AllocError>
    ensures { IfOk result (λ read. line_meaning read ≡ text_line text.now) }
{
    if text.is_empty() || text.starts_with("//") {
        return Ok(SpelledLine::Nothing);
    }
    read_rule(alloc, until_space(text))
}

// Reads a rule.
fn read_rule(alloc: Global, text: &str) -> Result<SpelledLine, AllocError>
    ensures { IfOk result (λ read. line_meaning read ≡ by_rule (rule_of text.now)) }
{
    match text.strip_prefix('!') {
        Some(name) => read_exception(alloc, name),
        None => read_plain(alloc, text),
    }
}

// Reads the name of an exception, which has two labels at least.
fn read_exception(alloc: Global, name: &str) -> Result<SpelledLine, AllocError>
    ensures { IfOk result (λ read. line_meaning read ≡ by_rule (option_and_then exception_rule (host_of name.now))) }
{
    match Host::read(alloc, name)? {
        Some(host) if label_count(host.as_str()) > 1 => {
            Ok(SpelledLine::Named(RuleSort::Exception, host))
        }
        _ => Ok(SpelledLine::Bad),
    }
}

// Reads a rule that is no exception.
fn read_plain(alloc: Global, text: &str) -> Result<SpelledLine, AllocError>
    ensures { IfOk result (λ read. line_meaning read ≡ by_rule (plain_rule text.now)) }
{
    if text == "*" {
        return Ok(SpelledLine::Any);
    }
    match text.strip_prefix("*.") {
        Some(name) => read_named(alloc, RuleSort::Star, name),
        None => read_named(alloc, RuleSort::Plain, text),
    }
}

// Reads the name of a rule.
fn read_named(alloc: Global, sort: RuleSort, name: &str) -> Result<SpelledLine, AllocError>
    ensures { IfOk result (λ read. line_meaning read ≡ by_rule (option_map (rule_by sort) (host_of name.now))) }
{
    match Host::read(alloc, name)? {
        Some(host) => Ok(SpelledLine::Named(sort, host)),
        None => Ok(SpelledLine::Bad),
    }
}
