//! Tests with texts and patterns.
ghost use Rattle.std.specs.Prelude.{◌≡◌, ◌+◌, true, ◌&&◌, IfOk};
ghost use Rattle.std.specs.List.{list_any};
ghost use Rattle.page_tree.specs.Facts.{text_content};
ghost use Rattle.page_tree.specs.Standings.{attrs};
ghost use Rattle.cos_patterns.specs.Found.{pattern_found};
ghost use Rattle.selector_meaning.specs.Meaning.{holds, is_found, is_named, is_named_by};
ghost use Rattle.selector_match.specs.Asked.{IsElement};
ghost use Rattle.selector_match.specs.Kinds.{is_single};
ghost use Rattle.proper_filters.specs.Held.{is_ready, is_held, is_held_or_none};

use crate::below::text_of;
use crate::literals::has_literal;
use crate::plain::{attrs_of, holds_by_page};
use crate::texts::holds_text;
use cos_outside::Steps;
use cos_patterns::PatternSearcher;
use dom_arena::Dom;
use selector_tree::{Arg, Test};
use std::alloc::{AllocError, Global};
use std::sync::ledger::Ledger;

/// Whether a test holds for an element, for tests other than `Is`, `Not` and `Has`.
///
/// The table has each pattern of the test under its number. Memory is taken by patterns, and for the text content where a
/// pattern is looked for, which is joined once. A literal is looked for in the texts as they lie, and takes memory by its own
/// length alone. Each call counts as one of the `parts`, also where there is no memory.
pub fn holds<P: Ledger>(
    alloc: Global,
    dom: &Dom,
    path: &str,
    table: &PatternSearcher<'_>,
    test: &Test,
    x: u32,
    parts: &mut Steps<P>,
) -> Result<bool, AllocError>
    requires element { IsElement dom.now x }
    requires single { is_single test.now ≡ true }
    requires ready { is_ready table.now.patterns test.now ≡ true }
    ensures answer { IfOk result (λ answer. answer ≡ holds pattern_found dom.now path.now test.now
        x) }
    ensures counted { parts.new ≡ parts.old + 1 }
{
    parts.tick();
    holds_by_text(alloc, dom, path, table, test, x)
}

// The answer for such a test.
fn holds_by_text(
    alloc: Global,
    dom: &Dom,
    path: &str,
    table: &PatternSearcher<'_>,
    test: &Test,
    x: u32,
) -> Result<bool, AllocError>
    requires element { IsElement dom.now x }
    requires single { is_single test.now ≡ true }
    requires ready { is_ready table.now.patterns test.now ≡ true }
    ensures { IfOk result (λ answer. answer ≡ holds pattern_found dom.now path.now test.now x) }
{
    match test {
        Test::HasText(arg) => has_text(alloc, dom, table, arg, x),
        Test::MatchesPath(arg) => is_found(table, path, arg),
        Test::MatchesAttr { name, value } => has_attr_by(table, dom, x, name, value),
        _ => Ok(holds_by_page(dom, path, test, x)),
    }
}

// Whether the text content of an element holds the literal, or the pattern is found in it. Only a pattern needs it joined.
fn has_text(
    alloc: Global,
    dom: &Dom,
    table: &PatternSearcher<'_>,
    arg: &Arg,
    x: u32,
) -> Result<bool, AllocError>
    requires element { IsElement dom.now x }
    requires held { is_held table.now.patterns arg.now ≡ true }
    ensures { IfOk result (λ answer.
        answer ≡ is_found pattern_found arg.now (text_content dom.now x)) }
{
    match arg {
        Arg::Literal(literal) => has_literal(alloc, dom, x, literal.as_str()),
        Arg::Pattern { number, .. } => {
            let text = text_of(alloc, dom, x)?;
            table.finds(*number, text.as_str())
        }
    }
}

// Whether a text holds the literal, or the pattern is found in it.
fn is_found(table: &PatternSearcher<'_>, text: &str, arg: &Arg) -> Result<bool, AllocError>
    requires { is_held table.now.patterns arg.now ≡ true }
    ensures { IfOk result (λ answer. answer ≡ is_found pattern_found arg.now text.now) }
{
    match arg {
        Arg::Literal(part) => Ok(holds_text(text, part.as_str())),
        Arg::Pattern { number, .. } => table.finds(*number, text),
    }
}

// Whether a text is the literal, or the pattern is found in it.
fn is_named(table: &PatternSearcher<'_>, text: &str, arg: &Arg) -> Result<bool, AllocError>
    requires { is_held table.now.patterns arg.now ≡ true }
    ensures { IfOk result (λ answer. answer ≡ is_named pattern_found arg.now text.now) }
{
    match arg {
        Arg::Literal(whole) => Ok(text == whole.as_str()),
        Arg::Pattern { number, .. } => table.finds(*number, text),
    }
}

fn is_named_if_any(
    table: &PatternSearcher<'_>,
    text: &str,
    arg: &Option<Arg>,
) -> Result<bool, AllocError>
    requires { is_held_or_none table.now.patterns arg.now ≡ true }
    ensures { IfOk result (λ answer. answer ≡ is_named_by pattern_found arg.now text.now) }
{
    match arg {
        None => Ok(true),
        Some(arg) => is_named(table, text, arg),
    }
}

// Whether an element has an attribute of such a name and such a value.
fn has_attr_by(
    table: &PatternSearcher<'_>,
    dom: &Dom,
    x: u32,
    name: &Arg,
    value: &Option<Arg>,
) -> Result<bool, AllocError>
    requires name { is_held table.now.patterns name.now ≡ true }
    requires value { is_held_or_none table.now.patterns value.now ≡ true }
    ensures { IfOk result (λ answer. answer ≡
        list_any (λ a. is_named pattern_found name.now a.0 && is_named_by pattern_found value.now
        a.1) (attrs dom.now x)) }
{
    for attr in attrs_of(dom, x) {
        if fits_by(table, attr.0.as_str(), attr.1.as_str(), name, value)? {
            return Ok(true);
        }
    }
    Ok(false)
}

fn fits_by(
    table: &PatternSearcher<'_>,
    own_name: &str,
    own_value: &str,
    name: &Arg,
    value: &Option<Arg>,
) -> Result<bool, AllocError>
    requires name { is_held table.now.patterns name.now ≡ true }
    requires value { is_held_or_none table.now.patterns value.now ≡ true }
    ensures { IfOk result (λ answer. answer ≡
        (is_named pattern_found name.now own_name.now && is_named_by pattern_found value.now
        own_value.now)) }
{
    if is_named(table, own_name, name)? {
        is_named_if_any(table, own_value, value)
    } else {
        Ok(false)
    }
}
