//! Tests that look at the page alone.
ghost use Rattle.std.specs.Prelude.{◌+◌, ◌≡◌, true, ◌&&◌, ◌++◌, MatchOption, None, Some, codes};
ghost use Rattle.std.specs.List.{list_any};
ghost use Rattle.std.specs.Str.{bytes_eq};
ghost use Rattle.page_tree.specs.Facts.{attr, class_list};
ghost use Rattle.page_tree.specs.Standings.{name, attrs, before, after};
ghost use Rattle.cos_patterns.specs.Found.{pattern_found};
ghost use Rattle.selector_meaning.specs.Meaning.{holds, is_named, is_named_by, of_same_name, is_found};
ghost use Rattle.selector_meaning.specs.Texts.{some_fits, fits, spelled, is_empty};
ghost use Rattle.selector_match.specs.Asked.{IsElement};
ghost use Rattle.selector_match.specs.Kinds.{is_plain, is_literal, is_literal_or_none};

use crate::around::parent;
use crate::below::{has_units, is_blank};
use crate::siblings::{has_sibling, is_nth, name_of, place_of};
use crate::texts::{fits, holds_text};
use crate::words::has_word;
use cos_outside::Steps;
use dom_arena::Dom;
use listed::Text;
use selector_tree::{Arg, AttrOp, Test};
use std::sync::ledger::Ledger;

/// Whether a test holds for an element, for tests other than `Is`, `Not`, `Has`, `HasText` and those with a pattern. It
/// takes no memory, and counts as one of the `parts`.
pub fn holds_plain<P: Ledger>(
    dom: &Dom,
    path: &str,
    test: &Test,
    x: u32,
    parts: &mut Steps<P>,
) -> bool
    requires element { IsElement dom.now x }
    requires plain { is_plain test.now ≡ true }
    ensures answer { result ≡ holds pattern_found dom.now path.now test.now x }
    ensures counted { parts.new ≡ parts.old + 1 }
{
    parts.tick();
    holds_by_page(dom, path, test, x)
}

/// The answer for such a test, which counts nothing.
///
/// It is for this crate, which has counted the test before, and for a look that may spare a question: what is asked of a filter
/// goes through the functions that count.
pub fn holds_by_page(dom: &Dom, path: &str, test: &Test, x: u32) -> bool
    requires element { IsElement dom.now x }
    requires plain { is_plain test.now ≡ true }
    ensures { result ≡ holds pattern_found dom.now path.now test.now x }
{
    match test {
        Test::Any => true,
        Test::Tag(name) => name_of(dom, x) == name.as_str(),
        Test::Id(id) => has_id(dom, x, id.as_str()),
        Test::Class(class) => has_class(dom, x, class.as_str()),
        Test::Attr {
            name,
            op,
            value,
            ignore_case,
        } => has_attr(dom, x, name.as_str(), *op, value.as_str(), *ignore_case),
        Test::Root => parent(dom, x).is_none(),
        Test::Empty => is_blank(dom, x),
        Test::Nth {
            a,
            b,
            from_end,
            of_name,
        } => is_nth(*a, *b, place_of(dom, x, *from_end, *of_name)),
        Test::Only { of_name } => is_only(dom, x, *of_name),
        Test::MinText(units) => has_units(dom, x, *units),
        Test::MatchesPath(arg) => holds_literal(path, arg),
        Test::MatchesAttr { name, value } => has_literal_attr(dom, x, name, value),
        Test::WatchAttr(_) => true,
        Test::Is(_) | Test::Not(_) | Test::Has(_) | Test::HasText(_) => unreachable!(),
    }
}

/// Whether a test is one that `holds_plain` answers.
pub fn is_plain(test: &Test) -> bool
    ensures { result ≡ is_plain test.now }
{
    match test {
        Test::Is(_) | Test::Not(_) | Test::Has(_) | Test::HasText(_) => false,
        Test::MatchesPath(arg) => is_literal_arg(arg),
        Test::MatchesAttr { name, value } => is_literal_arg(name) && is_literal_arg_if_any(value),
        _ => true,
    }
}

fn is_literal_arg(arg: &Arg) -> bool
    ensures { result ≡ is_literal arg.now }
{
    match arg {
        Arg::Literal(_) => true,
        Arg::Pattern { .. } => false,
    }
}

fn is_literal_arg_if_any(arg: &Option<Arg>) -> bool
    ensures { result ≡ is_literal_or_none arg.now }
{
    match arg {
        None => true,
        Some(arg) => is_literal_arg(arg),
    }
}

// The value of an element's attribute.
fn attr_of<'a>(dom: &'a Dom, x: u32, key: &str) -> Option<&'a str>
    ensures { MatchOption result (attr dom.now key.now x ≡ None) (λ value. attr dom.now key.now x ≡ Some value.now) }
{
    dom.is_tree();
    match dom.node(x) {
        None => None,
        Some(node) => node.attr(key),
    }
}

fn has_id(dom: &Dom, x: u32, id: &str) -> bool
    ensures { result ≡ some_fits (attr dom.now (codes "id") x) (bytes_eq id.now) }
{
    match attr_of(dom, x, "id") {
        None => false,
        Some(value) => id == value,
    }
}

fn has_class(dom: &Dom, x: u32, class: &str) -> bool
    ensures { result ≡ list_any (bytes_eq class.now) (class_list dom.now x) }
{
    match attr_of(dom, x, "class") {
        None => false,
        Some(value) => has_word(value.as_bytes(), class.as_bytes(), false),
    }
}

fn has_attr(dom: &Dom, x: u32, key: &str, op: AttrOp, wanted: &str, ignore_case: bool) -> bool
    ensures { result ≡ some_fits (attr dom.now key.now x) (λ own. fits op (spelled ignore_case wanted.now) (spelled ignore_case own)) }
{
    match attr_of(dom, x, key) {
        None => false,
        Some(value) => fits(op, wanted, value, ignore_case),
    }
}

// Whether an element has no sibling, or none of its name.
fn is_only(dom: &Dom, x: u32, of_name: bool) -> bool
    requires { IsElement dom.now x }
    ensures { result ≡ is_empty (of_same_name of_name (name dom.now x) (before dom.now x ++ after dom.now x)) }
{
    !has_sibling(dom, x, false, of_name) && !has_sibling(dom, x, true, of_name)
}

// Whether a text holds a literal.
fn holds_literal(text: &str, arg: &Arg) -> bool
    requires { is_literal arg.now ≡ true }
    ensures { result ≡ is_found pattern_found arg.now text.now }
{
    match arg {
        Arg::Literal(part) => holds_text(text, part.as_str()),
        Arg::Pattern { .. } => unreachable!(),
    }
}

// Whether a text is a literal.
fn is_literal(text: &str, arg: &Arg) -> bool
    requires { is_literal arg.now ≡ true }
    ensures { result ≡ is_named pattern_found arg.now text.now }
{
    match arg {
        Arg::Literal(whole) => text == whole.as_str(),
        Arg::Pattern { .. } => unreachable!(),
    }
}

fn is_literal_if_any(text: &str, arg: &Option<Arg>) -> bool
    requires { is_literal_or_none arg.now ≡ true }
    ensures { result ≡ is_named_by pattern_found arg.now text.now }
{
    match arg {
        None => true,
        Some(arg) => is_literal(text, arg),
    }
}

// Whether an element has an attribute of such a name and such a value.
fn has_literal_attr(dom: &Dom, x: u32, name: &Arg, value: &Option<Arg>) -> bool
    requires name { is_literal name.now ≡ true }
    requires value { is_literal_or_none value.now ≡ true }
    ensures { result ≡ list_any (λ a. is_named pattern_found name.now a.0 && is_named_by pattern_found value.now a.1) (attrs dom.now x) }
{
    for attr in attrs_of(dom, x) {
        if is_literal(attr.0.as_str(), name) && is_literal_if_any(attr.1.as_str(), value) {
            return true;
        }
    }
    false
}

// The attributes of an element.
pub(crate) fn attrs_of(dom: &Dom, x: u32) -> &[(Text, Text)]
    ensures { result.now ≡ attrs dom.now x }
{
    dom.is_tree();
    match dom.node(x) {
        None => &[],
        Some(node) => node.attrs(),
    }
}
