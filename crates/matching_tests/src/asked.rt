// Whether a filter selects an element.
ghost use Rattle.std.specs.Prelude.{◌≡◌, ◌<◌, true, length, IfOk};
ghost use Rattle.proper_filters.specs.Proper.{is_proper};
ghost use Rattle.procedural_ops.specs.Others.{AreRight};
ghost use Rattle.procedural_ops.specs.Told.{selector_at};

use cos_outside::Steps;
use cos_patterns::{CrateMaker, PatternSearcher, PatternTable};
use dom_arena::Dom;
use listed::{Numbers, Text};
use procedural_ops::{MatchingContext, test};
use remembered::Members;
use selector_match::is_element;
use selector_parser::{Read, read_selector};
use selector_tree::{Action, Active, Filter};
use std::alloc::Global;
use std::sync::ledger::{Blank, Ledger};
use std::test::Fail;

// A filter alone, and the table with its patterns.
fn filter(alloc: Global, text: &str) -> Result<(PatternTable, Active), Fail>
    ensures one { IfOk result (λ made. length made.1 ≡ 1) }
    ensures proper { IfOk result (λ made. is_proper made.0.patterns (selector_at made.1 0) ≡ true) }
{
    let mut maker = CrateMaker::new(alloc);
    let mut table = PatternTable::new(alloc);
    let Read::Filter(selector, _) = read_selector(alloc, text, &mut table, &mut maker)? else {
        return Err(Fail::from("no filter"));
    };
    let canonical = Text::new(alloc);
    let mut active = Active::new(alloc);
    active.push(Filter {
        list: 1,
        line: 1,
        selector,
        action: Action::Hide,
        canonical,
    })?;
    Ok((table, active))
}

/// Whether the filter of a text selects the element of a number. The blanks stand for the ledgers of what is counted.
pub(crate) fn is_selected<L: Ledger, P: Ledger>(
    alloc: Global,
    dom: &Dom,
    text: &Text,
    x: u32,
    checks: Blank,
    parts: Blank,
) -> Result<bool, Fail>
    requires checks_name { checks.name ≡ L.name }
    requires checks_parts { checks.parts ≡ L.parts }
    requires checks_some { 0 < checks.parts }
    requires parts_name { parts.name ≡ P.name }
    requires parts_parts { parts.parts ≡ P.parts }
    requires parts_some { 0 < parts.parts }
{
    let mut checks = Steps::<L>::new(checks);
    let mut parts = Steps::<P>::new(parts);
    if !is_element(dom, x) {
        return Err(Fail::from("no element"));
    }
    let (table, active) = filter(alloc, text.as_str())?;
    let searcher = PatternSearcher::new(&table);
    let context = MatchingContext {
        alloc,
        dom,
        path: "/",
        table: &searcher,
    };
    let mut members = Members::new(alloc);
    let verdict = test(
        &context,
        &active,
        0,
        x,
        &mut members,
        &mut checks,
        &mut parts,
    )?;
    Ok(verdict.yes() && verdict.element() == x && verdict.filter() == 0)
}

/// The elements from 1 to the last of a page that the filter of a text selects, asked one after another with one memory.
pub(crate) fn all_selected<L: Ledger, P: Ledger>(
    alloc: Global,
    dom: &Dom,
    text: &Text,
    last: u32,
    checks: Blank,
    parts: Blank,
) -> Result<Numbers, Fail>
    requires checks_name { checks.name ≡ L.name }
    requires checks_parts { checks.parts ≡ L.parts }
    requires checks_some { 0 < checks.parts }
    requires parts_name { parts.name ≡ P.name }
    requires parts_parts { parts.parts ≡ P.parts }
    requires parts_some { 0 < parts.parts }
{
    let mut checks = Steps::<L>::new(checks);
    let mut parts = Steps::<P>::new(parts);
    let (table, active) = filter(alloc, text.as_str())?;
    let searcher = PatternSearcher::new(&table);
    let context = MatchingContext {
        alloc,
        dom,
        path: "/",
        table: &searcher,
    };
    let mut members = Members::new(alloc);
    selected_to(
        &context,
        &active,
        last,
        &mut members,
        &mut checks,
        &mut parts,
    )
}

// The elements from 1 to the last that the only filter selects.
fn selected_to<L: Ledger, P: Ledger>(
    context: &MatchingContext<'_, '_>,
    active: &Active,
    last: u32,
    members: &mut Members,
    checks: &mut Steps<L>,
    parts: &mut Steps<P>,
) -> Result<Numbers, Fail>
    requires one { length active.now ≡ 1 }
    requires proper { is_proper context.now.table.now.patterns (selector_at active.now 0) ≡ true }
    requires right { AreRight context.now.dom.now context.now.path.now active.now members.old }
{
    let mut found = Numbers::new(context.alloc);
    for x in 1..=last {
        if !is_element(context.dom, x) {
            continue;
        }
        if test(context, active, 0, x, members, checks, parts)?.yes() {
            found.push(x)?;
        }
    }
    Ok(found)
}
