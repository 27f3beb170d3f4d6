// A round: what the filters that remove take out of a page.
ghost use Rattle.std.specs.Prelude.{◌≡◌, [], ◌++◌, map, IfOk, OnOk};
ghost use Rattle.cos_patterns.specs.Found.{pattern_found};
ghost use Rattle.page_tree.specs.Standings.{name};
ghost use Rattle.selector_match.specs.Asked.{IsElement};
ghost use Rattle.selector_meaning.specs.Hidden.{with_row};
ghost use Rattle.engine_meaning.specs.Rounds.{is_outermost, taken_in, without_each};
ghost use Rattle.hide_engine.specs.Exact.{AreExact};
ghost use Rattle.hide_engine.specs.Removing.{taken_rows};
ghost use Rattle.retest_laws.specs.Pending.{Pairs, either};
ghost use Rattle.hide_engine.specs.Changes.{dirtied_without};
ghost use Rattle.hide_engine.specs.Ready.{state_of, AreReady, IsRight, IsGiven};

use crate::filter_set::FilterSet;
use crate::making::take_out;
use crate::rows::{acting_rows, chosen, some_acts};
use dom_arena::Dom;
use kept_marks::Marks;
use listed::{Numbers, Text};
use mutation_script::PageState;
use retest::Pending;
use selector_match::{next_element, parent};
use selector_tree::{Action, Active, Taken, TakenList};
use std::alloc::{AllocError, Global};

/// The outermost of the elements that some filter removes, in document order, as taken in round 1. The page is gone through
/// only where there are some.
pub(crate) fn taken_rows(
    alloc: Global,
    page: &PageState,
    filters: &FilterSet,
    marks: &Marks,
) -> Result<TakenList, AllocError>
    requires ready { AreReady filters.now }
    requires exact { AreExact (state_of page.now filters.now) marks.now }
    ensures { IfOk result (λ rows. rows ≡ taken_in pattern_found filters.now.active page.now.path page.now.tree 1) }
{
    if !filters.removes {
        return Ok(TakenList::new(alloc));
    }
    page.tree.is_tree();
    if acting_rows(&filters.active, marks, Action::Remove) == 0 {
        return Ok(TakenList::new(alloc));
    }
    all_taken_rows(alloc, page, &filters.active, marks)
}

// The same by going through the page.
fn all_taken_rows(
    alloc: Global,
    page: &PageState,
    active: &Active,
    marks: &Marks,
) -> Result<TakenList, AllocError>
    requires { AreExact (record { page = page.now; filters = active.now }) marks.now }
    ensures { IfOk result (λ rows. rows ≡ taken_in pattern_found active.now page.now.path page.now.tree 1) }
{
    let dom = &page.tree;
    dom.is_tree();
    let mut rows = TakenList::new(alloc);
    let mut at = next_element(dom, 0);
    'elements: while let Some(x) = at {
        let places = chosen(alloc, active, marks.of(x), Action::Remove)?;
        push_row(alloc, &mut rows, page, active, marks, x, places)?;
        at = next_element(dom, x);
    }
    Ok(rows)
}

// Adds the row of an element, if there are places and nothing above it is removed.
fn push_row(
    alloc: Global,
    rows: &mut TakenList,
    page: &PageState,
    active: &Active,
    marks: &Marks,
    x: u32,
    places: Numbers,
) -> Result<(), AllocError>
    requires exact { AreExact (record { page = page.now; filters = active.now }) marks.now }
    requires element { IsElement page.now.tree x }
    ensures { OnOk result (rows.new ≡ rows.old ++
        taken_rows (record { page = page.now; filters = active.now }) (with_row x places [])) }
{
    if places.len() == 0 || !is_outermost(page, active, marks, x) {
        return Ok(());
    }
    let name = Text::of(alloc, name_of(&page.tree, x))?;
    rows.push(Taken {
        round: 1,
        node: x,
        name,
        filters: places,
    })
}

// The name of an element; empty where the number is none's.
fn name_of(dom: &Dom, n: u32) -> &str
    ensures { result.now ≡ name dom.now n }
{
    dom.is_tree();
    match dom.node(n) {
        Some(node) => node.name(),
        None => "",
    }
}

// Whether no ancestor of an element is removed.
fn is_outermost(page: &PageState, active: &Active, marks: &Marks, x: u32) -> bool
    requires exact { AreExact (record { page = page.now; filters = active.now }) marks.now }
    requires element { IsElement page.now.tree x }
    ensures { result ≡ is_outermost pattern_found active.now page.now.path page.now.tree x }
{
    let dom = &page.tree;
    let mut at = x;
    'ancestors: while let Some(up) = parent(dom, at) {
        if some_acts(active, marks.of(up), Action::Remove) {
            return false;
        }
        at = up;
    }
    true
}

/// Takes elements out of the page one after another, each with all below it, and notes what each makes dirty.
pub(crate) fn take_out_all(
    alloc: Global,
    page: &mut PageState,
    filters: &FilterSet,
    rows: &[Taken],
    marks: &mut Marks,
    pending: &mut Pending,
) -> Result<(), AllocError>
    requires ready { AreReady filters.now }
    requires right { IsRight page.old filters.now marks.old pending.old }
    ensures page { OnOk result (page.new ≡ record page.old { tree = without_each page.old.tree (map (λ row. row.node) rows.now) }) }
    ensures right { OnOk result (IsRight page.new filters.now marks.new pending.new) }
    ensures given { OnOk result ((given : Pairs) → IsGiven filters.now pending.old given →
        IsGiven filters.now pending.new (either given (dirtied_without (map (λ row. row.node) rows.now) (state_of page.old filters.now)))) }
{
    page.tree.is_tree();
    for row in rows {
        take_out(alloc, page, filters, row.node, marks, pending)?;
    }
    Ok(())
}
