// The rows of hidden elements, and how many there are, by the marks alone.
ghost use Rattle.std.specs.Prelude.{◌≡◌, [], ◌++◌, map, length, nat_eq, IfOk, OnOk, OnErr};
ghost use Rattle.std.specs.List.{list_any, IsDistinct};
ghost use Rattle.std.specs.Map.{keys_of};
ghost use Rattle.cos_patterns.specs.Found.{pattern_found};
ghost use Rattle.engine_meaning.specs.Filters.{is_action};
ghost use Rattle.engine_meaning.specs.Hidden.{pair_of, hidden};
ghost use Rattle.selector_meaning.specs.Hidden.{with_row};
ghost use Rattle.hide_engine.specs.Exact.{AreExact};
ghost use Rattle.hide_engine.specs.Chosen.{acts_at, chosen, acting_rows};

use kept_marks::Marks;
use listed::Numbers;
use mutation_script::PageState;
use selector_match::next_element;
use selector_tree::{Action, Active, HiddenRow, Rows};
use std::alloc::{AllocError, Global};

/// The hidden elements in document order, each with the places of all filters that hide it.
pub(crate) fn hidden_rows(
    alloc: Global,
    page: &PageState,
    active: &Active,
    marks: &Marks,
) -> Result<Rows, AllocError>
    requires { AreExact (record { page = page.now; filters = active.now }) marks.now }
    ensures { IfOk result (λ rows. map pair_of rows ≡ hidden pattern_found active.now page.now.path page.now.tree) }
{
    let dom = &page.tree;
    dom.is_tree();
    let mut rows = Rows::new(alloc);
    let mut at = next_element(dom, 0);
    'elements: while let Some(x) = at {
        let places = chosen(alloc, active, marks.of(x), Action::Hide)?;
        push_row(&mut rows, x, places)?;
        at = next_element(dom, x);
    }
    Ok(rows)
}

// Adds the row of an element, if there are places.
fn push_row(rows: &mut Rows, x: u32, places: Numbers) -> Result<(), AllocError>
    ensures { OnOk result (map pair_of rows.new ≡ map pair_of rows.old ++ with_row x places []) }
{
    if places.len() == 0 {
        return Ok(());
    }
    rows.push(HiddenRow {
        node: x,
        filters: places,
    })
}

/// The places of the filters that have this action among some places.
pub(crate) fn chosen(
    alloc: Global,
    active: &Active,
    places: &[u32],
    action: Action,
) -> Result<Numbers, AllocError>
    ensures { IfOk result (λ found. found ≡ chosen active.now action places.now) }
{
    let mut found = Numbers::new(alloc);
    for f in places {
        if acts_at(active, *f, action) {
            found.push(*f)?;
        }
    }
    Ok(found)
}

/// How many rows of the marks have a filter of this action.
pub(crate) fn acting_rows(active: &Active, marks: &Marks, action: Action) -> usize
    ensures count { result ≡ length (acting_rows active.now action marks.now) }
    ensures once { IsDistinct nat_eq (keys_of marks.now) }
{
    let mut count = 0;
    for place in 0..marks.len() {
        if some_acts(active, marks.row_at(place), action) {
            count += 1;
        }
    }
    count
}

/// Whether the filter at one of some places has this action.
pub(crate) fn some_acts(active: &Active, places: &[u32], action: Action) -> bool
    ensures { result ≡ list_any (acts_at active.now action) places.now }
{
    for f in places {
        if acts_at(active, *f, action) {
            return true;
        }
    }
    false
}

/// Whether the filter at a place has this action.
pub(crate) fn acts_at(active: &Active, f: u32, action: Action) -> bool
    ensures { result ≡ acts_at active.now action f }
{
    match active.at(f as usize) {
        Some(filter) => is_action(action, filter.action),
        None => false,
    }
}

/// Whether two actions are the same.
pub(crate) fn is_action(a: Action, b: Action) -> bool
    ensures { result ≡ is_action a b }
{
    match (a, b) {
        (Action::Hide, Action::Hide) | (Action::Remove, Action::Remove) => true,
        (Action::Hide, Action::Remove) | (Action::Remove, Action::Hide) => false,
    }
}
