//! Runs of tests in a chain. All tests of a run are asked of one element, the cheapest first.
ghost use Rattle.std.specs.Prelude.{◌≡◌, ◌≤◌, ◌+◌, true, cond, length, take, drop, IfOk};
ghost use Rattle.std.specs.List.{list_all};
ghost use Rattle.selector_match.specs.Asked.{IsElement};
ghost use Rattle.proper_filters.specs.Proper.{are_own, is_own};
ghost use Rattle.selector_match.specs.Kinds.{is_single};
ghost use Rattle.procedural_ops.specs.Count.{costs, many_asked, many_costing};
ghost use Rattle.procedural_ops.specs.Runs.{is_keep, is_nested, cost_of, is_cost, cost_keeps, single_keeps};

use crate::context::MatchingContext;
use cos_outside::Steps;
use selector_match::{holds, is_plain};
use selector_tree::{Arg, Step, Test};
use std::alloc::AllocError;
use std::sync::ledger::Ledger;

/// What a test without selectors in it looks at, the cheapest first.
#[derive(Clone, Copy, Debug)]
pub(crate) enum Cost {
    /// The element's name and attributes.
    Names,
    /// Its place among its siblings, or what stands in it.
    Places,
    /// Texts, against literals and lengths.
    Texts,
    /// Texts, against patterns.
    Patterns,
}

/// What a test costs; `None` where selectors stand in it.
pub(crate) fn cost_of(test: &Test) -> Option<Cost>
    ensures { result ≡ cost_of test.now }
{
    match test {
        Test::Is(_) | Test::Not(_) | Test::Has(_) => None,
        Test::HasText(Arg::Pattern { .. }) => Some(Cost::Patterns),
        Test::HasText(Arg::Literal(_)) | Test::MinText(_) => Some(Cost::Texts),
        Test::MatchesPath(_) | Test::MatchesAttr { .. } => {
            if is_plain(test) {
                Some(Cost::Texts)
            } else {
                Some(Cost::Patterns)
            }
        }
        Test::Empty | Test::Nth { .. } | Test::Only { .. } => Some(Cost::Places),
        _ => Some(Cost::Names),
    }
}

pub(crate) fn has_cost(test: &Test, cost: Cost) -> bool
    ensures { result ≡ is_cost (cost_of test.now) cost }
{
    match (cost_of(test), cost) {
        (Some(Cost::Names), Cost::Names) => true,
        (Some(Cost::Places), Cost::Places) => true,
        (Some(Cost::Texts), Cost::Texts) => true,
        (Some(Cost::Patterns), Cost::Patterns) => true,
        _ => false,
    }
}

/// Whether no selector stands in a test.
pub(crate) fn is_single(test: &Test) -> bool
    ensures { result ≡ is_single test.now }
{
    match test {
        Test::Is(_) | Test::Not(_) | Test::Has(_) => false,
        _ => true,
    }
}

/// Whether a step keeps by a test.
fn is_keep(step: &Step) -> bool
    ensures { result ≡ is_keep step.now }
{
    match step {
        Step::Keep(_) => true,
        _ => false,
    }
}

/// Whether a step keeps by a test with selectors in it.
pub(crate) fn is_nested(step: &Step) -> bool
    ensures { result ≡ is_nested step.now }
{
    match step {
        Step::Keep(test) => !is_single(test),
        _ => false,
    }
}

/// Where the run of tests begins that ends the steps; their length where they don't end with a test.
pub(crate) fn run_start(steps: &[Step]) -> usize
    ensures within { result ≤ length steps.now }
    ensures run { list_all is_keep (drop result steps.now) ≡ true }
{
    let mut first = steps.len();
    'run: while first > 0 {
        if !is_keep(&steps[first - 1]) {
            return first;
        }
        first -= 1;
    }
    first
}

/// How many tests the steps begin with.
pub(crate) fn run_length(steps: &[Step]) -> usize
    ensures within { result ≤ length steps.now }
    ensures run { list_all is_keep (take result steps.now) ≡ true }
{
    for (i, step) in steps.iter().enumerate() {
        if !is_keep(step) {
            return i;
        }
    }
    steps.len()
}

/// Whether all tests of a run hold for an element, those aside that have selectors in them; the cheapest are asked first,
/// and each at most once.
pub(crate) fn singles_hold<P: Ledger>(
    context: &MatchingContext<'_, '_>,
    run: &[Step],
    x: u32,
    parts: &mut Steps<P>,
) -> Result<bool, AllocError>
    requires element { IsElement context.now.dom.now x }
    requires proper { are_own context.now.table.now.patterns run.now ≡ true }
    ensures answer { IfOk result (λ answer. answer ≡
        list_all (single_keeps context.now.dom.now context.now.path.now x) run.now) }
    ensures asked { parts.new ≤ parts.old + many_asked run.now }
{
    if !all_of_cost(context, run, Cost::Names, x, parts)? {
        return Ok(false);
    }
    if !all_of_cost(context, run, Cost::Places, x, parts)? {
        return Ok(false);
    }
    if !all_of_cost(context, run, Cost::Texts, x, parts)? {
        return Ok(false);
    }
    if !all_of_cost(context, run, Cost::Patterns, x, parts)? {
        return Ok(false);
    }
    Ok(true)
}

// Whether those tests of a run hold that cost so much.
fn all_of_cost<P: Ledger>(
    context: &MatchingContext<'_, '_>,
    run: &[Step],
    cost: Cost,
    x: u32,
    parts: &mut Steps<P>,
) -> Result<bool, AllocError>
    requires element { IsElement context.now.dom.now x }
    requires proper { are_own context.now.table.now.patterns run.now ≡ true }
    ensures answer { IfOk result (λ answer. answer ≡
        list_all (cost_keeps context.now.dom.now context.now.path.now cost x) run.now) }
    ensures asked { parts.new ≤ parts.old + many_costing cost run.now }
{
    for step in run {
        if !step_keeps(context, step, cost, x, parts)? {
            return Ok(false);
        }
    }
    Ok(true)
}

// Whether a step keeps an element, where it keeps by a test that costs so much.
fn step_keeps<P: Ledger>(
    context: &MatchingContext<'_, '_>,
    step: &Step,
    cost: Cost,
    x: u32,
    parts: &mut Steps<P>,
) -> Result<bool, AllocError>
    requires element { IsElement context.now.dom.now x }
    requires proper { is_own context.now.table.now.patterns step.now ≡ true }
    ensures answer { IfOk result (λ answer. answer ≡
        cost_keeps context.now.dom.now context.now.path.now cost x step.now) }
    ensures asked { parts.new ≤ parts.old + cond (costs cost step.now) 1 0 }
{
    match step {
        Step::Keep(test) => {
            if has_cost(test, cost) {
                holds(
                    context.alloc,
                    context.dom,
                    context.path,
                    context.table,
                    test,
                    x,
                    parts,
                )
            } else {
                Ok(true)
            }
        }
        _ => Ok(true),
    }
}
