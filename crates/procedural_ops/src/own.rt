//! A filter's own chains: whether they lead to an element, and how much that asks.
ghost use Rattle.std.specs.Prelude.{◌≡◌, ◌≤◌, ◌+◌, ◌*◌, true, length, take, IfOk};
ghost use Rattle.std.specs.List.{list_all};
ghost use Rattle.page_tree.specs.Directions.{is_in};
ghost use Rattle.page_tree.specs.Standings.{all};
ghost use Rattle.selector_match.specs.Asked.{IsElement};
ghost use Rattle.proper_filters.specs.Proper.{are_own};
ghost use Rattle.procedural_ops.specs.Noted.{chain_tests, nested_tests};
ghost use Rattle.procedural_ops.specs.Origins.{chain_of};
ghost use Rattle.procedural_ops.specs.Others.{AreRight};
ghost use Rattle.procedural_ops.specs.Reaching.{reached};
ghost use Rattle.procedural_ops.specs.Runs.{nested_keeps};

use crate::context::MatchingContext;
use crate::count::behind;
use crate::inquiry::Inquiry;
use crate::own_others::{Origin, is_other_of_front};
use crate::runs::{is_nested, run_start, singles_hold};
use crate::{plain, search};
use cos_outside::Steps;
use remembered::{Members, Noted};
use selector_tree::Step;
use std::alloc::AllocError;
use std::sync::ledger::Ledger;

/// Whether steps lead from all elements to an element. The tests of the last compound are asked of this element alone; what
/// stands before them, and what stands in them, may be asked again, and so its answers are remembered.
pub(crate) fn is_reached<P: Ledger>(
    context: &MatchingContext<'_, '_>,
    origin: &Origin<'_>,
    steps: &[Step],
    x: u32,
    members: &mut Members,
    parts: &mut Steps<P>,
) -> Result<bool, AllocError>
    requires element { IsElement context.now.dom.now x }
    requires proper { are_own context.now.table.now.patterns steps.now ≡ true }
    requires chain { steps.now ≡ chain_of origin.now }
    requires right { AreRight context.now.dom.now context.now.path.now origin.now.active.now
        members.old }
    ensures answer { IfOk result (λ answer. answer ≡
        is_in (reached context.now.dom.now context.now.path.now steps.now) x) }
    ensures right { AreRight context.now.dom.now context.now.path.now origin.now.active.now
        members.new }
    ensures asked { parts.new
        ≤ parts.old + length (chain_tests steps.now) * length (all context.now.dom.now) }
{
    let first = run_start(steps);
    let run = &steps[first..];
    if !singles_hold(context, run, x, parts)? {
        return Ok(false);
    }
    if !nested_hold(context, run, x, parts)? {
        return Ok(false);
    }
    is_front_reached(context, origin, &steps[..first], x, members, parts)
}

// Whether those tests of a run hold for an element that have selectors in them.
fn nested_hold<P: Ledger>(
    context: &MatchingContext<'_, '_>,
    run: &[Step],
    x: u32,
    parts: &mut Steps<P>,
) -> Result<bool, AllocError>
    requires element { IsElement context.now.dom.now x }
    requires proper { are_own context.now.table.now.patterns run.now ≡ true }
    ensures answer { IfOk result (λ answer. answer ≡
        list_all (nested_keeps context.now.dom.now context.now.path.now x) run.now) }
    ensures asked { parts.new
        ≤ parts.old + nested_tests run.now * length (all context.now.dom.now) }
{
    for (i, step) in run.iter().enumerate() {
        if is_nested(step) && !nested_keeps(context, &run[i..i + 1], x, parts)? {
            return Ok(false);
        }
    }
    Ok(true)
}

// The same for some of them, with notes of their own: each is asked of this element alone.
fn nested_keeps<P: Ledger>(
    context: &MatchingContext<'_, '_>,
    run: &[Step],
    x: u32,
    parts: &mut Steps<P>,
) -> Result<bool, AllocError>
    requires element { IsElement context.now.dom.now x }
    requires proper { are_own context.now.table.now.patterns run.now ≡ true }
    ensures answer { IfOk result (λ answer. answer ≡
        list_all (nested_keeps context.now.dom.now context.now.path.now x) run.now) }
    ensures asked { parts.new
        ≤ parts.old + length (chain_tests run.now) * length (all context.now.dom.now) }
{
    let mut notes = Noted::new(context.alloc, behind(0, run)?)?;
    let inquiry = Inquiry {
        context: *context,
        chain: run,
    };
    search::nested_hold(&inquiry, run, x, 0, &mut notes, parts)
}

// Whether steps before the last compound lead to an element.
fn is_front_reached<P: Ledger>(
    context: &MatchingContext<'_, '_>,
    origin: &Origin<'_>,
    steps: &[Step],
    x: u32,
    members: &mut Members,
    parts: &mut Steps<P>,
) -> Result<bool, AllocError>
    requires element { IsElement context.now.dom.now x }
    requires proper { are_own context.now.table.now.patterns steps.now ≡ true }
    requires front { steps.now ≡ take (length steps.now) (chain_of origin.now) }
    requires right { AreRight context.now.dom.now context.now.path.now origin.now.active.now
        members.old }
    ensures answer { IfOk result (λ answer. answer ≡
        is_in (reached context.now.dom.now context.now.path.now steps.now) x) }
    ensures right { AreRight context.now.dom.now context.now.path.now origin.now.active.now
        members.new }
    ensures asked { parts.new
        ≤ parts.old + length (chain_tests steps.now) * length (all context.now.dom.now) }
{
    if plain::is_plain(steps) {
        return plain::is_reached(context, steps, x, parts);
    }
    let Some((last, before)) = steps.split_last() else {
        return is_found(context, steps, x, parts);
    };
    match last {
        Step::Others => is_other_of_front(context, origin, before, x, members, parts),
        _ => is_found(context, steps, x, parts),
    }
}

// The same, by the search that remembers its answers.
fn is_found<P: Ledger>(
    context: &MatchingContext<'_, '_>,
    steps: &[Step],
    x: u32,
    parts: &mut Steps<P>,
) -> Result<bool, AllocError>
    requires element { IsElement context.now.dom.now x }
    requires proper { are_own context.now.table.now.patterns steps.now ≡ true }
    ensures answer { IfOk result (λ answer. answer ≡
        is_in (reached context.now.dom.now context.now.path.now steps.now) x) }
    ensures asked { parts.new
        ≤ parts.old + length (chain_tests steps.now) * length (all context.now.dom.now) }
{
    let mut notes = Noted::new(context.alloc, behind(0, steps)?)?;
    let inquiry = Inquiry {
        context: *context,
        chain: steps,
    };
    search::is_reached(&inquiry, steps, x, 0, &mut notes, parts)
}
