//! Chains of combinators and of tests without selectors in them: whether they lead to an element, and how much that asks.
ghost use Rattle.std.specs.Prelude.{◌≡◌, ◌≤◌, ◌<◌, ◌+◌, ◌*◌, true, length, IfOk};
ghost use Rattle.std.specs.List.{list_all};
ghost use Rattle.page_tree.specs.Directions.{is_in};
ghost use Rattle.page_tree.specs.Standings.{all};
ghost use Rattle.selector_match.specs.Asked.{IsElement};
ghost use Rattle.proper_filters.specs.Proper.{are_own};
ghost use Rattle.procedural_ops.specs.Count.{is_plain_step, many_asked, unasked, unasked_in};
ghost use Rattle.procedural_ops.specs.Once.{GoesFurther, IsLevelAt};
ghost use Rattle.procedural_ops.specs.Reaching.{reached};
ghost use Rattle.procedural_ops.specs.Standing.{StandsAt, GoesOn, is_open_at, remaining_at};

use crate::climb::{Climb, advance, descend, retreat, start};
use crate::context::MatchingContext;
use crate::runs::{is_single, run_start, singles_hold};
use cos_outside::Steps;
use selector_tree::Step;
use std::alloc::AllocError;
use std::sync::ledger::Ledger;

/// Whether each step moves by a combinator, or keeps by a test without selectors in it.
pub(crate) fn is_plain(steps: &[Step]) -> bool
    ensures { result ≡ list_all is_plain_step steps.now }
{
    for step in steps {
        if !is_plain_step(step) {
            return false;
        }
    }
    true
}

fn is_plain_step(step: &Step) -> bool
    ensures { result ≡ is_plain_step step.now }
{
    match step {
        Step::Keep(test) => is_single(test),
        Step::Move(_) => true,
        _ => false,
    }
}

/// Whether such steps lead from all elements to an element.
///
/// It climbs from the element, and goes back to two points alone: so it asks each test of the chain at most once of an
/// element.
pub(crate) fn is_reached<P: Ledger>(
    context: &MatchingContext<'_, '_>,
    steps: &[Step],
    x: u32,
    parts: &mut Steps<P>,
) -> Result<bool, AllocError>
    requires element { IsElement context.now.dom.now x }
    requires proper { are_own context.now.table.now.patterns steps.now ≡ true }
    requires plain { list_all is_plain_step steps.now ≡ true }
    ensures answer { IfOk result (λ answer. answer ≡
        is_in (reached context.now.dom.now context.now.path.now steps.now) x) }
    ensures asked { parts.new
        ≤ parts.old + many_asked steps.now * length (all context.now.dom.now) }
{
    context.dom.is_tree();
    let mut climb = start(steps.len(), x);
    'climb: while climb.here.left > 0 {
        match turn(context, steps, &climb, parts)? {
            None => return Ok(false),
            Some(next) => climb = next,
        }
    }
    Ok(true)
}

/// One turn of the search: the combinator or the run of tests that ends the steps left is asked of where the search stands.
fn turn<P: Ledger>(
    context: &MatchingContext<'_, '_>,
    steps: &[Step],
    climb: &Climb,
    parts: &mut Steps<P>,
) -> Result<Option<Climb>, AllocError>
    requires stands { StandsAt context.now.dom.now context.now.path.now steps.now climb.now }
    requires some { 0 < climb.now.here.left }
    requires proper { are_own context.now.table.now.patterns steps.now ≡ true }
    requires plain { list_all is_plain_step steps.now ≡ true }
    requires level { IsLevelAt context.now.dom.now steps.now climb.now }
    ensures once { IfOk result (GoesFurther context.now.dom.now steps.now climb.now) }
    ensures goes { IfOk result (GoesOn context.now.dom.now context.now.path.now steps.now
        (is_open_at context.now.dom.now context.now.path.now steps.now climb.now)
        (remaining_at context.now.dom.now context.now.path.now steps.now climb.now)) }
    ensures asked { IfOk result (λ next. parts.new + unasked_in context.now.dom.now steps.now next
        ≤ parts.old + unasked context.now.dom.now steps.now climb.now) }
    ensures few { parts.new ≤ parts.old + unasked context.now.dom.now steps.now climb.now }
{
    context.dom.is_tree();
    let left = climb.here.left - 1;
    let last = &steps[left];
    match last {
        Step::Keep(_) => {
            let first = run_start(&steps[..left]);
            let run = &steps[first..climb.here.left];
            if singles_hold(context, run, climb.here.at, parts)? {
                Ok(Some(descend(climb, first)))
            } else {
                Ok(retreat(context.dom, climb))
            }
        }
        Step::Move(place) => Ok(advance(context.dom, climb, *place)),
        _ => unreachable!(),
    }
}
