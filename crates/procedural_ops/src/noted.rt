//! Runs of tests asked of an element that may have been asked before: what was answered then is remembered.
ghost use Rattle.std.specs.Prelude.{◌≡◌, ◌≤◌, ◌+◌, ◌∷◌, [], true, IfOk, OnOk};
ghost use Rattle.std.specs.List.{list_all};
ghost use Rattle.cos_patterns.specs.Found.{pattern_found};
ghost use Rattle.selector_meaning.specs.Meaning.{holds};
ghost use Rattle.selector_match.specs.Asked.{IsElement};
ghost use Rattle.selector_match.specs.Kinds.{is_single};
ghost use Rattle.proper_filters.specs.Held.{is_ready};
ghost use Rattle.proper_filters.specs.Proper.{are_own, is_own};
ghost use Rattle.procedural_ops.specs.Noted.{IsPart, IsRight, chain_cells, step_cells, unknown};
ghost use Rattle.procedural_ops.specs.Runs.{cost_keeps, single_keeps};

use crate::count::behind_step;
use crate::inquiry::Inquiry;
use crate::runs::{Cost, has_cost};
use cos_outside::Steps;
use remembered::Noted;
use selector_match::holds;
use selector_tree::{Step, Test};
use std::alloc::AllocError;
use std::sync::ledger::Ledger;

/// Whether all tests of a run hold for an element, those aside that have selectors in them; the cheapest are asked first,
/// and none whose answer is remembered.
pub(crate) fn singles_hold<P: Ledger>(
    inquiry: &Inquiry<'_, '_>,
    run: &[Step],
    x: u32,
    begin: usize,
    notes: &mut Noted,
    parts: &mut Steps<P>,
) -> Result<bool, AllocError>
    requires element { IsElement inquiry.now.context.dom.now x }
    requires proper { are_own inquiry.now.context.table.now.patterns run.now ≡ true }
    requires at { IsPart (chain_cells inquiry.now.chain.now) begin (chain_cells run.now) }
    requires right { IsRight inquiry.now.context.dom.now inquiry.now.chain.now notes.old
        inquiry.now.context.path.now }
    ensures answer { IfOk result (λ answer. answer ≡
        list_all (single_keeps inquiry.now.context.dom.now inquiry.now.context.path.now x)
        run.now) }
    ensures right { OnOk result (IsRight inquiry.now.context.dom.now inquiry.now.chain.now notes.new
        inquiry.now.context.path.now) }
    ensures asked { parts.new + unknown inquiry.now.context.dom.now inquiry.now.chain.now notes.new
        ≤ parts.old + unknown inquiry.now.context.dom.now inquiry.now.chain.now notes.old }
{
    if !all_of_cost(inquiry, run, Cost::Names, x, begin, notes, parts)? {
        return Ok(false);
    }
    if !all_of_cost(inquiry, run, Cost::Places, x, begin, notes, parts)? {
        return Ok(false);
    }
    if !all_of_cost(inquiry, run, Cost::Texts, x, begin, notes, parts)? {
        return Ok(false);
    }
    if !all_of_cost(inquiry, run, Cost::Patterns, x, begin, notes, parts)? {
        return Ok(false);
    }
    Ok(true)
}

// Whether those tests of a run hold that cost so much.
fn all_of_cost<P: Ledger>(
    inquiry: &Inquiry<'_, '_>,
    run: &[Step],
    cost: Cost,
    x: u32,
    begin: usize,
    notes: &mut Noted,
    parts: &mut Steps<P>,
) -> Result<bool, AllocError>
    requires element { IsElement inquiry.now.context.dom.now x }
    requires proper { are_own inquiry.now.context.table.now.patterns run.now ≡ true }
    requires at { IsPart (chain_cells inquiry.now.chain.now) begin (chain_cells run.now) }
    requires right { IsRight inquiry.now.context.dom.now inquiry.now.chain.now notes.old
        inquiry.now.context.path.now }
    ensures answer { IfOk result (λ answer. answer ≡
        list_all (cost_keeps inquiry.now.context.dom.now inquiry.now.context.path.now cost x)
        run.now) }
    ensures right { OnOk result (IsRight inquiry.now.context.dom.now inquiry.now.chain.now notes.new
        inquiry.now.context.path.now) }
    ensures asked { parts.new + unknown inquiry.now.context.dom.now inquiry.now.chain.now notes.new
        ≤ parts.old + unknown inquiry.now.context.dom.now inquiry.now.chain.now notes.old }
{
    let mut place = begin;
    for step in run {
        if !step_keeps(inquiry, step, cost, x, place, notes, parts)? {
            return Ok(false);
        }
        place = behind_step(place, step)?;
    }
    Ok(true)
}

// Whether a step keeps an element, where it keeps by a test that costs so much.
fn step_keeps<P: Ledger>(
    inquiry: &Inquiry<'_, '_>,
    step: &Step,
    cost: Cost,
    x: u32,
    begin: usize,
    notes: &mut Noted,
    parts: &mut Steps<P>,
) -> Result<bool, AllocError>
    requires element { IsElement inquiry.now.context.dom.now x }
    requires proper { is_own inquiry.now.context.table.now.patterns step.now ≡ true }
    requires at { IsPart (chain_cells inquiry.now.chain.now) begin (step_cells step.now) }
    requires right { IsRight inquiry.now.context.dom.now inquiry.now.chain.now notes.old
        inquiry.now.context.path.now }
    ensures answer { IfOk result (λ answer. answer ≡
        cost_keeps inquiry.now.context.dom.now inquiry.now.context.path.now cost x step.now) }
    ensures right { OnOk result (IsRight inquiry.now.context.dom.now inquiry.now.chain.now notes.new
        inquiry.now.context.path.now) }
    ensures asked { parts.new + unknown inquiry.now.context.dom.now inquiry.now.chain.now notes.new
        ≤ parts.old + unknown inquiry.now.context.dom.now inquiry.now.chain.now notes.old }
{
    match step {
        Step::Keep(test) => {
            if has_cost(test, cost) {
                test_holds(inquiry, test, x, begin, notes, parts)
            } else {
                Ok(true)
            }
        }
        _ => Ok(true),
    }
}

// Whether a test holds for an element: it is asked where no answer is remembered, and the answer is.
fn test_holds<P: Ledger>(
    inquiry: &Inquiry<'_, '_>,
    test: &Test,
    x: u32,
    place: usize,
    notes: &mut Noted,
    parts: &mut Steps<P>,
) -> Result<bool, AllocError>
    requires element { IsElement inquiry.now.context.dom.now x }
    requires single { is_single test.now ≡ true }
    requires ready { is_ready inquiry.now.context.table.now.patterns test.now ≡ true }
    requires at { IsPart (chain_cells inquiry.now.chain.now) place (test.now ∷ []) }
    requires right { IsRight inquiry.now.context.dom.now inquiry.now.chain.now notes.old
        inquiry.now.context.path.now }
    ensures answer { IfOk result (λ answer. answer ≡ holds pattern_found inquiry.now.context.dom.now
        inquiry.now.context.path.now test.now x) }
    ensures right { OnOk result (IsRight inquiry.now.context.dom.now inquiry.now.chain.now notes.new
        inquiry.now.context.path.now) }
    ensures asked { parts.new + unknown inquiry.now.context.dom.now inquiry.now.chain.now notes.new
        ≤ parts.old + unknown inquiry.now.context.dom.now inquiry.now.chain.now notes.old }
{
    if let Some(answer) = notes.answer(place, x) {
        return Ok(answer);
    }
    // room is taken before the test is asked, so that none is asked twice
    notes.put(place, x, false)?;
    let answer = holds(
        inquiry.context.alloc,
        inquiry.context.dom,
        inquiry.context.path,
        inquiry.context.table,
        test,
        x,
        parts,
    )?;
    notes.put(place, x, answer)?;
    Ok(answer)
}
