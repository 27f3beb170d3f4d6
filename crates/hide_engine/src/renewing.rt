// What an event makes of the page and the marks: single changes, and at the end all that they touched asked again.
ghost use Rattle.std.specs.Prelude.{◌≡◌, ◌+◌, ◌≤◌, ◌&&◌, not, true, [], map, IfOk, OnOk, IsErr};
ghost use Rattle.cos_patterns.specs.Found.{pattern_found};
ghost use Rattle.engine_meaning.specs.Rounds.{without_each};
ghost use Rattle.engine_meaning.specs.States.{rounded, round_of};
ghost use Rattle.mutation_script.specs.Changes.{change, changed, outcome_of};
ghost use Rattle.mutation_script.specs.Inserted.{inserted};
ghost use Rattle.hide_engine.specs.Budgets.{budget_of, event_budget, event_tests, round_budget, round_tests};
ghost use Rattle.hide_engine.specs.Changes.{keeps_elements, dirtied_without};
ghost use Rattle.hide_engine.specs.Chosen.{HidesSame};
ghost use Rattle.hide_engine.specs.Exact.{AreExact};
ghost use Rattle.hide_engine.specs.Ready.{state_of, AreReady};
ghost use Rattle.retest.specs.Priced.{price, IsPriced};

use crate::asking::ask_again;
use crate::filter_set::FilterSet;
use crate::making::make;
use crate::removing::{take_out_all, taken_rows};
use cos_outside::Steps;
use kept_marks::Marks;
use mutation_script::{Mutation, Outcome, PageState};
use retest::Pending;
use selector_tree::{Taken, TakenList};
use std::alloc::{AllocError, Global};
use std::sync::ledger::Ledger;

/// What a mutation came to: how it was answered, and whether the hidden elements are known to be those of before.
pub(crate) struct Mutated {
    pub(crate) outcome: Outcome,
    pub(crate) same: bool,
}

/// Makes the change that a mutation asks for, or answers its first refusal, after which all is as it was and nothing is asked.
pub(crate) fn mutate<L: Ledger, P: Ledger>(
    alloc: Global,
    page: &mut PageState,
    filters: &FilterSet,
    mutation: Mutation,
    marks: &mut Marks,
    checks: &mut Steps<L>,
    parts: &mut Steps<P>,
) -> Result<Mutated, AllocError>
    requires number { page.old.tree.next + inserted mutation ≤ 4294967295 }
    requires ready { AreReady filters.now }
    requires exact { AreExact (state_of page.old filters.now) marks.old }
    ensures page { OnOk result (page.new ≡ changed mutation page.old) }
    ensures outcome { IfOk result (λ done. done.outcome ≡ outcome_of (change mutation page.old)) }
    ensures exact { OnOk result (AreExact (state_of page.new filters.now) marks.new) }
    ensures same { IfOk result (λ done. done.same ≡ true →
        HidesSame (state_of page.old filters.now) (state_of page.new filters.now)) }
    ensures refused { IsErr (change mutation page.old) → checks.new ≡ checks.old }
    ensures rises { checks.old ≤ checks.new }
    ensures checks { checks.new ≤ checks.old + event_budget mutation (state_of page.old filters.now) }
    ensures parts { parts.new ≤ parts.old + event_tests mutation (state_of page.old filters.now) }
{
    page.tree.is_tree();
    let keeps = keeps_elements(&mutation);
    let mut pending = Pending::new(alloc);
    match make(alloc, page, filters, mutation, marks, &mut pending)? {
        Outcome::Refused(error) => Ok(Mutated {
            outcome: Outcome::Refused(error),
            same: true,
        }),
        Outcome::Done => {
            page.tree.is_tree();
            let changed = ask_again(alloc, page, filters, &pending, marks, checks, parts)?;
            Ok(Mutated {
                outcome: Outcome::Done,
                same: are_same(keeps, changed),
            })
        }
    }
}

// Whether a mutation leaves the same elements in the same order.
fn keeps_elements(mutation: &Mutation) -> bool
    ensures { result ≡ keeps_elements mutation.now }
{
    match mutation {
        Mutation::SetAttr { .. }
        | Mutation::DropAttr { .. }
        | Mutation::SetText { .. }
        | Mutation::Path { .. } => true,
        Mutation::Insert { .. } | Mutation::Delete { .. } | Mutation::Relink { .. } => false,
    }
}

// Hidden elements are the same where the elements are and no mark is another one.
fn are_same(keeps: bool, changed: bool) -> bool
    ensures { result ≡ (keeps && not changed) }
{
    keeps && !changed
}

/// Takes all elements that some filter removes out of the page, and answers the outermost of them, as taken in round 1. Where
/// there are none, all stays as it is and nothing is asked.
pub(crate) fn take_round<L: Ledger, P: Ledger>(
    alloc: Global,
    page: &mut PageState,
    filters: &FilterSet,
    marks: &mut Marks,
    checks: &mut Steps<L>,
    parts: &mut Steps<P>,
) -> Result<TakenList, AllocError>
    requires ready { AreReady filters.now }
    requires exact { AreExact (state_of page.old filters.now) marks.old }
    ensures page { OnOk result (state_of page.new filters.now ≡ rounded pattern_found (state_of page.old filters.now)) }
    ensures rows { IfOk result (λ rows. rows ≡ round_of pattern_found (state_of page.old filters.now)) }
    ensures exact { OnOk result (AreExact (state_of page.new filters.now) marks.new) }
    ensures quiet { round_of pattern_found (state_of page.old filters.now) ≡ [] → checks.new ≡ checks.old }
    ensures checks { checks.new ≤ checks.old + round_budget (state_of page.old filters.now) }
    ensures parts { parts.new ≤ parts.old + round_tests (state_of page.old filters.now) }
{
    page.tree.is_tree();
    let rows = taken_rows(alloc, page, filters, marks)?;
    if rows.len() == 0 {
        return Ok(rows);
    }
    take(alloc, page, filters, rows.as_slice(), marks, checks, parts)?;
    Ok(rows)
}

// Takes elements out of the page one after another, each with all below it.
fn take<L: Ledger, P: Ledger>(
    alloc: Global,
    page: &mut PageState,
    filters: &FilterSet,
    rows: &[Taken],
    marks: &mut Marks,
    checks: &mut Steps<L>,
    parts: &mut Steps<P>,
) -> Result<(), AllocError>
    requires ready { AreReady filters.now }
    requires exact { AreExact (state_of page.old filters.now) marks.old }
    ensures page { OnOk result (page.new ≡ record page.old { tree = without_each page.old.tree (map (λ row. row.node) rows.now) }) }
    ensures exact { OnOk result (AreExact (state_of page.new filters.now) marks.new) }
    ensures checks { checks.new ≤ checks.old
        + budget_of (state_of (record page.old { tree = without_each page.old.tree (map (λ row. row.node) rows.now) }) filters.now)
        (dirtied_without (map (λ row. row.node) rows.now) (state_of page.old filters.now)) }
    ensures parts { IsPriced (price filters.now.active (without_each page.old.tree (map (λ row. row.node) rows.now)))
        checks.old checks.new parts.old parts.new }
{
    let mut pending = Pending::new(alloc);
    take_out_all(alloc, page, filters, rows, marks, &mut pending)?;
    ask_again(alloc, page, filters, &pending, marks, checks, parts)?;
    Ok(())
}
