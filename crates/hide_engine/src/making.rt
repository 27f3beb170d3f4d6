// Single changes of a page, each noted just after it.
ghost use Rattle.std.specs.Prelude.{◌≡◌, ◌+◌, ◌≤◌, ◌&&◌, not, true, ℕ, IfOk, OnOk, IsErr};
ghost use Rattle.dependency_sets.specs.Named.{IsNamed};
ghost use Rattle.page_tree.specs.Directions.{is_in};
ghost use Rattle.page_tree.specs.Edits.{detached};
ghost use Rattle.page_tree.specs.Standings.{all};
ghost use Rattle.mutation_script.specs.Changes.{change, changed, outcome_of};
ghost use Rattle.mutation_script.specs.Inserted.{inserted};
ghost use Rattle.mutation_script.specs.declared.mutation.Mutation.TheVariants.{Delete};
ghost use Rattle.mutation_script.specs.declared.page.PageState.{PageState};
ghost use Rattle.retest_laws.specs.Pending.{Pairs, either};
ghost use Rattle.kept_marks.specs.Kept.{is_marked, IsSame};
ghost use Rattle.hide_engine.specs.Changes.{keeps_elements, is_dirty, dirtied_by};
ghost use Rattle.hide_engine.specs.Ready.{state_of, AreReady, IsRight, IsGiven, IsStep, goes_by};

use crate::filter_set::FilterSet;
use crate::noting::{note, with_node};
use crate::planned::Planned;
use dependency_sets::{NodeSet, brought};
use dom_arena::Dom;
use kept_marks::Marks;
use mutation_script::{Mutation, Outcome, PageState};
use retest::{Pending, drop_all};
use sensor_meaning::Change;
use std::alloc::{AllocError, Global};

/// Makes the change that a mutation asks for, and notes what it makes dirty; or answers its first refusal, after which all is
/// as it was.
pub(crate) fn make(
    alloc: Global,
    page: &mut PageState,
    filters: &FilterSet,
    mutation: Mutation,
    marks: &mut Marks,
    pending: &mut Pending,
) -> Result<Outcome, AllocError>
    requires number { page.old.tree.next + inserted mutation ≤ 4294967295 }
    requires ready { AreReady filters.now }
    requires right { IsRight page.old filters.now marks.old pending.old }
    ensures page { OnOk result (page.new ≡ changed mutation page.old) }
    ensures outcome { IfOk result (λ outcome. outcome ≡ outcome_of (change mutation page.old)) }
    ensures right { OnOk result (IsRight page.new filters.now marks.new pending.new) }
    ensures given { OnOk result ((given : Pairs) → IsGiven filters.now pending.old given →
        IsGiven filters.now pending.new (either given (dirtied_by mutation (state_of page.old filters.now)))) }
    ensures refused { IsErr (change mutation page.old) → OnOk result (marks.new ≡ marks.old) }
    ensures kept { keeps_elements mutation ≡ true → OnOk result (IsSame marks.old marks.new) }
{
    page.tree.is_tree();
    let planned = Planned::of(alloc, &page.tree, &mutation)?;
    let gone = leaving(alloc, &page.tree, &mutation)?;
    match page.apply(alloc, mutation)? {
        Outcome::Refused(error) => Ok(Outcome::Refused(error)),
        Outcome::Done => {
            page.tree.is_tree();
            let change = planned.made(alloc, &page.tree)?;
            follow(
                alloc,
                page,
                filters,
                &change,
                gone.as_slice(),
                marks,
                pending,
            )?;
            Ok(Outcome::Done)
        }
    }
}

/// Takes a node out of the page with all below it, and notes what that makes dirty. Where there is no such node, all is as it
/// was.
pub(crate) fn take_out(
    alloc: Global,
    page: &mut PageState,
    filters: &FilterSet,
    n: u32,
    marks: &mut Marks,
    pending: &mut Pending,
) -> Result<(), AllocError>
    requires ready { AreReady filters.now }
    requires right { IsRight page.old filters.now marks.old pending.old }
    ensures page { OnOk result (page.new ≡ record page.old { tree = detached n page.old.tree }) }
    ensures right { OnOk result (IsRight page.new filters.now marks.new pending.new) }
    ensures given { OnOk result ((given : Pairs) → IsGiven filters.now pending.old given →
        IsGiven filters.now pending.new (either given (dirtied_by (Delete n) (state_of page.old filters.now)))) }
{
    page.tree.is_tree();
    let parent = page.tree.parent(n).unwrap_or(0);
    let gone = with_node(alloc, &page.tree, n)?;
    match page.tree.detach(n) {
        Err(_) => Ok(()),
        Ok(()) => {
            page.tree.is_tree();
            let change = Change::Went { parent };
            follow(
                alloc,
                page,
                filters,
                &change,
                gone.as_slice(),
                marks,
                pending,
            )
        }
    }
}

// The elements that a mutation takes out of the page, if it is made.
fn leaving(alloc: Global, dom: &Dom, mutation: &Mutation) -> Result<NodeSet, AllocError>
    ensures { IfOk result (λ gone. (x : ℕ) → is_in gone x ≡ (is_in (all dom.now) x && goes_by mutation.now dom.now x)) }
{
    match mutation {
        Mutation::Delete { n } => with_node(alloc, dom, *n),
        // Another path brings nothing.
        _ => brought(alloc, dom, &Change::Path),
    }
}

// Drops the marks of the elements that went with a change, and notes what it made dirty.
fn follow(
    alloc: Global,
    page: &PageState,
    filters: &FilterSet,
    change: &Change,
    gone: &[u32],
    marks: &mut Marks,
    pending: &mut Pending,
) -> Result<(), AllocError>
    requires named { IsNamed change.now page.now.tree }
    requires ready { AreReady filters.now }
    ensures right { OnOk result ((old : PageState) → IsStep old page.now change.now gone.now →
        IsRight old filters.now marks.old pending.old → IsRight page.now filters.now marks.new pending.new) }
    ensures given { OnOk result ((given : Pairs) → IsGiven filters.now pending.old given →
        IsGiven filters.now pending.new (either given (is_dirty change.now (state_of page.now filters.now)))) }
    ensures marks { (f x : ℕ) → is_marked marks.new f x ≡ (is_marked marks.old f x && not (is_in gone.now x)) }
{
    drop_all(marks, gone);
    note(
        alloc,
        &page.tree,
        filters.groups.sets.as_slice(),
        change,
        pending,
    )
}
