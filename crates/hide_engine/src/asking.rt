// Asking again what changes of the page may have touched, and all at the start.
ghost use Rattle.std.specs.Prelude.{◌≡◌, ◌+◌, ◌≤◌, false, IfOk, OnOk};
ghost use Rattle.hide_engine.specs.Budgets.{budget_of, start_budget};
ghost use Rattle.hide_engine.specs.Exact.{AreExact};
ghost use Rattle.hide_engine.specs.Ready.{state_of, pended, AreReady, IsRight};
ghost use Rattle.kept_marks.specs.Kept.{IsSame};
ghost use Rattle.retest.specs.Priced.{price, IsPriced};

use crate::filter_set::FilterSet;
use cos_outside::Steps;
use cos_patterns::PatternSearcher;
use kept_marks::Marks;
use mutation_script::PageState;
use procedural_ops::MatchingContext;
use retest::{Asking, Pending, retest, start};
use std::alloc::{AllocError, Global};
use std::sync::ledger::Ledger;

// What is asked of a page by some filters.
fn asking_of<'a, 'p>(context: MatchingContext<'a, 'p>, filters: &'a FilterSet) -> Asking<'a, 'p>
    ensures context { result.context ≡ context.entry }
    ensures active { result.active.now ≡ filters.now.active }
    ensures keyed { result.keyed.now ≡ filters.now.keyed }
    ensures groups { result.groups.now ≡ filters.now.groups.numbers }
{
    Asking {
        context,
        active: &filters.active,
        keyed: &filters.keyed,
        groups: filters.groups.numbers.as_slice(),
    }
}

/// Asks again what is pending, and nothing else: a filter is asked of the elements at which its group is pending and that
/// carry a key of it. The answer is whether a mark is another one than before.
pub(crate) fn ask_again<L: Ledger, P: Ledger>(
    alloc: Global,
    page: &PageState,
    filters: &FilterSet,
    pending: &Pending,
    marks: &mut Marks,
    checks: &mut Steps<L>,
    parts: &mut Steps<P>,
) -> Result<bool, AllocError>
    requires ready { AreReady filters.now }
    requires right { IsRight page.now filters.now marks.old pending.now }
    ensures exact { OnOk result (AreExact (state_of page.now filters.now) marks.new) }
    ensures checks { checks.new ≤ checks.old + budget_of (state_of page.now filters.now) (pended filters.now pending.now) }
    ensures parts { IsPriced (price filters.now.active page.now.tree) checks.old checks.new parts.old parts.new }
    ensures same { IfOk result (λ changed. changed ≡ false → IsSame marks.old marks.new) }
{
    // One searcher for all that is asked here, so that a pattern's working memory isn't made for each element.
    let table = PatternSearcher::new(&filters.table);
    let context = MatchingContext {
        alloc,
        dom: &page.tree,
        path: page.path.as_str(),
        table: &table,
    };
    let asking = asking_of(context, filters);
    retest(&asking, pending, marks, checks, parts)
}

/// The marks of a page: each filter is asked of the elements that carry a key of it.
pub(crate) fn ask_everything<L: Ledger, P: Ledger>(
    alloc: Global,
    page: &PageState,
    filters: &FilterSet,
    checks: &mut Steps<L>,
    parts: &mut Steps<P>,
) -> Result<Marks, AllocError>
    requires { AreReady filters.now }
    ensures exact { IfOk result (λ marks. AreExact (state_of page.now filters.now) marks) }
    ensures checks { checks.new ≤ checks.old + start_budget (state_of page.now filters.now) }
    ensures parts { IsPriced (price filters.now.active page.now.tree) checks.old checks.new parts.old parts.new }
{
    // One searcher for all that is asked here, so that a pattern's working memory isn't made for each element.
    let table = PatternSearcher::new(&filters.table);
    let context = MatchingContext {
        alloc,
        dom: &page.tree,
        path: page.path.as_str(),
        table: &table,
    };
    let asking = asking_of(context, filters);
    start(&asking, checks, parts)
}
