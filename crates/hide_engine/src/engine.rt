ghost use Rattle.std.specs.Prelude.{◌≡◌, ◌+◌, ◌≤◌, true, [], map, length, IfOk, IsErr};
ghost use Rattle.cos_patterns.specs.Found.{pattern_found};
ghost use Rattle.hide_engine.specs.Budgets.{start_budget, start_tests, event_budget, event_tests, round_budget, round_tests};
ghost use Rattle.hide_engine.specs.Changes.{change_of, IsUnseen};
ghost use Rattle.hide_engine.specs.Chosen.{HidesSame};
ghost use Rattle.engine_meaning.specs.Filters.{AreAskable};
ghost use Rattle.engine_meaning.specs.Hidden.{pair_of};
ghost use Rattle.engine_meaning.specs.States.{mutated, hidden_of, rounded, round_of};
ghost use Rattle.mutation_script.specs.Changes.{change, outcome_of};
ghost use Rattle.mutation_script.specs.Inserted.{inserted};
ghost use Rattle.hide_engine.specs.Exact.{AreExact};

use crate::asking::ask_everything;
use crate::filter_set::FilterSet;
use crate::renewing::{Mutated, mutate, take_round};
use crate::rows::{acting_rows, hidden_rows};
use cos_outside::Steps;
use cos_patterns::PatternTable;
use dom_arena::Dom;
use kept_marks::Marks;
use mutation_script::{Mutation, Outcome, PageState};
use selector_tree::{Action, Active, Rows, TakenList};
use std::alloc::{AllocError, Global};
use std::marker::Model;
use std::sync::ledger::Ledger;

/// A page with the filters that are used on it, which knows which of them select which elements.
///
/// A call that answers an error has used the engine up.
pub struct Engine {
    page: PageState,
    filters: FilterSet,
    marks: Marks,
}

impl Model for Engine {
    ghost use Rattle.std.specs.Coded.{codes};
    ghost use Rattle.page_tree.specs.ForestCode.{forest_code};
    ghost use Rattle.selector_tree.specs.contracts.selector.Step as step;
    ghost use Rattle.engine_meaning.specs.States.{State};

    ghost Value = { State };

    ghost coded = { Prim.hlevel (codes, forest_code, step.the_row.coded) };

    ghost use Rattle.hide_engine.specs.Ready.{IsKept};

    ghost view = { λ engine. record { page = engine.page; filters = engine.filters.active } };

    ghost invariant = { λ engine. IsKept engine.page engine.filters engine.marks };
}

impl Drop for Engine {
    // In one place, since the crates above let an engine go at many an early return.
    fn drop(self) {
        let Engine {
            page,
            filters,
            marks,
        } = self;
        drop(page);
        drop(filters);
        drop(marks);
    }
}

/// What a mutation came to.
#[derive(Drop)]
pub struct Applied {
    /// The engine behind it.
    pub engine: Engine,
    /// Whether it was made, or why it was refused.
    pub outcome: Outcome,
    /// Whether the hidden elements are known to be those of before, in the same order and each by the same filters, so that
    /// what was told of them holds on. False where that isn't known.
    pub same: bool,
}

impl Engine {
    /// An engine for a page and its filters, whose patterns the table has. Each question whether a filter selects an element
    /// counts as one of the `checks`, and each single test that is asked for it as one of the `parts`; so in each call. A
    /// filter is asked of the elements that carry a key of it alone.
    pub fn start<L: Ledger, P: Ledger>(
        alloc: Global,
        page: PageState,
        table: PatternTable,
        active: Active,
        checks: &mut Steps<L>,
        parts: &mut Steps<P>,
    ) -> Result<Engine, AllocError>
        requires { AreAskable table.patterns active }
        ensures engine { IfOk result (λ engine. engine ≡ record { page = page; filters = active }) }
        ensures checks { checks.new ≤ checks.old + start_budget (record { page = page; filters = active }) }
        ensures parts { parts.new ≤ parts.old + start_tests (record { page = page; filters = active }) }
    {
        let filters = FilterSet::of(alloc, table, active)?;
        let marks = ask_everything(alloc, &page, &filters, checks, parts)?;
        Ok(Engine {
            page,
            filters,
            marks,
        })
    }

    /// Makes the change that a mutation asks for, or answers its first refusal, after which the engine stands for the same
    /// page. The HTML of an insert gives no more numbers than it has bytes.
    pub fn apply<L: Ledger, P: Ledger>(
        self,
        alloc: Global,
        mutation: Mutation,
        checks: &mut Steps<L>,
        parts: &mut Steps<P>,
    ) -> Result<Applied, AllocError>
        requires { self.page.tree.next + inserted mutation ≤ 4294967295 }
        ensures engine { IfOk result (λ done. done.engine ≡ mutated mutation self) }
        ensures outcome { IfOk result (λ done. done.outcome ≡ outcome_of (change mutation self.page)) }
        ensures same { IfOk result (λ done. done.same ≡ true → HidesSame self (mutated mutation self)) }
        ensures refused { IsErr (change mutation self.page) → checks.new ≡ checks.old }
        ensures unseen { IsUnseen (change_of mutation self.page.tree) (mutated mutation self) → checks.new ≡ checks.old }
        ensures checks { checks.new ≤ checks.old + event_budget mutation self }
        ensures parts { parts.new ≤ parts.old + event_tests mutation self }
    {
        let Engine {
            mut page,
            filters,
            mut marks,
        } = self;
        let Mutated { outcome, same } = mutate(
            alloc, &mut page, &filters, mutation, &mut marks, checks, parts,
        )?;
        Ok(Applied {
            engine: Engine {
                page,
                filters,
                marks,
            },
            outcome,
            same,
        })
    }

    /// Takes all elements that some filter removes out of the page, and answers the outermost of them, as taken in round 1.
    /// Where there are none, the page stays as it is.
    pub fn take_round<L: Ledger, P: Ledger>(
        self,
        alloc: Global,
        checks: &mut Steps<L>,
        parts: &mut Steps<P>,
    ) -> Result<(Engine, TakenList), AllocError>
        ensures engine { IfOk result (λ done. done.0 ≡ rounded pattern_found self) }
        ensures taken { IfOk result (λ done. done.1 ≡ round_of pattern_found self) }
        ensures quiet { round_of pattern_found self ≡ [] → checks.new ≡ checks.old }
        ensures checks { checks.new ≤ checks.old + round_budget self }
        ensures parts { parts.new ≤ parts.old + round_tests self }
    {
        let Engine {
            mut page,
            filters,
            mut marks,
        } = self;
        let rows = take_round(alloc, &mut page, &filters, &mut marks, checks, parts)?;
        Ok((
            Engine {
                page,
                filters,
                marks,
            },
            rows,
        ))
    }

    /// The nodes of the page. It takes no memory.
    pub fn dom(&self) -> &Dom
        ensures { result.now ≡ self.now.page.tree }
    {
        &self.page.tree
    }

    /// The path of the page's address. It takes no memory.
    pub fn path(&self) -> &str
        ensures { result.now ≡ self.now.page.path }
    {
        self.page.path.as_str()
    }

    /// The filters, in order. It takes no memory.
    pub fn active(&self) -> &Active
        ensures { result.now ≡ self.now.filters }
    {
        &self.filters.active
    }

    /// The pairs of a filter, whatever its action, and an element of the page that it selects. It takes no memory.
    pub fn marks(&self) -> &Marks
        ensures { AreExact self.now result.now }
    {
        &self.marks
    }

    /// The hidden elements in document order, each with the places of all filters that hide it.
    pub fn hidden(&self, alloc: Global) -> Result<Rows, AllocError>
        ensures { IfOk result (λ rows. map pair_of rows ≡ hidden_of pattern_found self.now) }
    {
        hidden_rows(alloc, &self.page, &self.filters.active, &self.marks)
    }

    /// How many elements are hidden. It takes no memory, and goes over the marked elements and not over the page.
    pub fn hidden_count(&self) -> usize
        ensures { result ≡ length (hidden_of pattern_found self.now) }
    {
        self.page.tree.is_tree();
        acting_rows(&self.filters.active, &self.marks, Action::Hide)
    }
}
