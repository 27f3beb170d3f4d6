ghost use Rattle.std.specs.Prelude.{◌≡◌, IfOk};
ghost use Rattle.std.specs.List.{list_any};
ghost use Rattle.engine_meaning.specs.Filters.{is_remove, AreAskable};
ghost use Rattle.hide_engine.specs.Ready.{AreReady};

use crate::groups::Groups;
use crate::rows::is_action;
use cos_patterns::PatternTable;
use generic_tables::FilterTable;
use selector_tree::{Action, Active};
use std::alloc::{AllocError, Global};

/// The filters of an engine, with the table of their patterns, by the keys of their chains, and by the sets of their sensors.
#[derive(Drop)]
pub(crate) struct FilterSet {
    pub(crate) table: PatternTable,
    pub(crate) active: Active,
    pub(crate) keyed: FilterTable,
    pub(crate) groups: Groups,
    /// Whether some filter removes what it selects.
    pub(crate) removes: bool,
}

impl FilterSet {
    /// Some filters whose patterns the table has.
    pub(crate) fn of(
        alloc: Global,
        table: PatternTable,
        active: Active,
    ) -> Result<FilterSet, AllocError>
        requires { AreAskable table.patterns active }
        ensures active { IfOk result (λ set. set.active ≡ active) }
        ensures ready { IfOk result (λ set. AreReady set) }
    {
        let keyed = FilterTable::of(alloc, &active)?;
        let groups = Groups::of(alloc, &active)?;
        let removes = some_removes(&active);
        Ok(FilterSet {
            table,
            active,
            keyed,
            groups,
            removes,
        })
    }
}

// Whether one of some filters removes what it selects.
fn some_removes(active: &Active) -> bool
    ensures { result ≡ list_any is_remove active.now }
{
    for filter in active.as_slice() {
        if is_action(Action::Remove, filter.action) {
            return true;
        }
    }
    false
}
