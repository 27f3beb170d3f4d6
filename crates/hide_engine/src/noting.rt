// Notes of what a change made dirty.
ghost use Rattle.std.specs.Prelude.{◌≡◌, ◌==◌, ◌&&◌, ◌||◌, ◌<◌, ◌^◌, [], ◌∷◌, ℕ, length, IfOk, OnOk};
ghost use Rattle.dependency_sets.specs.Named.{IsNamed};
ghost use Rattle.page_tree.specs.Directions.{is_in};
ghost use Rattle.page_tree.specs.Standings.{all};
ghost use Rattle.retest.specs.Noted.{is_pending};
ghost use Rattle.sensor_meaning.specs.Dirty.{is_reached, is_under};
ghost use Rattle.hide_engine.specs.Groups.{Notes};

use dependency_sets::{NodeSet, Sensors, brought, spread};
use dom_arena::Dom;
use retest::{Pending, note_each, note_for_all};
use sensor_meaning::Change;
use std::alloc::{AllocError, Global};

/// Notes what a change made dirty, in the page just after it: what came or moved for every group, and for each group what its
/// sensors lead to. A group that doesn't observe the change costs one look at its sensors.
pub(crate) fn note(
    alloc: Global,
    dom: &Dom,
    sets: &[Sensors],
    change: &Change,
    pending: &mut Pending,
) -> Result<(), AllocError>
    requires named { IsNamed change.now dom.now }
    requires few { length sets.now < 2 ^ 32 }
    ensures { OnOk result (Notes change.now dom.now sets.now pending.old pending.new) }
{
    let came = brought(alloc, dom, change)?;
    note_for_all(pending, came.as_slice())?;
    for group in 0..sets.len() as u32 {
        note_group(alloc, dom, &sets[group as usize], group, change, pending)?;
    }
    Ok(())
}

// Notes what the sensors of a group lead to.
fn note_group(
    alloc: Global,
    dom: &Dom,
    set: &Sensors,
    group: u32,
    change: &Change,
    pending: &mut Pending,
) -> Result<(), AllocError>
    requires { IsNamed change.now dom.now }
    ensures { OnOk result ((g x : ℕ) → is_pending pending.new g x ≡ (is_pending pending.old g x
        || (g == group && (is_in (all dom.now) x && is_reached change.now dom.now set.now x)))) }
{
    if !set.is_observed(change) {
        return Ok(());
    }
    let reached = spread(alloc, dom, set.as_slice(), change)?;
    note_each(pending, group, reached.as_slice())
}

/// A node, where it is an element, and the elements below it: what goes with it.
pub(crate) fn with_node(alloc: Global, dom: &Dom, n: u32) -> Result<NodeSet, AllocError>
    ensures { IfOk result (λ set. (x : ℕ) → is_in set x ≡ (is_in (all dom.now) x && is_under (n ∷ []) dom.now x)) }
{
    // What goes with a node is what would be brought, were it moved.
    let change = Change::Moved {
        node: n,
        old_parent: 0,
        new_parent: 0,
    };
    brought(alloc, dom, &change)
}
