// Filters by the sets of their sensors.
ghost use Rattle.std.specs.Prelude.{◌≡◌, ◌≤◌, ◌<◌, ◌+◌, ◌^◌, length, IfOk, OnOk};
ghost use Rattle.sensor_meaning.specs.Sensors.{sensors};
ghost use Rattle.hide_engine.specs.Groups.{AreGrouped, AreNumbered, HasSet, Begins};

use dependency_sets::Sensors;
use listed::Numbers;
use selector_tree::{Active, Filter};
use std::alloc::{AllocError, Global};
use std::collections::BTreeMap;

/// The sets of sensors of some filters, each once, and for each filter the place of its set. Filters with the same sensors
/// are one group, so that what a change makes dirty is looked for once for all of them.
#[derive(Drop)]
pub(crate) struct Groups {
    pub(crate) sets: Vec<Sensors>,
    pub(crate) numbers: Numbers,
}

impl Groups {
    /// The groups of some filters.
    pub(crate) fn of(alloc: Global, active: &Active) -> Result<Groups, AllocError>
        requires { length active.now < 2 ^ 32 }
        ensures { IfOk result (λ groups. AreGrouped active.now groups.sets.items groups.numbers) }
    {
        let mut places = BTreeMap::new(alloc);
        let mut sets = Vec::new(alloc);
        let mut numbers = Numbers::new(alloc);
        for place in 0..active.len() as u32 {
            let filter = &active.as_slice()[place as usize];
            let group = group_of(alloc, filter, &mut places, &mut sets)?;
            numbers.push(group)?;
        }
        Ok(Groups { sets, numbers })
    }
}

// The group of a filter: a new one where no filter before it has these sensors.
fn group_of(
    alloc: Global,
    filter: &Filter,
    places: &mut BTreeMap<Sensors, u32>,
    sets: &mut Vec<Sensors>,
) -> Result<u32, AllocError>
    requires numbered { AreNumbered places.old sets.old.items }
    requires few { length sets.old.items < 2 ^ 32 }
    ensures numbered { OnOk result (AreNumbered places.new sets.new.items) }
    ensures group { IfOk result (λ group. HasSet sets.new.items group (sensors filter.now.selector)) }
    ensures begins { OnOk result (Begins sets.old.items sets.new.items) }
    ensures few { OnOk result (length sets.new.items ≤ length sets.old.items + 1) }
{
    let set = Sensors::of(alloc, filter)?;
    if let Some(group) = places.get(&set) {
        return Ok(*group);
    }
    let group = sets.len() as u32;
    places.insert(set, group)?;
    sets.push(Sensors::of(alloc, filter)?)?;
    Ok(group)
}
