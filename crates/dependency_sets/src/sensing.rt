ghost use Rattle.std.specs.Prelude.{◌≡◌, ◌≤◌, [], ◌++◌, map, take, drop, length, IfOk};
ghost use Rattle.std.specs.List.{flat_map};
ghost use Rattle.sensor_meaning.specs.Sensors.{one, members, leads, gives, front, rest, of_selector, sensors, sensors_of_step, sensors_of_test};
ghost use Rattle.sensor_meaning.specs.declared.sensor.Observes.TheVariants.{Attr};
ghost use Rattle.dependency_sets.specs.Steps.{goes_up, above_and_children};

use crate::found::{copied, joined, via, with_here, with_one};
use listed::Text;
use selector_tree::{Chain, Filter, Place, Selector, Step, Test};
use sensor_meaning::{Observes, Sensor, Way};
use std::alloc::{AllocError, Global};

/// The sensors of a filter, by the rules of its steps and tests, in their order and with repeats.
pub fn sensors_of(alloc: Global, filter: &Filter) -> Result<Vec<Sensor>, AllocError>
    ensures { IfOk result (λ all. all.items ≡ sensors filter.now.selector) }
{
    of_selector(alloc, &filter.selector)
}

// Of being selected by a selector.
#[cycle(sensing)]
fn of_selector(alloc: Global, selector: &Selector) -> Result<Vec<Sensor>, AllocError>
    ensures { IfOk result (λ all. all.items ≡ of_selector (map (map sensors_of_step) selector.now)) }
{
    let mut all = Vec::new(alloc);
    for chain in selector.as_slice() {
        let more = of_members(alloc, chain.as_slice())?;
        all = joined(all, more)?;
    }
    Ok(all)
}

// Of membership.
#[cycle(sensing)]
fn of_members(alloc: Global, steps: &[Step]) -> Result<Vec<Sensor>, AllocError>
    ensures { IfOk result (λ all. all.items ≡ members (map sensors_of_step steps.now)) }
{
    let mut all = Vec::new(alloc);
    for step in steps {
        all = of_member(alloc, step, all)?;
    }
    Ok(all)
}

// Of leading on.
#[cycle(sensing)]
fn of_leads(alloc: Global, steps: &[Step]) -> Result<Vec<Sensor>, AllocError>
    ensures { IfOk result (λ all. all.items ≡ leads (map sensors_of_step steps.now)) }
{
    let mut all = Vec::new(alloc);
    let mut i = steps.len();
    'back: while i > 0 {
        i -= 1;
        all = of_lead(alloc, &steps[i], all)?;
    }
    Ok(all)
}

// Of a chain's giving something.
#[cycle(sensing)]
fn of_gives(alloc: Global, chain: &Chain) -> Result<Vec<Sensor>, AllocError>
    ensures { IfOk result (λ all. all.items ≡ gives (map sensors_of_step chain.now)) }
{
    let steps = chain.as_slice();
    let k = first_up(steps);
    let before = of_members(alloc, &steps[..k])?;
    let behind = of_leads(alloc, &steps[k..])?;
    joined(before, behind)
}

// How many steps stand before the first that goes up.
fn first_up(steps: &[Step]) -> usize
    ensures within { result ≤ length steps.now }
    ensures front { front (map sensors_of_step steps.now) ≡ map sensors_of_step (take result steps.now) }
    ensures rest { rest (map sensors_of_step steps.now) ≡ map sensors_of_step (drop result steps.now) }
{
    for (k, step) in steps.iter().enumerate() {
        if is_upward(step) {
            return k;
        }
    }
    steps.len()
}

fn is_upward(step: &Step) -> bool
    ensures { result ≡ goes_up step.now }
{
    match step {
        Step::Upward(_) | Step::UpwardTo(_) => true,
        Step::Keep(_) | Step::Move(_) | Step::Others => false,
    }
}

// Of membership behind a step, from those before it.
#[cycle(sensing)]
fn of_member(alloc: Global, step: &Step, before: Vec<Sensor>) -> Result<Vec<Sensor>, AllocError>
    ensures { IfOk result (λ all. all.items ≡ (sensors_of_step step.now).member before.items) }
{
    match step {
        Step::Keep(test) => {
            let more = of_test(alloc, test)?;
            joined(before, more)
        }
        Step::Move(Place::Child) => via(alloc, before, Way::ToChild),
        Step::Move(Place::Descendant) => via(alloc, before, Way::ToBelow),
        Step::Move(Place::Next) => {
            let all = via(alloc, before, Way::ToNext)?;
            with_one(alloc, all, Observes::Children, Way::ToChild)
        }
        Step::Move(Place::After) => {
            let all = via(alloc, before, Way::ToAfter)?;
            with_one(alloc, all, Observes::Children, Way::ToChild)
        }
        Step::Upward(_) => upward(alloc, before),
        Step::UpwardTo(selector) => {
            let all = upward(alloc, before)?;
            let more = of_selector(alloc, selector.get())?;
            let copy = copied(alloc, &more)?;
            let all = joined(all, more)?;
            let above = via(alloc, copy, Way::ToAbove)?;
            joined(all, above)
        }
        Step::Others => {
            let all = via(alloc, before, Way::Whole)?;
            with_one(alloc, all, Observes::Children, Way::Whole)
        }
    }
}

// Of membership behind a step that goes up.
fn upward(alloc: Global, before: Vec<Sensor>) -> Result<Vec<Sensor>, AllocError>
    ensures { IfOk result (λ all. all.items ≡ above_and_children before.items) }
{
    let all = via(alloc, before, Way::ToAbove)?;
    let all = with_here(alloc, all, Observes::Children)?;
    with_one(alloc, all, Observes::Children, Way::ToAbove)
}

// Of leading on from before a step, from those behind it.
#[cycle(sensing)]
fn of_lead(alloc: Global, step: &Step, behind: Vec<Sensor>) -> Result<Vec<Sensor>, AllocError>
    ensures { IfOk result (λ all. all.items ≡ (sensors_of_step step.now).leads behind.items) }
{
    match step {
        Step::Keep(test) => {
            let more = of_test(alloc, test)?;
            joined(behind, more)
        }
        Step::Move(Place::Child) => {
            let all = via(alloc, behind, Way::ToParent)?;
            with_here(alloc, all, Observes::Children)
        }
        Step::Move(Place::Descendant) => upward(alloc, behind),
        Step::Move(Place::Next) => {
            let all = via(alloc, behind, Way::ToPrevious)?;
            with_one(alloc, all, Observes::Children, Way::ToChild)
        }
        Step::Move(Place::After) => {
            let all = via(alloc, behind, Way::ToBefore)?;
            with_one(alloc, all, Observes::Children, Way::ToChild)
        }
        Step::Upward(_) => via(alloc, behind, Way::ToBelow),
        Step::UpwardTo(selector) => {
            let all = via(alloc, behind, Way::ToBelow)?;
            let more = of_selector(alloc, selector.get())?;
            let below = via(alloc, more, Way::ToBelow)?;
            joined(all, below)
        }
        Step::Others => Ok(Vec::new(alloc)),
    }
}

// Of a test.
#[cycle(sensing)]
fn of_test(alloc: Global, test: &Test) -> Result<Vec<Sensor>, AllocError>
    ensures { IfOk result (λ all. all.items ≡ sensors_of_test test.now) }
{
    match test {
        Test::Any | Test::Tag(_) | Test::Root | Test::WatchAttr(_) => Ok(Vec::new(alloc)),
        Test::Id(_) => of_attr(alloc, "id"),
        Test::Class(_) => of_attr(alloc, "class"),
        Test::Attr { name, .. } => of_attr(alloc, name.as_str()),
        Test::MatchesAttr { .. } => with_here(alloc, Vec::new(alloc), Observes::AnyAttr),
        Test::Empty => with_here(alloc, Vec::new(alloc), Observes::Text),
        Test::Nth { .. } | Test::Only { .. } => {
            with_one(alloc, Vec::new(alloc), Observes::Children, Way::ToChild)
        }
        Test::HasText(_) | Test::MinText(_) => {
            let here = with_here(alloc, Vec::new(alloc), Observes::Text)?;
            with_one(alloc, here, Observes::Text, Way::ToAbove)
        }
        Test::MatchesPath(_) => with_one(alloc, Vec::new(alloc), Observes::Path, Way::ToBelow),
        Test::Is(selector) | Test::Not(selector) => of_some_gives(alloc, selector.get()),
        Test::Has(selector) => of_some_leads(alloc, selector.get()),
    }
}

// Of an attribute.
fn of_attr(alloc: Global, name: &str) -> Result<Vec<Sensor>, AllocError>
    ensures { IfOk result (λ all. all.items ≡ one (Attr name.now) []) }
{
    let name = Text::of(alloc, name)?;
    with_here(alloc, Vec::new(alloc), Observes::Attr(name))
}

// Of some chain's giving something.
#[cycle(sensing)]
fn of_some_gives(alloc: Global, selector: &Selector) -> Result<Vec<Sensor>, AllocError>
    ensures { IfOk result (λ all. all.items ≡ flat_map gives (map (map sensors_of_step) selector.now)) }
{
    let mut all = Vec::new(alloc);
    for chain in selector.as_slice() {
        let more = of_gives(alloc, chain)?;
        all = joined(all, more)?;
    }
    Ok(all)
}

// Of some chain's leading on.
#[cycle(sensing)]
fn of_some_leads(alloc: Global, selector: &Selector) -> Result<Vec<Sensor>, AllocError>
    ensures { IfOk result (λ all. all.items ≡ flat_map leads (map (map sensors_of_step) selector.now)) }
{
    let mut all = Vec::new(alloc);
    for chain in selector.as_slice() {
        let more = of_leads(alloc, chain.as_slice())?;
        all = joined(all, more)?;
    }
    Ok(all)
}
