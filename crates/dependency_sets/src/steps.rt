//! Where a route leads, one direction after another.
ghost use Rattle.std.specs.Prelude.{◌≡◌, ℕ, IfOk};
ghost use Rattle.page_tree.specs.Directions.{is_in};
ghost use Rattle.sensor_meaning.specs.Dirty.{led, spread};
ghost use Rattle.dependency_sets.specs.Reaching.{ArePlaces, HasSame, one_step, all_steps, leads_from};

use crate::near::{Near, add_near, close};
use crate::reached::Reached;
use dom_arena::Dom;
use sensor_meaning::Way;
use std::alloc::{AllocError, Global};

// Where one step leads from some places.
fn near_from(alloc: Global, dom: &Dom, near: Near, from: &[u32]) -> Result<Reached, AllocError>
    requires { ArePlaces dom.now from.now }
    ensures { IfOk result (λ to. (x : ℕ) →
        is_in to x ≡ leads_from dom.now (one_step near) from.now x) }
{
    let mut to = Reached::new(alloc);
    for y in from {
        add_near(dom, near, *y, &mut to)?;
    }
    Ok(to)
}

// Where any number of steps leads from some places.
fn all_from(alloc: Global, dom: &Dom, near: Near, from: &[u32]) -> Result<Reached, AllocError>
    requires { ArePlaces dom.now from.now }
    ensures { IfOk result (λ to. (x : ℕ) →
        is_in to x ≡ leads_from dom.now (all_steps near) from.now x) }
{
    dom.is_tree();
    let mut to = near_from(alloc, dom, near, from)?;
    close(dom, near, &mut to)?;
    Ok(to)
}

// Where a direction leads from some places.
fn led_from(alloc: Global, dom: &Dom, way: Way, from: &[u32]) -> Result<Reached, AllocError>
    requires { ArePlaces dom.now from.now }
    ensures { IfOk result (λ to. HasSame to (led dom.now way from.now)) }
{
    match way {
        Way::ToChild => near_from(alloc, dom, Near::Child, from),
        Way::ToBelow => all_from(alloc, dom, Near::Child, from),
        Way::ToParent => near_from(alloc, dom, Near::Parent, from),
        Way::ToAbove => all_from(alloc, dom, Near::Parent, from),
        Way::ToNext => near_from(alloc, dom, Near::Next, from),
        Way::ToAfter => all_from(alloc, dom, Near::Next, from),
        Way::ToPrevious => near_from(alloc, dom, Near::Previous, from),
        Way::ToBefore => all_from(alloc, dom, Near::Previous, from),
        Way::Whole => match from.is_empty() {
            true => Ok(Reached::new(alloc)),
            false => all_from(alloc, dom, Near::Child, &[0]),
        },
    }
}

// Where the directions of a route lead from some places, one after another.
pub(crate) fn follow(
    alloc: Global,
    dom: &Dom,
    route: &[Way],
    from: Reached,
) -> Result<Reached, AllocError>
    requires { ArePlaces dom.now from }
    ensures same { IfOk result (λ to. HasSame to (spread dom.now route.now from)) }
    ensures places { IfOk result (λ to. ArePlaces dom.now to) }
{
    let mut at = from;
    for way in route {
        at = led_from(alloc, dom, *way, at.as_slice())?;
    }
    Ok(at)
}
