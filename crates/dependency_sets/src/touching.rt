//! The elements that a change can have touched.
ghost use Rattle.std.specs.Prelude.{◌≡◌, ℕ, ◌<◌, ◌==◌, not, ◌&&◌, [], ◌∷◌, IfOk, OnOk};
ghost use Rattle.page_tree.specs.Directions.{is_in};
ghost use Rattle.page_tree.specs.Forest.{count};
ghost use Rattle.page_tree.specs.Standings.{all};
ghost use Rattle.sensor_meaning.specs.Changes.{places_of, parent_of};
ghost use Rattle.sensor_meaning.specs.Dirty.{dirty, brought, is_reached, is_under};
ghost use Rattle.dependency_sets.specs.Named.{IsNamed, is_led};
ghost use Rattle.dependency_sets.specs.Reaching.{ArePlaces, HasSame, IsPlace, Gains};

use crate::near::{Near, close};
use crate::node_set::NodeSet;
use crate::observed::observes;
use crate::reached::Reached;
use crate::steps::follow;
use dom_arena::Dom;
use selector_match::is_element;
use sensor_meaning::{Change, Sensor};
use std::alloc::{AllocError, Global};

/// The elements that a change can have touched: those that the sensors lead to, and those that came or moved. It is asked in
/// the tree after the change.
pub fn dirty(
    alloc: Global,
    dom: &Dom,
    sensors: &[Sensor],
    change: &Change,
) -> Result<NodeSet, AllocError>
    requires { IsNamed change.now dom.now }
    ensures { IfOk result (λ set. HasSame set (dirty change.now dom.now sensors.now)) }
{
    dom.is_tree();
    let mut found = Vec::new(alloc);
    add_spread(alloc, dom, sensors, change, &mut found)?;
    add_brought(alloc, dom, change, &mut found)?;
    Ok(NodeSet::of(found))
}

/// The elements that the sensors which observe a change lead to, from where it took place. Where none observes it, no node
/// is looked at.
pub fn spread(
    alloc: Global,
    dom: &Dom,
    sensors: &[Sensor],
    change: &Change,
) -> Result<NodeSet, AllocError>
    requires { IsNamed change.now dom.now }
    ensures { IfOk result (λ set. (x : ℕ) →
        is_in set x ≡ (is_in (all dom.now) x && is_reached change.now dom.now sensors.now x)) }
{
    let mut found = Vec::new(alloc);
    add_spread(alloc, dom, sensors, change, &mut found)?;
    Ok(NodeSet::of(found))
}

/// The elements that came or moved with a change, whatever observes it.
pub fn brought(alloc: Global, dom: &Dom, change: &Change) -> Result<NodeSet, AllocError>
    ensures { IfOk result (λ set. (x : ℕ) →
        is_in set x ≡ (is_in (all dom.now) x && brought change.now dom.now x)) }
{
    let mut found = Vec::new(alloc);
    add_brought(alloc, dom, change, &mut found)?;
    Ok(NodeSet::of(found))
}

// Adds the elements that the sensors lead to.
fn add_spread(
    alloc: Global,
    dom: &Dom,
    sensors: &[Sensor],
    change: &Change,
    found: &mut Vec<u32>,
) -> Result<(), AllocError>
    requires { IsNamed change.now dom.now }
    ensures { OnOk result (Gains (λ x. is_in (all dom.now) x
        && is_reached change.now dom.now sensors.now x) found.old.items found.new.items) }
{
    dom.is_tree();
    for sensor in sensors {
        add_by(alloc, dom, sensor, change, found)?;
    }
    Ok(())
}

// Adds the elements that one sensor leads to.
fn add_by(
    alloc: Global,
    dom: &Dom,
    sensor: &Sensor,
    change: &Change,
    found: &mut Vec<u32>,
) -> Result<(), AllocError>
    requires { IsNamed change.now dom.now }
    ensures { OnOk result (Gains (λ x. is_in (all dom.now) x && is_led sensor.now change.now dom.now x)
        found.old.items found.new.items) }
{
    dom.is_tree();
    if observes(&sensor.observes, change) {
        let route = sensor.route.as_slice();
        let places = places_of(alloc, dom, change)?;
        let reached = follow(alloc, dom, route, places)?;
        let numbers = reached.as_slice();
        add_elements(numbers, found)
    } else {
        Ok(())
    }
}

// Adds the elements that came or moved.
fn add_brought(
    alloc: Global,
    dom: &Dom,
    change: &Change,
    found: &mut Vec<u32>,
) -> Result<(), AllocError>
    ensures { OnOk result (Gains (λ x. is_in (all dom.now) x && brought change.now dom.now x)
        found.old.items found.new.items) }
{
    match change {
        Change::Came { tops, .. } => add_under(alloc, dom, tops.as_slice(), found),
        Change::Moved { node, .. } => add_under(alloc, dom, &[*node], found),
        Change::Attr { .. } | Change::Chars { .. } | Change::Went { .. } | Change::Path => Ok(()),
    }
}

// Adds those of some nodes that are elements, and all elements below these.
fn add_under(alloc: Global, dom: &Dom, tops: &[u32], found: &mut Vec<u32>) -> Result<(), AllocError>
    ensures { OnOk result (Gains (λ x. is_in (all dom.now) x && is_under tops.now dom.now x)
        found.old.items found.new.items) }
{
    dom.is_tree();
    let mut reached = elements_of(alloc, dom, tops)?;
    close(dom, Near::Child, &mut reached)?;
    add_elements(reached.as_slice(), found)
}

// Those of some nodes that are elements.
fn elements_of(alloc: Global, dom: &Dom, nodes: &[u32]) -> Result<Reached, AllocError>
    ensures { IfOk result (λ elements. (x : ℕ) →
        is_in elements x ≡ (is_in (all dom.now) x && is_in nodes.now x)) }
{
    let mut elements = Reached::new(alloc);
    for n in nodes {
        if is_element(dom, *n) {
            elements.add(*n)?;
        }
    }
    Ok(elements)
}

// Adds the numbers of places, without the document's.
fn add_elements(places: &[u32], found: &mut Vec<u32>) -> Result<(), AllocError>
    ensures { OnOk result (Gains (λ x. not (x == 0) && is_in places.now x)
        found.old.items found.new.items) }
{
    for n in places {
        if *n != 0 {
            found.push(*n)?;
        }
    }
    Ok(())
}

// Where a change takes place.
fn places_of(alloc: Global, dom: &Dom, change: &Change) -> Result<Reached, AllocError>
    requires { IsNamed change.now dom.now }
    ensures same { IfOk result (λ places. HasSame places (places_of change.now dom.now)) }
    ensures places { IfOk result (λ places. ArePlaces dom.now places) }
{
    dom.is_tree();
    match change {
        Change::Attr { node, .. } => one_place(alloc, dom, *node),
        Change::Chars { node } => one_place(alloc, dom, parent_of(dom, *node)),
        Change::Came { parent, .. } => one_place(alloc, dom, *parent),
        Change::Went { parent } => one_place(alloc, dom, *parent),
        Change::Moved {
            old_parent,
            new_parent,
            ..
        } => { two_places(alloc, dom, *old_parent, *new_parent) }
        Change::Path => one_place(alloc, dom, 0),
    }
}

fn one_place(alloc: Global, dom: &Dom, n: u32) -> Result<Reached, AllocError>
    requires { IsPlace dom.now n }
    ensures same { IfOk result (λ places. HasSame places (n ∷ [])) }
    ensures places { IfOk result (λ places. ArePlaces dom.now places) }
{
    let mut places = Reached::new(alloc);
    places.add(n)?;
    Ok(places)
}

fn two_places(alloc: Global, dom: &Dom, n: u32, m: u32) -> Result<Reached, AllocError>
    requires first { IsPlace dom.now n }
    requires second { IsPlace dom.now m }
    ensures same { IfOk result (λ places. HasSame places (n ∷ m ∷ [])) }
    ensures places { IfOk result (λ places. ArePlaces dom.now places) }
{
    let mut places = Reached::new(alloc);
    places.add(n)?;
    places.add(m)?;
    Ok(places)
}

// The parent of a node, 0 for the document.
fn parent_of(dom: &Dom, n: u32) -> u32
    requires { 0 < count n dom.now.nodes }
    ensures parent { result ≡ parent_of dom.now n }
    ensures place { IsPlace dom.now result }
{
    dom.is_tree();
    dom.parent(n).unwrap_or(0)
}
