//! One step from an element or the document: to its children, its parent, or a sibling.
ghost use Rattle.std.specs.Prelude.{◌≡◌, OnOk};
ghost use Rattle.dependency_sets.specs.Reaching.{IsPlace, Adds, Closes, ArePlaces, leads_to, one_step};
ghost use Rattle.page_tree.specs.Directions.{to_child, to_parent, to_next, to_previous};

use crate::reached::Reached;
use dom_arena::Dom;
use selector_match::{is_element, next, parent, previous};
use std::alloc::AllocError;

// One step: to the children, the parent, the next or the previous sibling.
#[derive(Clone, Copy)]
pub(crate) enum Near {
    Child,
    Parent,
    Next,
    Previous,
}

// Adds where a step leads from a place.
pub(crate) fn add_near(dom: &Dom, near: Near, y: u32, found: &mut Reached) -> Result<(), AllocError>
    requires { IsPlace dom.now y }
    ensures { OnOk result (Adds (leads_to dom.now (one_step near) y) found.old found.new) }
{
    match near {
        Near::Child => add_children(dom, y, found),
        Near::Parent => add_parent(dom, y, found),
        Near::Next => add_next(dom, y, found),
        Near::Previous => add_previous(dom, y, found),
    }
}

// Adds the children that are elements.
fn add_children(dom: &Dom, y: u32, found: &mut Reached) -> Result<(), AllocError>
    requires { IsPlace dom.now y }
    ensures { OnOk result (Adds (leads_to dom.now to_child y) found.old found.new) }
{
    dom.is_tree();
    let mut at = dom.first_child(y);
    'nodes: while let Some(n) = at {
        if is_element(dom, n) {
            found.add(n)?;
        }
        at = dom.next(n);
    }
    Ok(())
}

// Adds the parent, an element or the document.
fn add_parent(dom: &Dom, y: u32, found: &mut Reached) -> Result<(), AllocError>
    requires { IsPlace dom.now y }
    ensures { OnOk result (Adds (leads_to dom.now to_parent y) found.old found.new) }
{
    dom.is_tree();
    if y == 0 {
        return Ok(());
    }
    match parent(dom, y) {
        Some(x) => found.add(x),
        None => found.add(0),
    }
}

// Adds the next sibling that is an element.
fn add_next(dom: &Dom, y: u32, found: &mut Reached) -> Result<(), AllocError>
    requires { IsPlace dom.now y }
    ensures { OnOk result (Adds (leads_to dom.now to_next y) found.old found.new) }
{
    dom.is_tree();
    if y == 0 {
        return Ok(());
    }
    match next(dom, y) {
        Some(x) => found.add(x),
        None => Ok(()),
    }
}

// Adds the previous sibling that is an element.
fn add_previous(dom: &Dom, y: u32, found: &mut Reached) -> Result<(), AllocError>
    requires { IsPlace dom.now y }
    ensures { OnOk result (Adds (leads_to dom.now to_previous y) found.old found.new) }
{
    dom.is_tree();
    if y == 0 {
        return Ok(());
    }
    match previous(dom, y) {
        Some(x) => found.add(x),
        None => Ok(()),
    }
}

// Adds all that steps lead to from the numbers that were found, however many. Each number is looked at once.
pub(crate) fn close(dom: &Dom, near: Near, found: &mut Reached) -> Result<(), AllocError>
    requires { ArePlaces dom.now found.old }
    ensures { OnOk result (Closes dom.now near found.old found.new) }
{
    dom.is_tree();
    let mut k: usize = 0;
    'each: while let Some(y) = found.at(k) {
        add_near(dom, near, y, found)?;
        k += 1;
    }
    Ok(())
}
