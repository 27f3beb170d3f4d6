// The arena of nodes on small pages.

use crate::shown::told;
use dom_arena::{Attrs, Dom, DomError, Fragment, NewNode};
use html_tree::{read_fragment, read_page};
use listed::Text;
use std::alloc::Global;
use std::fmt::Write;
use std::test::Fail;

// 1 p, 2 t, 3 c, 4 x
const PAGE: &str = "<p id=top>t<!--c--></p>x";

// The nodes of a tree in order, each with its number and its parent's.
fn order(alloc: Global, dom: &Dom) -> Result<String, Fail> {
    let mut text = String::new(alloc);
    let mut at = 0;
    for _ in 0..dom.count() {
        at = dom.next_in_order(at).ok_or("too few nodes")?;
        let parent = dom.parent(at).ok_or("no parent")?;
        write!(text, "{parent}>{at} ")?;
    }
    Ok(text)
}

// What the node of this number is.
fn node(alloc: Global, dom: &Dom, n: u32) -> Result<String, Fail> {
    let node = dom.node(n).ok_or("no node")?;
    told(alloc, &node)
}

#[test]
fn walks_follow_the_tree(rt: HostRuntime) -> Result<(), Fail> {
    let dom = read_page(rt.alloc(), PAGE)?;
    for (n, depth, parent, child, previous, next, beyond) in [
        (0, Some(0), None, Some(1), None, None, None),
        (1, Some(1), Some(0), Some(2), None, Some(4), Some(4)),
        (2, Some(2), Some(1), None, None, Some(3), Some(3)),
        (3, Some(2), Some(1), None, Some(2), None, Some(4)),
        (4, Some(1), Some(0), None, Some(1), None, None),
        (5, None, None, None, None, None, None),
    ] {
        assert_eq!(rt; dom.depth(n), depth, "at {n}");
        assert_eq!(rt; dom.parent(n), parent, "at {n}");
        assert_eq!(rt; dom.first_child(n), child, "at {n}");
        assert_eq!(rt; dom.previous(n), previous, "at {n}");
        assert_eq!(rt; dom.next(n), next, "at {n}");
        assert_eq!(rt; dom.next_beyond(n), beyond, "at {n}");
    }
    Ok(())
}

#[test]
fn bad_places_are_refused(rt: HostRuntime) -> Result<(), Fail> {
    let dom = read_page(rt.alloc(), PAGE)?;
    for (parent, place, answer) in [
        (0, 2, Ok(())),
        (1, 0, Ok(())),
        (9, 0, Err(DomError::NoSuchNode(9))),
        (3, 0, Err(DomError::NotElement(3))),
        (1, 3, Err(DomError::BadPlace(3))),
    ] {
        assert_eq!(rt; dom.check_place(parent, place), answer, "at {parent}");
    }
    Ok(())
}

#[test]
fn attributes_change(rt: HostRuntime) -> Result<(), Fail> {
    let alloc = rt.alloc();
    let mut dom = read_page(alloc, "<p id=top a=b>")?;
    dom.set_attr(1, "Class", "big")?;
    dom.set_attr(1, "ID", "x")?;
    dom.drop_attr(1, "A")?;
    let told = node(alloc, &dom, 1)?;
    assert_eq!(rt; told.as_str(), "<p id=x class=big");
    Ok(())
}

#[test]
fn an_attribute_is_found(rt: HostRuntime) -> Result<(), Fail> {
    let dom = read_page(rt.alloc(), PAGE)?;
    let node = dom.node(1).ok_or("no node")?;
    assert_eq!(rt; node.attr("id"), Some("top"));
    assert_eq!(rt; node.attr_at(0), Some(("id", "top")));
    assert_eq!(rt; node.attr_at(1), None);
    Ok(())
}

#[test]
fn a_text_changes(rt: HostRuntime) -> Result<(), Fail> {
    let alloc = rt.alloc();
    let mut dom = read_page(alloc, PAGE)?;
    dom.set_text(2, "new")?;
    let told = node(alloc, &dom, 2)?;
    assert_eq!(rt; told.as_str(), "'new");
    Ok(())
}

#[test]
fn a_node_moves(rt: HostRuntime) -> Result<(), Fail> {
    let alloc = rt.alloc();
    let mut dom = read_page(alloc, PAGE)?;
    dom.relink(4, 1, 1)?;
    let found = order(alloc, &dom)?;
    assert_eq!(rt; found.as_str(), "0>1 1>2 1>4 1>3 ");
    Ok(())
}

#[test]
fn a_node_goes_with_what_is_below(rt: HostRuntime) -> Result<(), Fail> {
    let alloc = rt.alloc();
    let mut dom = read_page(alloc, PAGE)?;
    dom.detach(1)?;
    let found = order(alloc, &dom)?;
    assert_eq!(rt; found.as_str(), "0>4 ");
    Ok(())
}

#[test]
fn what_cannot_change_stays(rt: HostRuntime) -> Result<(), Fail> {
    let mut dom = read_page(rt.alloc(), PAGE)?;
    assert_eq!(rt; dom.set_attr(2, "a", ""), Err(DomError::NotElement(2)));
    assert_eq!(rt; dom.drop_attr(0, "id"), Err(DomError::IsDocument));
    assert_eq!(rt; dom.set_text(3, "x"), Err(DomError::NotText(3)));
    assert_eq!(rt; dom.relink(1, 1, 0), Err(DomError::IntoItself(1)));
    assert_eq!(rt; dom.detach(5), Err(DomError::NoSuchNode(5)));
    Ok(())
}

#[test]
fn a_number_is_not_given_again(rt: HostRuntime) -> Result<(), Fail> {
    let alloc = rt.alloc();
    let mut dom = Dom::new(alloc)?;
    dom.add(0, 0, NewNode::Text(Text::new(alloc)))?;
    dom.detach(1)?;
    let name = Text::of(alloc, "p")?;
    let attrs = Attrs::new(alloc);
    let n = dom.add(0, 0, NewNode::Element { name, attrs })?;
    assert_eq!(rt; n, 2);
    Ok(())
}

#[test]
fn a_fragment_is_grafted(rt: HostRuntime) -> Result<(), Fail> {
    let alloc = rt.alloc();
    let mut dom = Dom::new(alloc)?;
    dom.append(0, 0, NewNode::Comment(Text::new(alloc)))?;
    let part = read_fragment(alloc, "<b>x</b>y", 0, 1)?;
    assert!(rt; part.len() == 3);
    let first = dom.graft(0, 0, part)?;
    assert_eq!(rt; first, 2);
    let found = order(alloc, &dom)?;
    assert_eq!(rt; found.as_str(), "0>2 2>3 0>4 0>1 ");
    Ok(())
}

#[test]
fn an_empty_fragment_takes_no_number(rt: HostRuntime) -> Result<(), Fail> {
    let alloc = rt.alloc();
    let mut dom = Dom::new(alloc)?;
    let next = dom.graft(0, 0, Fragment::new(alloc))?;
    assert_eq!(rt; next, 1);
    Ok(())
}
