// Nodes and trees as texts, to compare them with.

use dom_arena::{Dom, NodeKind, NodeRef};
use std::alloc::Global;
use std::fmt::Write;
use std::test::Fail;

// A node without its place: `<` and the name of an element with its attributes, `'` and a text, or `!` and a comment.
pub fn told(alloc: Global, node: &NodeRef) -> Result<String, Fail> {
    let mut text = String::new(alloc);
    match node.kind() {
        NodeKind::Element => write!(text, "<{}", node.name())?,
        NodeKind::Comment => write!(text, "!{}", node.text())?,
        _ => write!(text, "'{}", node.text())?,
    }
    for (name, value) in node.attrs() {
        write!(text, " {}={}", name.as_str(), value.as_str())?;
    }
    Ok(text)
}

// The nodes of a tree in order, each with the number of its parent.
pub fn listing(alloc: Global, dom: &Dom) -> Result<String, Fail> {
    let mut text = String::new(alloc);
    for before in 0..dom.count() {
        let n = before + 1;
        let node = dom.node(n).ok_or("no node")?;
        let parent = dom.parent(n).ok_or("no parent")?;
        let line = told(alloc, &node)?;
        write!(text, "{parent} {line}|")?;
    }
    Ok(text)
}
