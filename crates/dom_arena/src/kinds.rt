ghost use Rattle.std.specs.Prelude.{◌≡◌, MatchOption, None, Some, slice_get};
ghost use Rattle.page_tree.specs.Forest.{name_of, bytes_of, attrs_of, value_at};
ghost use Rattle.dom_arena.specs.Contents.{content_of, kind_of};

use crate::attrs::{pair_at, value_in};
use listed::{Listed, Text};
use std::marker::Model;

/// The attributes of an element in order, names beside values. Names are in lower case and distinct.
pub type Attrs = Listed<(Text, Text)>;

/// What a node is.
#[derive(Clone, Copy, Debug, PartialEq, Eq)]
pub enum NodeKind {
    Document,
    Element,
    Text,
    Comment,
}

/// A node to be added. The name of an element is in lower case.
#[derive(Debug, Drop)]
pub enum NewNode {
    Element { name: Text, attrs: Attrs },
    Text(Text),
    Comment(Text),
}

/// Nodes that will stand together below a node of a tree: each with its depth below that place, in document order.
pub type Fragment = Listed<(u32, NewNode)>;

/// What a slot holds; `Free` where there is no node.
#[derive(Debug, Drop)]
pub(crate) enum Payload {
    Free,
    Document,
    Element { name: Text, attrs: Attrs },
    Text(Text),
    Comment(Text),
}

/// A node, lent by its tree. Contracts see its content.
#[derive(Drop)]
pub struct NodeRef<'a> {
    payload: &'a Payload,
}

impl<'a> Model for NodeRef<'a> {
    ghost use Rattle.page_tree.specs.Forest.{Content};
    ghost use Rattle.page_tree.specs.ForestCode.{content_code};

    ghost Value = { Content };

    ghost coded = { content_code };

    ghost use Rattle.dom_arena.specs.Contents.{content_of};

    ghost view = { λ node. content_of node.payload.now };
}

impl<'a> NodeRef<'a> {
    pub(crate) fn of(payload: &'a Payload) -> NodeRef<'a>
        ensures { result ≡ content_of payload.now }
    {
        NodeRef { payload }
    }

    /// What the node is.
    pub fn kind(&self) -> NodeKind
        ensures { result ≡ kind_of self.now }
    {
        match self.payload {
            Payload::Element { .. } => NodeKind::Element,
            Payload::Text(_) => NodeKind::Text,
            Payload::Comment(_) => NodeKind::Comment,
            Payload::Free | Payload::Document => NodeKind::Document,
        }
    }

    /// The name of an element, else empty.
    pub fn name(&self) -> &'a str
        ensures { result.now ≡ name_of self.now }
    {
        match self.payload {
            Payload::Element { name, .. } => name.as_str(),
            _ => "",
        }
    }

    /// The text of a text or comment, else empty.
    pub fn text(&self) -> &'a str
        ensures { result.now ≡ bytes_of self.now }
    {
        match self.payload {
            Payload::Text(text) => text.as_str(),
            Payload::Comment(text) => text.as_str(),
            _ => "",
        }
    }

    /// The value of an element's attribute; `None` where it has none of this name.
    pub fn attr(&self, name: &str) -> Option<&'a str>
        ensures { MatchOption result (value_at name.now (attrs_of self.now) ≡ None)
            (λ value. value_at name.now (attrs_of self.now) ≡ Some value.now) }
    {
        match self.payload {
            Payload::Element { attrs, .. } => value_in(attrs.as_slice(), name),
            _ => None,
        }
    }

    /// The name and the value of an element's attribute at a place, counted from 0; `None` past the last.
    pub fn attr_at(&self, i: usize) -> Option<(&'a str, &'a str)>
        ensures { MatchOption result (slice_get (attrs_of self.now) i ≡ None)
            (λ attr. slice_get (attrs_of self.now) i ≡ Some (attr.0.now, attr.1.now)) }
    {
        match self.payload {
            Payload::Element { attrs, .. } => pair_at(attrs.as_slice(), i),
            _ => None,
        }
    }

    /// The attributes of an element in order, each a name with a value; else none.
    pub fn attrs(&self) -> &'a [(Text, Text)]
        ensures { result.now ≡ attrs_of self.now }
    {
        match self.payload {
            Payload::Element { attrs, .. } => attrs.as_slice(),
            _ => &[],
        }
    }
}
