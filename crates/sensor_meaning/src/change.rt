use listed::{Numbers, Text};

/// A change of a page, by the numbers of nodes that it names.
#[derive(Debug, Drop)]
pub enum Change {
    /// An attribute of an element was set or dropped.
    Attr {
        /// The element.
        node: u32,
        /// The attribute's name.
        name: Text,
    },
    /// A Text node has another text.
    Chars {
        /// The Text node.
        node: u32,
    },
    /// Children of a parent came, with all below them.
    Came {
        /// The parent.
        parent: u32,
        /// The children that came.
        tops: Numbers,
    },
    /// A child of a parent went, with all below it.
    Went {
        /// The parent.
        parent: u32,
    },
    /// A node, with all below it, has another place.
    Moved {
        /// The node.
        node: u32,
        /// Its parent before.
        old_parent: u32,
        /// Its parent now.
        new_parent: u32,
    },
    /// The path of the page's address is another one.
    Path,
}
