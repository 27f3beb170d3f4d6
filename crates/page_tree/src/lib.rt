//! The tree of a page, as contracts speak of it, its laws, and the limits of a tree.
//!
//! `specs/Forest.antt` has the nodes and how they are found, `Edits.antt` how a tree changes, `Refusals.antt` when a change
//! is refused, `Standings.antt` what stands around an element, `Directions.antt` the ways from one element to others,
//! `Facts.antt` what a page says of an element, and `Trees.antt` what every tree keeps. `Fragments.antt` has nodes that will
//! stand in a tree, by their depths, and the limits that they may pass. `Example.antt`, `EditExample.antt`,
//! `RefusalExample.antt` and `FragmentExample.antt` compute each of them on small pages.
//!
//! `proofs/` has what follows for every tree: the walks by first child, sibling and parent, and what each change does to
//! counts, sizes, heights and what a tree keeps.
#![tactic(auto)]

/// How many nodes a tree has at most, the document aside.
pub const NODE_LIMIT: u32 = 1_000_000;

/// How deep a node stands at most; the document has depth 0.
pub const DEPTH_LIMIT: u32 = 512;
