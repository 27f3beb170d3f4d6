//! What the tokens and the tree of a page are, as contracts speak of them. This crate has definitions alone, and two laws.
//!
//! `specs/Bytes.antt` has words on bytes, `Tokens.antt` the tokens of a source and the attributes of a tag,
//! `References.antt` the character references in texts and values, `Elements.antt` the tables of elements, `Page.antt`
//! the tree of a page by the places of its tokens, and `Cover.antt` what it is that tokens cover a source.
//! `proofs/Covers.antt` has the law that they do, and `Counts.antt` that a source has no more nodes than bytes.
//! `TokenExample.antt`, `ReferenceExample.antt` and `PageExample.antt`
//! compute each rule on a small page.
#![tactic(auto)]
