//! Which elements a filter can select at all, found by classes, ids and names.
//!
//! `key_of` gives the key of a chain: what a filter selects carries the key of one of its chains. `Tables` has the elements of a
//! page by the keys that they carry, `FilterTable` filters by the keys of their chains, and `keys_at` goes through the keys of
//! an element. Each look-up is by a key that is lent, and copies no text.
#![tactic(auto)]

ghost use Rattle.generic_tables.specs.Keys.{KeyLaw};
ghost use Rattle.generic_tables.specs.Carried.{CarriedLaw, FoundLaw};

mod carried;
mod filed;
mod filters;
mod key_numbers;
mod keys;
mod numbers;
mod tables;
mod words;

pub use carried::{ElementKeys, KeyRef, keys_at};
pub use filed::Filed;
pub use filters::{FilterTable, FiltersFor};
pub use keys::{Key, key_of};
pub use numbers::NumberSet;
pub use tables::Tables;

/// States the laws of keys: what a selector selects carries the key of one of its chains, and the keys of an element are
/// those that it carries, so that its filters are found by them.
pub fn state()
    ensures keys { KeyLaw }
    ensures carried { CarriedLaw }
    ensures found { FoundLaw }
{}
