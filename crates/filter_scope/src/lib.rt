//! Scopes of filters: the hosts that the text before a filter's separator names.
//!
//! `specs/Scopes.antt` says what the items of such a text are, and where a scope applies.
#![tactic(auto)]

mod item;
mod scope;

pub use scope::{Item, Scope, ScopeRead, Target};
