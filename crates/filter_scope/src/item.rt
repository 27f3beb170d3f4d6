// An item of a scope, read.
ghost use Rattle.std.specs.Prelude.{◌≡◌, IfOk, option_map};
ghost use Rattle.filter_scope.specs.Scopes.{item, item_of, target_of};

use crate::scope::{Item, Target};
use host_names::Host;
use std::alloc::{AllocError, Global};

// The item that a trimmed text spells, if it spells one.
pub(crate) fn read_item(alloc: Global, text: &str) -> Result<Option<Item>, AllocError>
    ensures { IfOk result (λ read. read ≡ item_of text.now) }
{
    if text == "*" {
        return Ok(Some(Item {
            negated: false,
            target: Target::All,
        }));
    }
    match text.strip_prefix('~') {
        Some(name) => read_named(alloc, true, name),
        None => read_named(alloc, false, text),
    }
}

// The item of a text behind its sign.
fn read_named(alloc: Global, negated: bool, text: &str) -> Result<Option<Item>, AllocError>
    ensures { IfOk result (λ read. read ≡ option_map (item negated) (target_of text.now)) }
{
    match read_target(alloc, text)? {
        Some(target) => Ok(Some(Item { negated, target })),
        None => Ok(None),
    }
}

// What a text names that is no `*`.
fn read_target(alloc: Global, text: &str) -> Result<Option<Target>, AllocError>
    ensures { IfOk result (λ read. read ≡ target_of text.now) }
{
    match text.strip_suffix(".*") {
        Some(name) => match Host::read(alloc, name)? {
            Some(host) => Ok(Some(Target::Entity(host))),
            None => Ok(None),
        },
        None => match Host::read(alloc, text)? {
            Some(host) => Ok(Some(Target::Host(host))),
            None => Ok(None),
        },
    }
}
