// The attributes of an element.

ghost use Rattle.std.specs.Prelude.{◌≡◌, ◌++◌, ◌∷◌, [], ℕ, List, true, false, not, IfOk, OnOk};
ghost use Rattle.std.specs.Str.{str_to_ascii_lowercase};
ghost use Rattle.html_meaning.specs.Bytes.{is_among};
ghost use Rattle.html_meaning.specs.Page.{element_attributes, firsts};
ghost use Rattle.html_tree.specs.LaterNames.{names_in, as_read, AreLater};

use crate::references::resolve;
use crate::spelled::SpelledName;
use dom_arena::Attrs;
use html_tokens::next_attribute;
use listed::Text;
use std::alloc::{AllocError, Global};
use std::collections::BTreeSet;

/// How many attributes are looked through for a name. The names of those behind them are kept in a set, so that a tag with
/// very many attributes is read fast too.
const FEW: usize = 8;

/// Whether one of these attributes has this name.
fn is_name_among(name: &str, attrs: &[(Text, Text)]) -> bool
    ensures { result ≡ is_among name.now (names_in attrs.now) }
{
    for attr in attrs {
        if name == attr.0.as_str() {
            return true;
        }
    }
    false
}

/// Whether the name of an attribute that comes next, which is `lower` in lower case, is new. `later` has the names of all but
/// the first few before it, and then this one too, unless it is among those.
fn is_new<'a>(
    attrs: &Attrs,
    later: &mut BTreeSet<SpelledName<'a>>,
    name: &'a str,
    lower: &str,
) -> Result<bool, AllocError>
    requires later { AreLater later.old (names_in attrs.now) }
    requires lower { lower.now ≡ str_to_ascii_lowercase name.now }
    ensures new { IfOk result (λ is_new. is_new ≡ not (is_among lower.now (names_in attrs.now))) }
    ensures kept { IfOk result (λ is_new. is_new ≡ false → AreLater later.new (names_in attrs.now)) }
    ensures more { IfOk result (λ is_new. is_new ≡ true → AreLater later.new (names_in attrs.now ++ lower.now ∷ [])) }
{
    let few = attrs.len().min(FEW);
    if is_name_among(lower, &attrs.as_slice()[..few]) {
        return Ok(false);
    }
    if attrs.len() < FEW {
        return Ok(true);
    }
    let is_new = later.insert(SpelledName { spelled: name })?;
    Ok(is_new)
}

/// Adds an attribute, its name in lower case and the references in its value resolved, unless its name was there before.
fn push_attr<'a>(
    alloc: Global,
    attrs: &mut Attrs,
    later: &mut BTreeSet<SpelledName<'a>>,
    name: &'a str,
    value: &str,
) -> Result<(), AllocError>
    requires { AreLater later.old (names_in attrs.old) }
    ensures later { OnOk result (AreLater later.new (names_in attrs.new)) }
    ensures attrs { OnOk result ((rest : List (List ℕ × List ℕ)) →
        attrs.old ++ firsts (names_in attrs.old) (as_read (name.now, value.now) ∷ rest) ≡ attrs.new ++ firsts (names_in attrs.new) rest) }
{
    let lower = Text::lower(alloc, name)?;
    if !is_new(attrs, later, name, lower.as_str())? {
        return Ok(());
    }
    let value = resolve(alloc, value)?;
    attrs.push((lower, value))?;
    Ok(())
}

/// The attributes in the text between a tag's name and its `>`: names in lower case, references resolved, and of equal names
/// the first.
pub fn attrs_of(alloc: Global, text: &str) -> Result<Attrs, AllocError>
    ensures { IfOk result (λ attrs. attrs ≡ element_attributes text.now) }
{
    let mut attrs = Attrs::new(alloc);
    let mut later = BTreeSet::new(alloc);
    let mut rest = text;
    while let Some(found) = next_attribute(rest) {
        push_attr(alloc, &mut attrs, &mut later, found.name, found.value)?;
        rest = found.rest;
    }
    Ok(attrs)
}
