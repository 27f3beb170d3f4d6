//! The attributes of an element: found, set and dropped.
ghost use Rattle.std.specs.Prelude.{◌≡◌, MatchOption, None, Some, OnOk, OnErr, slice_get};
ghost use Rattle.std.specs.Str.{str_to_ascii_lowercase};
ghost use Rattle.page_tree.specs.Forest.{value_at};
ghost use Rattle.page_tree.specs.Edits.{with_attr, without_attr};
ghost use Rattle.page_tree.specs.Trees.{AreAttributes, IsLowerCase};
ghost use Rattle.dom_arena.specs.Attributes.{attrs_in, with_attrs, place_of};

use crate::kinds::{Attrs, Payload};
use listed::Text;
use std::alloc::AllocError;

// The value of the attribute of this name.
pub(crate) fn value_in<'a>(attrs: &'a [(Text, Text)], name: &str) -> Option<&'a str>
    ensures { MatchOption result (value_at name.now attrs.now ≡ None)
        (λ value. value_at name.now attrs.now ≡ Some value.now) }
{
    for attr in attrs {
        if attr.0.as_str() == name {
            return Some(attr.1.as_str());
        }
    }
    None
}

// The name and the value of the attribute at a place.
pub(crate) fn pair_at(attrs: &[(Text, Text)], i: usize) -> Option<(&str, &str)>
    ensures { MatchOption result (slice_get attrs.now i ≡ None)
        (λ attr. slice_get attrs.now i ≡ Some (attr.0.now, attr.1.now)) }
{
    if i < attrs.len() {
        let attr = &attrs[i];
        Some((attr.0.as_str(), attr.1.as_str()))
    } else {
        None
    }
}

// The place of the attribute of this name in any case, or how many attributes there are.
fn find_attr(attrs: &[(Text, Text)], name: &str) -> usize
    requires { AreAttributes attrs.now }
    ensures { result ≡ place_of (str_to_ascii_lowercase name.now) attrs.now }
{
    let mut place = 0;
    for attr in attrs {
        if attr.0.as_str().eq_ignore_ascii_case(name) {
            return place;
        }
        place += 1;
    }
    place
}

fn set_in(attrs: &mut Attrs, name: Text, value: Text) -> Result<(), AllocError>
    requires attrs { AreAttributes attrs.old }
    requires name { IsLowerCase name }
    ensures ok { OnOk result (attrs.new ≡ with_attr name value attrs.old) }
    ensures err { OnErr result (attrs.new ≡ attrs.old) }
{
    let place = find_attr(attrs.as_slice(), name.as_str());
    if place < attrs.len() {
        attrs.set(place, (name, value));
        Ok(())
    } else {
        attrs.push((name, value))
    }
}

fn drop_from(attrs: &mut Attrs, name: &str)
    requires { AreAttributes attrs.old }
    ensures { attrs.new ≡ without_attr (str_to_ascii_lowercase name.now) attrs.old }
{
    let place = find_attr(attrs.as_slice(), name);
    if place < attrs.len() {
        attrs.remove(place);
    }
}

// Gives an element's attribute a value; nothing else has one.
pub(crate) fn set_attr(payload: &mut Payload, name: Text, value: Text) -> Result<(), AllocError>
    requires attrs { AreAttributes (attrs_in payload.old) }
    requires name { IsLowerCase name }
    ensures ok { OnOk result
        (payload.new ≡ with_attrs (with_attr name value (attrs_in payload.old)) payload.old) }
    ensures err { OnErr result (payload.new ≡ payload.old) }
{
    match payload {
        Payload::Element { attrs, .. } => set_in(attrs, name, value),
        _ => Ok(()),
    }
}

// Takes an element's attribute out; nothing else has one.
pub(crate) fn drop_attr(payload: &mut Payload, name: &str)
    requires { AreAttributes (attrs_in payload.old) }
    ensures { payload.new ≡ with_attrs
        (without_attr (str_to_ascii_lowercase name.now) (attrs_in payload.old)) payload.old }
{
    if let Payload::Element { attrs, .. } = payload {
        drop_from(attrs, name);
    }
}
