//! The keys that an element carries.
ghost use Rattle.std.specs.Prelude.{◌≡◌, [], ◌∷◌, MatchOption, unwrap_or};
ghost use Rattle.std.specs.Option.{option_copied};
ghost use Rattle.generic_tables.specs.Carried.{key_in, keys_at};
ghost use Rattle.generic_tables.specs.KeysLeft.{keys_left};

use crate::words::next_word;
use dom_arena::Dom;

/// A key, lent.
#[derive(Clone, Copy, Debug)]
pub enum KeyRef<'a> {
    /// This member of a class list.
    Class(&'a str),
    /// This id.
    Id(&'a str),
    /// This name.
    Name(&'a str),
    /// Nothing; every element carries this key.
    None,
}

/// The keys of an element that are still to come, in the order of `keys_at`.
#[derive(Debug, Drop)]
pub struct ElementKeys<'a> {
    any: bool,
    name: Option<&'a str>,
    id: Option<&'a str>,
    classes: &'a str,
}

/// The keys that an element carries: that of nothing, its name, its id if it has one, and each member of its class list, as
/// often as it stands there. It takes no memory.
pub fn keys_at(dom: &Dom, x: u32) -> ElementKeys<'_>
    ensures { keys_left result ≡ keys_at dom.now x }
{
    dom.is_tree();
    match dom.node(x) {
        None => ElementKeys {
            any: true,
            name: Some(""),
            id: None,
            classes: "",
        },
        Some(node) => ElementKeys {
            any: true,
            name: Some(node.name()),
            id: node.attr("id"),
            classes: text_or_empty(node.attr("class")),
        },
    }
}

fn text_or_empty(text: Option<&str>) -> &str
    ensures { result.now ≡ unwrap_or (option_copied text.entry) [] }
{
    match text {
        Some(text) => text,
        None => "",
    }
}

impl<'a> ElementKeys<'a> {
    /// The next key.
    pub fn next(&mut self) -> Option<KeyRef<'a>>
        ensures { MatchOption result ((keys_left self.old ≡ []) × (keys_left self.new ≡ []))
            (λ key. keys_left self.old ≡ key_in key ∷ keys_left self.new) }
    {
        if self.any {
            self.any = false;
            return Some(KeyRef::None);
        }
        if let Some(name) = self.name {
            self.name = None;
            return Some(KeyRef::Name(name));
        }
        if let Some(id) = self.id {
            self.id = None;
            return Some(KeyRef::Id(id));
        }
        let (class, rest) = next_word(self.classes)?;
        self.classes = rest;
        Some(KeyRef::Class(class))
    }
}
