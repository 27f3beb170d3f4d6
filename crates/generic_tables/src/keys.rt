ghost use Rattle.std.specs.Prelude.{◌≡◌, map};
ghost use Rattle.std.specs.List.{list_any};
ghost use Rattle.std.specs.Option.{option_copied};
ghost use Rattle.generic_tables.specs.Carried.{key_in, same_key};
ghost use Rattle.generic_tables.specs.Keys.{key_of_chain, kept_test, first_value, value_in, value_of, last_tests};

use crate::carried::KeyRef;
use listed::Text;
use selector_tree::{Chain, Step, Test};

/// What an element must have so that a chain can select it.
#[derive(Debug, Drop)]
pub enum Key {
    /// This member of its class list.
    Class(Text),
    /// This id.
    Id(Text),
    /// This name.
    Name(Text),
    /// Nothing; every element carries this key.
    None,
}

impl Key {
    /// The key, lent.
    pub fn lent(&self) -> KeyRef<'_>
        ensures { key_in result ≡ self.now }
    {
        match self {
            Key::Class(class) => KeyRef::Class(class.as_str()),
            Key::Id(id) => KeyRef::Id(id.as_str()),
            Key::Name(name) => KeyRef::Name(name.as_str()),
            Key::None => KeyRef::None,
        }
    }
}

// Which value is looked for.
#[derive(Clone, Copy)]
enum Kind {
    Class,
    Id,
    Name,
}

/// The key of a chain, lent: the first id among the tests behind the chain's last step that is no test, else the first class,
/// else the first name, else that of nothing.
pub fn key_of(chain: &Chain) -> KeyRef<'_>
    ensures { key_in result ≡ key_of_chain chain.now }
{
    let steps = chain.as_slice();
    if let Some(id) = first_value(steps, Kind::Id) {
        return KeyRef::Id(id.as_str());
    }
    if let Some(class) = first_value(steps, Kind::Class) {
        return KeyRef::Class(class.as_str());
    }
    match first_value(steps, Kind::Name) {
        Some(name) => KeyRef::Name(name.as_str()),
        None => KeyRef::None,
    }
}

// Whether one of some chains has a key.
pub(crate) fn has_chain(selector: &[Chain], key: KeyRef<'_>) -> bool
    ensures { result ≡ list_any (same_key (key_in key.entry)) (map key_of_chain selector.now) }
{
    for chain in selector {
        if is_same(key, key_of(chain)) {
            return true;
        }
    }
    false
}

// Whether two keys are one.
fn is_same(a: KeyRef<'_>, b: KeyRef<'_>) -> bool
    ensures { result ≡ same_key (key_in a.entry) (key_in b.entry) }
{
    match (a, b) {
        (KeyRef::Class(a), KeyRef::Class(b)) => a == b,
        (KeyRef::Id(a), KeyRef::Id(b)) => a == b,
        (KeyRef::Name(a), KeyRef::Name(b)) => a == b,
        (KeyRef::None, KeyRef::None) => true,
        _ => false,
    }
}

// The first value of a kind among the tests behind the last step that is no test.
fn first_value(steps: &[Step], kind: Kind) -> Option<&Text>
    ensures { option_copied result ≡ first_value (value_of kind) (last_tests steps.now) }
{
    let mut found: Option<&Text> = None;
    for step in steps {
        found = match test_in(step) {
            Some(test) => value_behind(found, test, kind),
            None => None,
        };
    }
    found
}

// The test of a step that keeps what passes it.
fn test_in(step: &Step) -> Option<&Test>
    ensures { option_copied result ≡ kept_test step.now }
{
    match step {
        Step::Keep(test) => Some(test),
        _ => None,
    }
}

// The value that was found, else that of a test.
fn value_behind<'a>(found: Option<&'a Text>, test: &'a Test, kind: Kind) -> Option<&'a Text>
    ensures { option_copied result ≡ value_in (option_copied found.entry) (value_of kind test.now) }
{
    match found {
        Some(value) => Some(value),
        None => value_of(test, kind),
    }
}

// The value that a test asks for, if the test is of this kind.
fn value_of(test: &Test, kind: Kind) -> Option<&Text>
    ensures { option_copied result ≡ value_of kind test.now }
{
    match (kind, test) {
        (Kind::Class, Test::Class(class)) => Some(class),
        (Kind::Id, Test::Id(id)) => Some(id),
        (Kind::Name, Test::Tag(name)) => Some(name),
        _ => None,
    }
}
