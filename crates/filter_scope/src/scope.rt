ghost use Rattle.std.specs.Prelude.{◌≡◌, ◌⊎◌, ◌&&◌, not, [], IfOk};
ghost use Rattle.std.specs.List.{list_any};
ghost use Rattle.std.specs.Option.{option_copied};
ghost use Rattle.host_names.specs.Suffixes.{rest};
ghost use Rattle.filter_scope.specs.Scopes.{applies, is_generic, item_matches, scope_of};

use crate::item::read_item;
use cos_source::Parts;
use host_names::{Host, Suffixes, is_under};
use listed::Listed;
use std::alloc::{AllocError, Global};

/// What an item of a scope names.
#[derive(Debug, Drop)]
pub enum Target {
    /// `*`: every page.
    All,
    /// A host, and those under it.
    Host(Host),
    /// `name.*`: hosts whose rest is this name or stands under it.
    Entity(Host),
}

/// An item of a scope.
#[derive(Debug, Drop)]
pub struct Item {
    /// Whether `~` stands before it.
    pub negated: bool,
    /// What it names.
    pub target: Target,
}

impl Item {
    /// Whether the item names a page of this host, which has that rest; `~` aside.
    pub fn matches(&self, host: &Host, rest: Option<&str>) -> bool
        ensures { result ≡ item_matches host.now (option_copied rest.entry) self.now }
    {
        match &self.target {
            Target::All => true,
            Target::Host(name) => host.is_under(name),
            Target::Entity(name) => match rest {
                Some(rest) => is_under(rest, name.as_str()),
                None => false,
            },
        }
    }
}

/// On which pages a filter is used, by their hosts.
#[derive(Debug, Drop)]
pub struct Scope {
    items: Listed<Item>,
}

/// What a text gives that is read as a scope.
#[derive(Debug, Drop)]
pub enum ScopeRead {
    /// A scope.
    Scope(Scope),
    /// The place of its first bad item in the text, after the item's white space.
    BadHost(usize),
}

impl Scope {
    /// The scope without items, which applies everywhere. It takes no memory.
    pub fn everywhere(alloc: Global) -> Scope
        ensures { result ≡ record { items = [] } }
    {
        Scope {
            items: Listed::new(alloc),
        }
    }

    /// Reads the items between separators, each with the white space at its ends trimmed; an empty text has none.
    pub fn read(alloc: Global, text: &str, separator: u8) -> Result<ScopeRead, AllocError>
        requires { (separator ≡ 44) ⊎ (separator ≡ 124) }
        ensures { IfOk result (λ read. read ≡ scope_of separator text.now) }
    {
        let mut items = Listed::new(alloc);
        if text.is_empty() {
            return Ok(ScopeRead::Scope(Scope { items }));
        }
        let mut parts = Parts::new(text, separator);
        'parts: while let Some(part) = parts.next() {
            let part = part.trimmed();
            match read_item(alloc, part.text)? {
                Some(item) => items.push(item)?,
                None => return Ok(ScopeRead::BadHost(part.place)),
            }
        }
        Ok(ScopeRead::Scope(Scope { items }))
    }

    /// Its items, in order.
    pub fn items(&self) -> &[Item]
        ensures { result.now ≡ self.now.items }
    {
        self.items.as_slice()
    }

    /// Whether the scope applies to a page of this host: no negated item matches it, and some other does or there is none.
    pub fn applies(&self, host: &Host, rules: &Suffixes) -> bool
        ensures { result ≡ applies self.now host.now (rest rules.now host.now) }
    {
        self.applies_by(host, rules.rest(host))
    }

    /// The same for a host whose rest is known.
    pub fn applies_by(&self, host: &Host, rest: Option<&str>) -> bool
        ensures { result ≡ applies self.now host.now (option_copied rest.entry) }
    {
        let items = self.items.as_slice();
        !is_refused(items, host, rest) && (self.generic() || is_named(items, host, rest))
    }

    /// Whether each of its items is negated, if it has any.
    pub fn generic(&self) -> bool
        ensures { result ≡ is_generic self.now }
    {
        self.items.as_slice().iter().all(|item| item.negated)
    }
}

// Whether a negated item matches.
fn is_refused(items: &[Item], host: &Host, rest: Option<&str>) -> bool
    ensures { result ≡ list_any (λ i. i.negated && item_matches host.now (option_copied rest.entry) i) items.now }
{
    items
        .iter()
        .any(|item| item.negated && item.matches(host, rest))
}

// Whether an item that isn't negated matches.
fn is_named(items: &[Item], host: &Host, rest: Option<&str>) -> bool
    ensures { result ≡ list_any (λ i. not i.negated && item_matches host.now (option_copied rest.entry) i) items.now }
{
    items
        .iter()
        .any(|item| !item.negated && item.matches(host, rest))
}
