// The numbers of entries, by what makes them apply to a page.
ghost use Rattle.std.specs.Prelude.{◌≡◌, ◌++◌, true, ℕ, IfOk, OnOk};
ghost use Rattle.std.specs.List.Sorted.{IsPermutation, IsSorted};
ghost use Rattle.std.specs.Option.{option_copied};
ghost use Rattle.std.specs.Ordering.{nat_cmp};
ghost use Rattle.filter_scope.specs.Scopes.{is_generic};
ghost use Rattle.hostname_buckets.specs.Held.{Grows, gathered, has, item_stands, scope_stands, stands, under};

use crate::by_name::ByName;
use filter_scope::{Item, Scope, Target};
use host_names::Ends;
use list_entries::Entry;
use listed::Numbers;
use std::alloc::{AllocError, Global};

// Where an entry is found by its number among all entries.
#[derive(Drop)]
pub(crate) struct Tables {
    // Filters by each host that their scopes name.
    hosts: ByName,
    // Filters by each entity that their scopes name.
    entities: ByName,
    // Filters that may apply to pages of any host.
    rest: Numbers,
    // Exceptions by their canonical texts.
    pub(crate) exceptions: ByName,
    // Page options.
    pub(crate) options: Numbers,
}

impl Tables {
    // Empty tables. They take no memory.
    pub(crate) fn new(alloc: Global) -> Tables {
        Tables {
            hosts: ByName::new(alloc),
            entities: ByName::new(alloc),
            rest: Numbers::new(alloc),
            exceptions: ByName::new(alloc),
            options: Numbers::new(alloc),
        }
    }

    // Enters an entry under its number.
    pub(crate) fn enter(
        &mut self,
        alloc: Global,
        number: u32,
        entry: &Entry,
    ) -> Result<(), AllocError>
        ensures stands { OnOk result (stands self.new number entry.now ≡ true) }
        ensures grows { OnOk result (Grows self.old self.new) }
    {
        match entry {
            Entry::Filter { filter: _, scope } => self.enter_filter(alloc, number, scope),
            Entry::Exception {
                canonical,
                scope: _,
            } => self.exceptions.put(alloc, canonical.as_str(), number),
            Entry::Page {
                pattern: _,
                domain: _,
                options: _,
            } => self.options.push(number),
        }
    }

    // Enters a filter by its scope.
    fn enter_filter(&mut self, alloc: Global, number: u32, scope: &Scope) -> Result<(), AllocError>
        ensures stands { OnOk result (scope_stands self.new number scope.now ≡ true) }
        ensures grows { OnOk result (Grows self.old self.new) }
    {
        self.enter_generic(number, scope)?;
        'items: for item in scope.items() {
            self.enter_item(alloc, number, item)?;
        }
        Ok(())
    }

    // Enters a filter by its scope, where that is generic.
    fn enter_generic(&mut self, number: u32, scope: &Scope) -> Result<(), AllocError>
        ensures stands { OnOk result
            (is_generic scope.now ≡ true → has self.new.rest number ≡ true) }
        ensures grows { OnOk result (Grows self.old self.new) }
    {
        if scope.generic() {
            self.rest.push(number)
        } else {
            Ok(())
        }
    }

    // Enters a filter by an item of its scope.
    fn enter_item(&mut self, alloc: Global, number: u32, item: &Item) -> Result<(), AllocError>
        ensures stands { OnOk result (item_stands self.new number item.now ≡ true) }
        ensures grows { OnOk result (Grows self.old self.new) }
    {
        if item.negated {
            return Ok(());
        }
        match &item.target {
            Target::All => self.rest.push(number),
            Target::Host(name) => self.hosts.put(alloc, name.as_str(), number),
            Target::Entity(name) => self.entities.put(alloc, name.as_str(), number),
        }
    }

    // The numbers of the filters that may apply to pages of a host with that rest, in order. Some stand more than once.
    pub(crate) fn candidates(
        &self,
        alloc: Global,
        host: &str,
        rest: Option<&str>,
    ) -> Result<Vec<u32>, AllocError>
        ensures same { IfOk result (λ found.
            IsPermutation (gathered self.now host.now (option_copied rest.entry)) found.items) }
        ensures sorted { IfOk result (λ found. IsSorted nat_cmp found.items) }
    {
        let mut found = Numbers::new(alloc);
        found.extend(self.rest.as_slice())?;
        add_under(&mut found, &self.hosts, host)?;
        if let Some(name) = rest {
            add_under(&mut found, &self.entities, name)?;
        }
        let mut found = found.into_vec();
        found.sort()?;
        Ok(found)
    }
}

// Adds the numbers at a name and at each name that it stands under, by labels.
fn add_under(found: &mut Numbers, numbers: &ByName, name: &str) -> Result<(), AllocError>
    ensures { OnOk result (found.new ≡ found.old ++ under numbers.now name.now) }
{
    let mut ends = Ends::new(name);
    'ends: while let Some(end) = ends.next() {
        found.extend(numbers.at(end))?;
    }
    Ok(())
}
