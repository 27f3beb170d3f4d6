// All entries of lists, and the filters among them that are active on a page.
ghost use Rattle.std.specs.Prelude.{◌≡◌, ◌≤◌, [], ◌∷◌, ◌++◌, Bool, true, length, slice_get, option_and_then, IfOk, OnOk};
ghost use Rattle.std.specs.List.{list_all, list_any};
ghost use Rattle.std.specs.Option.{option_copied};
ghost use Rattle.selector_tree.specs.declared.filter.Filter.{Filter};
ghost use Rattle.hostname_buckets.specs.Active.{active_among, active_by, entries_of, excepts, filters_of, is_active, is_in_domain, is_off, switched_off, switches_off, turns_off};
ghost use Rattle.hostname_buckets.specs.Held.{AreEntered, passes_at};

use crate::tables::Tables;
use address_patterns::{HideOptions, Page};
use filter_scope::Scope;
use host_names::{Host, Suffixes};
use list_entries::{Entries, Entry, Lists};
use selector_tree::{Active, Filter, copy_filter};
use std::alloc::{AllocError, Global};
use std::marker::Model;

// Which filters the page options that apply to a page switch off.
#[derive(Clone, Copy, Drop)]
pub(crate) struct SwitchedOff {
    // Those with a generic scope.
    pub(crate) generic: bool,
    // Those with a specific scope.
    pub(crate) specific: bool,
}

/// The entries of lists, which contracts see in the order of lists and lines. The filters are found by hosts.
#[derive(Drop)]
pub struct Store {
    entries: Entries,
    tables: Tables,
}

impl Model for Store {
    ghost use Rattle.std.specs.Prelude.{List};
    ghost use Rattle.std.specs.Coded.{codes};
    ghost use Rattle.list_entries.specs.declared.entry.Entry.{Entry};
    ghost use Rattle.list_entries.specs.contracts.entry.Entry as entry;

    ghost Value = { List Entry };

    ghost coded = { Prim.hlevel (codes, entry.the_row.coded) };

    ghost use Rattle.hostname_buckets.specs.Held.{AreEntered};

    ghost view = { λ store. store.entries };

    ghost invariant = { λ store. AreEntered store.tables store.entries };
}

impl Store {
    /// Takes the entries of lists, in the order of lists and lines.
    pub fn build(alloc: Global, lists: Lists) -> Result<Store, AllocError>
        ensures { IfOk result (λ store. store ≡ entries_of lists) }
    {
        let mut entries = Entries::new(alloc);
        let mut tables = Tables::new(alloc);
        'lists: for list in lists.into_vec() {
            enter_all(alloc, &mut entries, &mut tables, list.entries)?;
        }
        Ok(Store { entries, tables })
    }

    /// The filters that are active on a page, in the order of lists and lines: those whose scope applies to its host, which
    /// no page option that applies switches off, and which no exception that applies takes away.
    pub fn active(&self, alloc: Global, page: &Page, rules: &Suffixes) -> Result<Active, AllocError>
        ensures active { IfOk result (λ active. active ≡ active_among self.now page.now rules.now) }
        // What holds of all filters of the lists holds of these.
        ensures each { IfOk result (λ active. (holds : Filter → Bool) →
            list_all holds (filters_of self.now) ≡ true → list_all holds active ≡ true) }
        ensures few { IfOk result (λ active. length active ≤ length self.now) }
    {
        let rest = rules.rest(&page.host);
        let off = self.switched_off(page, rest);
        let mut active = Active::new(alloc);
        let mut next = 0;
        'numbers: for number in &self.tables.candidates(alloc, page.host.as_str(), rest)? {
            // A filter is a candidate by each name of its scope that fits.
            if (*number as usize) < next {
                continue;
            }
            next = *number as usize + 1;
            if let Some(filter) = self.active_at(*number, &page.host, rest, off) {
                active.push(copy_filter(alloc, filter)?)?;
            }
        }
        Ok(active)
    }

    // The filter with a number, where there is one and it is active.
    fn active_at(
        &self,
        number: u32,
        host: &Host,
        rest: Option<&str>,
        off: SwitchedOff,
    ) -> Option<&Filter>
        ensures { option_copied result ≡
            option_and_then (active_by off self.now host.now (option_copied rest.entry)) (slice_get self.now number) }
    {
        match self.entries.at(number as usize)? {
            Entry::Filter { filter, scope } => {
                if self.is_active(filter, scope, host, rest, off) {
                    Some(filter)
                } else {
                    None
                }
            }
            _ => None,
        }
    }

    // Whether a filter is active.
    fn is_active(
        &self,
        filter: &Filter,
        scope: &Scope,
        host: &Host,
        rest: Option<&str>,
        off: SwitchedOff,
    ) -> bool
        ensures { result ≡
            is_active off self.now host.now (option_copied rest.entry) filter.now scope.now }
    {
        scope.applies_by(host, rest)
            && !is_off(off, scope)
            && !self.is_excepted(filter.canonical.as_str(), host, rest)
    }

    // Whether an exception that applies takes the filters of this canonical text away.
    fn is_excepted(&self, canonical: &str, host: &Host, rest: Option<&str>) -> bool
        ensures { result ≡
            list_any (excepts host.now (option_copied rest.entry) canonical.now) self.now }
    {
        let numbers = self.tables.exceptions.at(canonical);
        has_exception(&self.entries, numbers, canonical, host, rest)
    }

    // Which filters the page options that apply switch off.
    fn switched_off(&self, page: &Page, rest: Option<&str>) -> SwitchedOff
        ensures { result ≡ switched_off self.now page.now (option_copied rest.entry) }
    {
        let options = self.tables.options.as_slice();
        SwitchedOff {
            generic: has_option(&self.entries, options, page, rest, true),
            specific: has_option(&self.entries, options, page, rest, false),
        }
    }
}

// Adds entries, and enters each into the tables.
fn enter_all(
    alloc: Global,
    entries: &mut Entries,
    tables: &mut Tables,
    more: Entries,
) -> Result<(), AllocError>
    requires { AreEntered tables.old entries.old }
    ensures entries { OnOk result (entries.new ≡ entries.old ++ more) }
    ensures entered { OnOk result (AreEntered tables.new entries.new) }
{
    'entries: for entry in more.into_vec() {
        enter(alloc, entries, tables, entry)?;
    }
    Ok(())
}

// Adds an entry, and enters it into the tables.
fn enter(
    alloc: Global,
    entries: &mut Entries,
    tables: &mut Tables,
    entry: Entry,
) -> Result<(), AllocError>
    requires { AreEntered tables.old entries.old }
    ensures entries { OnOk result (entries.new ≡ entries.old ++ entry ∷ []) }
    ensures entered { OnOk result (AreEntered tables.new entries.new) }
{
    // A number is kept in 32 bits: so many entries have no room in memory.
    let Ok(number) = u32::try_from(entries.len()) else {
        return Err(AllocError);
    };
    tables.enter(alloc, number, &entry)?;
    entries.push(entry)
}

// Whether filters of a scope are switched off.
fn is_off(off: SwitchedOff, scope: &Scope) -> bool
    ensures { result ≡ is_off off scope.now }
{
    if scope.generic() {
        off.generic
    } else {
        off.specific
    }
}

// Whether an entry with one of these numbers is an exception that takes the filters of this canonical text away.
fn has_exception(
    entries: &Entries,
    numbers: &[u32],
    canonical: &str,
    host: &Host,
    rest: Option<&str>,
) -> bool
    ensures { result ≡
        list_any (passes_at (excepts host.now (option_copied rest.entry) canonical.now) entries.now) numbers.now }
{
    numbers.iter().any(|number| match entries.at(*number as usize) {
        Some(entry) => excepts(entry, canonical, host, rest),
        None => false,
    })
}

// Whether an entry is an exception that applies and takes the filters of this canonical text away.
fn excepts(entry: &Entry, canonical: &str, host: &Host, rest: Option<&str>) -> bool
    ensures { result ≡ excepts host.now (option_copied rest.entry) canonical.now entry.now }
{
    match entry {
        Entry::Exception {
            canonical: text,
            scope,
        } => text.as_str() == canonical && scope.applies_by(host, rest),
        _ => false,
    }
}

// Whether an entry with one of these numbers is a page option that switches generic filters off, or specific ones.
fn has_option(
    entries: &Entries,
    numbers: &[u32],
    page: &Page,
    rest: Option<&str>,
    generic: bool,
) -> bool
    ensures { result ≡
        list_any (passes_at (switches_off page.now (option_copied rest.entry) generic) entries.now) numbers.now }
{
    numbers.iter().any(|number| match entries.at(*number as usize) {
        Some(entry) => switches_off(entry, page, rest, generic),
        None => false,
    })
}

// Whether an entry is a page option that applies and switches generic filters off, or specific ones.
fn switches_off(entry: &Entry, page: &Page, rest: Option<&str>, generic: bool) -> bool
    ensures { result ≡ switches_off page.now (option_copied rest.entry) generic entry.now }
{
    match entry {
        Entry::Page {
            pattern,
            domain,
            options,
        } => {
            turns_off(*options, generic)
                && is_in_domain(domain, &page.host, rest)
                && pattern.matches(page)
        }
        _ => false,
    }
}

// Whether options turn generic filters off, or specific ones.
fn turns_off(options: HideOptions, generic: bool) -> bool
    ensures { result ≡ turns_off options generic }
{
    options.elem
        || if generic {
            options.generic
        } else {
            options.specific
        }
}

// Whether a host is of the domain of a page option, where it has one.
fn is_in_domain(domain: &Option<Scope>, host: &Host, rest: Option<&str>) -> bool
    ensures { result ≡ is_in_domain host.now (option_copied rest.entry) domain.now }
{
    match domain {
        Some(scope) => scope.applies_by(host, rest),
        None => true,
    }
}
