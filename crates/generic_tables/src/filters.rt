ghost use Rattle.std.specs.Prelude.{◌≡◌, ◌==◌, ◌&&◌, ◌||◌, ◌<◌, ◌^◌, ◌∷◌, [], ℕ, length, map, IfOk, OnOk, MatchOption};
ghost use Rattle.std.specs.List.Sorted.{IsNonDecreasingBy};
ghost use Rattle.page_tree.specs.Directions.{is_in};
ghost use Rattle.generic_tables.specs.Carried.{key_in};
ghost use Rattle.generic_tables.specs.FilterTables.{IsTableOf, filters_left, fits, has_key, has_number, chains_at, stands_at};

use crate::carried::KeyRef;
use crate::key_numbers::number_of;
use crate::keys::{has_chain, key_of};
use selector_tree::{Active, Filter};
use std::alloc::{AllocError, Global};

// A filter at the number of a key of it.
#[derive(Clone, Copy, Debug)]
struct Entry {
    number: u32,
    filter: u32,
}

/// Filters by the keys of their chains. A filter goes by its place in their list.
///
/// The table holds no text, and one entry for each chain: the keys are read from the filters themselves.
#[derive(Drop)]
pub struct FilterTable {
    // By rising numbers.
    entries: Vec<Entry>,
}

/// The filters of a key that are still to come.
#[derive(Debug, Drop)]
pub struct FiltersFor<'a> {
    active: &'a Active,
    key: KeyRef<'a>,
    entries: &'a [Entry],
}

impl FilterTable {
    /// The table of some filters.
    pub fn of(alloc: Global, active: &Active) -> Result<FilterTable, AllocError>
        requires { length active.now < 2 ^ 32 }
        ensures { IfOk result (λ table. IsTableOf active.now table) }
    {
        let mut entries = entries_of(alloc, active)?;
        entries.sort_unstable_by_key(|entry| entry.number);
        Ok(FilterTable { entries })
    }

    /// The filters with a chain of this key, among those that the table was made of. It takes no memory.
    pub fn filters_for<'a>(&'a self, active: &'a Active, key: KeyRef<'a>) -> FiltersFor<'a>
        requires { IsTableOf active.now self.now }
        ensures { (f : ℕ) → is_in (filters_left result) f ≡ has_key active.now (key_in key.entry) f }
    {
        FiltersFor {
            active,
            key,
            entries: at_number(self.entries.as_slice(), number_of(key)),
        }
    }
}

impl<'a> FiltersFor<'a> {
    /// The next filter.
    pub fn next(&mut self) -> Option<u32>
        ensures { MatchOption result ((filters_left self.old ≡ []) × (filters_left self.new ≡ []))
            (λ f. filters_left self.old ≡ f ∷ filters_left self.new) }
    {
        'entries: while let Some((entry, rest)) = self.entries.split_first() {
            self.entries = rest;
            if fits(self.active, self.key, entry.filter) {
                return Some(entry.filter);
            }
        }
        None
    }
}

// Whether a filter at the number of a key has a chain of it. The number of nothing is no other key's.
fn fits(active: &Active, key: KeyRef<'_>, f: u32) -> bool
    ensures { result ≡ fits active.now (key_in key.entry) f }
{
    match key {
        KeyRef::None => true,
        _ => has_key(active, key, f),
    }
}

// Whether a filter has a chain of a key; none past the last does.
fn has_key(active: &Active, key: KeyRef<'_>, f: u32) -> bool
    ensures { result ≡ has_key active.now (key_in key.entry) f }
{
    match active.at(f as usize) {
        Some(filter) => has_chain(filter.selector.as_slice(), key),
        None => false,
    }
}

// The entries at a number.
fn at_number(entries: &[Entry], number: u32) -> &[Entry]
    requires { IsNonDecreasingBy (λ (e : Entry). e.number) entries.now }
    ensures { (f : ℕ) →
        is_in (map (λ (e : Entry). e.filter) result.now) f ≡ stands_at entries.now number f }
{
    let start = entries.partition_point(|entry| entry.number < number);
    let (_, behind) = entries.split_at(start);
    let count = behind.partition_point(|entry| entry.number <= number);
    let (run, _) = behind.split_at(count);
    run
}

// An entry for each chain of some filters, in order.
fn entries_of(alloc: Global, active: &Active) -> Result<Vec<Entry>, AllocError>
    requires { length active.now < 2 ^ 32 }
    ensures { IfOk result (λ entries. (n f : ℕ) →
        stands_at entries.items n f ≡ has_number (chains_at active.now f) n) }
{
    let mut entries = Vec::new(alloc);
    // Most filters have one chain.
    entries.reserve_exact(active.len())?;
    for place in 0..active.len() as u32 {
        enter(&mut entries, place, &active.as_slice()[place as usize])?;
    }
    Ok(entries)
}

// Adds an entry for each chain of a filter.
fn enter(entries: &mut Vec<Entry>, f: u32, filter: &Filter) -> Result<(), AllocError>
    ensures { OnOk result ((n g : ℕ) →
        stands_at entries.new.items n g ≡ (stands_at entries.old.items n g
        || (f == g && has_number filter.now.selector n))) }
{
    for chain in filter.selector.as_slice() {
        let number = number_of(key_of(chain));
        entries.push(Entry { number, filter: f })?;
    }
    Ok(())
}
