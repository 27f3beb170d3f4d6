ghost use Rattle.std.specs.Prelude.{◌≡◌, ◌==◌, [], not, ◌&&◌, ◌||◌, ℕ, List, false, nat_eq, OnOk, OnErr};
ghost use Rattle.std.specs.Bool.{OnTrue};
ghost use Rattle.std.specs.List.{IsDistinct};
ghost use Rattle.std.specs.Str.{bytes_eq};
ghost use Rattle.page_tree.specs.Directions.{is_in};
ghost use Rattle.generic_tables.specs.declared.keys.Key.{Key};
ghost use Rattle.generic_tables.specs.Carried.{key_in, same_key};
ghost use Rattle.generic_tables.specs.Filed.{numbers_at, holders, holds, IsSame};

use crate::carried::KeyRef;
use crate::numbers::NumberSet;
use indexmap::IndexMap;
use std::alloc::{AllocError, Global};

/// Numbers by keys.
#[derive(Drop)]
pub struct Filed {
    alloc: Global,
    classes: IndexMap<String, NumberSet>,
    ids: IndexMap<String, NumberSet>,
    names: IndexMap<String, NumberSet>,
    // Under the key of nothing.
    unnamed: NumberSet,
}

impl Filed {
    /// Nothing under any key. It takes no memory.
    pub fn new(alloc: Global) -> Filed
        ensures { (key : Key) (x : ℕ) → holds result key x ≡ false }
    {
        Filed {
            alloc,
            classes: IndexMap::new(alloc),
            ids: IndexMap::new(alloc),
            names: IndexMap::new(alloc),
            unnamed: NumberSet::new(alloc),
        }
    }

    /// The numbers under a key, each once. It takes no memory.
    pub fn of(&self, key: KeyRef<'_>) -> &[u32]
        ensures numbers { result.now ≡ holders self.now (key_in key.entry) }
        ensures once { IsDistinct nat_eq result.now }
    {
        match key {
            KeyRef::Class(class) => numbers_of(&self.classes, class),
            KeyRef::Id(id) => numbers_of(&self.ids, id),
            KeyRef::Name(name) => numbers_of(&self.names, name),
            KeyRef::None => self.unnamed.as_slice(),
        }
    }

    /// Puts a number under a key. Without memory it stands under each key what stood there.
    pub fn put_under(&mut self, key: KeyRef<'_>, n: u32) -> Result<(), AllocError>
        ensures ok { OnOk result ((k : Key) (x : ℕ) →
            holds self.new k x ≡
            (holds self.old k x || (same_key k (key_in key.entry) && x == n))) }
        ensures err { OnErr result (IsSame self.old self.new) }
    {
        match key {
            KeyRef::Class(class) => put_under(self.alloc, &mut self.classes, class, n),
            KeyRef::Id(id) => put_under(self.alloc, &mut self.ids, id, n),
            KeyRef::Name(name) => put_under(self.alloc, &mut self.names, name, n),
            KeyRef::None => self.unnamed.put_in(n),
        }
    }

    /// Takes a number from under a key. It takes no memory.
    pub fn take_from(&mut self, key: KeyRef<'_>, n: u32)
        ensures { (k : Key) (x : ℕ) →
            holds self.new k x ≡
            (holds self.old k x && not (same_key k (key_in key.entry) && x == n)) }
    {
        match key {
            KeyRef::Class(class) => take_from(&mut self.classes, class, n),
            KeyRef::Id(id) => take_from(&mut self.ids, id, n),
            KeyRef::Name(name) => take_from(&mut self.names, name, n),
            KeyRef::None => self.unnamed.take_out(n),
        }
    }
}

// The numbers under a name.
fn numbers_of<'a>(named: &'a IndexMap<String, NumberSet>, name: &str) -> &'a [u32]
    ensures numbers { result.now ≡ numbers_at named.now name.now }
    ensures once { IsDistinct nat_eq result.now }
{
    match named.get(name) {
        Some(numbers) => numbers.as_slice(),
        None => &[],
    }
}

// Puts a number under a name.
fn put_under(
    alloc: Global,
    named: &mut IndexMap<String, NumberSet>,
    name: &str,
    n: u32,
) -> Result<(), AllocError>
    ensures ok { OnOk result ((v : List ℕ) (x : ℕ) →
        is_in (numbers_at named.new v) x ≡
        (is_in (numbers_at named.old v) x || (bytes_eq v name.now && x == n))) }
    ensures err { OnErr result ((v : List ℕ) (x : ℕ) →
        is_in (numbers_at named.new v) x ≡ is_in (numbers_at named.old v) x) }
{
    match named.get_mut(name) {
        Some(numbers) => numbers.put_in(n),
        None => {
            let mut numbers = NumberSet::new(alloc);
            numbers.put_in(n)?;
            named.insert(String::from_str(alloc, name)?, numbers)?;
            Ok(())
        }
    }
}

// Takes a number from under a name, and the name out with its last number.
fn take_from(named: &mut IndexMap<String, NumberSet>, name: &str, n: u32)
    ensures { (v : List ℕ) (x : ℕ) →
        is_in (numbers_at named.new v) x ≡
        (is_in (numbers_at named.old v) x && not (bytes_eq v name.now && x == n)) }
{
    if take_out(named, name, n) {
        let _ = named.swap_remove(name);
    }
}

// Takes a number from under a name, and says whether it was the last there.
fn take_out(named: &mut IndexMap<String, NumberSet>, name: &str, n: u32) -> bool
    ensures taken { (v : List ℕ) (x : ℕ) →
        is_in (numbers_at named.new v) x ≡
        (is_in (numbers_at named.old v) x && not (bytes_eq v name.now && x == n)) }
    ensures last { OnTrue result (numbers_at named.new name.now ≡ []) }
{
    match named.get_mut(name) {
        Some(numbers) => {
            numbers.take_out(n);
            numbers.is_empty()
        }
        None => false,
    }
}
