// Numbers of entries by names.
ghost use Rattle.std.specs.Prelude.{◌≡◌, ℕ, List, [], ◌∷◌, ◌++◌, OnOk, if◌then◌else◌};
ghost use Rattle.std.specs.Str.{bytes_eq};
ghost use Rattle.hostname_buckets.specs.Held.{numbers_at};

use indexmap::IndexMap;
use listed::Numbers;
use std::alloc::{AllocError, Global};

// The numbers that stand at each name, in the order in which they were put there.
#[derive(Drop)]
pub(crate) struct ByName {
    by_name: IndexMap<String, Numbers>,
}

impl ByName {
    // No number at any name. It takes no memory.
    pub(crate) fn new(alloc: Global) -> ByName
        ensures { (name : List ℕ) → numbers_at result name ≡ [] }
    {
        ByName {
            by_name: IndexMap::new(alloc),
        }
    }

    // The numbers at a name.
    pub(crate) fn at(&self, name: &str) -> &[u32]
        ensures { result.now ≡ numbers_at self.now name.now }
    {
        match self.by_name.get(name) {
            Some(numbers) => numbers.as_slice(),
            None => &[],
        }
    }

    // Puts a number at a name, behind those that stand there.
    pub(crate) fn put(&mut self, alloc: Global, name: &str, number: u32) -> Result<(), AllocError>
        ensures { OnOk result ((other : List ℕ) → numbers_at self.new other ≡
            (if bytes_eq name.now other then numbers_at self.old other ++ number ∷ [] else numbers_at self.old other)) }
    {
        match self.by_name.get_mut(name) {
            Some(numbers) => numbers.push(number),
            None => {
                let key = String::from_str(alloc, name)?;
                let mut numbers = Numbers::new(alloc);
                numbers.push(number)?;
                self.by_name.insert(key, numbers)?;
                Ok(())
            }
        }
    }
}
