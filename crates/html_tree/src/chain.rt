// The elements that are open, by their names, and which of them a tag closes.

ghost use Rattle.std.specs.Prelude.{◌≡◌, ◌≤◌, ◌<◌, ◌+◌, ◌-◌, ◌++◌, ◌∷◌, [], Bool, false, Some, length, slice_get, take, drop, OnOk, OnErr};
ghost use Rattle.std.specs.List.{list_any};
ghost use Rattle.std.specs.Str.{bytes_eq};
ghost use Rattle.html_tree.specs.Counts.{count_in, IsCountedAs, AreSameCounts};
ghost use Rattle.std.specs.Str.{str_to_ascii_lowercase};
ghost use Rattle.html_meaning.specs.Page.{Opens, Ends};
ghost use Rattle.html_tree.specs.Chain.{names_of, Leaves};

use crate::spelled::SpelledName;
use crate::tables::closes;
use std::alloc::{AllocError, Global};
use std::collections::BTreeMap;
use std::marker::Model;

/// How many of the open elements, from the outermost on, an end tag is compared with in any case. The names of those behind
/// them are counted, so that end tags of nothing open are read fast below very many elements too.
const OUTER: usize = 32;

/// How often a name is counted.
fn count_of<'a>(counts: &BTreeMap<SpelledName<'a>, usize>, name: &'a str) -> usize
    ensures { result ≡ count_in counts.now (str_to_ascii_lowercase name.now) }
{
    let key = SpelledName { spelled: name };
    counts.get(&key).copied().unwrap_or(0)
}

/// Counts a name once more, where it is counted fewer than `most` times. Without memory nothing changes.
fn count_more<'a>(
    counts: &mut BTreeMap<SpelledName<'a>, usize>,
    name: &'a str,
    most: usize,
) -> Result<(), AllocError>
    requires { count_in counts.old (str_to_ascii_lowercase name.now) < most }
    ensures ok { OnOk result (let lower = str_to_ascii_lowercase name.now in IsCountedAs counts.old counts.new lower (count_in counts.old lower + 1)) }
    ensures err { OnErr result (AreSameCounts counts.old counts.new) }
{
    let count = count_of(counts, name) + 1;
    counts.insert(SpelledName { spelled: name }, count)?;
    Ok(())
}

/// Counts a name once less.
fn count_less<'a>(counts: &mut BTreeMap<SpelledName<'a>, usize>, name: &'a str)
    requires { 0 < count_in counts.old (str_to_ascii_lowercase name.now) }
    ensures { let lower = str_to_ascii_lowercase name.now in IsCountedAs counts.old counts.new lower (count_in counts.old lower - 1) }
{
    let count = count_of(counts, name);
    let key = SpelledName { spelled: name };
    if count > 1 {
        // the name is there already, so that this takes no memory
        let _ = counts.insert(key, count - 1);
    } else {
        let _ = counts.remove(&key);
    }
}

/// The names of the elements that are open, from the outermost to the innermost. Contracts see them in lower case.
#[derive(Drop)]
pub struct OpenNames<'a> {
    names: Vec<&'a str>,
    // how often each name stands behind the first `OUTER`
    counts: BTreeMap<SpelledName<'a>, usize>,
}

impl<'a> Model for OpenNames<'a> {
    ghost use Rattle.std.specs.Prelude.{ℕ, List};
    ghost use Rattle.html_tree.specs.Chain.{names_of};
    ghost use Rattle.html_tree.specs.Counts.{AreCounted};

    ghost Value = { List (List ℕ) };

    ghost view = { λ open_names. names_of open_names.names.items };

    ghost invariant = { λ open_names. AreCounted open_names.counts (names_of open_names.names.items) };
}

impl<'a> OpenNames<'a> {
    /// No names.
    pub fn new(alloc: Global) -> OpenNames<'a>
        ensures { result ≡ [] }
    {
        OpenNames {
            names: Vec::new(alloc),
            counts: BTreeMap::new(alloc),
        }
    }

    pub fn len(&self) -> usize
        ensures { result ≡ length self.now }
    {
        self.names.len()
    }

    /// Puts a name behind the others.
    pub fn push(&mut self, name: &'a str) -> Result<(), AllocError>
        ensures { OnOk result (self.new ≡ self.old ++ str_to_ascii_lowercase name.now ∷ []) }
    {
        self.names.push(name)?;
        if self.names.len() > OUTER {
            if let Err(error) = count_more(&mut self.counts, name, self.names.len()) {
                let _ = self.names.pop();
                return Err(error);
            }
        }
        Ok(())
    }

    /// Takes the last name away, if there is one.
    fn pop(&mut self)
        ensures { self.new ≡ take (length self.old - 1) self.old }
    {
        if let Some(name) = self.names.pop() {
            if self.names.len() >= OUTER {
                count_less(&mut self.counts, name);
            }
        }
    }

    /// Keeps the first names.
    pub fn truncate(&mut self, count: usize)
        ensures { self.new ≡ take count self.old }
    {
        let mut left = self.len();
        while left > count {
            self.pop();
            left -= 1;
        }
    }

    /// How many of the open elements, from the outermost on, an end tag of this name is compared with: none of those behind
    /// them has its name.
    fn compared(&self, tag: &'a str) -> usize
        ensures within { result ≤ length self.now }
        ensures none { list_any (λ n. bytes_eq n (str_to_ascii_lowercase tag.now)) (drop result self.now) ≡ false }
    {
        if self.names.len() > OUTER && count_of(&self.counts, tag) == 0 {
            OUTER
        } else {
            self.names.len()
        }
    }

    /// How many of the open elements a start tag of this name leaves.
    pub fn left_by_start(&self, tag: &str) -> usize
        ensures within { result ≤ length self.now }
        ensures left { (holds : Bool) → Leaves (Opens (str_to_ascii_lowercase tag.now) holds) self.now result }
    {
        left_by_start(self.names.as_slice(), tag)
    }

    /// How many of the open elements an end tag of this name leaves.
    pub fn left_by_end(&self, tag: &'a str) -> usize
        ensures within { result ≤ length self.now }
        ensures left { Leaves (Ends (str_to_ascii_lowercase tag.now)) self.now result }
    {
        left_by_end(self.names.as_slice(), self.compared(tag), tag)
    }
}

/// The name of the open element at a place, from the outermost.
fn name_at<'a>(chain: &[&'a str], place: usize) -> &'a str
    requires { place < length chain.now }
    ensures { slice_get (names_of chain.now) place ≡ Some (str_to_ascii_lowercase result.now) }
{
    chain[place]
}

/// How many of the open elements a start tag of this name leaves.
fn left_by_start(chain: &[&str], tag: &str) -> usize
    ensures within { result ≤ length chain.now }
    ensures left { (holds : Bool) → Leaves (Opens (str_to_ascii_lowercase tag.now) holds) (names_of chain.now) result }
{
    let mut left = chain.len();
    while left > 0 && closes(tag, name_at(chain, left - 1)) {
        left -= 1;
    }
    left
}

/// How many of the open elements an end tag of this name leaves, which is compared with the first `compared` of them, from the
/// innermost to the outermost.
fn left_by_end(chain: &[&str], compared: usize, tag: &str) -> usize
    requires within { compared ≤ length chain.now }
    requires none { list_any (λ n. bytes_eq n (str_to_ascii_lowercase tag.now)) (drop compared (names_of chain.now)) ≡ false }
    ensures within { result ≤ length chain.now }
    ensures left { Leaves (Ends (str_to_ascii_lowercase tag.now)) (names_of chain.now) result }
{
    let mut left = compared;
    while left > 0 {
        if tag.eq_ignore_ascii_case(name_at(chain, left - 1)) {
            return left - 1;
        }
        left -= 1;
    }
    chain.len()
}
