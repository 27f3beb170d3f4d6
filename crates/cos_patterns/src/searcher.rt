//! Searching for the patterns of a table again and again, in working memory that is kept.
ghost use Rattle.std.specs.Prelude.{◌≡◌, ◌<◌, true, Some, length, slice_get, IfOk, IfSome};
ghost use Rattle.cos_patterns.specs.Found.{pattern_found};
ghost use Rattle.cos_patterns.specs.Tables.{found_at};

use crate::PatternTable;
use crate::entry::Entry;
use regex::Matcher;
use std::alloc::{AllocError, Global};
use std::cell::RefCell;
use std::marker::Model;

// How many patterns have their working memory kept at once.
const MOST_RECENT: usize = 8;

/// The patterns of a table, with the working memory of those that were searched for lately.
///
/// Making this memory costs more than most searches, so it is kept for up to 8 patterns, as long as the searcher lives. The
/// ninth gives all of it back and begins anew, so that many large patterns don't fill the memory.
#[derive(Drop)]
pub struct PatternSearcher<'a> {
    alloc: Global,
    table: &'a PatternTable,
    recent: RefCell<Vec<RecentPattern<'a>>>,
}

impl<'a> Model for PatternSearcher<'a> {
    ghost use Rattle.cos_patterns.specs.Tables.{Noted};

    ghost Value = { Noted };

    ghost view = { λ searcher. searcher.table.now };
}

impl<'a> PatternSearcher<'a> {
    /// A searcher that keeps nothing yet. It takes no memory.
    pub fn new(table: &'a PatternTable) -> PatternSearcher<'a>
        ensures { result ≡ table.now }
    {
        let alloc = table.alloc();
        PatternSearcher {
            alloc,
            table,
            recent: RefCell::new(Vec::new(alloc)),
        }
    }

    /// Whether the pattern of a number that `PatternTable::put` gave is found in a text.
    pub fn finds(&self, number: u32, text: &str) -> Result<bool, AllocError>
        requires { number < length self.now.patterns }
        ensures { IfOk result (λ found. found ≡ found_at self.now.patterns number text.now) }
    {
        let entry = self.table.entry(number);
        match self.recent.try_borrow_mut() {
            Ok(mut recent) => finds_among(self.alloc, &mut *recent, number, entry, text),
            // Nothing holds the memory between calls. If something did, this call would make its own.
            Err(_) => finds_anew(self.alloc, number, entry, text),
        }
    }
}

// Whether a pattern is found in a text, in the working memory that is kept of it. Where none is, it is made and kept.
fn finds_among<'a>(
    alloc: Global,
    recent: &mut Vec<RecentPattern<'a>>,
    number: u32,
    entry: &'a Entry,
    text: &str,
) -> Result<bool, AllocError>
    ensures { IfOk result (λ found. found ≡ pattern_found entry.now.body entry.now.flags text.now) }
{
    if let Some(place) = place_among(recent.as_slice(), number, entry) {
        return Ok(recent[place].finds(text));
    }
    let mut pattern = RecentPattern::new(alloc, number, entry)?;
    let found = pattern.finds(text);
    if recent.len() >= MOST_RECENT {
        recent.clear();
    }
    recent.push(pattern)?;
    Ok(found)
}

// The place of a pattern among those whose working memory is kept.
fn place_among(recent: &[RecentPattern<'_>], number: u32, entry: &Entry) -> Option<usize>
    ensures { IfSome result (λ place. slice_get recent.now place ≡ Some entry.now) }
{
    for (place, pattern) in recent.iter().enumerate() {
        if pattern.is_of(number, entry) {
            return Some(place);
        }
    }
    None
}

// Whether a pattern is found in a text, in working memory that is given back at once.
fn finds_anew(alloc: Global, number: u32, entry: &Entry, text: &str) -> Result<bool, AllocError>
    ensures { IfOk result (λ found. found ≡ pattern_found entry.now.body entry.now.flags text.now) }
{
    let mut pattern = RecentPattern::new(alloc, number, entry)?;
    Ok(pattern.finds(text))
}

// A pattern that was searched for lately, with its working memory, seen as it was written.
#[derive(Drop)]
struct RecentPattern<'a> {
    // Its number is looked at first: patterns of other numbers are other ones, and numbers are cheap to compare.
    number: u32,
    entry: &'a Entry,
    matcher: Matcher<'a>,
}

impl<'a> Model for RecentPattern<'a> {
    ghost use Rattle.cos_patterns.specs.declared.written.Written.{Written};
    ghost use Rattle.cos_patterns.specs.Found.{IsMatcherOf};

    ghost Value = { Written };

    ghost view = { λ pattern. pattern.entry.now };

    ghost invariant = { λ pattern. IsMatcherOf pattern.entry.now.body pattern.entry.now.flags pattern.matcher };
}

impl<'a> RecentPattern<'a> {
    // The pattern with new working memory.
    fn new(alloc: Global, number: u32, entry: &'a Entry) -> Result<RecentPattern<'a>, AllocError>
        ensures { IfOk result (λ pattern. pattern ≡ entry.now) }
    {
        Ok(RecentPattern {
            number,
            entry,
            matcher: entry.matcher(alloc)?,
        })
    }

    // Whether this is the pattern of a number, as it is written there. That it is written alike is what its answers rest on.
    fn is_of(&self, number: u32, entry: &Entry) -> bool
        ensures { result ≡ true → self.now ≡ entry.now }
    {
        self.number == number && self.entry.is_same(entry)
    }

    // Whether it is found in a text.
    fn finds(&mut self, text: &str) -> bool
        ensures found { result ≡ pattern_found self.old.body self.old.flags text.now }
        ensures same { self.new ≡ self.old }
    {
        self.matcher.is_match(text)
    }
}
