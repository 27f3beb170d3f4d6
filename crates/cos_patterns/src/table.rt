ghost use Rattle.std.specs.Prelude.{◌≡◌, ◌+◌, ◌<◌, ◌↔◌, [], ◌∷◌, ◌++◌, List, Some, length, slice_get, false, IsTrue, IfOk, OnOk, OnErr, IsErrOf, is_ok, vec_len, vec_capacity};
ghost use Rattle.cos_patterns.specs.declared.written.Asked.{Asked};
ghost use Rattle.cos_patterns.specs.declared.written.Written.{Written};
ghost use Rattle.cos_patterns.specs.Found.{is_read};
ghost use Rattle.cos_patterns.specs.Makers.{UnlessNoMemory};
ghost use Rattle.cos_patterns.specs.Notes.{Says};
ghost use Rattle.cos_patterns.specs.Tables.{Agrees, Extends, is_noted, with_pattern, patterns_in, said_of};
ghost use Rattle.cos_patterns.specs.Written.{written, is_in, is_same, place_of};

use crate::entry::Entry;
use crate::notes::{Note, Notes};
use crate::{MakeError, Maker, PatternError, Written};
use std::alloc::Global;
use std::marker::Model;

/// Patterns by number, each made once.
///
/// It notes what the maker refused too, so that no text is asked for twice. A pattern is looked up by its text, in time that
/// grows with the logarithm of how many texts are noted.
#[derive(Drop)]
pub struct PatternTable {
    alloc: Global,
    patterns: Vec<Entry>,
    large: Vec<Written>,
    unread: Vec<Written>,
    // What stands in the three lists, by text and flags.
    notes: Notes,
}

impl Model for PatternTable {
    ghost use Rattle.cos_patterns.specs.Notes.{IsIndexOf};
    ghost use Rattle.cos_patterns.specs.Tables.{Noted};

    ghost Value = { Noted };

    ghost view = { λ table. record { patterns = table.patterns.items; large = table.large.items; unread = table.unread.items } };

    ghost invariant = { λ table. IsIndexOf table.notes (record { patterns = table.patterns.items; large = table.large.items; unread = table.unread.items }) };
}

impl PatternTable {
    /// A table that holds and notes nothing. It takes no memory.
    pub fn new(alloc: Global) -> PatternTable
        ensures patterns { result.patterns ≡ [] }
        ensures large { result.large ≡ [] }
        ensures unread { result.unread ≡ [] }
        // It agrees with a maker whose lists hold no pattern.
        ensures agrees { (large : List Asked) → patterns_in large ≡ [] → Agrees result large [] }
    {
        PatternTable {
            alloc,
            patterns: Vec::new(alloc),
            large: Vec::new(alloc),
            unread: Vec::new(alloc),
            notes: Notes::new(alloc),
        }
    }

    /// The number of a pattern, the same for the same text and flags.
    ///
    /// `flags` is a sum of 1 for `i`, 2 for `m` and 4 for `s`. The maker is asked only for what the table neither holds
    /// nor notes as refused, and only once there is memory for the note. `BadPattern` comes exactly where the maker
    /// couldn't read the pattern, and `PatternTooLarge` exactly where it refused it for size.
    pub fn put<M: Maker>(
        &mut self,
        maker: &mut M,
        text: &str,
        flags: u8,
    ) -> Result<u32, PatternError>
        requires flags { flags < 8 }
        requires room { length self.old.patterns + length text.now < 4294967295 }
        requires agrees { Agrees self.old (M.large maker.old) (M.unread maker.old) }
        ensures agrees { Agrees self.new (M.large maker.new) (M.unread maker.new) }
        ensures number { IfOk result (λ number.
            place_of (written text.now flags) self.new.patterns ≡ Some number) }
        ensures patterns { OnOk result
            (self.new.patterns ≡ with_pattern (written text.now flags) self.old.patterns) }
        ensures read { OnOk result (IsTrue (is_read text.now flags)) }
        ensures bad { IsErrOf result PatternError.BadPattern ↔
            IsTrue (is_in (written text.now flags) (M.unread maker.new)) }
        ensures too_large { IsErrOf result PatternError.PatternTooLarge ↔
            IsTrue (is_in (written text.now flags) (patterns_in (M.large maker.new))) }
        ensures refused { OnErr result (self.new.patterns ≡ self.old.patterns) }
        ensures no_memory { IsErrOf result PatternError.NoMemory → self.new ≡ self.old }
        // What is said of a pattern stays: a noted one changes nothing, and another one changes only what is said of it.
        ensures kept { IsTrue (is_noted (written text.now flags) self.old) → self.new ≡ self.old }
        ensures others { (other : Written) → is_same (written text.now flags) other ≡ false → said_of other self.new ≡ said_of other self.old }
        ensures asked_once { IsTrue (is_noted (written text.now flags) self.old) → maker.new ≡ maker.old }
        // The maker is asked once for another one, and for nothing else.
        ensures asked_new { is_noted (written text.now flags) self.old ≡ false → UnlessNoMemory result
            (M.asks maker.old (Asked.Pattern (written text.now flags)) maker.new) }
        // The table holds it exactly where it has a number.
        ensures held { is_in (written text.now flags) self.new.patterns ≡ is_ok result }
        ensures stays { Extends self.old self.new }
    {
        match self.note_of(text, flags) {
            Note::Held(number) => Ok(number),
            Note::Large => Err(PatternError::PatternTooLarge),
            Note::Unread => Err(PatternError::BadPattern),
            Note::Nothing => self.ask(maker, text, flags),
        }
    }

    /// How many patterns the table holds. Their numbers are those below.
    pub fn len(&self) -> usize
        ensures { result ≡ length self.now.patterns }
    {
        self.patterns.len()
    }

    /// The number of a pattern that the table holds; `None` for another one.
    ///
    /// `flags` is a sum of 1 for `i`, 2 for `m` and 4 for `s`.
    pub fn number_of(&self, text: &str, flags: u8) -> Option<u32>
        requires { flags < 8 }
        ensures { result ≡ place_of (written text.now flags) self.now.patterns }
    {
        match self.note_of(text, flags) {
            Note::Held(number) => Some(number),
            Note::Nothing | Note::Large | Note::Unread => None,
        }
    }

    // What is noted of a pattern.
    fn note_of(&self, text: &str, flags: u8) -> Note
        requires { flags < 8 }
        ensures { Says result (written text.now flags) self.now }
    {
        self.notes.get(text, flags)
    }

    // Asks the maker for a pattern that isn't noted, and notes its answer.
    fn ask<M: Maker>(&mut self, maker: &mut M, text: &str, flags: u8) -> Result<u32, PatternError>
        requires flags { flags < 8 }
        requires room { length self.old.patterns + length text.now < 4294967295 }
        requires agrees { Agrees self.old (M.large maker.old) (M.unread maker.old) }
        requires new { is_noted (written text.now flags) self.old ≡ false }
        ensures agrees { Agrees self.new (M.large maker.new) (M.unread maker.new) }
        ensures number { IfOk result (λ number.
            place_of (written text.now flags) self.new.patterns ≡ Some number) }
        ensures patterns { OnOk result
            (self.new.patterns ≡ with_pattern (written text.now flags) self.old.patterns) }
        ensures read { OnOk result (IsTrue (is_read text.now flags)) }
        ensures bad { IsErrOf result PatternError.BadPattern ↔
            IsTrue (is_in (written text.now flags) (M.unread maker.new)) }
        ensures too_large { IsErrOf result PatternError.PatternTooLarge ↔
            IsTrue (is_in (written text.now flags) (patterns_in (M.large maker.new))) }
        ensures refused { OnErr result (self.new.patterns ≡ self.old.patterns) }
        ensures no_memory { IsErrOf result PatternError.NoMemory → self.new ≡ self.old }
        ensures others { (other : Written) → is_same (written text.now flags) other ≡ false → said_of other self.new ≡ said_of other self.old }
        ensures asked { OnOk result (M.asks maker.old (Asked.Pattern (written text.now flags)) maker.new) }
        ensures asked_bad { IsErrOf result PatternError.BadPattern →
            M.asks maker.old (Asked.Pattern (written text.now flags)) maker.new }
        ensures asked_large { IsErrOf result PatternError.PatternTooLarge →
            M.asks maker.old (Asked.Pattern (written text.now flags)) maker.new }
    {
        let written = Written::of(self.alloc, text, flags)?;
        // A refusal of the maker always finds room for its note.
        self.patterns.reserve(1)?;
        self.large.reserve(1)?;
        self.unread.reserve(1)?;
        self.notes.reserve(self.alloc, text)?;
        match maker.pattern(text, flags) {
            Ok(regex) => {
                let number = self.patterns.len() as u32;
                push_in_room(&mut self.patterns, Entry::new(written, regex));
                self.notes.set(text, flags, Note::Held(number));
                Ok(number)
            }
            Err(MakeError::Unreadable) => {
                push_in_room(&mut self.unread, written);
                self.notes.set(text, flags, Note::Unread);
                Err(PatternError::BadPattern)
            }
            Err(MakeError::TooLarge) => {
                push_in_room(&mut self.large, written);
                self.notes.set(text, flags, Note::Large);
                Err(PatternError::PatternTooLarge)
            }
            Err(MakeError::NoMemory) => Err(PatternError::NoMemory),
        }
    }

    // The pattern of a number that `put` gave.
    pub(crate) fn entry(&self, number: u32) -> &Entry
        requires { number < length self.now.patterns }
        ensures { Some result.now ≡ slice_get self.now.patterns number }
    {
        &self.patterns[number as usize]
    }

    // What the table takes its memory from.
    pub(crate) fn alloc(&self) -> Global {
        self.alloc
    }
}

// Adds an item at the end of a list that has room for it.
fn push_in_room<T: Drop>(list: &mut Vec<T>, item: T)
    requires { vec_len list.old < vec_capacity list.old }
    ensures { list.new.items ≡ list.old.items ++ item ∷ [] }
{
    match list.push(item) {
        Ok(()) => {}
        Err(_) => unreachable!(),
    }
}
