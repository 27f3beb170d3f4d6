// What a table notes of its patterns, found by their texts and flags.
ghost use Rattle.std.specs.Prelude.{◌≡◌, ◌<◌, ◌==◌, ℕ, IsSome, OnOk, if◌then◌else◌, slice_index_or};
ghost use Rattle.cos_patterns.specs.Notes.{notes_of, noted_in};
ghost use Rattle.cos_patterns.specs.Written.{is_same, written};
ghost use Rattle.cos_patterns.specs.declared.written.Written.{Written};

use std::alloc::{AllocError, Global};
use std::collections::BTreeMap;

// What is noted of a pattern.
#[derive(Clone, Copy)]
pub(crate) enum Note {
    // It isn't held, and wasn't refused.
    Nothing,
    // It is held, and has this number.
    Held(u32),
    // It was refused for size.
    Large,
    // It couldn't be read.
    Unread,
}

// The notes of each text, one for each sum of flags.
#[derive(Drop)]
pub(crate) struct Notes {
    by_text: BTreeMap<String, [Note; 8]>,
}

impl Notes {
    // An index that notes nothing. It takes no memory.
    pub fn new(alloc: Global) -> Notes
        ensures { (pattern : Written) → noted_in result pattern ≡ Note.Nothing }
    {
        Notes {
            by_text: BTreeMap::new(alloc),
        }
    }

    // The note of the pattern of this text and these flags.
    pub fn get(&self, text: &str, flags: u8) -> Note
        requires { flags < 8 }
        ensures { result ≡ noted_in self.now (written text.now flags) }
    {
        match self.by_text.get(text) {
            Some(notes) => notes[flags as usize],
            None => Note::Nothing,
        }
    }

    // Makes room for the notes of a text, so that `set` needs no memory.
    pub fn reserve(&mut self, alloc: Global, text: &str) -> Result<(), AllocError>
        ensures room { OnOk result (IsSome (notes_of self.new text.now)) }
        ensures same { (pattern : Written) → noted_in self.new pattern ≡ noted_in self.old pattern }
    {
        if self.by_text.contains_key(text) {
            return Ok(());
        }
        let copy = String::from_str(alloc, text)?;
        self.by_text.insert(copy, [Note::Nothing; 8])?;
        Ok(())
    }

    // Sets the note of the pattern of this text and these flags.
    pub fn set(&mut self, text: &str, flags: u8, note: Note)
        requires flags { flags < 8 }
        requires room { IsSome (notes_of self.old text.now) }
        ensures { (pattern : Written) → noted_in self.new pattern ≡
            (if is_same (written text.now flags) pattern then note else noted_in self.old pattern) }
    {
        let Some(notes) = self.by_text.get_mut(text) else {
            unreachable!()
        };
        set_among(notes, flags, note);
    }
}

// Sets the note for these flags among those of a text.
fn set_among(notes: &mut [Note; 8], flags: u8, note: Note)
    requires { flags < 8 }
    ensures { (those : ℕ) → slice_index_or notes.new those Note.Nothing ≡
        (if flags == those then note else slice_index_or notes.old those Note.Nothing) }
{
    notes[flags as usize] = note;
}
