ghost use Rattle.std.specs.Prelude.{◌≡◌, ◌+◌, ◌<◌, ◌≤◌, ◌^◌, [], ◌∷◌, length, MatchOption, option_copied};
ghost use Rattle.cos_source.specs.Parts.{before, behind, parts, placed};
ghost use Rattle.cos_source.specs.Spaces.{space_count, trimmed};

use crate::spaces::{space_count, trim_text};
use std::marker::Model;

/// A part of a source: the bytes from `from` on and before `to`, counted from 0.
#[derive(Clone, Copy, Debug, PartialEq, Eq)]
pub struct Span {
    pub from: usize,
    pub to: usize,
}

/// A part of a longer text, and the place where it begins there: an offset in bytes, from 0.
#[derive(Clone, Copy)]
pub struct Part<'a> {
    pub place: usize,
    pub text: &'a str,
}

impl<'a> Part<'a> {
    /// The part without the white space at both of its ends. A part of white space alone becomes the empty one at its end.
    /// It takes no memory.
    pub fn trimmed(self) -> Part<'a>
        requires { self.place + length self.text.now < 2 ^ 64 }
        ensures place { result.place ≡ self.entry.place + space_count self.entry.text.now }
        ensures text { result.text.now ≡ trimmed self.entry.text.now }
        ensures within { result.place + length result.text.now ≤ self.entry.place + length self.entry.text.now }
    {
        Part {
            place: self.place + space_count(self.text.as_bytes()),
            text: trim_text(self.text),
        }
    }
}

/// What stands before the first separator of a text, or all of it, and what stands behind that separator, if there is
/// one. The separator is an ASCII byte. It takes no memory.
pub fn split_once(text: &str, separator: u8) -> (&str, Option<&str>)
    requires { separator < 128 }
    ensures before { result.0.now ≡ before separator text.now }
    ensures behind { option_copied result.1 ≡ behind separator text.now }
{
    match text.split_once(separator as char) {
        Some((before, behind)) => (before, Some(behind)),
        None => (text, None),
    }
}

/// The parts of a text between its separators, in order, as slices of it, each with its place. Contracts see the parts
/// that are still to come. A text without a separator is one part, also where it is empty.
#[derive(Drop)]
pub struct Parts<'a> {
    separator: u8,
    place: usize,
    rest: Option<&'a str>,
}

impl<'a> Model for Parts<'a> {
    ghost use Rattle.std.specs.Prelude.{List, ℕ, ◌+◌, ◌<◌, ◌^◌, length, option_copied};
    ghost use Rattle.std.specs.Option.{ForSome};
    ghost use Rattle.std.specs.Str.{IsUtf8};
    ghost use Rattle.cos_source.specs.Parts.{parts_left};

    ghost Value = { List (ℕ × List ℕ) };

    ghost view = { λ parts. parts_left parts.separator parts.place (option_copied parts.rest) };

    ghost invariant = { λ parts. (parts.separator < 128)
        × ForSome (option_copied parts.rest) (λ text. IsUtf8 text × (parts.place + length text + 1 < 2 ^ 64)) };
}

impl<'a> Parts<'a> {
    /// The parts of a text between bytes that are this separator, which is ASCII. It takes no memory.
    pub fn new(text: &'a str, separator: u8) -> Parts<'a>
        requires { separator < 128 }
        ensures { result ≡ placed 0 (parts separator text.now) }
    {
        Parts {
            separator,
            place: 0,
            rest: Some(text),
        }
    }

    /// The next part, or `None` behind the last one. It takes no memory.
    pub fn next(&mut self) -> Option<Part<'a>>
        ensures { MatchOption result ((self.old ≡ []) × (self.new ≡ []))
            (λ part. self.old ≡ (part.place, part.text.now) ∷ self.new) }
    {
        let text = self.rest?;
        let place = self.place;
        let (part, rest) = split_once(text, self.separator);
        self.place += part.len() + 1;
        self.rest = rest;
        Some(Part { place, text: part })
    }
}
