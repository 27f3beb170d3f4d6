ghost use Rattle.std.specs.Prelude.{◌≡◌, ◌<◌, ◌^◌, [], ◌∷◌, length, MatchOption};
ghost use Rattle.cos_source.specs.Lines.{lines_of, numbered, without_cr};
ghost use Rattle.cos_source.specs.MadeOf.{IsMadeOf};

use memchr::memchr;
use std::marker::Model;

/// A line of a source: its number, from 1, and its bytes, without what ends it.
#[derive(Clone, Copy)]
pub struct Line<'a> {
    pub number: u32,
    pub bytes: &'a [u8],
}

/// The lines of a source, in order, as slices of it. Contracts see the lines that are still to come.
///
/// A line ends at LF, and one carriage return directly before the LF is no part of it. What stands behind the last LF is
/// a line where it isn't empty.
#[derive(Drop)]
pub struct Lines<'a> {
    rest: &'a [u8],
    given: u32,
}

impl<'a> Model for Lines<'a> {
    ghost use Rattle.std.specs.Prelude.{List, ℕ, ◌+◌, ◌<◌, ◌^◌, length};
    ghost use Rattle.cos_source.specs.Lines.{lines_of, numbered};

    ghost Value = { List (ℕ × List ℕ) };

    ghost view = { λ lines. numbered (lines.given + 1) (lines_of lines.rest.now) };

    ghost invariant = { λ lines. lines.given + length lines.rest.now < 2 ^ 32 };
}

impl<'a> Lines<'a> {
    /// The lines of a source, which is shorter than 2^32 bytes. The lines and the line ends between them make it up. It
    /// takes no memory.
    pub fn new(source: &'a [u8]) -> Lines<'a>
        requires { length source.now < 2 ^ 32 }
        ensures lines { result ≡ numbered 1 (lines_of source.now) }
        ensures whole { IsMadeOf (lines_of source.now) source.now }
    {
        Lines {
            rest: source,
            given: 0,
        }
    }

    /// The next line, or `None` behind the last one. It takes no memory.
    pub fn next(&mut self) -> Option<Line<'a>>
        ensures { MatchOption result ((self.old ≡ []) × (self.new ≡ []))
            (λ line. self.old ≡ (line.number, line.bytes.now) ∷ self.new) }
    {
        if self.rest.is_empty() {
            return None;
        }
        let (bytes, rest) = first_line(self.rest);
        self.rest = rest;
        self.given += 1;
        Some(Line {
            number: self.given,
            bytes,
        })
    }
}

// The first line of a source that isn't empty, and what stands behind its end.
fn first_line(source: &[u8]) -> (&[u8], &[u8])
    requires { 0 < length source.now }
    ensures lines { lines_of source.now ≡ result.0.now ∷ lines_of result.1.now }
    ensures shorter { length result.1.now < length source.now }
{
    match memchr(b'\n', source) {
        Some(end) => (drop_cr(&source[..end]), &source[end + 1..]),
        None => (source, &[]),
    }
}

// What stands before an LF, without one carriage return at its end.
fn drop_cr(bytes: &[u8]) -> &[u8]
    ensures { result.now ≡ without_cr bytes.now }
{
    match bytes.split_last() {
        Some((last, front)) => { if *last == b'\r' { front } else { bytes } }
        None => bytes,
    }
}
