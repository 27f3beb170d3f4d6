ghost use Rattle.std.specs.Prelude.{◌≡◌, [], ◌∷◌, ◌+◌, length, drop, if◌then◌else◌, Result, IfOk, MatchResult};
ghost use Rattle.std.specs.List.{list_any};
ghost use Rattle.cos_source.specs.Spaces.{is_space};
ghost use Rattle.selector_spelling.specs.declared.finding.Finding.{Finding};
ghost use Rattle.selector_spelling.specs.Pieces.{Piece, where_closed};
ghost use Rattle.selector_spelling.specs.Scan.{bare, standing, unbalanced, too_nested, within};
ghost use Rattle.selector_lexer.specs.Splits.{cuts, first_part, EndsPart, EndsArgument, IsFirst, IsArgument, text_after};
ghost use Rattle.selector_lexer.specs.Stops.{Fails};

use crate::scan::Scanner;
use crate::stop::{Stop, bad};
use cos_source::is_space;
use selector_spelling::{Cause, Open};
use std::alloc::{AllocError, Global};

/// Where a text is cut.
#[derive(Clone, Copy)]
pub enum Cut {
    /// Between chains.
    Comma,
    /// At combinators but white space.
    Sign,
    /// At white space.
    Space,
}

fn cuts(cut: Cut, byte: u8) -> bool
    ensures { result ≡ cuts cut byte }
{
    match cut {
        Cut::Comma => byte == b',',
        Cut::Sign => byte == b'>' || byte == b'+' || byte == b'~',
        Cut::Space => is_space(byte),
    }
}

/// The later of two places where it is bare.
fn latest(is_bare: bool, here: usize, before: usize) -> usize
    ensures { result ≡ (if is_bare then here else before) }
{
    if is_bare { here } else { before }
}

/// Where the balance of a text fails.
pub fn unbalanced(alloc: Global, text: &[u8]) -> Result<Option<usize>, AllocError>
    ensures { IfOk result (λ place. place ≡ unbalanced bare 0 0 text.now) }
{
    let mut scanner = Scanner::new(alloc);
    let mut outermost = 0;
    let mut at = 0;
    while at < text.len() {
        let byte = text[at];
        if scanner.is_wrong(byte) {
            return Ok(Some(at));
        }
        outermost = latest(scanner.is_bare(), at, outermost);
        at += 1;
        scanner.step(byte, &text[at..])?;
    }
    if scanner.is_bare() {
        return Ok(None);
    }
    Ok(Some(outermost))
}

/// The `:` of the first piece whose argument is a selector at level 17.
pub fn too_nested(alloc: Global, text: &[u8]) -> Result<Option<usize>, AllocError>
    ensures { IfOk result (λ place. place ≡ too_nested bare 0 text.now) }
{
    let mut scanner = Scanner::new(alloc);
    let mut at = 0;
    while at < text.len() {
        let byte = text[at];
        let rest = &text[at + 1..];
        if scanner.is_too_deep(byte, rest) {
            return Ok(Some(at));
        }
        at += 1;
        scanner.step(byte, rest)?;
    }
    Ok(None)
}

/// Whether a text has a byte at which it may be cut.
fn may_cut(cut: Cut, text: &[u8]) -> bool
    ensures { result ≡ list_any (cuts cut) text.now }
{
    text.iter().any(|byte| cuts(cut, *byte))
}

/// How long what stands before the first bare byte is at which a text is cut. Most texts have no such byte and need no scan.
fn part_length(alloc: Global, cut: Cut, text: &[u8]) -> Result<usize, AllocError>
    ensures { IfOk result (EndsPart cut text.now) }
{
    if !may_cut(cut, text) {
        return Ok(text.len());
    }
    let mut scanner = Scanner::new(alloc);
    let mut at = 0;
    while at < text.len() {
        let byte = text[at];
        if scanner.is_bare() && cuts(cut, byte) {
            return Ok(at);
        }
        at += 1;
        scanner.step(byte, &text[at..])?;
    }
    Ok(at)
}

/// How long an argument is that stands before its closing bracket.
fn argument_length(alloc: Global, opened: Open, text: &[u8]) -> Result<usize, AllocError>
    ensures { IfOk result (EndsArgument opened text.now) }
{
    let mut scanner = Scanner::within(alloc, opened)?;
    let mut at = 0;
    while at < text.len() {
        scanner.step(text[at], &text[at + 1..])?;
        if scanner.is_bare() {
            return Ok(at);
        }
        at += 1;
    }
    Ok(at)
}

/// The byte that a text is cut at, and what stands behind it.
#[derive(Clone, Copy)]
pub struct Behind<'a> {
    /// The byte.
    pub sign: u8,
    /// What stands behind it.
    pub text: &'a str,
}

/// The first part of a text that is cut.
#[derive(Clone, Copy)]
pub struct First<'a> {
    /// The part.
    pub text: &'a str,
    /// What stands behind it, if it isn't the last.
    pub behind: Option<Behind<'a>>,
}

/// The first part of a text that is cut at bare bytes.
pub fn first_part<'a>(alloc: Global, cut: Cut, text: &'a str) -> Result<First<'a>, AllocError>
    ensures { IfOk result (IsFirst cut text.now) }
{
    let bytes = text.as_bytes();
    let length = part_length(alloc, cut, bytes)?;
    let front = text.split_at(length).0;
    if length == bytes.len() {
        return Ok(First {
            text: front,
            behind: None,
        });
    }
    let behind = Behind {
        sign: bytes[length],
        text: text.split_at(length + 1).1,
    };
    Ok(First {
        text: front,
        behind: Some(behind),
    })
}

/// What stands in a bracket of the piece at a place, from behind it on, and what stands behind the closing one.
pub fn argument<'a>(
    alloc: Global,
    opened: Open,
    text: &'a str,
    at: usize,
) -> Result<(&'a str, &'a str), Stop>
    ensures { MatchResult result (λ cut. IsArgument opened text.now cut.0.now cut.1.now)
        (λ stop. (read : Result Piece Finding) → Fails stop (where_closed at opened text.now read)) }
{
    let bytes = text.as_bytes();
    let length = argument_length(alloc, opened, bytes)?;
    if length == bytes.len() {
        return Err(bad(Cause::Unbalanced, at));
    }
    Ok((text.split_at(length).0, text.split_at(length + 1).1))
}

/// The text behind the byte that a part was cut at.
pub fn text_behind<'a>(first: &First<'a>) -> &'a str
    ensures { result.now ≡ text_after first.now.behind }
{
    match first.behind {
        Some(behind) => behind.text,
        None => "",
    }
}
