ghost use Rattle.std.specs.Prelude.{◌≡◌, ◌≤◌, [], ◌∷◌, List, OnOk, IfOk};
ghost use Rattle.std.specs.Str.{str_to_ascii_lowercase};
ghost use Rattle.selector_spelling.specs.declared.open.Open.{Open};
ghost use Rattle.selector_spelling.specs.Names.{space_length, escape, letter_length};
ghost use Rattle.selector_spelling.specs.Scan.{bare, is_bare, standing, outer, opens, begins_number_argument, behind_colon, in_pieces, in_raw, in_square, string_of, in_string, inside, innermost, at_least_one, step, is_wrong, is_selector, is_too_deep};

use crate::fronts::{Class, begins_with, front_length, without_first_spaces};
use crate::operators::operator_of;
use crate::stack::{Stack, is_selector};
use cos_source::is_space;
use selector_spelling::{Kind, Open, Operator};
use std::alloc::{AllocError, Global};
use std::marker::Model;

/// Whether digits stand up to the closing bracket, with white space behind them.
fn begins_number_argument(argument: &[u8]) -> bool
    ensures { result ≡ begins_number_argument argument.now }
{
    let digits = front_length(Class::Digit, argument);
    digits > 0 && begins_with(b')', without_first_spaces(&argument[digits..]))
}

/// What the bracket behind a name opens, before its argument.
pub fn opens(name: &[u8], argument: &[u8]) -> Open
    ensures { result ≡ opens (str_to_ascii_lowercase name.now) argument.now }
{
    match operator_of(name) {
        None | Some(Operator::Nth { .. }) | Some(Operator::Aside(Kind::State)) => Open::Round,
        Some(Operator::Is) | Some(Operator::Not) | Some(Operator::Has) => Open::Selector,
        Some(Operator::Upward) => {
            if begins_number_argument(without_first_spaces(argument)) {
                Open::Round
            } else {
                Open::Selector
            }
        }
        Some(_) => Open::Raw,
    }
}

/// Behind a `:`: how many bytes count for nothing, and what a `(` opens behind them.
fn after_colon(rest: &[u8]) -> (usize, Open)
    ensures { (stack : List Open) → record { stack = stack; skip = result.0; next = result.1 } ≡ behind_colon stack rest.now }
{
    if begins_with(b':', rest) {
        return (1, Open::Round);
    }
    let (name, behind) = rest.split_at(front_length(Class::Pseudo, rest));
    let Some((byte, argument)) = behind.split_first() else {
        return (0, Open::Round);
    };
    if *byte != b'(' {
        return (0, Open::Round);
    }
    (name.len(), opens(name, argument))
}

/// Whether an argument that is a selector begins behind a `:` and a name.
fn opens_selector(rest: &[u8]) -> bool
    ensures { (stack : List Open) → result ≡ is_selector (behind_colon stack rest.now).next }
{
    is_selector(after_colon(rest).1)
}

/// How many bytes one white space at the front takes: 1, or 0 where none stands there.
pub(crate) fn space_length(rest: &[u8]) -> usize
    ensures value { result ≡ space_length rest.now }
    ensures most { result ≤ 1 }
{
    match rest.first() {
        Some(byte) => if is_space(*byte) { 1 } else { 0 },
        None => 0,
    }
}

/// How many bytes count for nothing behind a `\`.
fn escape_length(rest: &[u8]) -> usize
    ensures { result ≡ at_least_one (letter_length (escape rest.now)) }
{
    let digits = front_length(Class::Hex, &rest[..6usize.min(rest.len())]);
    if digits == 0 {
        return 1;
    }
    digits + space_length(&rest[digits..])
}

/// The string that a quote begins.
fn string_of(quote: u8) -> Open
    ensures { result ≡ string_of quote }
{
    if quote == b'"' {
        Open::DoubleQuote
    } else {
        Open::SingleQuote
    }
}

/// How a scan stands before a byte.
#[derive(Drop)]
pub(crate) struct Scanner {
    stack: Stack,
    skip: usize,
    next: Open,
}

impl Model for Scanner {
    ghost use Rattle.selector_spelling.specs.Scan.{Scan};

    ghost Value = { Scan };

    ghost view = { λ s. record { stack = s.stack; skip = s.skip; next = s.next } };
}

impl Scanner {
    /// At the start of a text.
    pub fn new(alloc: Global) -> Scanner
        ensures { result ≡ bare }
    {
        Scanner {
            stack: Stack::new(alloc),
            skip: 0,
            next: Open::Round,
        }
    }

    /// Within a bracket.
    pub fn within(alloc: Global, opened: Open) -> Result<Scanner, AllocError>
        ensures { IfOk result (λ scanner. scanner ≡ standing (opened ∷ [])) }
    {
        let mut scanner = Scanner::new(alloc);
        scanner.stack.push(opened)?;
        Ok(scanner)
    }

    /// Whether nothing is open.
    pub fn is_bare(&self) -> bool
        ensures { result ≡ is_bare self.now }
    {
        self.stack.len() == 0 && self.skip == 0
    }

    /// Whether a byte closes a bracket that isn't the innermost open one.
    pub fn is_wrong(&self, byte: u8) -> bool
        ensures { result ≡ is_wrong self.now byte }
    {
        if self.skip != 0 {
            return false;
        }
        match self.stack.innermost() {
            None => byte == b')' || byte == b']',
            Some(Open::Selector) | Some(Open::Round) => byte == b']',
            Some(_) => false,
        }
    }

    /// Whether a byte before `rest` is the `:` of a piece whose argument is a selector at level 17.
    pub fn is_too_deep(&self, byte: u8, rest: &[u8]) -> bool
        ensures { result ≡ is_too_deep self.now byte rest.now }
    {
        byte == b':'
            && self.skip == 0
            && 16 <= self.stack.len()
            && self.stack.are_selectors()
            && opens_selector(rest)
    }

    fn open(&mut self, opened: Open) -> Result<(), AllocError>
        ensures { OnOk result (self.new ≡ standing (opened ∷ self.old.stack)) }
    {
        self.skip = 0;
        self.next = Open::Round;
        self.stack.push(opened)
    }

    fn close(&mut self)
        ensures { self.new ≡ standing (outer self.old.stack) }
    {
        self.skip = 0;
        self.next = Open::Round;
        self.stack.pop();
    }

    fn stand(&mut self)
        ensures { self.new ≡ standing self.old.stack }
    {
        self.skip = 0;
        self.next = Open::Round;
    }

    fn step_in_pieces(&mut self, byte: u8, rest: &[u8]) -> Result<(), AllocError>
        ensures { OnOk result (self.new ≡ in_pieces self.old byte rest.now) }
    {
        if byte == b':' {
            (self.skip, self.next) = after_colon(rest);
            return Ok(());
        }
        if byte == b'(' {
            return self.open(self.next);
        }
        if byte == b'[' {
            return self.open(Open::Square);
        }
        if byte == b'"' || byte == b'\'' {
            return self.open(string_of(byte));
        }
        if byte == b')' || byte == b']' {
            self.close();
            return Ok(());
        }
        self.stand();
        Ok(())
    }

    fn step_in_raw(&mut self, byte: u8) -> Result<(), AllocError>
        ensures { OnOk result (self.new ≡ in_raw self.old byte) }
    {
        if byte == b'(' {
            return self.open(Open::Raw);
        }
        if byte == b')' {
            self.close();
            return Ok(());
        }
        self.stand();
        Ok(())
    }

    fn step_in_square(&mut self, byte: u8) -> Result<(), AllocError>
        ensures { OnOk result (self.new ≡ in_square self.old byte) }
    {
        if byte == b'"' || byte == b'\'' {
            return self.open(string_of(byte));
        }
        if byte == b']' {
            self.close();
            return Ok(());
        }
        self.stand();
        Ok(())
    }

    fn step_in_string(&mut self, quote: u8, byte: u8)
        ensures { self.new ≡ in_string quote self.old byte }
    {
        if byte == quote {
            self.close();
        } else {
            self.stand();
        }
    }

    /// By what is open innermost.
    fn step_inside(&mut self, byte: u8, rest: &[u8]) -> Result<(), AllocError>
        ensures { OnOk result (self.new ≡ inside (innermost self.old.stack) self.old byte rest.now) }
    {
        match self.stack.innermost() {
            None | Some(Open::Selector) | Some(Open::Round) => self.step_in_pieces(byte, rest),
            Some(Open::Raw) => self.step_in_raw(byte),
            Some(Open::Square) => self.step_in_square(byte),
            Some(Open::DoubleQuote) => {
                self.step_in_string(b'"', byte);
                Ok(())
            }
            Some(Open::SingleQuote) => {
                self.step_in_string(b'\'', byte);
                Ok(())
            }
        }
    }

    /// Goes behind a byte, which stands before `rest`.
    pub fn step(&mut self, byte: u8, rest: &[u8]) -> Result<(), AllocError>
        ensures { OnOk result (self.new ≡ step self.old byte rest.now) }
    {
        if self.skip > 0 {
            self.skip -= 1;
            return Ok(());
        }
        if byte == b'\\' {
            self.stand();
            self.skip = escape_length(rest);
            return Ok(());
        }
        self.step_inside(byte, rest)
    }
}
