ghost use Rattle.std.specs.Prelude.{◌≡◌, ◌≤◌, drop, length, if◌then◌else◌, IfOk};
ghost use Rattle.address_patterns.specs.Patterns.{at_end_of, begin_of, behind_begin, before_end, matches, may_begin, pattern_of};
ghost use Rattle.address_patterns.specs.Pieces.{first_of, left_of, piece_of, starts_by};

use crate::Page;
use crate::pieces::{find_piece, piece};
use listed::Text;
use std::alloc::{AllocError, Global};

/// Where a match may begin.
#[derive(Clone, Copy, Debug, PartialEq, Eq)]
pub enum Begin {
    /// Anywhere.
    Anywhere,
    /// At the start of the address, as by `|`.
    Start,
    /// At the start of the host or behind a dot in it, as by `||`.
    Host,
}

/// A pattern of addresses.
#[derive(Debug, Drop)]
pub struct AddressPattern {
    begin: Begin,
    // Whether it may end at the end of the address alone.
    at_end: bool,
    // What stands between the signs at its ends, in lower case.
    body: Text,
}

impl AddressPattern {
    /// Reads a pattern. Each text is one: `*` stands for any run of bytes, `^` for a border, `|` and `||` at the start and
    /// `|` at the end say where it may begin and end.
    pub fn read(alloc: Global, text: &str) -> Result<AddressPattern, AllocError>
        ensures { IfOk result (λ pattern. pattern ≡ pattern_of text.now) }
    {
        let (begin, rest) = split_begin(text);
        let (at_end, body) = split_end(rest);
        let body = Text::lower(alloc, body)?;
        Ok(AddressPattern {
            begin,
            at_end,
            body,
        })
    }

    /// Whether the pattern matches the address of a page, letter case ignored. It takes no memory, and no more steps than
    /// the pattern's length times the address's.
    pub fn matches(&self, page: &Page) -> bool
        ensures { result ≡ matches self.now page.now }
    {
        let mut found = self.first_piece(page);
        'pieces: loop {
            let Some((pattern, address)) = found else {
                return false;
            };
            let Some((_, pattern)) = pattern.split_first() else {
                return true;
            };
            found = find_piece(pattern, address, self.at_end);
        }
    }

    // The first place where the pattern's first piece fits: what is left of the pattern and of the address behind it.
    fn first_piece<'a>(&'a self, page: &'a Page) -> Option<(&'a [u8], &'a [u8])>
        ensures { left_of result ≡ first_of self.now.at_end self.now.body (starts_by (may_begin self.now.begin page.now) 0 page.now.address) }
    {
        let end = page.address.as_str().len();
        let mut place = 0;
        'places: loop {
            let found = self.piece_at(page, place);
            if found.is_some() {
                return found;
            }
            if place == end {
                return None;
            }
            place += 1;
        }
    }

    // The pattern's first piece at a place of the address, where a match may begin there.
    fn piece_at<'a>(&'a self, page: &'a Page, place: usize) -> Option<(&'a [u8], &'a [u8])>
        requires { place ≤ length page.now.address }
        ensures { left_of result ≡ (if may_begin self.now.begin page.now place then piece_of self.now.at_end self.now.body (drop place page.now.address) else None) }
    {
        let pattern = self.body.as_str().as_bytes();
        let address = page.address.as_str().as_bytes();
        if may_begin(self.begin, page, place) {
            piece(pattern, &address[place..], self.at_end)
        } else {
            None
        }
    }
}

// The leading sign of a pattern, and what stands behind it.
fn split_begin(text: &str) -> (Begin, &str)
    ensures begin { result.0 ≡ begin_of text.now }
    ensures behind { result.1.now ≡ behind_begin text.now }
{
    if let Some(rest) = text.strip_prefix("||") {
        (Begin::Host, rest)
    } else if let Some(rest) = text.strip_prefix("|") {
        (Begin::Start, rest)
    } else {
        (Begin::Anywhere, text)
    }
}

// Whether `|` stands at the end of a text, and what stands before it.
fn split_end(text: &str) -> (bool, &str)
    ensures end { result.0 ≡ at_end_of text.now }
    ensures before { result.1.now ≡ before_end text.now }
{
    match text.strip_suffix('|') {
        Some(body) => (true, body),
        None => (false, text),
    }
}

// Whether a match may begin at this place of the address.
fn may_begin(begin: Begin, page: &Page, place: usize) -> bool
    requires { place ≤ length page.now.address }
    ensures { result ≡ may_begin begin page.now place }
{
    match begin {
        Begin::Anywhere => true,
        Begin::Start => place == 0,
        Begin::Host => {
            let (from, to) = (page.host_from as usize, page.host_to as usize);
            let address = page.address.as_str().as_bytes();
            from < to
                && (place == from || (from < place && place <= to && address[place - 1] == b'.'))
        }
    }
}
