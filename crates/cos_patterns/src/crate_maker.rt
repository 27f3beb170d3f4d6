ghost use Rattle.std.specs.Prelude.{◌≡◌, ◌<◌, [], ◌∷◌, ◌++◌, OnOk, OnErr, IfOk, IsErrOf};
ghost use Rattle.cos_patterns.specs.Found.{IsPatternOf, IsUnreadable};
ghost use Rattle.cos_patterns.specs.Makers.{IsAddressOf, IsNoAddress, large_after, unread_after};
ghost use Rattle.cos_patterns.specs.Written.{written};

use crate::read::{read_address, read_pattern};
use crate::{Asked, MakeError, Maker, Written};
use listed::{Listed, Text};
use regex::Regex;
use std::alloc::{AllocError, Global};
use url::Url;

/// Makes patterns by `regex` and addresses by `url`, and sets nothing but the flags.
///
/// It keeps what it refused, so that a refusal takes memory too.
#[derive(Drop)]
pub struct CrateMaker {
    alloc: Global,
    large: Listed<Asked>,
    unread: Listed<Written>,
}

impl CrateMaker {
    ghost use Rattle.cos_patterns.specs.CrateMaker.{large_of, unread_of};

    /// A maker that refused nothing yet. It takes no memory.
    pub fn new(alloc: Global) -> CrateMaker
        ensures large { ⟦<CrateMaker as Maker>⟧.large result ≡ [] }
        ensures unread { ⟦<CrateMaker as Maker>⟧.unread result ≡ [] }
    {
        CrateMaker {
            alloc,
            large: Listed::new(alloc),
            unread: Listed::new(alloc),
        }
    }

    // Notes a pattern that is refused for size.
    pub(crate) fn note_large_pattern(&mut self, text: &str, flags: u8) -> Result<(), AllocError>
        ensures ok { OnOk result (large_of self.new ≡ large_of self.old ++ Asked.Pattern (written text.now flags) ∷ []) }
        ensures err { OnErr result (large_of self.new ≡ large_of self.old) }
        ensures unread { unread_of self.new ≡ unread_of self.old }
    {
        let written = Written::of(self.alloc, text, flags)?;
        self.large.push(Asked::Pattern(written))
    }

    // Notes an address that is refused for size.
    pub(crate) fn note_large_address(&mut self, text: &str) -> Result<(), AllocError>
        ensures ok { OnOk result (large_of self.new ≡ large_of self.old ++ Asked.Address text.now ∷ []) }
        ensures err { OnErr result (large_of self.new ≡ large_of self.old) }
        ensures unread { unread_of self.new ≡ unread_of self.old }
    {
        let copy = Text::of(self.alloc, text)?;
        self.large.push(Asked::Address(copy))
    }

    // Notes a pattern that is refused as unreadable.
    fn note_unread(&mut self, text: &str, flags: u8) -> Result<(), AllocError>
        ensures ok { OnOk result (unread_of self.new ≡ unread_of self.old ++ written text.now flags ∷ []) }
        ensures err { OnErr result (unread_of self.new ≡ unread_of self.old) }
        ensures large { large_of self.new ≡ large_of self.old }
    {
        let written = Written::of(self.alloc, text, flags)?;
        self.unread.push(written)
    }
}

impl Maker for CrateMaker {
    ghost use Rattle.cos_patterns.specs.CrateMaker.{large_of, unread_of};

    ghost large = { large_of };

    ghost unread = { unread_of };

    // It counts no calls.
    ghost asks = { λ old asked new. Unit {0} };

    fn pattern(&mut self, text: &str, flags: u8) -> Result<Regex, MakeError> {
        match read_pattern(self.alloc, text, flags) {
            Ok(regex) => Ok(regex),
            Err(MakeError::Unreadable) => {
                self.note_unread(text, flags)?;
                Err(MakeError::Unreadable)
            }
            Err(MakeError::TooLarge) => {
                self.note_large_pattern(text, flags)?;
                Err(MakeError::TooLarge)
            }
            Err(MakeError::NoMemory) => Err(MakeError::NoMemory),
        }
    }

    fn address(&mut self, text: &str) -> Result<Url, MakeError> {
        match read_address(self.alloc, text) {
            Ok(url) => Ok(url),
            Err(MakeError::Unreadable) => Err(MakeError::Unreadable),
            Err(MakeError::TooLarge) => {
                self.note_large_address(text)?;
                Err(MakeError::TooLarge)
            }
            Err(MakeError::NoMemory) => Err(MakeError::NoMemory),
        }
    }
}
