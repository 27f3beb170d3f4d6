// What the grammar of `regex` and the parser of `url` read in a text.
ghost use Rattle.std.specs.Prelude.{◌≡◌, ◌<◌, IfOk, IsErrOf};
ghost use Rattle.cos_patterns.specs.Found.{IsPatternOf, IsUnreadable};
ghost use Rattle.cos_patterns.specs.Makers.{IsAddressOf, IsNoAddress};

use crate::MakeError;
use regex::{Error, Regex, RegexBuilder};
use std::alloc::Global;
use url::{ParseError, Url};

// The pattern that the grammar reads in the text under the flags.
pub(crate) fn read_pattern(alloc: Global, text: &str, flags: u8) -> Result<Regex, MakeError>
    requires { flags < 8 }
    ensures ok { IfOk result (IsPatternOf text.now flags) }
    ensures unreadable { IsErrOf result MakeError.Unreadable → IsUnreadable text.now flags }
{
    let made = RegexBuilder::new(text)
        .case_insensitive(flags % 2 == 1)
        .multi_line(flags / 2 % 2 == 1)
        .dot_matches_new_line(flags / 4 % 2 == 1)
        .build(alloc);
    match made {
        Ok(regex) => Ok(regex),
        Err(error) => match error {
            Error::Syntax(_) => Err(MakeError::Unreadable),
            Error::CompiledTooBig => Err(MakeError::TooLarge),
            Error::OutOfMemory => Err(MakeError::NoMemory),
            Error::Internal => unreachable!(),
        },
    }
}

// The address that the parser reads in the text.
pub(crate) fn read_address(alloc: Global, text: &str) -> Result<Url, MakeError>
    ensures ok { IfOk result (IsAddressOf text.now) }
    ensures unreadable { IsErrOf result MakeError.Unreadable → IsNoAddress text.now }
{
    match Url::parse(alloc, text) {
        Ok(url) => Ok(url),
        Err(ParseError::Overflow) => Err(MakeError::TooLarge),
        Err(ParseError::OutOfMemory) => Err(MakeError::NoMemory),
        Err(_) => Err(MakeError::Unreadable),
    }
}
