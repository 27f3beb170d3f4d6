//! Patterns of `regex`, by their text and flags, and addresses of `url`.
//!
//! A `Maker` makes both of texts, and tells which it refused: `CrateMaker` asks the crates, and `ListedMaker` also
//! refuses where a test wants it. A `PatternTable` holds patterns by number and asks its maker for no text twice.
//! `specs/Found.antt` says when a pattern is found in a text, `Makers.antt` what an answer of a maker does to its lists,
//! `Tables.antt` when a table agrees with a maker, and `Notes.antt` what its index says of a pattern. `proofs/Numbers.antt`,
//! `Agreement.antt` and `Extensions.antt` have laws for callers.
#![tactic(auto)]

mod crate_maker;
mod entry;
mod errors;
mod listed_maker;
mod maker;
mod notes;
mod read;
mod searcher;
mod table;
mod written;

pub use cos_outside::Calls;
pub use crate_maker::CrateMaker;
pub use errors::{MakeError, PatternError};
pub use listed_maker::ListedMaker;
pub use maker::Maker;
pub use searcher::PatternSearcher;
pub use table::PatternTable;
pub use written::{Asked, Written};

#[cfg(test)]
mod tests {
    use super::*;
    use std::alloc::{AllocError, Global};
    use std::test::Fail;

    const IGNORES_CASE: u8 = 1;

    const MANY_LINES: u8 = 2;

    const DOT_TAKES_ALL: u8 = 4;

    // Whether a pattern that is put twice is found in a text.
    fn is_found(alloc: Global, pattern: &str, flags: u8, text: &str) -> Result<bool, Fail> {
        if 100 < pattern.len() || 7 < flags {
            return Err(Fail::from("not a row of the table"));
        }
        let mut maker = CrateMaker::new(alloc);
        let mut table = PatternTable::new(alloc);
        let number = table
            .put(&mut maker, pattern, flags)
            .map_err(|_| "not made")?;
        if table.put(&mut maker, pattern, flags) != Ok(number) {
            return Err(Fail::from("another number"));
        }
        Ok(PatternSearcher::new(&table).finds(number, text)?)
    }

    #[test]
    fn patterns_are_found(rt: HostRuntime) -> Result<(), Fail> {
        let alloc = rt.alloc();
        for (pattern, flags, text, want) in [
            ("ad", 0, "a loaded page", true),
            ("ad", 0, "a page", false),
            ("", 0, "", true),
            ("[0-9]+px", 0, "width: 12px", true),
            ("[0-9]+px", 0, "width: px", false),
            ("^[^a-c]$", 0, "d", true),
            ("^[^a-c]$", 0, "b", false),
            ("^b$", 0, "a\nb\nc", false),
            ("^b$", MANY_LINES, "a\nb\nc", true),
            ("a.b", 0, "a\nb", false),
            ("a.b", DOT_TAKES_ALL, "a\nb", true),
            ("AD", 0, "ad", false),
            ("AD", IGNORES_CASE, "ad", true),
            (
                "^A.b$",
                IGNORES_CASE + MANY_LINES + DOT_TAKES_ALL,
                "x\na\nB\ny",
                true,
            ),
            ("\u{e9}", IGNORES_CASE, "\u{c9}", true),
        ] {
            let found = is_found(alloc, pattern, flags, text)?;
            assert_eq!(rt; found, want, "{pattern:?} at {flags} in {text:?}");
        }
        Ok(())
    }

    #[test]
    fn patterns_are_refused(rt: HostRuntime) -> Result<(), Fail> {
        let alloc = rt.alloc();
        let mut maker = CrateMaker::new(alloc);
        let mut table = PatternTable::new(alloc);
        let bad = Err(PatternError::BadPattern);
        assert_eq!(rt; table.put(&mut maker, "a(b", 0), bad);
        assert_eq!(rt; table.put(&mut maker, "a(b", 0), bad);
        let too_large = Err(PatternError::PatternTooLarge);
        assert_eq!(rt; table.put(&mut maker, "\\w{5000}", 0), too_large);
        assert_eq!(rt; table.put(&mut maker, "\\w{5000}", 0), too_large);
        // The flags are part of what is refused.
        assert_eq!(rt; table.put(&mut maker, "a(b", IGNORES_CASE), bad);
        assert_eq!(rt; table.put(&mut maker, "ab", 0), Ok(0));
        Ok(())
    }

    #[test]
    fn many_patterns_are_put(rt: HostRuntime) -> Result<(), Fail> {
        let alloc = rt.alloc();
        let mut maker = CrateMaker::new(alloc);
        let mut table = PatternTable::new(alloc);
        for turn in 0..600u32 {
            // Each text is put under two sums of flags, and all of them twice.
            let want = turn % 300;
            let text = format!(in alloc; "x{}", want / 2)?;
            if 100 < text.len() {
                return Err(Fail::from("not a row of the table"));
            }
            let number = table.put(&mut maker, text.as_str(), (turn % 2) as u8);
            assert_eq!(rt; number, Ok(want), "{turn}");
        }
        Ok(())
    }

    #[test]
    fn a_refusal_is_asked_for_once(rt: HostRuntime) -> Result<(), Fail> {
        let alloc = rt.alloc();
        let mut calls = Calls::new(alloc);
        calls.push(1)?;
        calls.push(3)?;
        let mut maker = ListedMaker::new(alloc, calls);
        let mut table = PatternTable::new(alloc);
        let too_large = Err(PatternError::PatternTooLarge);
        assert_eq!(rt; table.put(&mut maker, "a", 0), too_large);
        assert_eq!(rt; table.put(&mut maker, "a", 0), too_large);
        // One call was made: the next one is the second, and isn't listed, and the one behind it is.
        assert_eq!(rt; table.put(&mut maker, "b", 0), Ok(0));
        let address = maker.address("https://example.com/").err();
        assert_eq!(rt; address, Some(MakeError::TooLarge));
        Ok(())
    }

    #[test]
    fn addresses_are_read(rt: HostRuntime) -> Result<(), Fail> {
        let alloc = rt.alloc();
        let mut maker = CrateMaker::new(alloc);
        let address = maker
            .address("https://example.com/a?b")
            .map_err(|_| "not read")?;
        assert_eq!(rt; address.path(), "/a");
        let none = maker.address("example.com").err();
        assert_eq!(rt; none, Some(MakeError::Unreadable));
        Ok(())
    }
}
