ghost use Rattle.std.specs.Prelude.{◌≡◌, IfOk};
ghost use Rattle.cos_patterns.specs.Found.{IsMatcherOf, IsPatternOf};
ghost use Rattle.cos_patterns.specs.Written.{is_same};

use crate::Written;
use regex::{Matcher, Regex};
use std::alloc::{AllocError, Global};
use std::marker::Model;

// A pattern that was made, seen as it was written.
#[derive(Drop)]
pub(crate) struct Entry {
    written: Written,
    regex: Regex,
}

impl Model for Entry {
    ghost use Rattle.cos_patterns.specs.declared.written.Written.{Written};
    ghost use Rattle.cos_patterns.specs.Found.{IsPatternOf};

    ghost Value = { Written };

    ghost view = { λ entry. entry.written };

    ghost invariant = { λ entry. IsPatternOf entry.written.body entry.written.flags entry.regex };
}

impl Entry {
    // The pattern with what it was made of.
    pub fn new(written: Written, regex: Regex) -> Entry
        requires { IsPatternOf written.body written.flags regex }
        ensures { result ≡ written }
    {
        Entry { written, regex }
    }

    // Memory to search for it in.
    pub fn matcher(&self, alloc: Global) -> Result<Matcher<'_>, AllocError>
        ensures { IfOk result (IsMatcherOf self.now.body self.now.flags) }
    {
        self.regex.matcher(alloc)
    }

    // Whether another one is written in the same way.
    pub fn is_same(&self, other: &Entry) -> bool
        ensures { result ≡ is_same self.now other.now }
    {
        self.written.body.as_str() == other.written.body.as_str()
            && self.written.flags == other.written.flags
    }
}
