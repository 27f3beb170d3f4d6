ghost use Rattle.std.specs.Prelude.{◌≡◌, IfOk};
ghost use Rattle.cos_patterns.specs.Written.{written};

use listed::Text;
use std::alloc::{AllocError, Global};

/// A pattern as it is written: its text and its flags, a sum of 1 for `i`, 2 for `m` and 4 for `s`.
#[derive(Debug, Drop)]
pub struct Written {
    pub body: Text,
    pub flags: u8,
}

/// What a maker is asked for.
#[derive(Debug, Drop)]
pub enum Asked {
    /// A pattern, with its flags.
    Pattern(Written),
    /// An address.
    Address(Text),
}

impl Written {
    /// The pattern of this text and these flags.
    pub fn of(alloc: Global, body: &str, flags: u8) -> Result<Written, AllocError>
        ensures { IfOk result (λ copy. copy ≡ written body.now flags) }
    {
        Ok(Written {
            body: Text::of(alloc, body)?,
            flags,
        })
    }
}
