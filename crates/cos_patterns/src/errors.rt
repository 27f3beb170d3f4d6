// Why a pattern or an address isn't made.
ghost use Rattle.std.specs.Prelude.{◌≡◌};
ghost use Rattle.cos_patterns.specs.declared.errors.MakeError.TheVariants as make;
ghost use Rattle.cos_patterns.specs.declared.errors.PatternError.TheVariants as pattern;

use std::alloc::AllocError;
use thiserror::Error;

/// Why a maker makes nothing of a text.
#[derive(Clone, Copy, Debug, PartialEq, Eq, Error)]
pub enum MakeError {
    /// The grammar reads nothing in the text, or it nests too deep.
    #[error("the text can't be read")]
    Unreadable,
    /// What the text stands for is too large.
    #[error("the text is too large")]
    TooLarge,
    /// There was no memory.
    #[error("out of memory")]
    NoMemory,
}

/// Why a table has no number for a pattern.
#[derive(Clone, Copy, Debug, PartialEq, Eq, Error)]
pub enum PatternError {
    /// The maker can't read the pattern.
    #[error("bad pattern")]
    BadPattern,
    /// The maker finds the pattern too large.
    #[error("pattern too large")]
    PatternTooLarge,
    /// There was no memory.
    #[error("out of memory")]
    NoMemory,
}

impl From<AllocError> for MakeError {
    ghost from_gives = { λ _ error. error ≡ make.NoMemory };

    fn from(_: AllocError) -> Self {
        MakeError::NoMemory
    }
}

impl From<AllocError> for PatternError {
    ghost from_gives = { λ _ error. error ≡ pattern.NoMemory };

    fn from(_: AllocError) -> Self {
        PatternError::NoMemory
    }
}
