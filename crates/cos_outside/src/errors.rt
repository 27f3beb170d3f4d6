// What may go wrong outside.
ghost use Rattle.std.specs.Prelude.{◌≡◌};
ghost use Rattle.cos_outside.specs.declared.errors.ReadError.TheVariants.{Fault, NoMemory};

use std::alloc::AllocError;
use thiserror::Error;

/// A call of a shelf or a sink failed. Its count of faults rose with it.
#[derive(Clone, Copy, Debug, PartialEq, Eq, Error)]
#[error("the call failed")]
pub struct Failed;

/// Why a file wasn't read whole.
#[derive(Clone, Copy, Debug, PartialEq, Eq, Error)]
pub enum ReadError {
    /// A call of the shelf failed.
    #[error("the file can't be read")]
    Fault,
    /// The file has more bytes than the limit.
    #[error("the file is too long")]
    TooLong,
    /// There was no memory for its bytes.
    #[error("out of memory")]
    NoMemory,
}

impl From<Failed> for ReadError {
    ghost from_gives = { λ _ error. error ≡ Fault };

    fn from(_: Failed) -> Self {
        ReadError::Fault
    }
}

impl From<AllocError> for ReadError {
    ghost from_gives = { λ _ error. error ≡ NoMemory };

    fn from(_: AllocError) -> Self {
        ReadError::NoMemory
    }
}
