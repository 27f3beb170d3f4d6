ghost use Rattle.std.specs.Prelude.{◌≡◌};
ghost use Rattle.selector_lexer.specs.declared.stop.Stop.TheVariants as stop;

use selector_spelling::{Cause, Finding};
use std::alloc::AllocError;

/// Why a reader stops.
#[derive(Clone, Copy)]
pub enum Stop {
    /// There was no memory.
    NoMemory,
    /// It found this.
    Found(Finding),
}

impl From<AllocError> for Stop {
    ghost from_gives = { λ _ error. error ≡ stop.NoMemory };

    fn from(_: AllocError) -> Stop {
        Stop::NoMemory
    }
}

/// A stop at a malformed place.
pub fn bad(cause: Cause, at: usize) -> Stop
    ensures { result ≡ stop.Found (Finding.Malformed cause at) }
{
    Stop::Found(Finding::Malformed(cause, at))
}
